// Certificates: worked rows, each check that fails, who comes to the gate, and the calls of the
// library by which a certificate is a list.
mod gates;
mod lists;
mod rows;

/// The certificate of the chain's three tiles.
pub(crate) const CHAIN_MARKS: &str = "mark 0 0 S - 0\nmark 1 0 B W 1\nmark 2 0 C W 2\n";
