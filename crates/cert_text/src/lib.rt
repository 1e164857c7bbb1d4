//! Certificates as text, and the line of the verdict on one.
#![tactic(auto)]

mod keyword;
mod laws;
mod plain;
mod printing;
mod rank_text;
mod reader;
mod sides;
mod verdict;

pub use laws::law_certificate_reads_printed;
pub use printing::{print_certificate, print_entries};
pub use reader::{read_certificate, read_certificate_in_blocks};
pub use verdict::print_cert_verdict;
