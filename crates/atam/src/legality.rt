// The answer to the question whether a sequence is legal.

/// Whether a sequence is legal, and else what breaks legality first.
/// An index is that of a place, from 0; it is at least the number of seeds.
#[derive(Debug, Clone, Copy, PartialEq, Eq)]
pub enum Legality {
    Legal,
    WrongSeed,
    SiteTaken { index: u32 },
    TooWeak { index: u32, pull: u32 },
}
