// What a rule says.

/// The symbols that a cell gives to the east and to the north. Symbols are numbered from 0 in the
/// order in which they are declared.
#[derive(Clone, Copy, Debug, PartialEq, Eq)]
pub struct Answer {
    pub east: u32,
    pub north: u32,
}

/// What a cell gives for the symbols that come from the west and from the south.
#[derive(Clone, Copy, Debug, PartialEq, Eq)]
pub struct Rule {
    pub west: u32,
    pub south: u32,
    pub answer: Answer,
}
