// What a machine does.

/// Where the head goes after it has written: to the cell before, to the cell behind, or nowhere.
#[derive(Clone, Copy, Debug, PartialEq, Eq)]
pub enum Turn {
    Left,
    Right,
    Stay,
}

/// What a machine does in a state at a symbol: the state that it goes to, the symbol that it
/// writes, and where its head goes. States and symbols are numbered from 0 in the order in which
/// they are declared.
#[derive(Clone, Copy, Debug, PartialEq, Eq)]
pub struct Rule {
    pub state: u32,
    pub symbol: u32,
    pub turn: Turn,
}

/// A rule, and the state and the symbol that it is for.
#[derive(Clone, Copy, Debug, PartialEq, Eq)]
pub struct Transition {
    pub state: u32,
    pub symbol: u32,
    pub rule: Rule,
}
