// What the tile types and the glues of a machine are made of.

/// A kind of tile, by which a type is named.
#[derive(Clone, Copy, Debug, PartialEq, Eq)]
pub enum Kind {
    /// `t:i`, the tile of a cell in the first row.
    First { cell: u32 },
    /// `a:Q:A`, over the head, which acts by the rule of this state and this symbol.
    Action { state: u32, symbol: u32 },
    /// `R:Q:A`, where the head comes from the left.
    FromLeft { state: u32, symbol: u32 },
    /// `L:Q:A`, where the head comes from the right.
    FromRight { state: u32, symbol: u32 },
    /// `r:A`, to the right of the head.
    RightOf { symbol: u32 },
    /// `l:A`, to the left of the head.
    LeftOf { symbol: u32 },
}

/// A label on a side of a tile, by which a glue is named.
#[derive(Clone, Copy, Debug, PartialEq, Eq)]
pub enum Label {
    /// `s:A`, a cell with this symbol.
    Symbol { symbol: u32 },
    /// `h:Q:A`, a cell with this symbol and the head in this state, where the pair has a rule.
    Acting { state: u32, symbol: u32 },
    /// `r`, away from the head to the right.
    Rightward,
    /// `l`, away from the head to the left.
    Leftward,
    /// `R:Q`, the head in this state on its way to the right.
    HeadRightward { state: u32 },
    /// `L:Q`, the head in this state on its way to the left.
    HeadLeftward { state: u32 },
    /// `c:i`, between a cell of the first row and the one to its left.
    Joint { cell: u32 },
}

/// What a tile shows: the symbol of its cell, and the state where the head is there.
#[derive(Clone, Copy, Debug, PartialEq, Eq)]
pub struct Shown {
    pub symbol: u32,
    pub state: Option<u32>,
}
