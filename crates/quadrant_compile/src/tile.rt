// What the tile types and the glues of a quadrant are made of.

/// A kind of tile, by which a type is named.
#[derive(Clone, Copy, Debug, PartialEq, Eq)]
pub enum Kind {
    /// `o`, where the borders meet.
    Corner,
    /// `b:i`, the tile of a column in the bottom border.
    Bottom { column: u32 },
    /// `a:j`, the tile of a row in the left border.
    Left { row: u32 },
    /// `q:A:B`, a cell that gets these symbols.
    Cell { west: u32, south: u32 },
}

/// A label on a side of a tile, by which a glue is named.
#[derive(Clone, Copy, Debug, PartialEq, Eq)]
pub enum Label {
    /// `h:A`, a symbol on its way to the east.
    Eastward { symbol: u32 },
    /// `v:A`, a symbol on its way to the north.
    Northward { symbol: u32 },
    /// `b:i`, between the tile of a column in the bottom border and the one before it.
    Column { column: u32 },
    /// `a:j`, between the tile of a row in the left border and the one below it.
    Row { row: u32 },
}
