// The limits of machines.

/// States of a machine.
pub const MOST_STATES: u32 = 64;

/// Symbols of a machine.
pub const MOST_SYMBOLS: u32 = 64;

/// The bytes of the name of a state or a symbol.
pub const LONGEST_SHORT_NAME: usize = 8;

/// Cells of a machine.
pub const MOST_CELLS: u32 = 512;

/// Rows of a machine's box.
pub const MOST_ROWS: u32 = 1024;
