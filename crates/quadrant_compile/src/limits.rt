// The limits of quadrants.
ghost use Rattle.std.specs.Prelude.{◌≡◌};
ghost use Rattle.quadrant_compile.specs.declared.limits.TheConstants.{MOST_SYMBOLS, LONGEST_SIDE};

/// Symbols of a quadrant.
pub const MOST_SYMBOLS: u32 = 64;

/// Columns of a quadrant, and rows, beside its borders.
pub const LONGEST_SIDE: u32 = 1023;

/// The limits of quadrants, as numbers.
pub fn law_limits()
    ensures symbols { MOST_SYMBOLS ≡ 64 }
    ensures side { LONGEST_SIDE ≡ 1023 }
{}
