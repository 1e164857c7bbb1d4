// The limits of texts.
ghost use Rattle.std.specs.Prelude.{◌≡◌, neg_ℤ, pos};
ghost use Rattle.tile_io.specs.declared.limits.TheConstants.{MOST_INPUT, LONGEST_LINE, LEAST_COORDINATE, GREATEST_COORDINATE};
ghost use Rattle.tile_io.specs.declared.blocks.TheConstants.{BLOCK};
ghost use Rattle.tile_io.specs.declared.chunk.TheConstants.{CHUNK_ROOM};

/// The most bytes that an input may have.
pub const MOST_INPUT: usize = 67_108_864;

/// The most bytes that a line may have, its newline not among them.
pub const LONGEST_LINE: usize = 256;

/// Where the coordinates of sites begin and end.
pub const LEAST_COORDINATE: i64 = -1_000_000;

pub const GREATEST_COORDINATE: i64 = 1_000_000;

/// The limits of texts, and how many bytes are read or held back at a time, as numbers.
pub fn law_limits()
    ensures input { MOST_INPUT ≡ 67108864 }
    ensures line { LONGEST_LINE ≡ 256 }
    ensures least_coordinate { LEAST_COORDINATE ≡ neg_ℤ (pos 1000000) }
    ensures greatest_coordinate { GREATEST_COORDINATE ≡ pos 1000000 }
    ensures block { BLOCK ≡ 1048576 }
    ensures chunk_room { CHUNK_ROOM ≡ 65536 }
{}
