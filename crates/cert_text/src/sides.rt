// The words of sets of sides.
ghost use Rattle.std.specs.Prelude.{◌≡◌, ◌<◌, ◌≤◌, [], ◌∷◌, ◌++◌, take, position, bytes_eq, ok_or, IfOk};
ghost use Rattle.std.specs.List.{slice_index_or};
ghost use Rattle.cert_text.specs.CertificateLines.{side_words, side_letter};

use tile_io::Cause;
use tile_system::Side;

/// The sides that a word states, as bits.
pub(crate) fn read_sides(word: &[u8]) -> Result<u8, Cause>
    ensures value { result ≡ ok_or (position (bytes_eq word.now) side_words) Cause.BadName }
    ensures small { IfOk result (λ sides. sides < 16) }
{
    match word {
        b"-" => Ok(0),
        b"N" => Ok(1),
        b"E" => Ok(2),
        b"NE" => Ok(3),
        b"S" => Ok(4),
        b"NS" => Ok(5),
        b"ES" => Ok(6),
        b"NES" => Ok(7),
        b"W" => Ok(8),
        b"NW" => Ok(9),
        b"EW" => Ok(10),
        b"NEW" => Ok(11),
        b"SW" => Ok(12),
        b"NSW" => Ok(13),
        b"ESW" => Ok(14),
        b"NESW" => Ok(15),
        _ => Err(Cause::BadName),
    }
}

/// The word of a set of sides and the space behind it, at the front of a text, and how many bytes
/// both have.
pub(crate) fn sides_text(sides: u8) -> (&'static [u8; 8], usize)
    requires { sides < 16 }
    ensures text { take result.1 result.0.now ≡ slice_index_or side_words sides [] ++ 32 ∷ [] }
    ensures short { result.1 ≤ 5 }
{
    match sides {
        0 => (b"-       ", 2),
        1 => (b"N       ", 2),
        2 => (b"E       ", 2),
        3 => (b"NE      ", 3),
        4 => (b"S       ", 2),
        5 => (b"NS      ", 3),
        6 => (b"ES      ", 3),
        7 => (b"NES     ", 4),
        8 => (b"W       ", 2),
        9 => (b"NW      ", 3),
        10 => (b"EW      ", 3),
        11 => (b"NEW     ", 4),
        12 => (b"SW      ", 3),
        13 => (b"NSW     ", 4),
        14 => (b"ESW     ", 4),
        _ => (b"NESW    ", 5),
    }
}

/// The letter of a side.
pub(crate) fn side_letter(side: Side) -> &'static [u8]
    ensures { result.now ≡ side_letter side }
{
    match side {
        Side::North => b"N",
        Side::East => b"E",
        Side::South => b"S",
        Side::West => b"W",
    }
}
