// The kinds of a counter's tiles.
ghost use Rattle.std.specs.Prelude.{◌≡◌, ◌≤◌, ◌+◌, ◌++◌, length, decimal};
ghost use Rattle.tile_table.specs.declared.short_text.TheConstants.{SHORT_ROOM};
ghost use Rattle.counter_compile.specs.Tiles.{digit};
ghost use Rattle.counter_compile.specs.Inner.Rows.{kind_name};

use tile_table::ShortText;

/// A kind of tile, by its row, its column and the bits that it takes.
#[derive(Clone, Copy, Debug, PartialEq, Eq)]
pub enum Kind {
    /// In the first row, in this column.
    First(u32),
    /// In a row that adds 1, at the east end: the bit below it.
    AddEast(bool),
    /// Between the ends: the bit below it, and the carry from the east.
    AddMiddle(bool, bool),
    /// At the west end: likewise.
    AddWest(bool, bool),
    /// In a row that copies, at the west end: the bit below it.
    CopyWest(bool),
    /// Between the ends.
    CopyMiddle(bool),
    /// At the east end.
    CopyEast(bool),
}

/// The kinds but those of the first row, in their order.
pub const LATER_KINDS: [Kind; 16] = [
    Kind::AddEast(false),
    Kind::AddEast(true),
    Kind::AddMiddle(false, false),
    Kind::AddMiddle(false, true),
    Kind::AddMiddle(true, false),
    Kind::AddMiddle(true, true),
    Kind::AddWest(false, false),
    Kind::AddWest(false, true),
    Kind::AddWest(true, false),
    Kind::AddWest(true, true),
    Kind::CopyWest(false),
    Kind::CopyWest(true),
    Kind::CopyMiddle(false),
    Kind::CopyMiddle(true),
    Kind::CopyEast(false),
    Kind::CopyEast(true),
];

impl Kind {
    /// Adds the name, which is the same in each counter, to a text.
    pub fn add_name(self, text: &mut ShortText)
        requires { length text.old + length (kind_name 0 self) ≤ SHORT_ROOM }
        ensures { text.new ≡ text.old ++ kind_name 0 self }
    {
        match self {
            Kind::First(column) => {
                text.add(b"t:");
                text.add_number(column);
            }
            Kind::AddEast(bit) => add_with_bit(text, b"ie:", bit),
            Kind::AddMiddle(bit, carry) => add_with_bits(text, b"im:", bit, carry),
            Kind::AddWest(bit, carry) => add_with_bits(text, b"iw:", bit, carry),
            Kind::CopyWest(bit) => add_with_bit(text, b"cw:", bit),
            Kind::CopyMiddle(bit) => add_with_bit(text, b"cm:", bit),
            Kind::CopyEast(bit) => add_with_bit(text, b"ce:", bit),
        }
    }
}

/// Adds a piece and the digit of a bit.
pub fn add_with_bit(text: &mut ShortText, piece: &[u8], bit: bool)
    requires { length text.old + (length piece.now + length (decimal (digit bit))) ≤ SHORT_ROOM }
    ensures { text.new ≡ text.old ++ (piece.now ++ decimal (digit bit)) }
{
    text.add(piece);
    text.add_number(u32::from(digit(bit)));
}

// Adds a piece and the digits of two bits.
fn add_with_bits(text: &mut ShortText, piece: &[u8], bit: bool, carry: bool)
    requires { length text.old + (length piece.now + length (decimal (digit bit)) + length (decimal (digit carry)))
        ≤ SHORT_ROOM }
    ensures { text.new ≡ text.old ++ (piece.now ++ decimal (digit bit) ++ decimal (digit carry)) }
{
    add_with_bit(text, piece, bit);
    text.add_number(u32::from(digit(carry)));
}

/// 1 for true, 0 for false.
pub fn digit(bit: bool) -> u8
    ensures { result ≡ digit bit }
{
    match bit {
        true => 1,
        false => 0,
    }
}
