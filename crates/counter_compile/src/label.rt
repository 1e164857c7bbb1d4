// The labels on a counter's tiles.
ghost use Rattle.std.specs.Prelude.{◌≡◌, ◌≤◌, ◌+◌, ◌++◌, length};
ghost use Rattle.tile_table.specs.declared.short_text.TheConstants.{SHORT_ROOM};
ghost use Rattle.counter_compile.specs.Inner.Rows.{label_name, strength};

use crate::kind::{add_with_bit, digit};
use tile_table::ShortText;

/// A label, by where it is and the bit that it stands for.
#[derive(Clone, Copy, Debug, PartialEq, Eq)]
pub enum Label {
    /// A bit that is shown upwards at the west end, to a row that adds.
    BitWest(bool),
    /// Between the ends, to any row.
    Bit(bool),
    /// At the east end, to a row that adds.
    BitEast(bool),
    /// At the east end, to a row that copies.
    SumEast(bool),
    /// What a row that adds carries to the west.
    Carry(bool),
    /// A bit that is shown upwards at the west end, to a row that copies.
    SumWest(bool),
    /// What a row that copies shows to the east.
    GoAhead,
    /// Between a column of the first row, with this number, and the one west of it.
    Chain(u32),
}

/// The labels but those of the first row, in their order.
pub const FIXED_LABELS: [Label; 13] = [
    Label::BitWest(false),
    Label::BitWest(true),
    Label::Bit(false),
    Label::Bit(true),
    Label::BitEast(false),
    Label::BitEast(true),
    Label::SumEast(false),
    Label::SumEast(true),
    Label::Carry(false),
    Label::Carry(true),
    Label::SumWest(false),
    Label::SumWest(true),
    Label::GoAhead,
];

impl Label {
    pub fn strength(self) -> u32
        ensures { result ≡ strength self }
    {
        match self {
            Label::BitEast(_) | Label::SumWest(_) | Label::Chain(_) => 2,
            _ => 1,
        }
    }

    /// Adds the name to a text.
    pub fn add_name(self, text: &mut ShortText)
        requires { length text.old + length (label_name self) ≤ SHORT_ROOM }
        ensures { text.new ≡ text.old ++ label_name self }
    {
        match self {
            Label::BitWest(bit) => add_with_bit(text, b"w", bit),
            Label::Bit(bit) => add_with_bit(text, b"v", bit),
            Label::BitEast(bit) => add_with_bit(text, b"e", bit),
            Label::SumEast(bit) => add_with_bit(text, b"x", bit),
            Label::Carry(bit) => add_with_bit(text, b"c", bit),
            Label::SumWest(bit) => add_with_bit(text, b"t", bit),
            Label::GoAhead => text.add(b"k"),
            Label::Chain(column) => {
                text.add(b"p:");
                text.add_number(column);
            }
        }
    }
}
