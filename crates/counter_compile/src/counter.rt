// The table of a counter.
ghost use Rattle.std.specs.Prelude.{ℕ, ◌≡◌, ◌==◌, ◌-◌, ◌<◌, ◌^◌, ◌++◌, ◌&&◌, if◌then◌else◌, Some, None, IfOk, map};
ghost use Rattle.std.specs.Bool.{xor};
ghost use Rattle.std.specs.Int.{bit_at};
ghost use Rattle.std.specs.List.{range_with_len};
ghost use Rattle.design.specs.Sides.{label_ahead, label_behind};
ghost use Rattle.counter_compile.specs.Tiles.{kinds_of, labels_of, shown_bit, tiles_of};

use crate::kind::{Kind, LATER_KINDS};
use crate::label::{FIXED_LABELS, Label};
use atam::Side;
use std::alloc::Global;
use tile_system::NoMemory;
use tile_table::{ShortText, Table};

/// A counter with the columns 0 to `last`, from the number `start` on.
#[derive(Clone, Copy, Debug)]
pub struct Counter {
    pub last: u32,
    pub start: u64,
}

impl Table<Kind, Label> for Counter {
    ghost use Rattle.counter_compile.specs.Tiles.{tiles_of};

    ghost tiles = { λ c. tiles_of c.last c.start };

    fn side(&self, kind: Kind, side: Side) -> Option<Label> {
        self.label_on(kind, side)
    }

    fn strength(&self, label: Label) -> u32 {
        label.strength()
    }

    #[tactic(auto, using(crate::proofs::Listed::one_name))]
    fn add_kind_name(&self, text: &mut ShortText, kind: Kind) {
        kind.add_name(text)
    }

    fn add_label_name(&self, text: &mut ShortText, label: Label) {
        label.add_name(text)
    }
}

impl Counter {
    /// The kinds in their order.
    pub fn kinds(&self, alloc: Global) -> Result<Vec<Kind>, NoMemory>
        requires { self.now.last < 32 }
        ensures { IfOk result (λ kinds. kinds.items ≡ kinds_of self.now.last) }
    {
        let mut kinds = Vec::new(alloc);
        for column in 0..self.last + 1 {
            kinds.push(Kind::First(column))?;
        }
        kinds.extend_from_slice(&LATER_KINDS)?;
        Ok(kinds)
    }

    /// The labels in their order.
    pub fn labels(&self, alloc: Global) -> Result<Vec<Label>, NoMemory>
        requires { self.now.last < 32 }
        ensures { IfOk result (λ labels. labels.items ≡ labels_of self.now.last) }
    {
        let mut labels = Vec::from_slice(alloc, &FIXED_LABELS)?;
        for column in 0..self.last {
            labels.push(Label::Chain(column + 1))?;
        }
        Ok(labels)
    }

    /// The bit that a tile shows.
    #[tactic(auto, using(crate::proofs::Bits::xor_is))]
    pub fn shown_bit(&self, kind: Kind) -> bool
        ensures { result ≡ shown_bit self.now.last self.now.start kind }
    {
        match kind {
            Kind::First(column) => self.start_bit(column),
            Kind::AddEast(bit) => !bit,
            Kind::AddMiddle(bit, carry) | Kind::AddWest(bit, carry) => bit ^ carry,
            Kind::CopyWest(bit) | Kind::CopyMiddle(bit) | Kind::CopyEast(bit) => bit,
        }
    }

    // The bit of the start in a column.
    fn start_bit(&self, column: u32) -> bool
        ensures { result ≡ (bit_at self.now.start (self.now.last - column) == 1) }
    {
        has_bit(self.start, self.last.saturating_sub(column))
    }

    // The label on a side of a kind.
    fn label_on(&self, kind: Kind, side: Side) -> Option<Label>
        ensures { result ≡ (tiles_of self.now.last self.now.start).side kind side }
    {
        match side {
            Side::North => self.north(kind),
            Side::East => self.east(kind),
            Side::South => south(kind),
            Side::West => west(kind),
        }
    }

    #[tactic(auto, using(crate::proofs::Bits::xor_is))]
    fn north(&self, kind: Kind) -> Option<Label>
        ensures { result ≡ (tiles_of self.now.last self.now.start).side kind Side.North }
    {
        match kind {
            Kind::First(column) => Some(self.first_north(column)),
            Kind::AddEast(bit) => Some(Label::SumEast(!bit)),
            Kind::AddMiddle(bit, carry) => Some(Label::Bit(bit ^ carry)),
            Kind::AddWest(bit, carry) => sum_west(bit, carry),
            Kind::CopyWest(bit) => Some(Label::BitWest(bit)),
            Kind::CopyMiddle(bit) => Some(Label::Bit(bit)),
            Kind::CopyEast(bit) => Some(Label::BitEast(bit)),
        }
    }

    fn east(&self, kind: Kind) -> Option<Label>
        ensures { result ≡ (tiles_of self.now.last self.now.start).side kind Side.East }
    {
        match kind {
            Kind::First(column) => self.chain_east(column),
            Kind::AddMiddle(_, carry) | Kind::AddWest(_, carry) => Some(Label::Carry(carry)),
            Kind::CopyWest(_) | Kind::CopyMiddle(_) => Some(Label::GoAhead),
            Kind::AddEast(_) | Kind::CopyEast(_) => None,
        }
    }

    // What the tile of a column shows upwards in the first row.
    fn first_north(&self, column: u32) -> Label
        ensures { Some result
            ≡ (tiles_of self.now.last self.now.start).side (Kind.First column) Side.North }
    {
        let bit = self.start_bit(column);
        if column == 0 {
            Label::BitWest(bit)
        } else if column == self.last {
            Label::BitEast(bit)
        } else {
            Label::Bit(bit)
        }
    }

    // What joins the tile of a column to the next one in the first row.
    fn chain_east(&self, column: u32) -> Option<Label>
        ensures { result ≡ label_ahead Label.Chain self.now.last column }
    {
        if column < self.last {
            Some(Label::Chain(column + 1))
        } else {
            None
        }
    }
}

fn south(kind: Kind) -> Option<Label>
    ensures { (last start : ℕ) → result ≡ (tiles_of last start).side kind Side.South }
{
    match kind {
        Kind::First(_) => None,
        Kind::AddEast(bit) => Some(Label::BitEast(bit)),
        Kind::AddWest(bit, _) => Some(Label::BitWest(bit)),
        Kind::AddMiddle(bit, _) | Kind::CopyMiddle(bit) => Some(Label::Bit(bit)),
        Kind::CopyWest(bit) => Some(Label::SumWest(bit)),
        Kind::CopyEast(bit) => Some(Label::SumEast(bit)),
    }
}

fn west(kind: Kind) -> Option<Label>
    ensures { (last start : ℕ) → result ≡ (tiles_of last start).side kind Side.West }
{
    match kind {
        Kind::First(column) => chain_west(column),
        Kind::AddEast(bit) => Some(Label::Carry(bit)),
        Kind::AddMiddle(bit, carry) => Some(Label::Carry(bit && carry)),
        Kind::CopyMiddle(_) | Kind::CopyEast(_) => Some(Label::GoAhead),
        Kind::AddWest(_, _) | Kind::CopyWest(_) => None,
    }
}

// What joins the tile of a column to the one before it in the first row.
fn chain_west(column: u32) -> Option<Label>
    ensures { result ≡ label_behind Label.Chain column }
{
    if column == 0 {
        None
    } else {
        Some(Label::Chain(column))
    }
}

// What a row that adds shows upwards at the west end: nothing where the numbers end.
#[tactic(auto, using(crate::proofs::Bits::xor_is))]
fn sum_west(bit: bool, carry: bool) -> Option<Label>
    ensures { result ≡ (if bit && carry then None else Some (Label.SumWest (xor bit carry))) }
{
    if bit && carry {
        None
    } else {
        Some(Label::SumWest(bit ^ carry))
    }
}

/// Whether the bit of weight 2^position is 1.
fn has_bit(number: u64, position: u32) -> bool
    ensures { result ≡ (bit_at number position == 1) }
{
    position < 64 && (number >> position) % 2 == 1
}
