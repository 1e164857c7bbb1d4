// The names of kinds and labels.
ghost use Rattle.std.specs.Prelude.{◌≡◌, ◌≤◌, ◌<◌, ◌+◌, [], ◌∷◌, ◌++◌, codes, decimal, length};
ghost use Rattle.std.specs.List.{slice_index_or};
ghost use Rattle.quadrant_compile.specs.Inner.Listed.{kind_name, label_name};
ghost use Rattle.quadrant_compile.specs.Inner.Members.{IsKind, IsLabel};
ghost use Rattle.quadrant_compile.specs.Quadrants.{IsQuadrant};
ghost use Rattle.tile_table.specs.declared.short_text.TheConstants.{SHORT_ROOM};

use crate::quadrant::Quadrant;
use crate::tile::{Kind, Label};
use tile_table::ShortText;

/// Adds the name of a kind to a text.
pub(crate) fn add_kind_name(text: &mut ShortText, quadrant: &Quadrant, kind: Kind)
    requires valid { IsQuadrant quadrant.now }
    requires kind { IsKind quadrant.now kind }
    requires room { length text.old + length (kind_name quadrant.now kind) ≤ SHORT_ROOM }
    ensures { text.new ≡ text.old ++ kind_name quadrant.now kind }
{
    match kind {
        Kind::Corner => text.add(b"o"),
        Kind::Bottom { column } => add_numbered(text, b'b', column),
        Kind::Left { row } => add_numbered(text, b'a', row),
        Kind::Cell { west, south } => add_paired(text, quadrant, west, south),
    }
}

/// Adds the name of a label to a text.
pub(crate) fn add_label_name(text: &mut ShortText, quadrant: &Quadrant, label: Label)
    requires label { IsLabel quadrant.now label }
    requires room { length text.old + length (label_name quadrant.now label) ≤ SHORT_ROOM }
    ensures { text.new ≡ text.old ++ label_name quadrant.now label }
{
    match label {
        Label::Eastward { symbol } => add_prefixed(text, b'h', symbol_name(quadrant, symbol)),
        Label::Northward { symbol } => add_prefixed(text, b'v', symbol_name(quadrant, symbol)),
        Label::Column { column } => add_numbered(text, b'b', column),
        Label::Row { row } => add_numbered(text, b'a', row),
    }
}

// Adds the letter, a colon and the name.
fn add_prefixed(text: &mut ShortText, letter: u8, name: &[u8])
    requires { length text.old + (2 + length name.now) ≤ SHORT_ROOM }
    ensures { text.new ≡ text.old ++ (letter ∷ 58 ∷ name.now) }
{
    text.add(&[letter, b':']);
    text.add(name);
}

fn add_numbered(text: &mut ShortText, letter: u8, number: u32)
    requires { length text.old + (2 + length (decimal number)) ≤ SHORT_ROOM }
    ensures { text.new ≡ text.old ++ (letter ∷ 58 ∷ decimal number) }
{
    text.add(&[letter, b':']);
    text.add_number(number);
}

fn add_paired(text: &mut ShortText, quadrant: &Quadrant, west: u32, south: u32)
    requires west { west < length quadrant.now.symbols }
    requires south { south < length quadrant.now.symbols }
    requires room { length text.old
        + (3 + length (slice_index_or quadrant.now.symbols west [])
        + length (slice_index_or quadrant.now.symbols south [])) ≤ SHORT_ROOM }
    ensures { text.new ≡ text.old
        ++ (codes "q:" ++ (slice_index_or quadrant.now.symbols west [] ++ codes ":"
        ++ slice_index_or quadrant.now.symbols south [])) }
{
    add_prefixed(text, b'q', symbol_name(quadrant, west));
    text.add(b":");
    text.add(symbol_name(quadrant, south));
}

#[tactic(auto, using(std::proofs::lemmas::Option::get_or_from_slice_get))]
fn symbol_name(quadrant: &Quadrant, symbol: u32) -> &[u8]
    requires { symbol < length quadrant.now.symbols }
    ensures { result.now ≡ slice_index_or quadrant.now.symbols symbol [] }
{
    quadrant.symbol_name(symbol)
}
