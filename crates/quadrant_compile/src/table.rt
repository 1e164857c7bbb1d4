// The table of a quadrant's tiles.
ghost use Rattle.std.specs.Prelude.{◌≡◌};
ghost use Rattle.design.specs.Sides.{label_ahead};
ghost use Rattle.quadrant_compile.specs.Quadrants.{IsQuadrant, RuleQuadrant};
ghost use Rattle.quadrant_compile.specs.Tiles.{label_on};
ghost use Rattle.quadrant_compile.specs.Inner.Listed.{strength};
ghost use Rattle.quadrant_compile.specs.Inner.Members.{IsKind};

use crate::quadrant::Quadrant;
use crate::tile::{Kind, Label};
use atam::Side;

/// The label on a side of a kind.
pub(crate) fn label_on(quadrant: &Quadrant, kind: Kind, side: Side) -> Option<Label>
    requires valid { IsQuadrant quadrant.now }
    requires kind { IsKind quadrant.now kind }
    ensures { result ≡ label_on quadrant.now kind side }
{
    match kind {
        Kind::Corner => corner_label(side),
        Kind::Bottom { column } => bottom_label(quadrant, column, side),
        Kind::Left { row } => left_label(quadrant, row, side),
        Kind::Cell { west, south } => cell_label(quadrant, west, south, side),
    }
}

fn corner_label(side: Side) -> Option<Label>
    ensures { (q : RuleQuadrant) → result ≡ label_on q Kind.Corner side }
{
    match side {
        Side::North => Some(Label::Row { row: 1 }),
        Side::East => Some(Label::Column { column: 1 }),
        Side::South | Side::West => None,
    }
}

fn bottom_label(quadrant: &Quadrant, column: u32, side: Side) -> Option<Label>
    requires { IsKind quadrant.now (Kind.Bottom column) }
    ensures { result ≡ label_on quadrant.now (Kind.Bottom column) side }
{
    match side {
        Side::North => Some(Label::Northward {
            symbol: quadrant.bottom_symbol(column),
        }),
        Side::East => next_column(quadrant, column),
        Side::South => None,
        Side::West => Some(Label::Column { column }),
    }
}

fn left_label(quadrant: &Quadrant, row: u32, side: Side) -> Option<Label>
    requires { IsKind quadrant.now (Kind.Left row) }
    ensures { result ≡ label_on quadrant.now (Kind.Left row) side }
{
    match side {
        Side::North => next_row(quadrant, row),
        Side::East => Some(Label::Eastward {
            symbol: quadrant.left_symbol(row),
        }),
        Side::South => Some(Label::Row { row }),
        Side::West => None,
    }
}

fn cell_label(quadrant: &Quadrant, west: u32, south: u32, side: Side) -> Option<Label>
    requires valid { IsQuadrant quadrant.now }
    requires kind { IsKind quadrant.now (Kind.Cell west south) }
    ensures { result ≡ label_on quadrant.now (Kind.Cell west south) side }
{
    let answer = quadrant.answer(west, south)?;
    Some(match side {
        Side::North => Label::Northward {
            symbol: answer.north,
        },
        Side::East => Label::Eastward {
            symbol: answer.east,
        },
        Side::South => Label::Northward { symbol: south },
        Side::West => Label::Eastward { symbol: west },
    })
}

// The label between a tile of the bottom border and the next one.
fn next_column(quadrant: &Quadrant, column: u32) -> Option<Label>
    ensures { result ≡ label_ahead Label.Column quadrant.now.width column }
{
    if column < quadrant.width() {
        Some(Label::Column { column: column + 1 })
    } else {
        None
    }
}

// The label between a tile of the left border and the next one.
fn next_row(quadrant: &Quadrant, row: u32) -> Option<Label>
    ensures { result ≡ label_ahead Label.Row quadrant.now.height row }
{
    if row < quadrant.height() {
        Some(Label::Row { row: row + 1 })
    } else {
        None
    }
}

/// The strength of a label.
pub(crate) fn strength(label: Label) -> u32
    ensures { (q : RuleQuadrant) → result ≡ strength q label }
{
    match label {
        Label::Eastward { .. } | Label::Northward { .. } => 1,
        Label::Column { .. } | Label::Row { .. } => 2,
    }
}
