// The lists of a quadrant's kinds and labels.
ghost use Rattle.std.specs.Prelude.{◌≡◌, ◌-◌, map, IfOk};
ghost use Rattle.std.specs.List.{range_with_len};
ghost use Rattle.quadrant_compile.specs.Inner.Listed.{kinds, labels};

use crate::quadrant::Quadrant;
use crate::tile::{Kind, Label};
use std::alloc::Global;
use tile_system::NoMemory;

/// The kinds of a quadrant, in the order of its types.
pub(crate) fn kinds(alloc: Global, quadrant: &Quadrant) -> Result<Vec<Kind>, NoMemory>
    ensures { IfOk result (λ found. found.items ≡ kinds quadrant.now) }
{
    prove!(quadrant.symbols() > 0);
    let mut kinds = Vec::new(alloc);
    kinds.push(Kind::Corner)?;
    kinds.append(&mut bottoms(alloc, quadrant.width() + 1)?)?;
    kinds.append(&mut lefts(alloc, quadrant.height() + 1)?)?;
    kinds.append(&mut cells(alloc, quadrant.ruled())?)?;
    Ok(kinds)
}

/// The labels of a quadrant, in the order of its glues.
pub(crate) fn labels(alloc: Global, quadrant: &Quadrant) -> Result<Vec<Label>, NoMemory>
    ensures { IfOk result (λ found. found.items ≡ labels quadrant.now) }
{
    prove!(quadrant.symbols() > 0);
    let mut labels = eastwards(alloc, quadrant.symbols())?;
    labels.append(&mut northwards(alloc, quadrant.symbols())?)?;
    labels.append(&mut columns(alloc, quadrant.width() + 1)?)?;
    labels.append(&mut rows(alloc, quadrant.height() + 1)?)?;
    Ok(labels)
}

// The kinds with the columns below the end.
fn bottoms(alloc: Global, end: u32) -> Result<Vec<Kind>, NoMemory>
    ensures { IfOk result (λ found. found.items ≡ map Kind.Bottom (range_with_len 1 (end - 1))) }
{
    Ok(
        (1..end)
            .map(|column| Kind::Bottom { column })
            .collect(alloc)?,
    )
}

// Those with the rows below the end.
fn lefts(alloc: Global, end: u32) -> Result<Vec<Kind>, NoMemory>
    ensures { IfOk result (λ found. found.items ≡ map Kind.Left (range_with_len 1 (end - 1))) }
{
    Ok((1..end).map(|row| Kind::Left { row }).collect(alloc)?)
}

fn cells(alloc: Global, pairs: &[(u32, u32)]) -> Result<Vec<Kind>, NoMemory>
    ensures { IfOk result (λ found. found.items ≡ map (λ p. Kind.Cell p.0 p.1) pairs.now) }
{
    Ok(
        pairs
            .iter()
            .map(|(west, south)| Kind::Cell {
                west: *west,
                south: *south,
            })
            .collect(alloc)?,
    )
}

fn eastwards(alloc: Global, symbols: u32) -> Result<Vec<Label>, NoMemory>
    ensures { IfOk result (λ found. found.items
        ≡ map Label.Eastward (range_with_len 0 symbols)) }
{
    Ok(
        (0..symbols)
            .map(|symbol| Label::Eastward { symbol })
            .collect(alloc)?,
    )
}

fn northwards(alloc: Global, symbols: u32) -> Result<Vec<Label>, NoMemory>
    ensures { IfOk result (λ found. found.items
        ≡ map Label.Northward (range_with_len 0 symbols)) }
{
    Ok(
        (0..symbols)
            .map(|symbol| Label::Northward { symbol })
            .collect(alloc)?,
    )
}

// The labels with the columns below the end.
fn columns(alloc: Global, end: u32) -> Result<Vec<Label>, NoMemory>
    ensures { IfOk result (λ found. found.items ≡ map Label.Column (range_with_len 1 (end - 1))) }
{
    Ok(
        (1..end)
            .map(|column| Label::Column { column })
            .collect(alloc)?,
    )
}

// Those with the rows below the end.
fn rows(alloc: Global, end: u32) -> Result<Vec<Label>, NoMemory>
    ensures { IfOk result (λ found. found.items ≡ map Label.Row (range_with_len 1 (end - 1))) }
{
    Ok((1..end).map(|row| Label::Row { row }).collect(alloc)?)
}
