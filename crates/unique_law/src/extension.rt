// A legal sequence grows into a locally deterministic one.
ghost use Rattle.std.specs.Prelude.{◌≡◌, ◌++◌, length, take, IfOk, OnOk};
ghost use Rattle.atam.specs.Placements.{SamePlacements, rest_of};
ghost use Rattle.atam.specs.Assembly.{Fits};
ghost use Rattle.atam.specs.Growth.{IsLegal};
ghost use Rattle.atam.specs.Determinism.{IsLocallyDeterministic};

use assembly::{Grid, Sequence};
use replay_order::check_legal;
use std::alloc::Global;
use tile_system::{NoMemory, Placed, System};

/// The sequence `b`, and then the places of `a` that it lacks, in their order: a legal sequence with
/// exactly the placements of `a`. Memory goes to it and to a grid over the box; the time grows with
/// the number of places and with that of sites of the box.
pub fn law_extends(
    alloc: Global,
    sys: &System,
    a: &Sequence,
    b: &Sequence,
) -> Result<Sequence, NoMemory>
    requires deterministic { IsLocallyDeterministic sys.now a.now }
    requires legal { IsLegal sys.now b.now }
    requires fits { Fits sys.now a.now }
    ensures order { IfOk result (λ s. s ≡ b.now ++ rest_of b.now a.now) }
    ensures legal { IfOk result (IsLegal sys.now) }
    ensures begins { IfOk result (λ s. take (length b.now) s ≡ b.now) }
    ensures same { IfOk result (λ s. SamePlacements s a.now) }
{
    let mut grid = Grid::make(alloc, sys.area())?;
    // The sequence is legal, so all its places are put into the grid.
    check_legal(sys, b, &mut grid);
    let mut whole = b.copy()?;
    push_rest(&grid, a, &mut whole)?;
    Ok(whole)
}

// Adds the places at whose sites the grid has no tile.
fn push_rest(grid: &Grid, places: &Sequence, whole: &mut Sequence) -> Result<(), NoMemory>
    ensures { OnOk result (whole.new ≡ whole.old ++ rest_of grid.now.tiles places.now) }
{
    for index in 0..places.len() {
        let place = places.get(index);
        if grid.at(place.site).is_none() {
            whole.push(place)?;
        }
    }
    Ok(())
}
