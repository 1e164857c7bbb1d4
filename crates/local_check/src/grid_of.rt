// The grid of the places of a sequence.
ghost use Rattle.std.specs.Prelude.{◌≡◌, IfOk};
ghost use Rattle.atam.specs.Placements.{HasDistinctSites, SamePlacements};
ghost use Rattle.atam.specs.Assembly.{Fits};

use assembly::{Grid, Sequence};
use std::alloc::Global;
use tile_system::{NoMemory, System};

// Puts the places, at most one at each site, into a grid of the system's box.
pub(crate) fn grid_of(alloc: Global, sys: &System, seq: &Sequence) -> Result<Grid, NoMemory>
    requires fits { Fits sys.now seq.now }
    requires distinct { HasDistinctSites seq.now }
    ensures area { IfOk result (λ grid. grid.area ≡ sys.now.area) }
    ensures placements { IfOk result (λ grid. SamePlacements seq.now grid.tiles) }
{
    let mut grid = Grid::make(alloc, sys.area())?;
    sys.recall_valid();
    for index in 0..seq.len() {
        grid.put(seq.get(index));
    }
    Ok(grid)
}
