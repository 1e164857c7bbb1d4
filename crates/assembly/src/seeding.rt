// The seeds of a system in a grid.
ghost use Rattle.std.specs.Prelude.{◌≡◌, [], IfOk};
ghost use Rattle.atam.specs.Placements.{SamePlacements};
ghost use Rattle.atam.specs.TileSystem.{IsValid};

use crate::Grid;
use std::alloc::Global;
use tile_system::{NoMemory, System};

/// A grid over the system's box that has the seeds alone, of two bytes a site.
pub fn grid_of_seeds(alloc: Global, sys: &System) -> Result<Grid, NoMemory>
    ensures area { IfOk result (λ grid. grid.area ≡ sys.now.area) }
    ensures seeds { IfOk result (λ grid. SamePlacements sys.now.seeds grid.tiles) }
{
    sys.recall_valid();
    let mut grid = Grid::make(alloc, sys.area())?;
    put_seeds(sys, &mut grid);
    Ok(grid)
}

/// Puts the seeds into an empty grid. It takes no memory.
pub fn put_seeds(sys: &System, grid: &mut Grid)
    requires valid { IsValid sys.now }
    requires area { grid.old.area ≡ sys.now.area }
    requires empty { grid.old.tiles ≡ [] }
    ensures area { grid.new.area ≡ grid.old.area }
    ensures placements { SamePlacements sys.now.seeds grid.new.tiles }
{
    for seed in sys.seeds() {
        grid.put(*seed);
    }
}
