// The sites beside the seeds.
ghost use Rattle.std.specs.Prelude.{◌≡◌, ℕ};
ghost use Rattle.atam.specs.Placements.{SamePlacements};
ghost use Rattle.number_set.specs.Numbers.{IsIn};
ghost use Rattle.frontier_seat.specs.Inner.Fillings.{IsFilling};
ghost use Rattle.frontier_seat.specs.Inner.Looks.{ListsOpen};

use crate::work_list::{Spot, WorkList};
use assembly::{Grid, site_index};
use tile_system::System;

// Lists the empty sites beside the seeds, which are all that stands.
pub(crate) fn list_beside_seeds(sys: &System, grid: &Grid, work: &mut WorkList)
    requires filling { IsFilling sys.now grid.now }
    requires start { SamePlacements sys.now.seeds grid.now.tiles }
    requires area { work.old.area ≡ sys.now.area }
    requires none { (n : ℕ) → ¬ IsIn work.old.numbers n }
    ensures area { work.new.area ≡ work.old.area }
    ensures lists { ListsOpen sys.now grid.now.tiles work.new.numbers }
{
    let area = sys.area();
    for seed in sys.seeds() {
        let site = seed.site;
        let number = site_index(&area, site);
        let beside = grid.beside_at(site, number);
        work.list_around(grid, Spot { site, number }, &beside);
    }
}
