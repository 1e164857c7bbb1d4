// Growth by one worker alone, which always fills the least open site and logs its tiles.
ghost use Rattle.std.specs.Prelude.{◌≡◌, ◌<◌, ◌≤◌, ◌+◌, ℕ, true, length, IfOk};
ghost use Rattle.atam.specs.Placements.{SamePlacements};
ghost use Rattle.atam.specs.Growth.{IsClosedInBox, IsFullGrowth};
ghost use Rattle.atam.specs.Canonical.{IsCanonical};
ghost use Rattle.assembly.specs.Cells.{cell_count};
ghost use Rattle.number_set.specs.Numbers.{IsIn};
ghost use Rattle.type_cache.specs.Clean.{CameExact};
ghost use Rattle.type_index.specs.Indexes.{IsIndexOf};
ghost use Rattle.frontier_seat.specs.Inner.Fillings.{CanFill, GrewSeen, MayFill};
ghost use Rattle.frontier_seat.specs.Inner.Looks.{IsTaken, ListsOn};

use crate::Chooser;
use crate::beside_seeds::list_beside_seeds;
use crate::fill_log::FillLog;
use crate::picking::{Pick, Picker};
use crate::types::Types;
use crate::work_list::{Spot, WorkList};
use assembly::{Grid, Row, Sequence, grid_of_seeds};
use std::alloc::Global;
use tile_system::{NoMemory, Place, System};
use type_index::TypeIndex;

/// What has grown where always the least open site was filled, the order in which its tiles came,
/// and whether it is clear that each tile but the seeds came clean, held by exactly the temperature.
#[derive(Drop)]
pub struct FilledInOrder {
    pub grid: Grid,
    pub order: Sequence,
    pub clean: bool,
}

// A grid that is filled, what its types are picked by, the sites that are to be looked at, and the
// log of its tiles.
#[derive(Drop)]
struct Filler<'i> {
    grid: Grid,
    picker: Picker<'i>,
    work: WorkList,
    log: FillLog,
}

impl<'i> Filler<'i> {
    // Looks at one empty site that is listed no longer. A type that attaches there fills it, and
    // the tile is logged.
    #[inline(always)]
    fn fill<C: Chooser>(&mut self, sys: &System, chooser: &mut C, spot: Spot)
        requires can { CanFill sys.now self.old }
        requires taken { IsTaken sys.now self.old.grid.tiles self.old.work.numbers spot }
        requires room { length self.old.log.places < self.old.log.room }
        ensures can { CanFill sys.now self.new }
        ensures lists { ListsOn sys.now self.old.grid.tiles self.new.grid.tiles
            self.old.work.numbers self.new.work.numbers }
        ensures fills { MayFill sys.now spot.site self.old.grid.tiles self.new.grid.tiles
            self.old.log self.new.log }
        ensures room { self.new.log.room ≡ self.old.log.room }
    {
        sys.recall_valid();
        let Spot { site, number } = spot;
        let beside = self.grid.beside_at(site, number);
        let Pick { tile, clean } = self.picker.pick(sys, &self.grid, site, &beside, chooser);
        let Some(tile) = tile else {
            return;
        };
        let place = Place { site, tile };
        self.grid.put_at(place, number);
        self.work.list_around(&self.grid, spot, &beside);
        self.log.push(place, clean);
    }

    // Looks at the empty sites beside the seeds, and at those beside each tile that comes, always at
    // the least one.
    #[inline(never)]
    fn fill_all<C: Chooser>(&mut self, sys: &System, chooser: &mut C)
        requires can { CanFill sys.now self.old }
        requires none { (n : ℕ) → ¬ IsIn self.old.work.numbers n }
        requires start { SamePlacements sys.now.seeds self.old.grid.tiles }
        requires seeds { self.old.log.places ≡ sys.now.seeds }
        requires room { length sys.now.seeds + cell_count sys.now.area ≤ self.old.log.room }
        ensures can { CanFill sys.now self.new }
        ensures closed { IsClosedInBox sys.now self.new.grid.tiles }
        ensures order { GrewSeen sys.now self.new.grid.tiles self.new.log.places
            self.new.log.clean }
    {
        let area = sys.area();
        list_beside_seeds(sys, &self.grid, &mut self.work);
        let mut row = Row::least(&area);
        while let Some(number) = self.work.take_least() {
            let site = row.site(&area, number);
            self.fill(sys, chooser, Spot { site, number });
        }
    }
}

/// What grows from the seeds on where always the least open site of the box is filled, the order in
/// which its tiles came, which is the canonical one (`law_least_first`), and whether it is clear that
/// each tile came clean, which was seen as it came. It is for growth that is not handed out, and so
/// needs no table. Beside the grid and the sequence it takes a quarter of a byte a site.
pub fn fill_least_first_seeing<C: Chooser>(
    alloc: Global,
    sys: &System,
    types: &TypeIndex,
    chooser: &mut C,
) -> Result<FilledInOrder, NoMemory>
    requires { IsIndexOf sys.now types.now }
    ensures area { IfOk result (λ r. r.grid.area ≡ sys.now.area) }
    ensures full { IfOk result (λ r. IsFullGrowth sys.now r.grid.tiles) }
    ensures order { IfOk result (λ r. IsCanonical sys.now r.grid.tiles r.order) }
    ensures clean { IfOk result (λ r. r.clean ≡ true → CameExact sys.now r.order) }
{
    sys.recall_valid();
    let grid = grid_of_seeds(alloc, sys)?;
    grid.recall_sites();
    let mut filler = Filler {
        grid,
        picker: Picker::make(alloc, sys, Types::lent(types))?,
        work: WorkList::make(alloc, sys.area())?,
        log: FillLog::make(alloc, sys)?,
    };
    filler.fill_all(sys, chooser);
    let Filler {
        grid,
        picker: _picker,
        work: _work,
        log,
    } = filler;
    let clean = log.is_clean();
    let order = log.into_sequence();
    Ok(FilledInOrder { grid, order, clean })
}
