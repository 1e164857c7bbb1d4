// What a growth begins with, and its end.
ghost use Rattle.std.specs.Prelude.{◌≡◌, ℕ, IfOk};
ghost use Rattle.atam.specs.Placements.{SamePlacements};
ghost use Rattle.frontier_seat.specs.Orders.{LoggedClaims};
ghost use Rattle.site_table.specs.Seats.{IsSeatOf};
ghost use Rattle.grow_workers.specs.Workers.{IsGrownBy};
ghost use Rattle.grow_workers.specs.Inner.Prepared.{GrewWhole, IsPrepared};
ghost use Rattle.grow_workers.specs.Inner.Sharing.{IsLogOf, IsOrderLog};

use assembly::{Grid, grid_of_seeds};
use site_table::{Grown, SiteSeat, SiteTable};
use std::alloc::{AllocError, Global};
use tile_system::{NoMemory, System};

// More bytes than the words of the widest box take.
const LARGE_BLOCK: usize = 16 << 20;

// A table with the seeds alone, its seat, and the grid of what the seat has seen.
#[derive(Drop)]
pub(crate) struct Prepared {
    pub table: SiteTable,
    pub seat: SiteSeat,
    pub seen: Grid,
}

// The table and the grid of a system.
pub(crate) fn prepare(alloc: Global, sys: &System) -> Result<Prepared, NoMemory>
    ensures { IfOk result (IsPrepared sys.now) }
{
    keep_large_blocks(alloc);
    let (table, seat) = SiteTable::make(alloc, sys)?;
    let seen = grid_of_seeds(alloc, sys)?;
    Ok(Prepared { table, seat, seen })
}

// Closes the table, over the grid of what its seat has seen in the end.
pub(crate) fn close(table: SiteTable, seat: SiteSeat, grid: Grid) -> Grown
    requires seat { IsSeatOf table seat }
    requires area { grid.area ≡ table.sys.area }
    requires seen { SamePlacements seat.scout.seen grid.tiles }
    ensures growth { (workers : ℕ) →
        GrewWhole table.sys workers seat grid → IsGrownBy table.sys workers result }
    ensures log { (log : LoggedClaims) →
        IsLogOf table.sys grid log → IsOrderLog table.sys result.grid.tiles log }
{
    seat.recall_possible();
    grid.recall_sites();
    let mut empty = grid;
    empty.clear();
    table.close(seat, empty)
}

// Takes a block and gives it back untouched. From then on the C library's allocator keeps blocks of
// up to that size for the next who asks. Else it returns each to the system, and the next one is of
// pages that are zeroed anew. It bears on time alone, so where memory is wanting nothing is said.
fn keep_large_blocks(alloc: Global) {
    let _block: Result<Vec<u8>, AllocError> = Vec::with_capacity(alloc, LARGE_BLOCK);
}
