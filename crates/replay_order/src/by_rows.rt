// The canonical order of an assembly whose rows are ordered apart from each other.
ghost use Rattle.std.specs.Prelude.{◌≡◌, ◌≢◌, ◌↔◌, ◌<◌, ◌≤◌, ◌+◌, ◌*◌, ℕ, IsOk, length, IfOk, IfSome};
ghost use Rattle.atam.specs.TileSystem.{TileSystem};
ghost use Rattle.atam.specs.Assembly.{Fits};
ghost use Rattle.atam.specs.Growth.{IsProducible};
ghost use Rattle.atam.specs.Sites.{height_of, width_of};
ghost use Rattle.assembly.specs.Cells.{cell_count};
ghost use Rattle.assembly.specs.Grids.{TileGrid};
ghost use Rattle.fan_out.specs.Portions.{InARow};
ghost use Rattle.replay_order.specs.Inner.Spans.{IsListedBehind, CanList};
ghost use Rattle.replay_order.specs.Inner.Rows.{begun_by, ListsRows};
ghost use Rattle.replay_order.specs.ReplayAnswers.{HoldsSeeds, LacksSeed, IsReplayAnswer, IsWholeOrder};

use crate::bonds::Bonds;
use crate::canonical::{holds_seeds, list_span, replay};
use crate::in_turn::list_in_turn;
use crate::stop::ReplayStop;
use assembly::{Grid, PlaceLog, Sequence};
use fan_out::{Portion, WorkerCount, share_numbers};
use std::alloc::Global;
use std::thread::Threads;
use tile_system::{NoMemory, Placed, System};

/// The same as `replay`, by so many workers, each of which orders rows of its own, in a thread of its
/// own but one. That works where each row gets complete from the rows below it and from its own
/// tiles, as most designs grow; where it doesn't, one worker orders all anew. Each worker takes some
/// two bytes for each site of the box, and sixteen for each type.
pub fn replay_by<R: Threads + Sync>(
    rt: &R,
    alloc: Global,
    sys: &System,
    grid: &Grid,
    workers: WorkerCount,
) -> Result<Sequence, ReplayStop>
    requires area { grid.now.area ≡ sys.now.area }
    requires fits { Fits sys.now grid.now.tiles }
    ensures answer { IsReplayAnswer sys.now grid.now.tiles result }
    ensures no_seed_there { (result ≡ Err ReplayStop.NoSeedThere) ↔
        LacksSeed sys.now grid.now.tiles }
    ensures producible { result ≢ Err ReplayStop.NoMemory →
        IsOk result ↔ IsProducible sys.now grid.now.tiles }
{
    sys.recall_valid();
    grid.recall_sites();
    if workers.get() > 1 && holds_seeds(sys, grid) {
        if let Some(order) = order_by_rows(rt, alloc, sys, grid, workers)? {
            return Ok(order);
        }
    }
    replay(alloc, sys, grid)
}

// The canonical sequence of a grid that holds the seeds, if each row gets complete in its turn.
fn order_by_rows<R: Threads + Sync>(
    rt: &R,
    alloc: Global,
    sys: &System,
    grid: &Grid,
    workers: WorkerCount,
) -> Result<Option<Sequence>, NoMemory>
    requires can { CanList sys.now grid.now }
    ensures { IfOk result (λ found. IfSome found (IsWholeOrder sys.now grid.now.tiles)) }
{
    let rows = grid.area().height() as usize;
    let parts = share_numbers(
        rt,
        alloc,
        rows,
        workers,
        &move |rows: Portion| -> Result<Sequence, NoMemory>
            requires { CanList sys.now grid.now
                × (rows.start ≤ rows.end) × (rows.end ≤ height_of sys.now.area) }
            ensures { ListsRows sys.entry.now grid.entry.now
                rows.worker rows.start rows.end result }
        { list_rows(alloc, sys, grid, rows) },
    )?;
    let order = one_sequence(parts)?;
    if order.len() < grid.count() as usize {
        return Ok(None);
    }
    Ok(Some(order))
}

// What the canonical order has of the tiles in the rows of one worker, if that is all of them: behind
// the seeds, where it is the first worker.
fn list_rows(alloc: Global, sys: &System, grid: &Grid, rows: Portion) -> Result<Sequence, NoMemory>
    requires can { CanList sys.now grid.now }
    requires rows { (rows.start ≤ rows.end) × (rows.end ≤ height_of sys.now.area) }
    ensures { ListsRows sys.now grid.now rows.worker rows.start rows.end result }
{
    let width = sys.area().width() as usize;
    let first = rows.start * width;
    let end = rows.end * width;
    let bonds = Bonds::make(alloc, sys)?;
    let mut log = log_of(alloc, sys, rows.worker, end - first)?;
    let reached = list_in_turn(alloc, &bonds, grid, &mut log, first, end)?;
    if reached < end {
        let _waiting = list_span(alloc, &bonds, grid, &mut log, reached, end)?;
    }
    Ok(log.into_sequence())
}

// What a worker begins with, and room for so many places more: the first one has the seeds, and room
// for all.
fn log_of(alloc: Global, sys: &System, worker: u32, count: usize) -> Result<PlaceLog, NoMemory>
    requires { count ≤ cell_count sys.now.area }
    ensures begun { IfOk result (λ log. log.places ≡ begun_by sys.now worker) }
    ensures room { IfOk result (λ log. length log.places + count ≤ log.room) }
{
    let log = if worker == 0 {
        PlaceLog::make(alloc, sys)?
    } else {
        PlaceLog::with_room(alloc, count)?
    };
    Ok(log)
}

// What all workers have listed, one behind the other.
fn one_sequence(mut parts: Vec<Result<Sequence, NoMemory>>) -> Result<Sequence, NoMemory>
    requires { 0 < length parts.items }
    ensures { IfOk result (λ order. (sys : TileSystem) (grid : TileGrid) (end : ℕ) →
        CanList sys grid → InARow (ListsRows sys grid) 0 0 end parts.items →
        IsListedBehind sys grid.tiles 0 (end * width_of sys.area) sys.seeds order) }
{
    let mut order = parts.remove(0)?;
    for part in parts {
        order.append(&part?)?;
    }
    Ok(order)
}
