// A growth that is watched.
ghost use Rattle.std.specs.Prelude.{◌≡◌, ◌≤◌, [], IfOk, length};
ghost use Rattle.std.specs.Thread.{IsSync};
ghost use Rattle.atam.specs.Placements.{SamePlacements};
ghost use Rattle.site_table.specs.Seats.{IsSeatOf};
ghost use Rattle.type_index.specs.Indexes.{IsIndexOf};
ghost use Rattle.grow_workers.specs.Workers.{GrewOn, OwnsAtLeast};
ghost use Rattle.watch_frames.specs.Watched.{IsWatchedGrowth};
ghost use Rattle.watch_frames.specs.Watchers.{HasWatched};
ghost use Rattle.watch_frames.specs.Inner.Watching.{IsLent};

use crate::{Frames, Watcher};
use assembly::{Grid, grid_of_seeds};
use fan_out::WorkerCount;
use grow_workers::{Lent, grow_on_by_index};
use site_table::{Grown, SiteSeat, SiteTable};
use std::alloc::Global;
use std::thread::{self, Threads};
use tile_io::Gate;
use tile_system::{NoMemory, System};
use type_index::TypeIndex;

// What the growth and the watcher beside it are lent, by how many workers and by which choice it
// grows.
#[derive(Drop)]
struct OnTable<'a, G: Gate> {
    sys: &'a System,
    table: &'a SiteTable,
    types: &'a TypeIndex,
    gate: &'a G,
    workers: WorkerCount,
    choice: u64,
}

/// Grows a system within its box with so many workers, as `grow` does, while a watcher takes frames
/// of it in a thread of its own. The watcher arrives at the gate under the number behind the last
/// worker's. It makes an index of the system's types.
pub fn watch<R: Threads + Sync, G: Gate>(
    rt: &R,
    alloc: Global,
    sys: &System,
    workers: u32,
    choice: u64,
    frames: u32,
    gate: &G,
) -> Result<(Frames, Grown), NoMemory>
    requires some { 1 ≤ workers }
    requires few { workers ≤ 16 }
    requires some_frame { 1 ≤ frames }
    requires few_frames { frames ≤ 1000 }
    ensures { IfOk result (λ r. IsWatchedGrowth sys.now workers frames r.0 r.1) }
{
    let types = TypeIndex::build(alloc, sys)?;
    let workers = WorkerCount::new(workers);
    let lent = Lent {
        sys,
        types: &types,
        gate,
    };
    watch_by_index(rt, alloc, &lent, workers, choice, frames)
}

/// The same, with an index of the system's types that is lent too. Where memory is wanting for the
/// growth, the watcher still takes its frames.
pub fn watch_by_index<R: Threads + Sync, G: Gate>(
    rt: &R,
    alloc: Global,
    lent: &Lent<'_, G>,
    workers: WorkerCount,
    choice: u64,
    frames: u32,
) -> Result<(Frames, Grown), NoMemory>
    requires index { IsIndexOf lent.now.sys.now lent.now.types.now }
    requires some_frame { 1 ≤ frames }
    requires few_frames { frames ≤ 1000 }
    ensures { IfOk result (λ r. IsWatchedGrowth lent.now.sys.now workers.count frames r.0 r.1) }
{
    let sys = lent.sys;
    sys.recall_valid();
    let seen = grid_of_seeds(alloc, sys)?;
    let own = seen.copy()?;
    let (table, seat) = SiteTable::make(alloc, sys)?;
    let (kept, given) = table.split(seat);
    let Ok(watcher) = Watcher::make(alloc, sys, given, own, frames) else {
        return Err(NoMemory);
    };
    let on = OnTable {
        sys,
        table: &table,
        types: lent.types,
        gate: lent.gate,
        workers,
        choice,
    };
    let (watcher, grown) = grow_watched(rt, alloc, on, watcher, kept, seen);
    let (kept, mut grid, _wins) = grown?;
    let (given, _seen, frames) = watcher.end();
    grid.recall_sites();
    kept.recall_possible();
    let seat = table.join(kept, given);
    grid.clear();
    Ok((frames, table.close(seat, grid)))
}

// The watcher in a thread of its own, and the growth in this one.
fn grow_watched<R: Threads + Sync, G: Gate>(
    rt: &R,
    alloc: Global,
    on: OnTable<'_, G>,
    watcher: Watcher,
    seat: SiteSeat,
    seen: Grid,
) -> (Watcher, Result<(SiteSeat, Grid, Vec<u32>), NoMemory>)
    requires lent { IsLent on }
    requires numbers { OwnsAtLeast on.workers.count seat.scout.owned }
    requires watcher { IsSeatOf on.table.now watcher.seat }
    requires none { watcher.frames.counts ≡ [] }
    requires seat { IsSeatOf on.table.now seat }
    requires area { seen.area ≡ on.sys.now.area }
    requires seen { SamePlacements seat.scout.seen seen.tiles }
    ensures watched { HasWatched watcher result.0 }
    ensures grew { IfOk result.1 (λ r. GrewOn on.entry.sys.now seat seen r.0 r.1 r.2.items) }
    ensures count { IfOk result.1 (λ r. length r.2.items ≡ on.entry.workers.count) }
{
    let OnTable {
        sys,
        table,
        types,
        gate,
        workers,
        choice,
    } = on;
    thread::join(
        rt,
        move || -> Watcher
            requires { IsSeatOf table.now watcher.seat × (table.now.sys ≡ sys.now)
                × (watcher.frames.counts ≡ []) }
            ensures { HasWatched watcher result }
        { watcher.watch(sys, table, workers.get(), gate) },
        move || -> Result<(SiteSeat, Grid, Vec<u32>), NoMemory>
            requires { IsSync R.row × IsIndexOf sys.now types.now
                × OwnsAtLeast workers.count seat.scout.owned
                × IsSeatOf table.now seat × (table.now.sys ≡ sys.now)
                × (seen.area ≡ sys.now.area) × SamePlacements seat.scout.seen seen.tiles }
            ensures { IfOk result (λ r. GrewOn sys.entry.now seat seen r.0 r.1 r.2.items
                × (length r.2.items ≡ workers.count)) }
        {
            let lent = Lent { sys, types, gate };
            grow_on_by_index(rt, alloc, &lent, table, seat, seen, workers, choice)
        },
    )
}
