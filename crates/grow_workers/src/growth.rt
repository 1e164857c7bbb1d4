// Growth on a table, and a whole growth.
ghost use Rattle.std.specs.Prelude.{All, ◌≡◌, ◌≤◌, ◌+◌, ◌∷◌, length, IfOk, IfSome};
ghost use Rattle.type_index.specs.Indexes.{IsIndexOf};
ghost use Rattle.grow_workers.specs.Workers.{OwnsAtLeast, GrewOn, IsGrownBy};
ghost use Rattle.grow_workers.specs.Inner.Sharing.{AreWorksOf, BeginsAt, HasSeen, IsLogOf, IsOrderLog, IsShared, IsStart, IsWorkOf};

use crate::ending::end;
use crate::goes::Goes;
use crate::in_order::claim_in_order;
use crate::joining::join;
use crate::leavings::{Harvest, Part};
use crate::member::work;
use crate::prepared::{Prepared, close, prepare};
use crate::rounds::grow_on;
use crate::shared::{Lent, Shared};
use crate::starts::{Start, split};
use assembly::Grid;
use fan_out::{WorkerCount, share_out};
use frontier_seat::ClaimLog;
use site_table::{Grown, SiteSeat};
use std::alloc::Global;
use std::thread::Threads;
use tile_io::Gate;
use tile_system::{NoMemory, System};

/// Grows a system within its box with so many workers, by `grow_on` on a table of its own.
pub fn grow<R: Threads + Sync, G: Gate>(
    rt: &R,
    alloc: Global,
    sys: &System,
    workers: u32,
    choice: u64,
    gate: &G,
) -> Result<Grown, NoMemory>
    requires some { 1 ≤ workers }
    requires few { workers ≤ 16 }
    ensures { IfOk result (IsGrownBy sys.now workers) }
{
    let Prepared { table, seat, seen } = prepare(alloc, sys)?;
    let (seat, grid, _wins) = grow_on(rt, alloc, sys, &table, seat, seen, workers, choice, gate)?;
    Ok(close(table, seat, grid))
}

/// What `grow` leaves, by workers who stay at work until nothing is left to do, with an index of the
/// system's types that is lent to them. The box is cut into bands of rows, of which every one in so
/// many is a worker's own: it claims there first, and where nothing is left there it looks beside
/// its bands at what others have placed. Each has a copy of the grid, and ends when none of them has
/// anything to do; then their seats and grids are joined, and worker 0 goes on alone until the box is
/// closed. With the choice 0 one worker claims the least site of those at which it has to look; with
/// any other the generator says where in the box the next one is looked for, so that each of them
/// may come first. A worker calls the gate once, before its first claim. No clause says more of
/// either. One worker with the choice 0 goes in canonical order.
pub fn grow_by_index<R: Threads + Sync, G: Gate>(
    rt: &R,
    alloc: Global,
    lent: &Lent<'_, G>,
    workers: WorkerCount,
    choice: u64,
) -> Result<Grown, NoMemory>
    requires index { IsIndexOf lent.now.sys.now lent.now.types.now }
    ensures { IfOk result (IsGrownBy lent.now.sys.now workers.count) }
{
    if workers.get() == 1 && choice == 0 {
        let (grown, _log) = claim_in_order(alloc, lent)?;
        return Ok(grown);
    }
    let (grown, _log) = grow_whole(rt, alloc, lent, workers, Goes::ByBands { choice })?;
    Ok(grown)
}

// A whole growth by workers who stay at work, and the log of worker 0 if it went in order until the
// box was closed.
pub(crate) fn grow_whole<R: Threads + Sync, G: Gate>(
    rt: &R,
    alloc: Global,
    lent: &Lent<'_, G>,
    workers: WorkerCount,
    goes: Goes,
) -> Result<(Grown, Option<ClaimLog>), NoMemory>
    requires { IsIndexOf lent.now.sys.now lent.now.types.now }
    ensures growth { IfOk result (λ r. IsGrownBy lent.now.sys.now workers.count r.0) }
    ensures log { IfOk result (λ r. IfSome r.1 (IsOrderLog lent.now.sys.now r.0.grid.tiles)) }
{
    let Prepared { table, seat, seen } = prepare(alloc, lent.sys)?;
    let shared = Shared::of(lent.sys, &table, lent.types, lent.gate, workers, goes);
    let team = grow_together(rt, alloc, &shared, seat, seen)?;
    drop(shared);
    let part = team.part;
    Ok((close(table, part.seat, part.grid), part.log))
}

// Parts the seat among all workers, lets them work, joins what they leave, and ends the growth.
fn grow_together<R: Threads + Sync, G: Gate>(
    rt: &R,
    alloc: Global,
    shared: &Shared<'_, G>,
    seat: SiteSeat,
    seen: Grid,
) -> Result<Harvest, NoMemory>
    requires shared { IsShared shared.now }
    requires numbers { OwnsAtLeast shared.now.workers.count seat.scout.owned }
    requires seen { HasSeen shared.now seat seen }
    requires begins { BeginsAt shared.now seen }
    ensures grew { IfOk result (λ h. GrewOn shared.now.sys.now seat seen
        h.part.seat h.part.grid (h.part.won ∷ h.others.items)) }
    ensures log { IfOk result (λ h. IfSome h.part.log (IsLogOf shared.now.sys.now h.part.grid)) }
    ensures count { IfOk result (λ h.
        length h.others.items + 1 ≡ shared.now.workers.count) }
{
    seat.recall_possible();
    let starts = split(alloc, shared, seat, seen)?;
    let done = work_all(rt, alloc, shared, starts)?;
    let team = join(alloc, shared, done)?;
    end(alloc, shared, team)
}

// All workers at work, each but worker 0 in a thread of its own.
fn work_all<R: Threads + Sync, G: Gate>(
    rt: &R,
    alloc: Global,
    shared: &Shared<'_, G>,
    starts: Vec<Start>,
) -> Result<Vec<Result<Part, NoMemory>>, NoMemory>
    requires shared { IsShared shared.now }
    requires each { All (IsStart shared.now) starts.items }
    ensures { IfOk result (λ done. AreWorksOf shared.now starts.items done.items) }
{
    let done = share_out(
        rt,
        starts,
        &move |start: Start| -> Result<Part, NoMemory>
            requires { IsShared shared.now × IsStart shared.now start }
            ensures { IfOk result (IsWorkOf shared.entry.now start) }
        { work(alloc, shared, start) },
    )?;
    Ok(done)
}
