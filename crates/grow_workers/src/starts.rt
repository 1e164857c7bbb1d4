// What each worker begins with.
ghost use Rattle.std.specs.Prelude.{All, ◌≡◌, ◌≤◌, ◌<◌, ◌+◌, ◌-◌, length, Some, None, if◌then◌else◌, IfOk};
ghost use Rattle.atam.specs.Placements.{SamePlacements};
ghost use Rattle.grow_workers.specs.Inner.Sharing.{ArePartedOff, AreStartsOf, BeginsAt, HasSeen, IsShared, IsStart, start_grid};
ghost use Rattle.grow_workers.specs.Inner.Wins.{HasNumbers, IsParted};

use crate::shared::Shared;
use assembly::{Grid, grid_of_seeds};
use site_table::SiteSeat;
use std::alloc::Global;
use tile_io::Gate;
use tile_system::{NoMemory, System};

// Which worker it is, a seat of its own, and a grid of what the seat has seen, unless that is the
// seeds alone, of which it makes one itself.
#[derive(Drop)]
pub(crate) struct Start {
    pub worker: u32,
    pub seat: SiteSeat,
    pub seen: Option<Grid>,
}

// The grid that a worker begins with. One of the seeds is made in the worker's own thread, where no
// other waits for it.
pub(crate) fn grid_at_start(
    alloc: Global,
    sys: &System,
    given: Option<Grid>,
) -> Result<Grid, NoMemory>
    requires { (start_grid sys.now given).area ≡ sys.now.area }
    ensures area { IfOk result (λ grid. grid.area ≡ sys.now.area) }
    ensures tiles { IfOk result (λ grid.
        SamePlacements (start_grid sys.now given).tiles grid.tiles) }
{
    match given {
        Some(grid) => Ok(grid),
        None => grid_of_seeds(alloc, sys),
    }
}

// Parts a seat among all workers. Worker 0, which keeps what is left of it, comes last.
pub(crate) fn split<G: Gate>(
    alloc: Global,
    shared: &Shared<'_, G>,
    seat: SiteSeat,
    seen: Grid,
) -> Result<Vec<Start>, NoMemory>
    requires shared { IsShared shared.now }
    requires numbers { HasNumbers shared.now.workers.count seat.scout.owned }
    requires seen { HasSeen shared.now seat seen }
    requires begins { BeginsAt shared.now seen }
    ensures starts { IfOk result (λ starts.
        AreStartsOf shared.now.sys.now seat seen starts.items) }
    ensures each { IfOk result (λ starts. All (IsStart shared.now) starts.items) }
    ensures count { IfOk result (λ starts. length starts.items ≡ shared.now.workers.count) }
{
    let (mut starts, kept) = split_off(alloc, shared, seat, &seen)?;
    starts.push(Start {
        worker: 0,
        seat: kept,
        seen: Some(seen),
    })?;
    Ok(starts)
}

// Parts off the seats of all workers but worker 0, for which the rest is kept.
fn split_off<G: Gate>(
    alloc: Global,
    shared: &Shared<'_, G>,
    seat: SiteSeat,
    seen: &Grid,
) -> Result<(Vec<Start>, SiteSeat), NoMemory>
    requires shared { IsShared shared.now }
    requires numbers { HasNumbers shared.now.workers.count seat.scout.owned }
    requires seen { HasSeen shared.now seat seen.now }
    requires begins { BeginsAt shared.now seen.now }
    ensures parted { IfOk result (λ r. ArePartedOff seat r.0.items r.1) }
    ensures kept { IfOk result (λ r. HasSeen shared.now r.1 seen.now) }
    ensures grids { IfOk result (λ r.
        All (λ start.
        SamePlacements seen.now.tiles (start_grid shared.now.sys.now start.seen).tiles) r.0.items) }
    ensures each { IfOk result (λ r. All (IsStart shared.now) r.0.items) }
    ensures count { IfOk result (λ r. length r.0.items + 1 ≡ shared.now.workers.count) }
{
    let workers = shared.workers.get();
    let are_seeds = shared.goes.is_in_order();
    let mut starts = Vec::new(alloc);
    let mut kept = seat;
    for worker in 1..workers {
        let (rest, given) = part_off(shared, kept, seen, workers - worker + 1);
        kept = rest;
        starts.push(Start {
            worker,
            seat: given,
            seen: grid_for_another(seen, are_seeds)?,
        })?;
    }
    Ok((starts, kept))
}

// A grid for another worker, which makes one of the seeds itself.
fn grid_for_another(seen: &Grid, are_seeds: bool) -> Result<Option<Grid>, NoMemory>
    ensures { IfOk result (λ given. given ≡ (if are_seeds then None else Some seen.now)) }
{
    if are_seeds {
        return Ok(None);
    }
    Ok(Some(seen.copy()?))
}

// The seat of all workers that are left but one, and the seat of this one.
fn part_off<G: Gate>(
    shared: &Shared<'_, G>,
    seat: SiteSeat,
    seen: &Grid,
    left: u32,
) -> (SiteSeat, SiteSeat)
    requires many { 1 < left }
    requires numbers { HasNumbers left seat.scout.owned }
    requires seen { HasSeen shared.now seat seen.now }
    ensures parted { IsParted seat result.0 result.1 }
    ensures numbers { HasNumbers (left - 1) result.0.scout.owned }
    ensures first { HasSeen shared.now result.0 seen.now }
    ensures second { HasSeen shared.now result.1 seen.now }
{
    seat.recall_possible();
    shared.table.split(seat)
}
