// A worker's life in its thread.
ghost use Rattle.std.specs.Prelude.{◌≡◌, ◌<◌, [], IfOk};
ghost use Rattle.atam.specs.Placements.{SamePlacements};
ghost use Rattle.site_table.specs.Seats.{IsSeatOf};
ghost use Rattle.frontier_seat.specs.Growths.{GrowsOn};
ghost use Rattle.grow_workers.specs.Inner.Sharing.{BeginsAt, HasSeen, IsSeenPart, IsShared, IsStart, IsWorkOf};
ghost use Rattle.grow_workers.specs.Inner.Wins.{PartedGrowth};

use crate::in_order::sweep_logged;
use crate::leavings::{Part, part_of, scout_of};
use crate::picks::Picks;
use crate::shared::Shared;
use crate::starts::{Start, grid_at_start};
use crate::team::Waiting;
use assembly::Grid;
use frontier_seat::{Burst, Scout};
use site_table::SiteSeat;
use std::alloc::Global;
use std::marker::Brand;
use std::sync::ledger::{Blank, Ledger};
use tile_io::{Gate, Steps};
use tile_system::NoMemory;

// The most claims of worker 0 in its first burst.
const FIRST_BURST: u32 = 4096;

// The most claims of another worker in its first burst, when mostly all look at the same few sites.
const FIRST_OF_OTHERS: u32 = 64;

// The most claims of a later burst.
const BURST: u32 = 512;

// The most types with which others claim beside a worker that goes through the whole box. Of more types
// mostly several attach at a site, and another would place there what that worker does not pick.
const FEW_TYPES: u32 = 4096;

// The most turns of a worker after its first burst: more than a box takes.
const MOST_TURNS: u32 = 1 << 20;

// All that a worker does beside others.
pub(crate) fn work<G: Gate>(
    alloc: Global,
    shared: &Shared<'_, G>,
    start: Start,
) -> Result<Part, NoMemory>
    requires shared { IsShared shared.now }
    requires start { IsStart shared.now start }
    ensures { IfOk result (IsWorkOf shared.now start) }
{
    let Start { worker, seat, seen } = start;
    shared.gate.arrive(worker);
    let seen = grid_at_start(alloc, shared.sys, seen)?;
    work_on(alloc, shared, worker, seat, seen)
}

// The same from a grid: where growth goes in order worker 0 goes through the whole box. Else it
// claims in its bands, and where nothing is left there it looks beside them, or beside such a worker
// it ends after its first burst, or at once where it leaves all to another.
fn work_on<G: Gate>(
    alloc: Global,
    shared: &Shared<'_, G>,
    worker: u32,
    seat: SiteSeat,
    seen: Grid,
) -> Result<Part, NoMemory>
    requires shared { IsShared shared.now }
    requires worker { worker < shared.now.workers.count }
    requires seen { HasSeen shared.now seat seen }
    requires begins { BeginsAt shared.now seen }
    ensures seen { IfOk result (IsSeenPart shared.now) }
    ensures grew { IfOk result (λ r.
        PartedGrowth shared.now.sys.now seat seen r.seat r.grid r.won []) }
{
    if worker == 0 && shared.goes.is_in_order() {
        return work_in_order(alloc, shared, seat, seen);
    }
    if leaves_all(shared) {
        return Ok(Part {
            seat,
            grid: seen,
            won: 0,
            log: None,
        });
    }
    let mut scout = begin(alloc, shared, worker, seat, seen)?;
    take_turns(shared, worker, &mut scout);
    shared.team.leave(worker);
    Ok(part_of(scout))
}

// Whether a worker leaves all to another: one alone to `end`, and where the types are many to the
// one that goes through the whole box.
fn leaves_all<G: Gate>(shared: &Shared<'_, G>) -> bool {
    let has_many = shared.sys.type_count() > FEW_TYPES;
    shared.workers.get() == 1 || (shared.goes.is_in_order() && has_many)
}

// All that a worker does that goes through the whole box.
fn work_in_order<G: Gate>(
    alloc: Global,
    shared: &Shared<'_, G>,
    seat: SiteSeat,
    seen: Grid,
) -> Result<Part, NoMemory>
    requires shared { IsShared shared.now }
    requires seen { HasSeen shared.now seat seen }
    requires seeds { SamePlacements shared.now.sys.now.seeds seen.tiles }
    ensures seen { IfOk result (IsSeenPart shared.now) }
    ensures grew { IfOk result (λ r.
        PartedGrowth shared.now.sys.now seat seen r.seat r.grid r.won []) }
{
    let (mut part, log) = sweep_logged(alloc, shared, seat, seen)?;
    part.log = Some(log);
    Ok(part)
}

// A worker's scout. The others are told that it has begun, and where it can't that it has ended.
fn begin<'a, G: Gate>(
    alloc: Global,
    shared: &Shared<'a, G>,
    worker: u32,
    seat: SiteSeat,
    seen: Grid,
) -> Result<Scout<'a>, NoMemory>
    requires shared { IsShared shared.now }
    requires seen { HasSeen shared.now seat seen }
    ensures { IfOk result (λ scout. scout ≡ record { seat = seat; grid = seen; won = 0 }) }
{
    let made = scout_of(alloc, shared, seat, seen);
    shared.team.begin(worker);
    if made.is_err() {
        shared.team.leave(worker);
    }
    made
}

// The first burst, and turns until no worker has anything to do. Beside a worker that goes through
// the whole box there are none, since what another claims there only makes that one slower.
#[tactic(auto, using(frontier_seat::proofs::Looked::goes_further))]
fn take_turns<G: Gate>(shared: &Shared<'_, G>, worker: u32, scout: &mut Scout<'_>)
    requires shared { IsShared shared.now }
    requires seat { IsSeatOf shared.now.table.now scout.old.seat }
    requires worker { worker < shared.now.workers.count }
    ensures { GrowsOn scout.old scout.new }
{
    let mut picks = shared.goes.picks(worker);
    let most = if worker == 0 {
        FIRST_BURST
    } else {
        FIRST_OF_OTHERS
    };
    let is_closed = burst(shared, worker, scout, &mut picks, most);
    if is_closed || shared.goes.is_in_order() {
        return;
    }
    take_later_turns(shared, worker, scout, &mut picks);
}

// The turns after the first burst.
#[tactic(auto, using(frontier_seat::proofs::Looked::goes_further))]
fn take_later_turns<G: Gate>(
    shared: &Shared<'_, G>,
    worker: u32,
    scout: &mut Scout<'_>,
    picks: &mut Picks,
)
    requires shared { IsShared shared.now }
    requires seat { IsSeatOf shared.now.table.now scout.old.seat }
    requires worker { worker < shared.now.workers.count }
    ensures { GrowsOn scout.old scout.new }
{
    let mut waiting = Waiting::of(worker);
    for _turn in 0..MOST_TURNS {
        let is_closed = take_turn(shared, worker, scout, picks, &mut waiting);
        if is_closed || waiting.is_over {
            break;
        }
    }
}

// One turn. It tells whether the box is closed.
fn take_turn<G: Gate>(
    shared: &Shared<'_, G>,
    worker: u32,
    scout: &mut Scout<'_>,
    picks: &mut Picks,
    waiting: &mut Waiting,
) -> bool
    requires shared { IsShared shared.now }
    requires seat { IsSeatOf shared.now.table.now scout.old.seat }
    requires worker { worker < shared.now.workers.count }
    ensures { GrowsOn scout.old scout.new }
{
    if scout.has_own() {
        waiting.go_on(&shared.team);
        return burst(shared, worker, scout, picks, BURST);
    }
    let bursts = shared.team.bursts();
    scout.see_edges(shared.sys, shared.table, worker, shared.workers.get());
    if !scout.has_own() {
        waiting.wait(&shared.team, bursts);
    }
    false
}

// One burst, which the others are told of. It picks the ledger, and tells whether the box is
// closed.
fn burst<G: Gate>(
    shared: &Shared<'_, G>,
    worker: u32,
    scout: &mut Scout<'_>,
    picks: &mut Picks,
    most: u32,
) -> bool
    requires shared { IsShared shared.now }
    requires seat { IsSeatOf shared.now.table.now scout.old.seat }
    requires worker { worker < shared.now.workers.count }
    ensures { GrowsOn scout.old scout.new }
{
    let ended = burst_counted::<Brand, G>(shared, worker, scout, picks, most, Blank::new(1));
    shared.team.end_burst();
    match ended {
        Burst::Quiet => true,
        Burst::Spent => false,
    }
}

fn burst_counted<L: Ledger, G: Gate>(
    shared: &Shared<'_, G>,
    worker: u32,
    scout: &mut Scout<'_>,
    picks: &mut Picks,
    most: u32,
    blank: Blank,
) -> Burst
    requires blank { (blank.name ≡ L.name) × (blank.parts ≡ L.parts) × (0 < blank.parts) }
    requires shared { IsShared shared.now }
    requires seat { IsSeatOf shared.now.table.now scout.old.seat }
    requires worker { worker < shared.now.workers.count }
    ensures { GrowsOn scout.old scout.new }
{
    let mut steps: Steps<L> = Steps::open(blank);
    let of = shared.workers.get();
    scout.burst(
        shared.sys,
        shared.table,
        picks,
        worker,
        of,
        most,
        &mut steps,
    )
}
