// Growth on a table, in rounds.
ghost use Rattle.std.specs.Prelude.{All, ◌≡◌, ◌≢◌, ◌≤◌, ◌<◌, ◌+◌, ◌↔◌, length, IfOk, IsTrue};
ghost use Rattle.atam.specs.Growth.{IsClosedInBox};
ghost use Rattle.atam.specs.Placements.{SamePlacements};
ghost use Rattle.site_table.specs.Seats.{IsSeatOf};
ghost use Rattle.type_index.specs.Indexes.{IsIndexOf};
ghost use Rattle.grow_workers.specs.declared.goes.Goes.TheVariants.{InOrder};
ghost use Rattle.grow_workers.specs.Workers.{GrewOn, OwnsAtLeast};
ghost use Rattle.frontier_seat.specs.Growths.{GrowsOn};
ghost use Rattle.grow_workers.specs.Inner.Rounds.{AddsUp, AreRoundsOf, GoesRound, IsFar, IsRoundOf, IsStage};
ghost use Rattle.grow_workers.specs.Inner.Sharing.{HasSeen, IsShared, IsStart};
ghost use Rattle.grow_workers.specs.Inner.Wins.{HasNumbers};

use crate::goes::Goes;
use crate::joining::join;
use crate::leavings::{Harvest, Part, part_of, scout_of};
use crate::shared::{Lent, Shared};
use crate::starts::{Start, grid_at_start, split};
use assembly::Grid;
use attach_rule::least_open_inside_by;
use fan_out::{WorkerCount, share_out};
use frontier_seat::Scout;
use site_table::{SiteSeat, SiteTable};
use std::alloc::Global;
use std::marker::Brand;
use std::sync::ledger::{Blank, Ledger};
use std::thread::Threads;
use tile_io::{Gate, Steps};
use tile_system::{NoMemory, System};
use type_index::TypeIndex;

// The most claims of a worker in a round.
const MOST_CLAIMS: u32 = 4096;

// The most rounds of a growth: a box has at most 2^20 sites, and each round but the last adds as many as
// a worker's claims.
const MOST_ROUNDS: u32 = 257;

// The seat of all workers between two rounds, what it has seen, and how often each has won.
#[derive(Drop)]
pub(crate) struct Stage {
    pub seat: SiteSeat,
    pub grid: Grid,
    pub wins: Vec<u32>,
}

/// Grows with so many workers, from what the seat has seen, by `grow_on_by_index` with an index of
/// the system's types that it makes. The list has what each worker has won. Where memory is wanting
/// the seats are dropped, and the table stays usable.
pub fn grow_on<R: Threads + Sync, G: Gate>(
    rt: &R,
    alloc: Global,
    sys: &System,
    table: &SiteTable,
    seat: SiteSeat,
    seen: Grid,
    workers: u32,
    choice: u64,
    gate: &G,
) -> Result<(SiteSeat, Grid, Vec<u32>), NoMemory>
    requires some { 1 ≤ workers }
    requires few { workers ≤ 16 }
    requires numbers { OwnsAtLeast workers seat.scout.owned }
    requires seat { IsSeatOf table.now seat }
    requires system { table.now.sys ≡ sys.now }
    requires area { seen.area ≡ sys.now.area }
    requires seen { SamePlacements seat.scout.seen seen.tiles }
    ensures grew { IfOk result (λ r. GrewOn sys.now seat seen r.0 r.1 r.2.items) }
    ensures count { IfOk result (λ r. length r.2.items ≡ workers) }
{
    let types = TypeIndex::build(alloc, sys)?;
    let workers = WorkerCount::new(workers);
    let lent = Lent {
        sys,
        types: &types,
        gate,
    };
    grow_on_by_index(rt, alloc, &lent, table, seat, seen, workers, choice)
}

/// Grows with so many workers, from what the seat has seen, in rounds, with an index of the system's
/// types that is lent to them. The list has what each worker has won. In a round the seat is parted
/// among the workers, each has a copy of the grid, and each makes one burst of at most 4096 claims
/// in a thread of its own but worker 0, first over its share of the open sites; then the grids are
/// merged and the seats joined. The rounds end where the merged grid is closed in the box. Each but
/// the last adds 4096 sites or more, so there are at most a round more than the box has room for:
/// 257. A worker calls the gate once, before its first claim. Where several types attach, worker w
/// chooses by PCG's generator of state `choice` and stream w, which it makes anew in each round; no
/// clause says more of it. Where memory is wanting the seats are dropped, and the table stays usable.
pub fn grow_on_by_index<R: Threads + Sync, G: Gate>(
    rt: &R,
    alloc: Global,
    lent: &Lent<'_, G>,
    table: &SiteTable,
    seat: SiteSeat,
    seen: Grid,
    workers: WorkerCount,
    choice: u64,
) -> Result<(SiteSeat, Grid, Vec<u32>), NoMemory>
    requires index { IsIndexOf lent.now.sys.now lent.now.types.now }
    requires numbers { OwnsAtLeast workers.count seat.scout.owned }
    requires seat { IsSeatOf table.now seat }
    requires system { table.now.sys ≡ lent.now.sys.now }
    requires area { seen.area ≡ lent.now.sys.now.area }
    requires seen { SamePlacements seat.scout.seen seen.tiles }
    ensures grew { IfOk result (λ r. GrewOn lent.now.sys.now seat seen r.0 r.1 r.2.items) }
    ensures count { IfOk result (λ r. length r.2.items ≡ workers.count) }
{
    let goes = Goes::ByBands { choice };
    let shared = Shared::of(lent.sys, table, lent.types, lent.gate, workers, goes);
    grow_in_rounds(rt, alloc, &shared, seat, seen)
}

// The same with what all workers share.
fn grow_in_rounds<R: Threads + Sync, G: Gate>(
    rt: &R,
    alloc: Global,
    shared: &Shared<'_, G>,
    seat: SiteSeat,
    seen: Grid,
) -> Result<(SiteSeat, Grid, Vec<u32>), NoMemory>
    requires shared { IsShared shared.now }
    requires bands { shared.now.goes ≢ InOrder }
    requires numbers { OwnsAtLeast shared.now.workers.count seat.scout.owned }
    requires seen { HasSeen shared.now seat seen }
    ensures grew { IfOk result (λ r. GrewOn shared.now.sys.now seat seen r.0 r.1 r.2.items) }
    ensures count { IfOk result (λ r. length r.2.items ≡ shared.now.workers.count) }
{
    seat.recall_possible();
    let mut stage = Stage {
        seat,
        grid: seen,
        wins: vec![in alloc; 0; shared.workers.get() as usize]?,
    };
    for round in 0..MOST_ROUNDS {
        stage = go_round(rt, alloc, shared, stage, round == 0)?;
        if is_closed(shared, &stage) {
            return Ok((stage.seat, stage.grid, stage.wins));
        }
    }
    stage.grid.recall_sites();
    unreachable!()
}

// Whether the box is closed.
fn is_closed<G: Gate>(shared: &Shared<'_, G>, stage: &Stage) -> bool
    requires shared { IsShared shared.now }
    requires seen { HasSeen shared.now stage.now.seat stage.now.grid }
    ensures { IsTrue result ↔ IsClosedInBox shared.now.sys.now stage.now.grid.tiles }
{
    stage.seat.recall_possible();
    least_open_inside_by(shared.types, shared.sys, &stage.grid).is_none()
}

// One round. In the first one the workers call the gate.
fn go_round<R: Threads + Sync, G: Gate>(
    rt: &R,
    alloc: Global,
    shared: &Shared<'_, G>,
    stage: Stage,
    is_first: bool,
) -> Result<Stage, NoMemory>
    requires shared { IsShared shared.now }
    requires bands { shared.now.goes ≢ InOrder }
    requires stage { IsStage shared.now stage }
    requires numbers { OwnsAtLeast shared.now.workers.count stage.seat.scout.owned }
    ensures { IfOk result (GoesRound shared.now stage) }
{
    let Stage {
        seat,
        grid,
        mut wins,
    } = stage;
    seat.recall_possible();
    grid.recall_sites();
    let starts = split(alloc, shared, seat, grid)?;
    let done = burst_all(rt, alloc, shared, starts, is_first)?;
    let Harvest { part, mut others } = join(alloc, shared, done)?;
    others.insert(0, part.won)?;
    part.seat.recall_possible();
    part.grid.recall_sites();
    add_wins(&mut wins, &others);
    Ok(Stage {
        seat: part.seat,
        grid: part.grid,
        wins,
    })
}

// Adds what each worker has won in a round.
fn add_wins(wins: &mut Vec<u32>, more: &Vec<u32>)
    requires count { length more.now.items ≡ length wins.old.items }
    requires few { All (λ n. n ≤ 1048576) wins.old.items }
    requires few_more { All (λ n. n ≤ 1048576) more.now.items }
    ensures { AddsUp wins.old.items more.now.items wins.new.items }
{
    for worker in 0..more.len() {
        wins[worker] += more[worker];
    }
}

// A burst of each worker, each but worker 0 in a thread of its own.
fn burst_all<R: Threads + Sync, G: Gate>(
    rt: &R,
    alloc: Global,
    shared: &Shared<'_, G>,
    starts: Vec<Start>,
    is_first: bool,
) -> Result<Vec<Result<Part, NoMemory>>, NoMemory>
    requires shared { IsShared shared.now }
    requires each { All (IsStart shared.now) starts.items }
    ensures { IfOk result (λ done. AreRoundsOf shared.now starts.items done.items) }
{
    let done = share_out(
        rt,
        starts,
        &move |start: Start| -> Result<Part, NoMemory>
            requires { IsShared shared.now × IsStart shared.now start }
            ensures { IfOk result (IsRoundOf shared.entry.now start) }
        { burst_from(alloc, shared, start, is_first) },
    )?;
    Ok(done)
}

// All that a worker does in a round.
fn burst_from<G: Gate>(
    alloc: Global,
    shared: &Shared<'_, G>,
    start: Start,
    is_first: bool,
) -> Result<Part, NoMemory>
    requires shared { IsShared shared.now }
    requires start { IsStart shared.now start }
    ensures { IfOk result (IsRoundOf shared.now start) }
{
    let Start { worker, seat, seen } = start;
    if is_first {
        shared.gate.arrive(worker);
    }
    let seen = grid_at_start(alloc, shared.sys, seen)?;
    seen.recall_sites();
    let mut scout = scout_of(alloc, shared, seat, seen)?;
    burst_counted::<Brand, G>(shared, worker, &mut scout, Blank::new(1));
    Ok(part_of(scout))
}

// One burst. It picks the ledger.
fn burst_counted<L: Ledger, G: Gate>(
    shared: &Shared<'_, G>,
    worker: u32,
    scout: &mut Scout<'_>,
    blank: Blank,
)
    requires blank { (blank.name ≡ L.name) × (blank.parts ≡ L.parts) × (0 < blank.parts) }
    requires shared { IsShared shared.now }
    requires seat { IsSeatOf shared.now.table.now scout.old.seat }
    requires worker { worker < shared.now.workers.count }
    ensures goes { GrowsOn scout.old scout.new }
    ensures far { IsFar shared.now.sys.now (length scout.old.grid.tiles + 4096) scout.new.grid }
{
    let mut picks = shared.goes.picks(worker);
    let mut steps: Steps<L> = Steps::open(blank);
    let of = shared.workers.get();
    let _ended = scout.burst(
        shared.sys,
        shared.table,
        &mut picks,
        worker,
        of,
        MOST_CLAIMS,
        &mut steps,
    );
}
