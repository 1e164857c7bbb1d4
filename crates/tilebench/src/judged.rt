// The verdict on an assembly.
ghost use Rattle.std.specs.Prelude.{◌≡◌, IfOk, IfSome};
ghost use Rattle.atam.specs.Growth.{IsClosedInBox, IsProducible};
ghost use Rattle.type_index.specs.Indexes.{IsIndexOf};
ghost use Rattle.grow_workers.specs.Workers.{IsGrownBy, IsSeenOrder};
ghost use Rattle.tilebench.specs.Inner.Rooms.{IsJudgedGrowth};

use crate::order::{grow_ordered, known_or_found_order};
use crate::resources::Resources;
use assembly::{Grid, Sequence};
use atam::Verdict;
use command_line::Crew;
use fan_out::WorkerCount;
use grow_workers::SeenOrder;
use local_check::{LaidOut, judge_grown};
use site_table::Grown;
use std::thread::Threads;
use tile_io::Gate;
use tile_system::{NoMemory, Site, System, TypeId};
use type_index::TypeIndex;

/// The canonical order of an assembly, the verdict on it, and the least open site outside the box.
#[derive(Drop)]
pub struct JudgedGrowth {
    pub order: Sequence,
    pub verdict: Verdict,
    pub outside: Option<(Site, TypeId)>,
}

/// Grows a system, and judges what has grown by as many workers, with one index of the types for
/// both.
pub fn grow_judged<R: Threads + Sync, G: Gate>(
    resources: &Resources<'_, R, G>,
    sys: &System,
    crew: Crew,
) -> Result<(Grown, JudgedGrowth), NoMemory>
    ensures grew { IfOk result (λ r. IsGrownBy sys.now crew.workers.count r.0) }
    ensures judged { IfOk result (λ r. IsJudgedGrowth sys.now r.0.grid.tiles r.1) }
{
    let types = TypeIndex::build(resources.alloc, sys)?;
    let (grown, order) = grow_ordered(resources, sys, &types, crew)?;
    let judged = judge_growth(resources, sys, &types, &grown, order, crew.workers)?;
    Ok((grown, judged))
}

// The verdict on what has grown, whose canonical order may be known, by so many workers.
fn judge_growth<R: Threads + Sync, G: Gate>(
    resources: &Resources<'_, R, G>,
    sys: &System,
    types: &TypeIndex,
    grown: &Grown,
    known: Option<SeenOrder>,
    workers: WorkerCount,
) -> Result<JudgedGrowth, NoMemory>
    requires index { IsIndexOf sys.now types.now }
    requires grew { IsGrownBy sys.now workers.count grown.now }
    requires known { IfSome known (IsSeenOrder sys.now grown.now.grid.tiles) }
    ensures { IfOk result (IsJudgedGrowth sys.now grown.now.grid.tiles) }
{
    judge_grid(resources, sys, types, grown.grid(), known, workers)
}

/// The verdict on a full growth, whose canonical order may be known, by so many workers.
pub fn judge_grid<R: Threads + Sync, G: Gate>(
    resources: &Resources<'_, R, G>,
    sys: &System,
    types: &TypeIndex,
    grid: &Grid,
    known: Option<SeenOrder>,
    workers: WorkerCount,
) -> Result<JudgedGrowth, NoMemory>
    requires index { IsIndexOf sys.now types.now }
    requires area { grid.now.area ≡ sys.now.area }
    requires producible { IsProducible sys.now grid.now.tiles }
    requires closed { IsClosedInBox sys.now grid.now.tiles }
    requires known { IfSome known (IsSeenOrder sys.now grid.now.tiles) }
    ensures { IfOk result (IsJudgedGrowth sys.now grid.now.tiles) }
{
    grid.recall_sites();
    let judges = judges_of(&known, workers);
    let SeenOrder { order, clean } = known_or_found_order(resources, sys, grid, known, workers)?;
    let outside = types.least_open_outside(sys, grid);
    let laid = LaidOut {
        sys,
        seq: &order,
        grid,
        types,
    };
    let verdict = judge_grown(resources.rt, resources.alloc, &laid, clean, outside, judges)?;
    Ok(JudgedGrowth {
        order,
        verdict,
        outside,
    })
}

// How many look at the places of a growth: one where its order was seen on the way, since that ends
// at the first place that is held by more than the temperature.
fn judges_of(known: &Option<SeenOrder>, workers: WorkerCount) -> WorkerCount {
    if known.is_some() {
        WorkerCount::new(1)
    } else {
        workers
    }
}
