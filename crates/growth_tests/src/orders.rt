// The canonical order of grown assemblies by several workers.
ghost use Rattle.std.specs.Prelude.{◌≡◌, IfOk};
ghost use Rattle.atam.specs.Assembly.{Fits};

use assembly::{Grid, Sequence};
use fan_out::WorkerCount;
use grow_workers::{Lent, SeenOrder, grow_seeing_order};
use replay_order::{ReplayStop, replay, replay_by};
use site_table::Grown;
use std::alloc::{AllocError, Global};
use std::test::Fail;
use std::thread::Threads;
use tile_system::{NoMemory, Placed, System};
use type_index::TypeIndex;
use worked_systems::{
    CHAIN, CountingGate, FLIPPER, FULL, LIMITS, MISMATCH, NULL_GLUES, RIVALS, SIERPINSKI, SINGLE,
    SMALL_COUNTER, SQUARE, WIDE, system,
};

// A box whose seed is in its middle.
const MIDDLE: &str = "tiles 1\ntau 1\nglue a 1\ntile T a a a a\nbox 0 0 7 7\nseed 3 4 T\nend\n";

// A path whose last tile is below the one that holds it.
const HOOK: &str =
    "tiles 1\ntau 1\nglue a 1\nglue b 1\nglue c 1\nglue d 1\nglue e 1\nglue f 1\nglue g 1\n\
    tile S - a - -\ntile A - b - a\ntile B c - - b\ntile C d - c -\ntile D - - d e\n\
    tile E - e - f\ntile F - f g -\ntile G g - - -\nbox 0 0 2 2\nseed 0 0 S\nend\n";

const TEXTS: [&str; 14] = [
    SINGLE,
    CHAIN,
    RIVALS,
    SQUARE,
    SIERPINSKI,
    FULL,
    WIDE,
    MISMATCH,
    SMALL_COUNTER,
    LIMITS,
    NULL_GLUES,
    FLIPPER,
    MIDDLE,
    HOOK,
];

// In these one type alone attaches at each open site, so that any workers see the canonical order.
const SURE_TEXTS: [&str; 4] = [CHAIN, SIERPINSKI, SMALL_COUNTER, MIDDLE];

// In these several may attach at a site, or none.
const OTHER_TEXTS: [&str; 4] = [SINGLE, RIVALS, MISMATCH, FLIPPER];

// Whether two sequences have the same places.
fn are_same(one: &Sequence, other: &Sequence) -> bool {
    if one.len() != other.len() {
        return false;
    }
    for index in 0..one.len() {
        if one.get(index) != other.get(index) {
            return false;
        }
    }
    true
}

// Whether so many workers find this order of the grid.
fn is_found<R: Threads + Sync>(
    rt: &R,
    alloc: Global,
    sys: &System,
    grid: &Grid,
    order: &Sequence,
) -> Result<bool, ReplayStop>
    requires area { grid.now.area ≡ sys.now.area }
    requires fits { Fits sys.now grid.now.tiles }
{
    for workers in [1, 2, 3, 4, 16] {
        let workers = WorkerCount::new(workers);
        let found = replay_by(rt, alloc, sys, grid, workers)?;
        if !are_same(&found, order) {
            return Ok(false);
        }
    }
    Ok(are_same(&replay(alloc, sys, grid)?, order))
}

// Whether one worker sees the order in which the system grows, and any number of workers find it.
fn orders_agree<R: Threads + Sync>(
    rt: &R,
    alloc: Global,
    sys: &System,
) -> Result<bool, ReplayStop> {
    let (grown, seen, came) = grown_seeing(rt, alloc, sys, WorkerCount::new(1))?;
    let Some(seen) = seen else {
        return Ok(false);
    };
    Ok(came && is_found(rt, alloc, sys, grown.grid(), &seen.order)?)
}

#[test]
fn any_workers_tell_the_canonical_order(rt: HostRuntime) -> Result<(), Fail> {
    for text in TEXTS {
        let sys = system(rt.alloc(), text)?;
        assert!(rt; orders_agree(&rt, rt.alloc(), &sys)?);
    }
    Ok(())
}

// What a system grows into by so many workers, its canonical order where they see it, and whether
// each came to the gate once.
fn grown_seeing<R: Threads + Sync>(
    rt: &R,
    alloc: Global,
    sys: &System,
    workers: WorkerCount,
) -> Result<(Grown, Option<SeenOrder>, bool), NoMemory>
    ensures area { IfOk result (λ r. r.0.grid.area ≡ sys.now.area) }
    ensures fits { IfOk result (λ r. Fits sys.now r.0.grid.tiles) }
{
    let gate = CountingGate::make();
    let types = TypeIndex::build(alloc, sys)?;
    let lent = Lent {
        sys,
        types: &types,
        gate: &gate,
    };
    let (grown, seen) = grow_seeing_order(rt, alloc, &lent, workers)?;
    grown.grid().recall_sites();
    Ok((grown, seen, gate.saw_each_once(workers.get())))
}

// Whether any number of workers see the canonical order, or none where it needn't be seen.
fn is_seen<R: Threads + Sync>(
    rt: &R,
    alloc: Global,
    sys: &System,
    is_sure: bool,
) -> Result<bool, ReplayStop> {
    for workers in [1, 2, 4] {
        let (grown, seen, came) = grown_seeing(rt, alloc, sys, WorkerCount::new(workers))?;
        let order = replay(alloc, sys, grown.grid())?;
        let is_right = match &seen {
            Some(seen) => are_same(&seen.order, &order),
            None => !is_sure,
        };
        if !came || !is_right {
            return Ok(false);
        }
    }
    Ok(true)
}

#[test]
fn any_workers_see_the_canonical_order(rt: HostRuntime) -> Result<(), Fail> {
    for text in SURE_TEXTS {
        let sys = system(rt.alloc(), text)?;
        assert!(rt; is_seen(&rt, rt.alloc(), &sys, true)?);
    }
    for text in OTHER_TEXTS {
        let sys = system(rt.alloc(), text)?;
        assert!(rt; is_seen(&rt, rt.alloc(), &sys, false)?);
    }
    Ok(())
}

// Two types that both attach at each site, and so many that attach nowhere.
fn rivals_beside_idle(alloc: Global, idle: u32) -> Result<String, AllocError> {
    let mut text = String::from_str(
        alloc,
        "tiles 1\ntau 1\nglue a 1\ntile T a a a a\ntile U a a a a\n",
    )?;
    for number in 0..idle {
        text.push_str(format!(in alloc; "tile I{number} - - - -\n")?.as_str())?;
    }
    text.push_str("box 0 0 5 5\nseed 2 3 T\nend\n")?;
    Ok(text)
}

// Where types are many, others than the first place none that it does not pick.
#[test]
fn any_workers_see_the_order_of_many_types(rt: HostRuntime) -> Result<(), Fail> {
    let text = rivals_beside_idle(rt.alloc(), 4095)?;
    let sys = system(rt.alloc(), text.as_str())?;
    assert!(rt; is_seen(&rt, rt.alloc(), &sys, true)?);
    Ok(())
}

#[test]
fn any_workers_see_that_tiles_come_clean(rt: HostRuntime) -> Result<(), Fail> {
    let sys = system(rt.alloc(), SIERPINSKI)?;
    for workers in [1, 3] {
        let workers = WorkerCount::new(workers);
        let (_grown, seen, _came) = grown_seeing(&rt, rt.alloc(), &sys, workers)?;
        assert!(rt; seen.is_some_and(|seen| seen.clean));
    }
    Ok(())
}
