// Two rows of three tiles, replayed and judged.
ghost use Rattle.std.specs.Prelude.{◌<◌, ◌^◌, length};

use assembly::Grid;
use atam::Legality;
use fan_out::WorkerCount;
use replay_order::{ReplayStop, check_legal, replay, replay_by};
use std::alloc::Global;
use std::test::Fail;
use std::thread::Threads;
use tile_system::{NoMemory, Site, System};
use worked_systems::{MISMATCH, Spot, grid_of, lists, sequence_of, system};

// The places in their canonical order. The tile of type 4 is held by two sides of strength 1, and
// mismatches on a third.
const PLACES: [Spot; 6] = [
    (0, 0, 0),
    (1, 0, 1),
    (2, 0, 2),
    (0, 1, 3),
    (1, 1, 4),
    (2, 1, 5),
];

const REVERSED: [Spot; 6] = [
    (2, 1, 5),
    (1, 1, 4),
    (0, 1, 3),
    (2, 0, 2),
    (1, 0, 1),
    (0, 0, 0),
];

#[test]
fn replays_in_canonical_order(rt: HostRuntime) -> Result<(), Fail> {
    let sys = system(rt.alloc(), MISMATCH)?;
    let grid = grid_of(rt.alloc(), &sys, &REVERSED)?;
    let order = replay(rt.alloc(), &sys, &grid)?;
    assert!(rt; lists(&sys, &order, &PLACES));
    Ok(())
}

const STUCK: ReplayStop = ReplayStop::Stuck {
    left: 2,
    least: Site { x: 2, y: 0 },
};

// Places that are no producible assembly, and how their replay stops.
const STOPS: [(&[Spot], ReplayStop); 2] = [
    (&[(0, 0, 0), (2, 0, 2), (2, 1, 5)], STUCK),
    (&[(1, 0, 1)], ReplayStop::NoSeedThere),
];

// Whether the replay of these places stops so, by any number of workers.
fn stops_so<R: Threads + Sync>(
    rt: &R,
    alloc: Global,
    sys: &System,
    spots: &[Spot],
    stop: ReplayStop,
) -> Result<bool, NoMemory> {
    let grid = grid_of(alloc, sys, spots)?;
    for workers in [1, 2, 3, 4, 16] {
        let workers = WorkerCount::new(workers);
        if replay_by(rt, alloc, sys, &grid, workers).err() != Some(stop) {
            return Ok(false);
        }
    }
    Ok(replay(alloc, sys, &grid).err() == Some(stop))
}

#[test]
fn stops_without_a_seed_and_where_tiles_are_left(rt: HostRuntime) -> Result<(), Fail> {
    let sys = system(rt.alloc(), MISMATCH)?;
    for (spots, stop) in STOPS {
        assert!(rt; stops_so(&rt, rt.alloc(), &sys, spots, stop)?);
    }
    Ok(())
}

// The judgement of a sequence, and the number of tiles that stand in the grid then.
fn judgement(alloc: Global, sys: &System, spots: &[Spot]) -> Result<(Legality, u32), NoMemory>
    requires { length spots.now < 2 ^ 32 }
{
    let order = sequence_of(alloc, sys, spots)?;
    let mut scratch = Grid::make(alloc, sys.area())?;
    let legality = check_legal(sys, &order, &mut scratch);
    Ok((legality, scratch.count()))
}

// Places, the judgement, and how many tiles stand in the grid then.
const CASES: [(&[Spot], Legality, u32); 5] = [
    (&PLACES, Legality::Legal, 6),
    (&[(0, 0, 0), (1, 0, 1)], Legality::Legal, 2),
    (&[(1, 0, 1)], Legality::WrongSeed, 0),
    (
        &[(0, 0, 0), (1, 0, 1), (1, 0, 4)],
        Legality::SiteTaken { index: 2 },
        2,
    ),
    (
        &[(0, 0, 0), (1, 0, 1), (1, 1, 4)],
        Legality::TooWeak { index: 2, pull: 1 },
        2,
    ),
];

#[test]
fn judges_legality(rt: HostRuntime) -> Result<(), Fail> {
    let sys = system(rt.alloc(), MISMATCH)?;
    for (spots, legality, count) in CASES {
        let few = spots.len() < 10;
        assert!(rt; few);
        let judged = judgement(rt.alloc(), &sys, spots)?;
        assert!(rt; judged == (legality, count));
    }
    Ok(())
}
