// Whole growths by several workers, and growths on a table.
ghost use Rattle.std.specs.Prelude.{◌≤◌};

use assembly::{Grid, grid_of_seeds};
use grow_workers::{grow, grow_on, worker_number};
use site_table::{Grown, SiteTable};
use std::alloc::Global;
use std::test::Fail;
use std::thread::Threads;
use tile_io::OpenGate;
use tile_system::{NoMemory, Placed, Site, System};
use worked_systems::{CountingGate, SMALL_COUNTER, WIDE, system};

// Whether two grids over a box of two by eight sites have the same tiles.
fn are_same(one: &Grid, other: &Grid) -> bool {
    for y in 0..8 {
        for x in 0..2 {
            if one.at(Site { x, y }) != other.at(Site { x, y }) {
                return false;
            }
        }
    }
    true
}

// Whether so many workers with this choice grow the same tiles, and each comes to the gate once.
fn is_same_growth<R: Threads + Sync>(
    rt: &R,
    alloc: Global,
    sys: &System,
    first: &Grid,
    workers: u32,
    choice: u64,
) -> Result<bool, NoMemory>
    requires some { 1 ≤ workers }
    requires few { workers ≤ 16 }
{
    let gate = CountingGate::make();
    let grown = grow(rt, alloc, sys, workers, choice, &gate)?;
    Ok(are_same(first, grown.grid()) && gate.saw_each_once(workers))
}

// Whether each number of workers grows the same tiles at this choice.
fn are_same_growths<R: Threads + Sync>(
    rt: &R,
    alloc: Global,
    sys: &System,
    first: &Grid,
    choice: u64,
) -> Result<bool, NoMemory> {
    for workers in [1, 2, 4, 16] {
        if !is_same_growth(rt, alloc, sys, first, workers, choice)? {
            return Ok(false);
        }
    }
    Ok(true)
}

#[test]
fn any_workers_grow_the_counter(rt: HostRuntime) -> Result<(), Fail> {
    let sys = system(rt.alloc(), SMALL_COUNTER)?;
    let grown = grow(&rt, rt.alloc(), &sys, 1, 0, &OpenGate)?;
    assert_eq!(rt; grown.grid().count(), 16);
    for choice in [0, 1, u64::MAX] {
        assert!(rt; are_same_growths(&rt, rt.alloc(), &sys, grown.grid(), choice)?);
    }
    Ok(())
}

// Whether the list has what the number of each worker has won, which is all but the seed.
fn are_wins(grown: &Grown, wins: &[u32], workers: usize) -> bool {
    let mut total = 1u32;
    for (worker, won) in wins.iter().enumerate() {
        if worker >= 64 || grown.won(worker_number(worker as u32)) != *won {
            return false;
        }
        total = total.saturating_add(*won);
    }
    wins.len() == workers && total == grown.grid().count()
}

// Whether so many workers grow the same tiles on a table, hand back its seat with all its numbers,
// and list what each has won, and each comes to the gate once.
fn is_same_on_a_table<R: Threads + Sync>(
    rt: &R,
    alloc: Global,
    sys: &System,
    first: &Grid,
    workers: u32,
) -> Result<bool, NoMemory>
    requires some { 1 ≤ workers }
    requires few { workers ≤ 16 }
{
    let seeds = grid_of_seeds(alloc, sys)?;
    let (table, seat) = SiteTable::make(alloc, sys)?;
    let gate = CountingGate::make();
    let (seat, grid, wins) = grow_on(rt, alloc, sys, &table, seat, seeds, workers, 0, &gate)?;
    let owns_all = seat.owned() == u64::MAX;
    let mut cleared = grid.copy()?;
    cleared.clear();
    let grown = table.close(seat, cleared);
    Ok(
        owns_all
            && are_same(first, &grid)
            && are_same(first, grown.grid())
            && are_wins(&grown, &wins, workers as usize)
            && gate.saw_each_once(workers),
    )
}

#[test]
fn any_workers_grow_on_a_table(rt: HostRuntime) -> Result<(), Fail> {
    let sys = system(rt.alloc(), SMALL_COUNTER)?;
    let grown = grow(&rt, rt.alloc(), &sys, 1, 0, &OpenGate)?;
    for workers in [1, 2, 4, 16] {
        assert!(rt; is_same_on_a_table(&rt, rt.alloc(), &sys, grown.grid(), workers)?);
    }
    Ok(())
}

#[test]
fn two_workers_fill_a_wide_box(rt: HostRuntime) -> Result<(), Fail> {
    let sys = system(rt.alloc(), WIDE)?;
    let grown = grow(&rt, rt.alloc(), &sys, 2, 0, &OpenGate)?;
    assert_eq!(rt; grown.into_grid().count(), 16384);
    Ok(())
}
