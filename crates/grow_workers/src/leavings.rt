// What workers leave.
ghost use Rattle.std.specs.Prelude.{◌≡◌, None, IfOk};
ghost use Rattle.atam.specs.Placements.{SamePlacements};
ghost use Rattle.grow_workers.specs.Inner.Sharing.{HasSeen, IsShared};

use crate::shared::Shared;
use assembly::Grid;
use frontier_seat::{ClaimLog, Scout};
use site_table::SiteSeat;
use std::alloc::Global;
use tile_io::Gate;
use tile_system::NoMemory;

// What one worker leaves: its seat, what it has seen, how often it has won, and the log of its
// claims where it went in canonical order until the box was closed.
#[derive(Drop)]
pub(crate) struct Part {
    pub seat: SiteSeat,
    pub grid: Grid,
    pub won: u32,
    pub log: Option<ClaimLog>,
}

// What several leave: the part of worker 0, to whose seat and grid those of the others have come,
// and how often each of them has won, from worker 1 on.
#[derive(Drop)]
pub(crate) struct Harvest {
    pub part: Part,
    pub others: Vec<u32>,
}

// A scout with what was seen, which looks types up in the index of all.
pub(crate) fn scout_of<'a, G: Gate>(
    alloc: Global,
    shared: &Shared<'a, G>,
    seat: SiteSeat,
    seen: Grid,
) -> Result<Scout<'a>, NoMemory>
    requires shared { IsShared shared.now }
    requires seen { HasSeen shared.now seat seen }
    ensures { IfOk result (λ scout. scout ≡ record { seat = seat; grid = seen; won = 0 }) }
{
    match Scout::with_index(alloc, shared.sys, shared.types, seat, seen) {
        Ok(scout) => Ok(scout),
        Err(_parts) => Err(NoMemory),
    }
}

// What a scout leaves.
pub(crate) fn part_of(scout: Scout<'_>) -> Part
    ensures part { scout.entry
        ≡ record { seat = result.seat; grid = result.grid; won = result.won } }
    ensures seen { SamePlacements result.seat.scout.seen result.grid.tiles }
    ensures log { result.log ≡ None }
{
    let won = scout.won();
    let (seat, grid) = scout.end();
    Part {
        seat,
        grid,
        won,
        log: None,
    }
}
