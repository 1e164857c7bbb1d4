// Worker 0, when it goes on alone.
ghost use Rattle.std.specs.Prelude.{◌≡◌, ◌<◌, ◌≤◌, length, None, IfOk, IfSome};
ghost use Rattle.atam.specs.Placements.{SamePlacements};
ghost use Rattle.atam.specs.Growth.{IsClosedInBox};
ghost use Rattle.assembly.specs.Grids.{TileGrid};
ghost use Rattle.frontier_seat.specs.Growths.{GrowsOn};
ghost use Rattle.site_table.specs.Seats.{IsSeatOf, SeatValue};
ghost use Rattle.grow_workers.specs.Inner.Sharing.{HasSeen, IsLogOf, IsSeenPart, IsShared, TeamGrew};

use crate::leavings::{Harvest, Part, part_of, scout_of};
use crate::shared::Shared;
use assembly::Grid;
use frontier_seat::Scout;
use site_table::SiteSeat;
use std::alloc::Global;
use std::marker::Brand;
use std::sync::ledger::{Blank, Ledger};
use tile_io::{Gate, Steps};
use tile_system::NoMemory;

// All that is left to be done after all workers, by worker 0: it goes on until the box is closed, as
// it did before if it went in canonical order.
pub(crate) fn end<G: Gate>(
    alloc: Global,
    shared: &Shared<'_, G>,
    team: Harvest,
) -> Result<Harvest, NoMemory>
    requires shared { IsShared shared.now }
    requires part { IsSeenPart shared.now team.part }
    requires few { team.part.won ≤ length team.part.seat.scout.mine }
    ensures grew { IfOk result (λ h. (old : SeatValue) (start : TileGrid) →
        TeamGrew shared.now.sys.now old start team → TeamGrew shared.now.sys.now old start h) }
    ensures closed { IfOk result (λ h. IsClosedInBox shared.now.sys.now h.part.grid.tiles) }
    ensures log { IfOk result (λ h. IfSome h.part.log (IsLogOf shared.now.sys.now h.part.grid)) }
    ensures count { IfOk result (λ h. length h.others.items ≡ length team.others.items) }
{
    if team.part.log.is_some() {
        return Ok(team);
    }
    let Harvest {
        part: before,
        others,
    } = team;
    shared.sys.recall_valid();
    before.seat.recall_possible();
    let mut part = sweep(alloc, shared, before.seat, before.grid)?;
    part.seat.recall_possible();
    part.won = before.won + part.won;
    Ok(Harvest { part, others })
}

// One sweep. It picks the ledger.
fn sweep<G: Gate>(
    alloc: Global,
    shared: &Shared<'_, G>,
    seat: SiteSeat,
    seen: Grid,
) -> Result<Part, NoMemory>
    requires shared { IsShared shared.now }
    requires seen { HasSeen shared.now seat seen }
    ensures goes { IfOk result (λ r. GrowsOn (record { seat = seat; grid = seen; won = 0 })
        (record { seat = r.seat; grid = r.grid; won = r.won })) }
    ensures closed { IfOk result (λ r. IsClosedInBox shared.now.sys.now r.grid.tiles) }
    ensures seen { IfOk result (λ r. SamePlacements r.seat.scout.seen r.grid.tiles) }
    ensures log { IfOk result (λ r. r.log ≡ None) }
{
    let mut scout = scout_of(alloc, shared, seat, seen)?;
    sweep_counted::<Brand, G>(shared, &mut scout, Blank::new(1));
    Ok(part_of(scout))
}

fn sweep_counted<L: Ledger, G: Gate>(shared: &Shared<'_, G>, scout: &mut Scout<'_>, blank: Blank)
    requires blank { (blank.name ≡ L.name) × (blank.parts ≡ L.parts) × (0 < blank.parts) }
    requires shared { IsShared shared.now }
    requires seat { IsSeatOf shared.now.table.now scout.old.seat }
    ensures goes { GrowsOn scout.old scout.new }
    ensures closed { IsClosedInBox shared.now.sys.now scout.new.grid.tiles }
{
    let mut picks = shared.goes.picks(0);
    let mut steps: Steps<L> = Steps::open(blank);
    scout.sweep(shared.sys, shared.table, &mut picks, &mut steps);
}
