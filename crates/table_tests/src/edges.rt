// A scout at the edges of its bands.
ghost use Rattle.std.specs.Prelude.{◌≡◌, ◌<◌, IfOk};
ghost use Rattle.atam.specs.Placements.{SamePlacements};
ghost use Rattle.site_table.specs.Seats.{IsSeatOf};

use crate::claims::split;
use assembly::{Grid, grid_of_seeds};
use frontier_seat::{First, Scout};
use site_table::{SiteSeat, SiteTable};
use std::alloc::Global;
use std::marker::Brand;
use std::sync::ledger::{Blank, Ledger};
use std::test::Fail;
use tile_io::Steps;
use tile_system::{NoMemory, System};
use worked_systems::{WIDE, system};

// A scout of the seat.
fn scout_of<'i>(
    alloc: Global,
    sys: &System,
    seat: SiteSeat,
    seen: Grid,
) -> Result<Scout<'i>, NoMemory>
    requires system { seat.sys ≡ sys.now }
    requires area { seen.area ≡ sys.now.area }
    requires seen { SamePlacements seat.scout.seen seen.tiles }
    ensures { IfOk result (λ scout. scout.seat ≡ seat) }
{
    match Scout::make(alloc, sys, seat, seen) {
        Ok(scout) => Ok(scout),
        Err(_parts) => Err(NoMemory),
    }
}

// The scout fills the box.
fn fill_counted<L: Ledger>(sys: &System, table: &SiteTable, scout: &mut Scout<'_>, blank: Blank)
    requires blank { (blank.name ≡ L.name) × (blank.parts ≡ L.parts) × (0 < blank.parts) }
    requires seat { IsSeatOf table.now scout.old.seat }
    requires system { table.now.sys ≡ sys.now }
{
    let mut steps: Steps<L> = Steps::open(blank);
    scout.sweep(sys, table, &mut First, &mut steps);
}

// A scout of the seat fills the box. It picks the ledger.
fn fill(
    alloc: Global,
    sys: &System,
    table: &SiteTable,
    seat: SiteSeat,
    seen: Grid,
) -> Result<(), NoMemory>
    requires seat { IsSeatOf table.now seat }
    requires system { table.now.sys ≡ sys.now }
    requires area { seen.area ≡ sys.now.area }
    requires seen { SamePlacements seat.scout.seen seen.tiles }
{
    let mut scout = scout_of(alloc, sys, seat, seen)?;
    fill_counted::<Brand>(sys, table, &mut scout, Blank::new(1));
    Ok(())
}

// How many sites a scout of the seat has seen before and after a look at the edges of its bands,
// and whether it has sites of its own then.
fn looked(
    alloc: Global,
    sys: &System,
    table: &SiteTable,
    seat: SiteSeat,
    seen: Grid,
) -> Result<(u32, u32, bool), NoMemory>
    requires seat { IsSeatOf table.now seat }
    requires system { table.now.sys ≡ sys.now }
    requires area { seen.area ≡ sys.now.area }
    requires seen { SamePlacements seat.scout.seen seen.tiles }
{
    let mut scout = scout_of(alloc, sys, seat, seen)?;
    let before = scout.seen().count();
    scout.see_edges(sys, table, 1, 2);
    Ok((before, scout.seen().count(), scout.has_own()))
}

// What the second of two scouts tells once the first has filled the box.
fn edges(alloc: Global, sys: &System) -> Result<(u32, u32, bool), NoMemory> {
    let seeds = grid_of_seeds(alloc, sys)?;
    let copy = seeds.copy()?;
    let (table, seat) = SiteTable::make(alloc, sys)?;
    let (first, second) = split(&table, seat, &seeds);
    fill(alloc, sys, &table, first, seeds)?;
    looked(alloc, sys, &table, second, copy)
}

// The second of two workers has the rows from 32 to 63 and from 96 to 127: beside them are three
// rows of 128 sites.
#[test]
fn a_scout_sees_what_another_placed_at_its_edges(rt: HostRuntime) -> Result<(), Fail> {
    let sys = system(rt.alloc(), WIDE)?;
    assert_eq!(rt; edges(rt.alloc(), &sys)?, (1, 1 + 3 * 128, true));
    Ok(())
}
