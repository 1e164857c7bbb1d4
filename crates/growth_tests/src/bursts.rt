// Bursts of one scout.
ghost use Rattle.std.specs.Prelude.{◌≡◌, ◌<◌};
ghost use Rattle.site_table.specs.Seats.{IsSeatOf};

use assembly::grid_of_seeds;
use frontier_seat::{Burst, First, Scout};
use site_table::SiteTable;
use std::alloc::Global;
use std::marker::Brand;
use std::sync::ledger::{Blank, Ledger};
use std::test::Fail;
use tile_io::Steps;
use tile_system::{NoMemory, Placed, System};
use worked_systems::{SMALL_COUNTER, system};

// How bursts of at most so many claims end, one after another on a new table, and how many sites
// are seen then: each step is a claim, and each claim is a site.
fn bursts_counted<L: Ledger>(
    alloc: Global,
    sys: &System,
    most: [u32; 2],
    blank: Blank,
) -> Result<[(Burst, u32); 2], NoMemory>
    requires blank { (blank.name ≡ L.name) × (blank.parts ≡ L.parts) × (0 < blank.parts) }
{
    let seen = grid_of_seeds(alloc, sys)?;
    let (table, seat) = SiteTable::make(alloc, sys)?;
    let Ok(mut scout) = Scout::make(alloc, sys, seat, seen) else {
        return Err(NoMemory);
    };
    let mut steps: Steps<L> = Steps::open(blank);
    let one = scout.burst(sys, &table, &mut First, 0, 1, most[0], &mut steps);
    let first = scout.seen().count();
    let two = scout.burst(sys, &table, &mut First, 0, 1, most[1], &mut steps);
    Ok([(one, first), (two, scout.seen().count())])
}

// They pick the ledger.
fn bursts(alloc: Global, sys: &System, most: [u32; 2]) -> Result<[(Burst, u32); 2], NoMemory> {
    bursts_counted::<Brand>(alloc, sys, most, Blank::new(1))
}

#[test]
fn bursts_end_at_their_claims(rt: HostRuntime) -> Result<(), Fail> {
    let sys = system(rt.alloc(), SMALL_COUNTER)?;
    for (most, ends) in [
        ([5, 100], [(Burst::Spent, 6), (Burst::Quiet, 16)]),
        ([15, 0], [(Burst::Quiet, 16), (Burst::Quiet, 16)]),
        ([0, 14], [(Burst::Spent, 1), (Burst::Spent, 15)]),
    ] {
        assert!(rt; bursts(rt.alloc(), &sys, most)? == ends);
    }
    Ok(())
}
