// A watcher beside a seat, and beside a scout, that claim between its frames.
ghost use Rattle.std.specs.Prelude.{◌≡◌, ◌<◌, []};
ghost use Rattle.site_table.specs.Seats.{IsSeatOf};

use crate::claims::{BESIDE, claim_alone, split};
use assembly::grid_of_seeds;
use frontier_seat::{First, Scout};
use site_table::{Claimed, SiteTable};
use std::alloc::Global;
use std::marker::Brand;
use std::sync::ledger::{Blank, Ledger};
use std::test::Fail;
use tile_io::Steps;
use tile_system::{NoMemory, Place, System, TypeId};
use watch_frames::{Frames, Watcher};
use worked_systems::{CHAIN, WIDE, system};

const CLAIMED: Place = Place {
    site: BESIDE,
    tile: TypeId(1),
};

// The answer to a claim of the old seat between two frames of a watcher with the new one, and these
// frames.
fn frames_about_a_claim(
    alloc: Global,
    sys: &System,
) -> Result<(Option<Claimed>, Frames), NoMemory> {
    let seeds = grid_of_seeds(alloc, sys)?;
    let own = seeds.copy()?;
    let (table, seat) = SiteTable::make(alloc, sys)?;
    let (first, second) = split(&table, seat, &seeds);
    let Ok(mut watcher) = Watcher::make(alloc, sys, second, own, 2) else {
        return Err(NoMemory);
    };
    watcher.frame(sys, &table);
    let (_first, claimed) = claim_alone(sys, &table, first, &seeds, CLAIMED.tile);
    watcher.frame(sys, &table);
    let (_second, _seen, frames) = watcher.end();
    Ok((claimed, frames))
}

// Whether the first of two frames has one place, and the second one the claimed tile behind it.
fn show_the_claim(frames: &Frames) -> bool {
    if frames.taken() != 2 || frames.count(1) != 2 {
        return false;
    }
    frames.count(0) == 1 && frames.place(1) == CLAIMED
}

#[test]
fn a_claim_is_in_the_next_frame(rt: HostRuntime) -> Result<(), Fail> {
    let sys = system(rt.alloc(), CHAIN)?;
    let (claimed, frames) = frames_about_a_claim(rt.alloc(), &sys)?;
    assert_eq!(rt; claimed, Some(Claimed::Won));
    assert!(rt; show_the_claim(&frames));
    Ok(())
}

// Half of the wide box.
const HALF: u32 = 8192;

// Takes three frames: before the scout claims a tile, behind half a box of claims, and behind as
// many more.
fn take_counted<L: Ledger>(
    sys: &System,
    table: &SiteTable,
    scout: &mut Scout<'_>,
    watcher: &mut Watcher,
    blank: Blank,
)
    requires blank { (blank.name ≡ L.name) × (blank.parts ≡ L.parts) × (0 < blank.parts) }
    requires system { table.now.sys ≡ sys.now }
    requires scout { IsSeatOf table.now scout.old.seat }
    requires watcher { IsSeatOf table.now watcher.old.seat }
    requires none { watcher.old.frames.counts ≡ [] }
    requires three { watcher.old.many ≡ 3 }
{
    let mut steps: Steps<L> = Steps::open(blank);
    watcher.frame(sys, table);
    scout.burst(sys, table, &mut First, 0, 1, HALF, &mut steps);
    watcher.frame(sys, table);
    scout.burst(sys, table, &mut First, 0, 1, HALF, &mut steps);
    watcher.frame(sys, table);
}

// It picks the ledger.
fn take_three(sys: &System, table: &SiteTable, scout: &mut Scout<'_>, watcher: &mut Watcher)
    requires system { table.now.sys ≡ sys.now }
    requires scout { IsSeatOf table.now scout.old.seat }
    requires watcher { IsSeatOf table.now watcher.old.seat }
    requires none { watcher.old.frames.counts ≡ [] }
    requires three { watcher.old.many ≡ 3 }
{
    take_counted::<Brand>(sys, table, scout, watcher, Blank::new(1));
}

// Three frames of a watcher with the new seat beside a scout with the old one.
fn three_frames(alloc: Global, sys: &System) -> Result<Frames, NoMemory> {
    let seeds = grid_of_seeds(alloc, sys)?;
    let own = seeds.copy()?;
    let (table, seat) = SiteTable::make(alloc, sys)?;
    let (first, second) = split(&table, seat, &seeds);
    let Ok(mut scout) = Scout::make(alloc, sys, first, seeds) else {
        return Err(NoMemory);
    };
    let Ok(mut watcher) = Watcher::make(alloc, sys, second, own, 3) else {
        return Err(NoMemory);
    };
    take_three(sys, &table, &mut scout, &mut watcher);
    let (_seat, _seen, frames) = watcher.end();
    Ok(frames)
}

// Whether the frames have all tiles that were there.
fn fill_the_wide_box(frames: &Frames) -> bool {
    if frames.taken() != 3 {
        return false;
    }
    frames.count(0) == 1 && frames.count(1) == HALF + 1 && frames.count(2) == 2 * HALF
}

// A box of more sites than a burst of a worker has claims.
#[test]
fn each_site_of_a_wide_box_is_looked_at(rt: HostRuntime) -> Result<(), Fail> {
    let sys = system(rt.alloc(), WIDE)?;
    let frames = three_frames(rt.alloc(), &sys)?;
    assert!(rt; fill_the_wide_box(&frames));
    Ok(())
}
