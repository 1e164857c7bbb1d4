// Two seats of one table.
ghost use Rattle.std.specs.Prelude.{◌≡◌, ◌<◌, ◌-◌, ◌^◌, true, []};
ghost use Rattle.atam.specs.Sites.{InBox};
ghost use Rattle.atam.specs.TileSystem.{IsType};
ghost use Rattle.atam.specs.Placements.{SamePlacements};
ghost use Rattle.grow_core.specs.Steps.{IsScoutOf, Supports};
ghost use Rattle.site_table.specs.Seats.{IsSeatOf};
ghost use Rattle.grow_workers.specs.Workers.{OwnsAtLeast};

use assembly::{Grid, grid_of_seeds};
use attach_rule::pull;
use site_table::{Claimed, Grown, SiteSeat, SiteTable};
use std::alloc::Global;
use std::marker::Brand;
use std::sync::ledger::{Blank, Ledger};
use std::test::Fail;
use std::thread::{self, Threads};
use tile_io::Steps;
use tile_system::{NoMemory, Place, Placed, Site, System, TypeId};
use worked_systems::{CHAIN, RIVALS, system};

pub(crate) const BESIDE: Site = Site { x: 1, y: 0 };

const THIRD: Site = Site { x: 2, y: 0 };

// Whether the grid, which is what the seat has seen, supports the tile there.
fn is_held(
    sys: &System,
    table: &SiteTable,
    seat: &SiteSeat,
    seen: &Grid,
    site: Site,
    tile: TypeId,
) -> bool
    requires seat { IsSeatOf table.now seat.now }
    requires system { table.now.sys ≡ sys.now }
    requires seen { SamePlacements seat.now.scout.seen seen.now.tiles }
    requires kind { IsType sys.now tile }
    requires inside { InBox sys.now.area site }
    ensures { result ≡ true → Supports table.now.sys seat.now.scout site tile }
{
    seat.recall_possible();
    if pull(sys, seen, site, tile) < sys.tau() {
        return false;
    }
    true
}

// A claim, where the grid, which is what the seat has seen, supports it.
fn claim_counted<L: Ledger>(
    sys: &System,
    table: &SiteTable,
    seat: &mut SiteSeat,
    seen: &Grid,
    place: Place,
    blank: Blank,
) -> Option<Claimed>
    requires blank { (blank.name ≡ L.name) × (blank.parts ≡ L.parts) × (0 < blank.parts) }
    requires seat { IsSeatOf table.now seat.old }
    requires system { table.now.sys ≡ sys.now }
    requires seen { SamePlacements seat.old.scout.seen seen.now.tiles }
    ensures { IsSeatOf table.now seat.new }
{
    let Place { site, tile } = place;
    let area = sys.area();
    if !area.holds(site) || tile.0 >= sys.type_count() {
        return None;
    }
    if !is_held(sys, table, seat, seen, site, tile) {
        return None;
    }
    let mut steps: Steps<L> = Steps::open(blank);
    Some(table.claim(seat, site, tile, &mut steps))
}

// A claim at the site beside the seed. It picks the ledger.
pub(crate) fn claim_alone(
    sys: &System,
    table: &SiteTable,
    mut seat: SiteSeat,
    seen: &Grid,
    tile: TypeId,
) -> (SiteSeat, Option<Claimed>)
    requires seat { IsSeatOf table.now seat }
    requires system { table.now.sys ≡ sys.now }
    requires seen { SamePlacements seat.scout.seen seen.now.tiles }
    ensures { IsSeatOf table.now result.0 }
{
    let place = Place { site: BESIDE, tile };
    let claimed = claim_counted::<Brand>(sys, table, &mut seat, seen, place, Blank::new(1));
    (seat, claimed)
}

// The old seat, which has seen the seeds, and a new one.
pub(crate) fn split(table: &SiteTable, seat: SiteSeat, seeds: &Grid) -> (SiteSeat, SiteSeat)
    requires seat { IsSeatOf table.now seat }
    requires whole { IsScoutOf (2 ^ 64 - 1) table.now.sys.seeds [] seat.scout }
    requires seeds { SamePlacements table.now.sys.seeds seeds.now.tiles }
    ensures first { IsSeatOf table.now result.0 }
    ensures second { IsSeatOf table.now result.1 }
    ensures first_seen { SamePlacements result.0.scout.seen seeds.now.tiles }
    ensures second_seen { SamePlacements result.1.scout.seen seeds.now.tiles }
    ensures numbers { OwnsAtLeast 2 result.0.scout.owned }
{
    table.split(seat)
}

// Both seats claim one site, each in a thread of its own, and are joined.
fn race<R: Threads>(
    rt: &R,
    sys: &System,
    table: &SiteTable,
    first: SiteSeat,
    second: SiteSeat,
    seen: &Grid,
) -> (SiteSeat, Option<Claimed>, Option<Claimed>)
    requires first { IsSeatOf table.now first }
    requires second { IsSeatOf table.now second }
    requires system { table.now.sys ≡ sys.now }
    requires first_seen { SamePlacements first.scout.seen seen.now.tiles }
    requires second_seen { SamePlacements second.scout.seen seen.now.tiles }
    ensures { IsSeatOf table.now result.0 }
{
    let ((first, one), (second, other)) = thread::join(
        rt,
        move || -> (SiteSeat, Option<Claimed>)
            requires { IsSeatOf table.now first × (table.now.sys ≡ sys.now)
                × SamePlacements first.scout.seen seen.now.tiles }
            ensures { IsSeatOf table.entry.now result.0 }
        { claim_alone(sys, table, first, seen, TypeId(1)) },
        move || -> (SiteSeat, Option<Claimed>)
            requires { IsSeatOf table.now second × (table.now.sys ≡ sys.now)
                × SamePlacements second.scout.seen seen.now.tiles }
            ensures { IsSeatOf table.entry.now result.0 }
        { claim_alone(sys, table, second, seen, TypeId(2)) },
    );
    (table.join(first, second), one, other)
}

// The type whose claim won, if one of the two answers tells that it won and the other that its type
// stands there.
fn winner_of(one: Option<Claimed>, other: Option<Claimed>) -> Option<TypeId> {
    match (one, other) {
        (Some(Claimed::Won), Some(Claimed::Held(TypeId(1)))) => Some(TypeId(1)),
        (Some(Claimed::Held(TypeId(2))), Some(Claimed::Won)) => Some(TypeId(2)),
        _ => None,
    }
}

// A race from the seeds on: who won, and what the table leaves.
fn raced<R: Threads>(
    rt: &R,
    alloc: Global,
    sys: &System,
) -> Result<(Option<TypeId>, Grown), NoMemory> {
    let mut seen = grid_of_seeds(alloc, sys)?;
    let (table, seat) = SiteTable::make(alloc, sys)?;
    let (first, second) = split(&table, seat, &seen);
    let (seat, one, other) = race(rt, sys, &table, first, second, &seen);
    seen.clear();
    Ok((winner_of(one, other), table.close(seat, seen)))
}

// Whether the winner stands beside the seed, and its seat's number alone has won.
fn is_won_by(grown: &Grown, winner: TypeId) -> bool {
    let won = (grown.won(0), grown.won(63));
    let wanted = if winner == TypeId(1) { (1, 0) } else { (0, 1) };
    grown.grid().count() == 2 && grown.grid().at(BESIDE) == Some(winner) && won == wanted
}

#[test]
fn two_threads_race_for_a_site(rt: HostRuntime) -> Result<(), Fail> {
    let sys = system(rt.alloc(), RIVALS)?;
    let (winner, grown) = raced(&rt, rt.alloc(), &sys)?;
    assert!(rt; winner.is_some_and(|winner| is_won_by(&grown, winner)));
    Ok(())
}

// What stands at a site of the box.
fn look_at(sys: &System, table: &SiteTable, seat: &mut SiteSeat, site: Site) -> Option<TypeId>
    requires seat { IsSeatOf table.now seat.old }
    requires system { table.now.sys ≡ sys.now }
    ensures { IsSeatOf table.now seat.new }
{
    if !sys.area().holds(site) {
        return None;
    }
    table.look(seat, site)
}

// The answer to a claim at the site beside the seed, what another seat then sees there and at the
// third site, and the numbers of both seats.
fn read_back(
    alloc: Global,
    sys: &System,
) -> Result<(Option<Claimed>, [Option<TypeId>; 2], [u32; 2]), NoMemory> {
    let seeds = grid_of_seeds(alloc, sys)?;
    let (table, seat) = SiteTable::make(alloc, sys)?;
    let (first, mut second) = split(&table, seat, &seeds);
    let (first, claimed) = claim_alone(sys, &table, first, &seeds, TypeId(1));
    let beside = look_at(sys, &table, &mut second, BESIDE);
    let third = look_at(sys, &table, &mut second, THIRD);
    Ok((claimed, [beside, third], [first.number(), second.number()]))
}

#[test]
fn a_claim_is_read_back(rt: HostRuntime) -> Result<(), Fail> {
    let sys = system(rt.alloc(), CHAIN)?;
    let (claimed, seen, numbers) = read_back(rt.alloc(), &sys)?;
    assert_eq!(rt; claimed, Some(Claimed::Won));
    assert!(rt; seen == [Some(TypeId(1)), None]);
    assert!(rt; numbers == [0, 63]);
    Ok(())
}
