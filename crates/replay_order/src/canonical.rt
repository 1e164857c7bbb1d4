// The canonical order of an assembly.
ghost use Rattle.std.specs.Prelude.{◌≡◌, ◌≢◌, ◌↔◌, ◌≤◌, ◌+◌, ◌-◌, IsOk, [], length, Some, IfOk, IfSome};
ghost use Rattle.std.specs.Bool.{OnTrue, OnFalse};
ghost use Rattle.atam.specs.Placements.{HasDistinctSites, tile_at};
ghost use Rattle.atam.specs.TileSystem.{IsValid};
ghost use Rattle.atam.specs.Assembly.{Fits};
ghost use Rattle.atam.specs.Growth.{IsProducible};
ghost use Rattle.assembly.specs.Cells.{cell_count};
ghost use Rattle.replay_order.specs.Inner.Replays.{AreLacks, AreReadySites};
ghost use Rattle.replay_order.specs.Inner.Spans.{standing, CanList, HaveStood, IsSpanListed};
ghost use Rattle.replay_order.specs.ReplayAnswers.{HoldsSeeds, LacksSeed, IsReplayAnswer, IsWholeOrder};

use crate::bonds::Bonds;
use crate::in_turn::list_in_turn;
use crate::rest::least_left;
use crate::stop::ReplayStop;
use crate::waiting::WaitingSites;
use assembly::{Grid, PlaceLog, Row, Sequence, site_index};
use std::alloc::Global;
use tile_system::{NoMemory, Place, Placed, System};

/// The canonical sequence of a producible grid: the seeds, and then at each step the place with
/// the least site that the places so far hold. It is legal, and has exactly the grid's placements.
/// It takes memory for the sequence, some two bytes for each site of the box, and sixteen for each
/// type. Its time grows with the number of tiles, of sites of the box, and of types.
pub fn replay(alloc: Global, sys: &System, grid: &Grid) -> Result<Sequence, ReplayStop>
    requires area { grid.now.area ≡ sys.now.area }
    requires fits { Fits sys.now grid.now.tiles }
    ensures answer { IsReplayAnswer sys.now grid.now.tiles result }
    ensures no_seed_there { (result ≡ Err ReplayStop.NoSeedThere) ↔
        LacksSeed sys.now grid.now.tiles }
    ensures producible { result ≢ Err ReplayStop.NoMemory →
        IsOk result ↔ IsProducible sys.now grid.now.tiles }
{
    sys.recall_valid();
    let area = grid.area();
    if !holds_seeds(sys, grid) {
        return Err(ReplayStop::NoSeedThere);
    }
    let bonds = Bonds::make(alloc, sys)?;
    if let Some(order) = order_in_turn(alloc, sys, &bonds, grid)? {
        return Ok(order);
    }
    let mut log = PlaceLog::make(alloc, sys)?;
    let sites = area.width() as usize * area.height() as usize;
    let waiting = list_span(alloc, &bonds, grid, &mut log, 0, sites)?;
    let order = log.into_sequence();
    let left = grid.count() - order.len() as u32;
    if left == 0 {
        return Ok(order);
    }
    let least = least_left(&area, grid, &waiting).unwrap();
    Err(ReplayStop::Stuck { left, least })
}

// Whether each seed stands in the grid.
pub(crate) fn holds_seeds(sys: &System, grid: &Grid) -> bool
    ensures held { OnTrue result (HoldsSeeds sys.now grid.now.tiles) }
    ensures lacks { OnFalse result (LacksSeed sys.now grid.now.tiles) }
    ensures distinct { HasDistinctSites sys.now.seeds }
{
    sys.seeds()
        .iter()
        .all(|seed| grid.at(seed.site) == Some(seed.tile))
}

// The canonical sequence of a grid that holds the seeds, if all other tiles come by the numbers of
// their sites.
fn order_in_turn(
    alloc: Global,
    sys: &System,
    bonds: &Bonds,
    grid: &Grid,
) -> Result<Option<Sequence>, NoMemory>
    requires can { CanList sys.now grid.now }
    requires bonds { bonds.now ≡ sys.now }
    ensures { IfOk result (λ found. IfSome found (IsWholeOrder sys.now grid.now.tiles)) }
{
    let area = grid.area();
    let sites = area.width() as usize * area.height() as usize;
    let mut log = PlaceLog::make(alloc, sys)?;
    let _reached = list_in_turn(alloc, bonds, grid, &mut log, 0, sites)?;
    let order = log.into_sequence();
    if order.len() < grid.count() as usize {
        return Ok(None);
    }
    Ok(Some(order))
}

// Lists what the canonical order has of the sites with numbers from one to before another, where
// the seeds and each tile before these sites stand, and hands out what the sites lack then.
pub(crate) fn list_span(
    alloc: Global,
    bonds: &Bonds,
    grid: &Grid,
    log: &mut PlaceLog,
    first: usize,
    end: usize,
) -> Result<WaitingSites, NoMemory>
    requires area { grid.now.area ≡ bonds.now.area }
    requires fits { Fits bonds.now grid.now.tiles }
    requires distinct { HasDistinctSites grid.now.tiles }
    requires seeded { HoldsSeeds bonds.now grid.now.tiles }
    requires span { (first ≤ end) × (end ≤ cell_count bonds.now.area) }
    requires room { length log.old.places + (end - first) ≤ log.old.room }
    ensures { IfOk result
        (IsSpanListed bonds.now grid.now.tiles first end log.old.places log.new.places) }
{
    let sys = bonds.system();
    let area = grid.area();
    let mut waiting = WaitingSites::make(alloc, area, sys.tau(), sys.seeds(), first, end)?;
    stand_seeds(bonds, grid, &mut waiting, first);
    stand_row_below(bonds, grid, &mut waiting, first);
    list_ready(bonds, grid, log, &mut waiting);
    Ok(waiting)
}

// The seeds at sites with numbers from the first one on stand. The others do with the tiles below.
fn stand_seeds(bonds: &Bonds, grid: &Grid, waiting: &mut WaitingSites, first: usize)
    requires valid { IsValid bonds.now }
    requires area { grid.now.area ≡ bonds.now.area }
    requires fits { Fits bonds.now grid.now.tiles }
    requires seeded { HoldsSeeds bonds.now grid.now.tiles }
    requires lacks { AreLacks bonds.now grid.now.tiles [] waiting.old }
    requires ready { AreReadySites bonds.now grid.now.tiles [] waiting.old }
    ensures span { (waiting.new.first ≡ waiting.old.first) × (waiting.new.end ≡ waiting.old.end) }
    ensures stood { HaveStood bonds.now grid.now.tiles first bonds.now.seeds 0 waiting.new }
{
    let area = grid.area();
    for seed in bonds.system().seeds() {
        let number = site_index(&area, seed.site);
        if number < first {
            continue;
        }
        waiting.lower_beside(bonds, grid, *seed, number);
    }
}

// All tiles at the sites below the first one that waits stand; those in the row before it, since no
// other one is beside a site that waits.
fn stand_row_below(bonds: &Bonds, grid: &Grid, waiting: &mut WaitingSites, first: usize)
    requires valid { IsValid bonds.now }
    requires area { grid.now.area ≡ bonds.now.area }
    requires fits { Fits bonds.now grid.now.tiles }
    requires seeded { HoldsSeeds bonds.now grid.now.tiles }
    requires first { first ≡ waiting.old.first }
    requires within { first ≤ cell_count bonds.now.area }
    requires stood { HaveStood bonds.now grid.now.tiles first bonds.now.seeds 0 waiting.old }
    ensures span { (waiting.new.first ≡ waiting.old.first) × (waiting.new.end ≡ waiting.old.end) }
    ensures lacks { AreLacks bonds.now grid.now.tiles
        (standing bonds.now grid.now.tiles first) waiting.new }
    ensures ready { AreReadySites bonds.now grid.now.tiles
        (standing bonds.now grid.now.tiles first) waiting.new }
{
    let area = grid.area();
    let width = area.width() as usize;
    let mut row = Row::least(&area);
    for number in first - width.min(first)..first {
        let Some(tile) = grid.tile(number) else {
            continue;
        };
        let site = row.site(&area, number);
        waiting.lower_beside(bonds, grid, Place { site, tile }, number);
    }
}

// Lists the ready place with the least site as long as there is one.
fn list_ready(bonds: &Bonds, grid: &Grid, log: &mut PlaceLog, waiting: &mut WaitingSites)
    requires valid { IsValid bonds.now }
    requires area { grid.now.area ≡ bonds.now.area }
    requires fits { Fits bonds.now grid.now.tiles }
    requires distinct { HasDistinctSites grid.now.tiles }
    requires seeded { HoldsSeeds bonds.now grid.now.tiles }
    requires room { length log.old.places + (waiting.old.end - waiting.old.first) ≤ log.old.room }
    requires lacks { AreLacks bonds.now grid.now.tiles
        (standing bonds.now grid.now.tiles waiting.old.first) waiting.old }
    requires ready { AreReadySites bonds.now grid.now.tiles
        (standing bonds.now grid.now.tiles waiting.old.first) waiting.old }
    ensures { IsSpanListed bonds.now grid.now.tiles waiting.old.first waiting.old.end
        log.old.places log.new.places waiting.new }
{
    let area = grid.area();
    let mut row = Row::least(&area);
    while let Some(number) = waiting.take_least() {
        let site = row.site(&area, number);
        let tile = grid.tile(number).unwrap();
        let place = Place { site, tile };
        log.push(place);
        waiting.lower_beside(bonds, grid, place, number);
    }
}
