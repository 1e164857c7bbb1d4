// The order of a span whose tiles come by the numbers of their sites, one after the other.
ghost use Rattle.std.specs.Prelude.{ℕ, ◌≡◌, ◌⊎◌, ◌<◌, ◌≤◌, ◌+◌, ◌-◌, Some, length, slice_index, IsTrue, IfOk};
ghost use Rattle.atam.specs.declared.site.Side.TheVariants.{South, West};
ghost use Rattle.atam.specs.Placements.{tile_at};
ghost use Rattle.atam.specs.Assembly.{bond, pull};
ghost use Rattle.assembly.specs.Cells.{cell_count, site_at};
ghost use Rattle.replay_order.specs.Inner.Replays.{IsInSpan, due_at};
ghost use Rattle.replay_order.specs.Inner.Spans.{standing, CanList, IsListedBehind};

use crate::bonds::Bonds;
use crate::waiting::WaitingSites;
use assembly::{Grid, PlaceLog, Row, number_beside};
use std::alloc::Global;
use tile_system::{NoMemory, Place, Side};

// Lists the tiles of a span by their sites' numbers, as long as each but the seeds is held by the
// tiles west and south of it, which come before it, and tells how far that goes. Where the seeds and
// each tile before the span stand, the canonical order is the same so far: nothing with a lesser
// number is left.
pub(crate) fn list_in_turn(
    alloc: Global,
    bonds: &Bonds,
    grid: &Grid,
    log: &mut PlaceLog,
    first: usize,
    end: usize,
) -> Result<usize, NoMemory>
    requires can { CanList bonds.now grid.now }
    requires span { (first ≤ end) × (end ≤ cell_count bonds.now.area) }
    requires room { length log.old.places + (end - first) ≤ log.old.room }
    ensures within { IfOk result (λ n. (first ≤ n) × (n ≤ end)) }
    ensures listed { IfOk result (λ n.
        IsListedBehind bonds.now grid.now.tiles first n log.old.places log.new.places) }
    ensures room { IfOk result (λ n. length log.new.places + (end - n) ≤ log.new.room) }
{
    let sys = bonds.system();
    let area = grid.area();
    let waiting = WaitingSites::make(alloc, area, sys.tau(), sys.seeds(), first, end)?;
    Ok(list_held(bonds, grid, &waiting, log, first, end))
}

// The same by what is due at each site: nothing at a seed.
fn list_held(
    bonds: &Bonds,
    grid: &Grid,
    waiting: &WaitingSites,
    log: &mut PlaceLog,
    first: usize,
    end: usize,
) -> usize
    requires can { CanList bonds.now grid.now }
    requires area { waiting.now.area ≡ bonds.now.area }
    requires span { (first ≤ end) × (end ≤ cell_count bonds.now.area) }
    requires waits { (waiting.now.first ≡ first) × (waiting.now.end ≡ end) }
    requires due { (i : ℕ) → IsInSpan waiting.now i → slice_index waiting.now.lacks i
        ≡ due_at bonds.now.seeds bonds.now.tau (site_at bonds.now.area i) }
    requires room { length log.old.places + (end - first) ≤ log.old.room }
    ensures within { (first ≤ result) × (result ≤ end) }
    ensures listed { IsListedBehind bonds.now grid.now.tiles first result
        log.old.places log.new.places }
    ensures room { length log.new.places + (end - result) ≤ log.new.room }
{
    let area = grid.area();
    let mut row = Row::least(&area);
    for number in first..end {
        let Some(tile) = grid.tile(number) else {
            continue;
        };
        if !waiting.is_lacking(number) {
            continue;
        }
        let site = row.site(&area, number);
        let place = Place { site, tile };
        if !is_held_before(bonds, grid, place, number) {
            return number;
        }
        log.push(place);
    }
    end
}

// Whether the tiles west and south of a tile hold it.
#[inline(always)]
fn is_held_before(bonds: &Bonds, grid: &Grid, place: Place, number: usize) -> bool
    requires can { CanList bonds.now grid.now }
    requires within { number < cell_count bonds.now.area }
    requires number { site_at bonds.now.area number ≡ place.site }
    requires placed { tile_at grid.now.tiles place.site ≡ Some place.tile }
    ensures { IsTrue result → bonds.now.tau
        ≤ pull bonds.now (standing bonds.now grid.now.tiles number) place.site place.tile }
{
    let west = strength_before(bonds, grid, place, number, Side::West);
    let south = strength_before(bonds, grid, place, number, Side::South);
    west + south >= bonds.system().tau()
}

// The strength that a tile has with the one that stands on this side of it, which has a lesser
// number.
#[inline(always)]
fn strength_before(bonds: &Bonds, grid: &Grid, place: Place, number: usize, side: Side) -> u32
    requires can { CanList bonds.now grid.now }
    requires within { number < cell_count bonds.now.area }
    requires number { site_at bonds.now.area number ≡ place.site }
    requires placed { tile_at grid.now.tiles place.site ≡ Some place.tile }
    requires side { (side ≡ West) ⊎ (side ≡ South) }
    ensures small { result < 65536 }
    ensures strength { result ≤ bond bonds.now (standing bonds.now grid.now.tiles number)
        place.site place.tile side }
{
    let area = grid.area();
    let Some(beside) = number_beside(&area, place.site, number, side) else {
        return 0;
    };
    let Some(tile) = grid.tile(beside) else {
        return 0;
    };
    u32::from(bonds.between(place.tile, side, tile))
}
