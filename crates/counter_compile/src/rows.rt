// The numbers that the rows of a counter show.
ghost use Rattle.std.specs.Prelude.{◌≡◌, ℕ, ◌+◌, ◌-◌, ◌/◌, ◌%◌, ◌^◌, ◌<◌, ◌≤◌, All, Some, slice_get};
ghost use Rattle.atam.specs.Growth.{IsProducible, IsClosedInBox};
ghost use Rattle.atam.specs.Sites.{height_of};
ghost use Rattle.counter_compile.specs.Tiles.{kinds_of};
ghost use Rattle.counter_compile.specs.Counters.{IsOfCounter, bit_in, counter_box, counter_system, number_in_row};
ghost use Rattle.counter_compile.specs.Inner.Accepted.{IsAccepted};

use crate::counter::Counter;
use crate::kind::{Kind, LATER_KINDS, digit};
use assembly::Grid;
use atam::{BoxArea, Site, TypeId};
use tile_system::Placed;

/// The number that row `y` of a counter of so many bits shows, the west bit the highest; none
/// exactly where a site of the row is empty. The height of the grid tells where the counter starts.
pub fn row_value(bits: u32, grid: &Grid, y: u32) -> Option<u64>
    requires counter { (start : ℕ) × IsOfCounter bits start grid.now }
    requires row { y < height_of grid.now.area }
    ensures value { (start : ℕ) → IsOfCounter bits start grid.now
        → result ≡ number_in_row bits start grid.now.tiles y }
    ensures counts { (start : ℕ) → IsOfCounter bits start grid.now
        → IsProducible (counter_system bits start) grid.now.tiles
        → IsClosedInBox (counter_system bits start) grid.now.tiles
        → result ≡ Some ((start + (y + 1) / 2) % 2 ^ bits) }
{
    let counter = counter_of_box(bits, grid.area());
    read_row(bits, &counter, grid, y)
}

// The counter of a box.
fn counter_of_box(bits: u32, area: BoxArea) -> Counter
    requires { (start : ℕ) × IsAccepted bits start × (area ≡ counter_box bits start) }
    ensures last { result.last ≡ bits - 1 }
    ensures start { (start : ℕ) → IsAccepted bits start → area ≡ counter_box bits start
        → result.start ≡ start }
{
    Counter {
        last: bits - 1,
        start: (1 << bits) - area.height() as u64 / 2,
    }
}

fn read_row(bits: u32, counter: &Counter, grid: &Grid, y: u32) -> Option<u64>
    requires some { 1 ≤ bits }
    requires most { bits ≤ 32 }
    requires last { counter.now.last ≡ bits - 1 }
    requires row { y < 1024 }
    requires types { All (λ p. p.tile.0 < bits + 16) grid.now.tiles }
    ensures { result ≡ number_in_row bits counter.now.start grid.now.tiles y }
{
    let mut value = 0;
    for column in 0..bits {
        let bit = read_bit(bits, counter, grid, column, y)?;
        value = 2 * value + digit(bit) as u64;
    }
    Some(value)
}

// The bit of the tile in this column and row.
fn read_bit(bits: u32, counter: &Counter, grid: &Grid, column: u32, y: u32) -> Option<bool>
    requires some { 1 ≤ bits }
    requires last { counter.now.last ≡ bits - 1 }
    requires column { column < 32 }
    requires row { y < 1024 }
    requires types { All (λ p. p.tile.0 < bits + 16) grid.now.tiles }
    ensures { result ≡ bit_in bits counter.now.start grid.now.tiles y column }
{
    let tile = grid.at(Site {
        x: column as i32,
        y: y as i32,
    })?;
    Some(counter.shown_bit(kind_of(bits, tile)))
}

fn kind_of(bits: u32, tile: TypeId) -> Kind
    requires some { 1 ≤ bits }
    requires listed { tile.0 < bits + 16 }
    ensures { slice_get (kinds_of (bits - 1)) tile.0 ≡ Some result }
{
    if tile.0 < bits {
        Kind::First(tile.0)
    } else {
        LATER_KINDS[(tile.0 - bits) as usize]
    }
}
