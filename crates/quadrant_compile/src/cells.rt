// What the cells of an assembly name.
ghost use Rattle.std.specs.Prelude.{◌≡◌, ◌<◌, ◌≤◌, ◌-◌, ◌^◌, ℕ, Option, is_some, slice_get};
ghost use Rattle.atam.specs.Placements.{tile_at};
ghost use Rattle.design.specs.TileSets.{cell_site};
ghost use Rattle.quadrant_compile.specs.Quadrants.{IsQuadrant};
ghost use Rattle.quadrant_compile.specs.Recurrence.{IsRecurrence};
ghost use Rattle.quadrant_compile.specs.Cells.{HasCells, cell_at, ruled_inputs, type_symbols};
ghost use Rattle.quadrant_compile.specs.Laws.{IsFullGrowth};

use crate::quadrant::Quadrant;
use assembly::Grid;
use atam::{Site, TypeId};
use tile_system::Placed;

/// The symbols from the west and from the south that the tile in a column of a row is for; none
/// where there is no tile of a cell. It takes no memory.
pub fn cell_at(quadrant: &Quadrant, grid: &Grid, column: u32, row: u32) -> Option<(u32, u32)>
    requires first_column { 1 ≤ column }
    requires last_column { column ≤ quadrant.now.width }
    requires first_row { 1 ≤ row }
    requires last_row { row ≤ quadrant.now.height }
    ensures symbols { result ≡ cell_at quadrant.now grid.now.tiles column row }
    // Where only tiles of cells are at cells, it is none exactly where the site is empty.
    ensures there { HasCells quadrant.now grid.now.tiles →
        is_some result ≡ is_some (tile_at grid.now.tiles (cell_site column row)) }
    // Of a producible assembly that nothing extends in the box it is what the recurrence has there,
    // where that has a rule.
    ensures recurrence { (e n : ℕ → ℕ → Option ℕ) → IsRecurrence quadrant.now e n →
        IsFullGrowth quadrant.now grid.now.tiles →
        result ≡ ruled_inputs quadrant.now (e (column - 1) row) (n column (row - 1)) }
{
    prove!(quadrant.symbols() > 0);
    tile_symbols(quadrant, grid, column, row)
}

fn tile_symbols(quadrant: &Quadrant, grid: &Grid, column: u32, row: u32) -> Option<(u32, u32)>
    requires valid { IsQuadrant quadrant.now }
    requires column { column < 2 ^ 31 }
    requires row { row < 2 ^ 31 }
    ensures { result ≡ cell_at quadrant.now grid.now.tiles column row }
{
    let tile = tile_in(grid, column, row)?;
    type_symbols(quadrant, tile)
}

fn tile_in(grid: &Grid, column: u32, row: u32) -> Option<TypeId>
    requires column { column < 2 ^ 31 }
    requires row { row < 2 ^ 31 }
    ensures { result ≡ tile_at grid.now.tiles (cell_site column row) }
{
    grid.at(Site {
        x: column as i32,
        y: row as i32,
    })
}

// The symbols that the type with this index is for; none where it is of a border.
fn type_symbols(quadrant: &Quadrant, tile: TypeId) -> Option<(u32, u32)>
    requires { IsQuadrant quadrant.now }
    ensures { result ≡ type_symbols quadrant.now tile }
{
    let borders = 1 + quadrant.width() + quadrant.height();
    if tile.0 < borders {
        return None;
    }
    pair_at(quadrant.ruled(), (tile.0 - borders) as usize)
}

#[tactic(auto, using(std::proofs::lemmas::Option::slice_get_past, std::proofs::lemmas::Option::slice_get_read))]
fn pair_at(pairs: &[(u32, u32)], number: usize) -> Option<(u32, u32)>
    ensures { result ≡ slice_get pairs.now number }
{
    if number >= pairs.len() {
        return None;
    }
    Some(pairs[number])
}
