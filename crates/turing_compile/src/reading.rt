// What a row of an assembly shows.
ghost use Rattle.std.specs.Prelude.{◌≡◌, ◌<◌, ◌≤◌, ◌^◌, length, option_map, IfOk, IfSome};
ghost use Rattle.atam.specs.Assembly.{Fits};
ghost use Rattle.machine_text.specs.Machines.{IsConfigOf};
ghost use Rattle.turing_compile.specs.Compiled.{compiled};
ghost use Rattle.turing_compile.specs.Inner.Listed.{kinds};
ghost use Rattle.turing_compile.specs.Rows.{heads_from, row_config, row_shown, shown_config, tile_shown, type_shown};
ghost use Rattle.atam.specs.Placements.{tile_at};
ghost use Rattle.design.specs.TileSets.{cell_site};

use crate::kind::{Kind, Shown};
use crate::listing::kinds;
use crate::shown::shown;
use assembly::Grid;
use atam::{Site, TypeId};
use machine_text::{Config, Head, Machine};
use std::alloc::Global;
use tile_system::{NoMemory, Placed};

/// The configuration that row y of an assembly of the machine's tiles shows; none where a cell of
/// the row is empty, or two of its tiles show a head. It lists the kinds of tiles, and looks at
/// each cell of the row once.
pub fn row_config(
    alloc: Global,
    machine: &Machine,
    grid: &Grid,
    y: u32,
) -> Result<Option<Config>, NoMemory>
    requires fits { Fits (compiled machine.now) grid.now.tiles }
    requires row { y < machine.now.rows }
    ensures row { IfOk result (λ found. found ≡ row_config machine.now grid.now.tiles y) }
    ensures config { IfOk result (λ found. IfSome found (IsConfigOf machine.now)) }
{
    prove!(machine.states() > 0);
    let kinds = kinds(alloc, machine)?;
    match row_shown(alloc, machine, kinds.as_slice(), grid, y)? {
        Some(cells) => shown_config(alloc, cells.as_slice()),
        None => Ok(None),
    }
}

// What the tiles of a row show; none where a cell is empty.
fn row_shown(
    alloc: Global,
    machine: &Machine,
    listed: &[Kind],
    grid: &Grid,
    y: u32,
) -> Result<Option<Vec<Shown>>, NoMemory>
    requires fits { Fits (compiled machine.now) grid.now.tiles }
    requires listed { listed.now ≡ kinds machine.now }
    requires row { y < machine.now.rows }
    ensures { IfOk result (λ found. option_map (λ cells. cells.items) found
        ≡ row_shown machine.now grid.now.tiles y) }
{
    prove!(machine.states() > 0);
    let mut cells = Vec::new(alloc);
    for column in 0..machine.cells() {
        match tile_shown(machine, listed, grid, column, y) {
            Some(shown) => cells.push(shown)?,
            None => return Ok(None),
        }
    }
    Ok(Some(cells))
}

// What the tile in a column of a row shows; none where the cell is empty.
fn tile_shown(machine: &Machine, listed: &[Kind], grid: &Grid, column: u32, y: u32) -> Option<Shown>
    requires fits { Fits (compiled machine.now) grid.now.tiles }
    requires listed { listed.now ≡ kinds machine.now }
    requires column { column < 2 ^ 31 }
    requires row { y < 2 ^ 31 }
    ensures { result ≡ tile_shown machine.now grid.now.tiles y column }
{
    let tile = tile_in(grid, column, y)?;
    type_shown(machine, listed, tile)
}

fn tile_in(grid: &Grid, column: u32, y: u32) -> Option<TypeId>
    requires column { column < 2 ^ 31 }
    requires row { y < 2 ^ 31 }
    ensures { result ≡ tile_at grid.now.tiles (cell_site column y) }
{
    grid.at(Site {
        x: column as i32,
        y: y as i32,
    })
}

// What the type with this index shows.
fn type_shown(machine: &Machine, listed: &[Kind], tile: TypeId) -> Option<Shown>
    requires listed { listed.now ≡ kinds machine.now }
    requires tile { tile.0 < length listed.now }
    ensures { result ≡ type_shown machine.now tile }
{
    prove!(machine.states() > 0);
    shown(machine, listed[tile.0 as usize])
}

// The configuration of shown cells; none where two of them show a head.
fn shown_config(alloc: Global, cells: &[Shown]) -> Result<Option<Config>, NoMemory>
    requires { length cells.now < 2 ^ 32 }
    ensures { IfOk result (λ found. found ≡ shown_config cells.now) }
{
    let heads = heads(alloc, cells)?;
    if heads.len() > 1 {
        return Ok(None);
    }
    let symbols = cells.iter().map(|cell| cell.symbol).collect(alloc)?;
    Ok(Some(Config::new(symbols, heads.as_slice().first().copied())))
}

// The heads that cells show.
fn heads(alloc: Global, cells: &[Shown]) -> Result<Vec<Head>, NoMemory>
    requires { length cells.now < 2 ^ 32 }
    ensures { IfOk result (λ heads. heads.items ≡ heads_from 0 cells.now) }
{
    let mut heads = Vec::new(alloc);
    for (cell, shown) in cells.iter().enumerate() {
        if let Some(state) = shown.state {
            heads.push(Head {
                cell: cell as u32,
                state,
            })?;
        }
    }
    Ok(heads)
}
