// An assembly in a box, as a flat array of cells.
ghost use Rattle.std.specs.Prelude.{ℕ, ◌≡◌, ◌≢◌, ◌↔◌, ◌<◌, ◌+◌, ◌^◌, slice_index, count_by, [], ◌∷◌, ◌++◌, length, Some, None, All, IfOk, IsTrue};
ghost use Rattle.atam.specs.declared.limits.TheConstants.{MOST_TYPES};
ghost use Rattle.atam.specs.declared.site.Site.{Site};
ghost use Rattle.atam.specs.declared.place.TypeId.{TypeId};
ghost use Rattle.atam.specs.declared.site.Side.TheVariants.{North, East, South, West};
ghost use Rattle.atam.specs.Sites.{InBox, IsBox, neighbor, width_of, height_of, site_in};
ghost use Rattle.atam.specs.Placements.{tile_at, HasDistinctSites, SamePlacements};
ghost use Rattle.assembly.specs.Cells.{cell_count, site_at};
ghost use Rattle.assembly.specs.Grids.{IsEmptyRow, IsFullRow};
ghost use Rattle.tile_system.specs.Neighbors.{StandBeside};
ghost use Rattle.assembly.specs.Inner.GridCells.{is_tile, type_in};
ghost use Rattle.assembly.specs.Inner.Filling.{cell_over, filled_cell};

use crate::site_index;
use std::alloc::Global;
use std::marker::Model;
use tile_system::{Beside, BoxArea, NoMemory, Place, Placed, Side, Site, TypeId};

/// Tiles in a box. All calls but `make` and `copy` take no memory, and all but these, `merge`,
/// `clear` and the two that look at a row look at one site.
#[derive(Drop)]
pub struct Grid {
    area: BoxArea,
    cells: Vec<u16>,
    count: u32,
}

impl Model for Grid {
    ghost use Rattle.assembly.specs.Cells.{site_at};
    ghost use Rattle.assembly.specs.Grids.{TileGrid, places_of};
    ghost use Rattle.assembly.specs.Inner.GridCells.{IsGrid};

    ghost Value = { TileGrid };

    ghost view = { λ g. record {
      area = g.area;
      tiles = places_of (site_at g.area) 0 g.cells.items;
    } };

    ghost invariant = { λ g. IsGrid g.area g.cells.items g.count };
}

impl Grid {
    /// An empty grid over the box, of two bytes a site.
    pub fn make(alloc: Global, area: BoxArea) -> Result<Grid, NoMemory>
        requires { IsBox area }
        ensures area { IfOk result (λ grid. grid.area ≡ area) }
        ensures empty { IfOk result (λ grid. grid.tiles ≡ []) }
    {
        let sites = area.width() as usize * area.height() as usize;
        Ok(Grid {
            area,
            cells: Vec::from_elem(alloc, 0, sites)?,
            count: 0,
        })
    }

    /// Does nothing: its clauses are the facts that each grid has its tiles inside its box, one at
    /// a site, for the proof of a caller.
    #[inline(always)]
    pub fn recall_sites(&self)
        ensures box_limits { IsBox self.now.area }
        ensures inside { All (λ p. InBox self.now.area p.site) self.now.tiles }
        ensures distinct { HasDistinctSites self.now.tiles }
    {
        let _ = &self.area;
    }

    pub fn area(&self) -> BoxArea
        ensures area { result ≡ self.now.area }
        ensures box_limits { IsBox result }
        ensures inside { All (λ p. InBox result p.site) self.now.tiles }
        ensures distinct { HasDistinctSites self.now.tiles }
    {
        self.area
    }

    /// The number of tiles.
    pub fn count(&self) -> u32
        ensures { result ≡ length self.now.tiles }
    {
        self.count
    }

    pub fn put(&mut self, place: Place)
        requires inside { InBox self.old.area place.site }
        requires empty { tile_at self.old.tiles place.site ≡ None }
        requires small { place.tile.0 < MOST_TYPES }
        ensures area { self.new.area ≡ self.old.area }
        ensures here { tile_at self.new.tiles place.site ≡ Some place.tile }
        ensures others { (m : Site) → m ≢ place.site →
            tile_at self.new.tiles m ≡ tile_at self.old.tiles m }
        ensures placements { SamePlacements (self.old.tiles ++ place ∷ []) self.new.tiles }
        ensures count { length self.new.tiles ≡ length self.old.tiles + 1 }
        ensures distinct { HasDistinctSites self.new.tiles }
    {
        let index = site_index(&self.area, place.site);
        self.put_at(place, index);
    }

    /// The same at a site whose number is known.
    #[inline(always)]
    pub fn put_at(&mut self, place: Place, index: usize)
        requires within { index < cell_count self.old.area }
        requires number { site_at self.old.area index ≡ place.site }
        requires empty { tile_at self.old.tiles place.site ≡ None }
        requires small { place.tile.0 < MOST_TYPES }
        ensures area { self.new.area ≡ self.old.area }
        ensures here { tile_at self.new.tiles place.site ≡ Some place.tile }
        ensures others { (m : Site) → m ≢ place.site →
            tile_at self.new.tiles m ≡ tile_at self.old.tiles m }
        ensures placements { SamePlacements (self.old.tiles ++ place ∷ []) self.new.tiles }
        ensures count { length self.new.tiles ≡ length self.old.tiles + 1 }
        ensures distinct { HasDistinctSites self.new.tiles }
    {
        self.cells[index] = place.tile.0 as u16 + 1;
        self.count += 1;
    }

    /// The same grid once more.
    pub fn copy(&self) -> Result<Grid, NoMemory>
        ensures { IfOk result (λ grid. grid ≡ self.now) }
    {
        Ok(Grid {
            area: self.area,
            cells: Vec::from_slice(*self.cells.allocator(), self.cells.as_slice())?,
            count: self.count,
        })
    }

    /// Adds the tiles of a grid over the same box that has no other tile at any site.
    pub fn merge(&mut self, other: &Grid)
        requires area { other.now.area ≡ self.old.area }
        requires agree { (m : Site) (t u : TypeId) → tile_at self.old.tiles m ≡ Some t →
            tile_at other.now.tiles m ≡ Some u → t ≡ u }
        ensures area { self.new.area ≡ self.old.area }
        ensures tiles { (m : Site) →
            tile_at self.new.tiles m ≡ tile_at (self.old.tiles ++ other.now.tiles) m }
        ensures placements { SamePlacements (self.old.tiles ++ other.now.tiles) self.new.tiles }
        ensures distinct { HasDistinctSites self.new.tiles }
    {
        let cells = self.cells.as_mut_slice();
        fill_gaps(cells, other.cells.as_slice());
        self.count = count_tiles(cells);
    }

    /// Whether no tile is in the row, in one look at each site of it.
    pub fn is_row_empty(&self, row: u32) -> bool
        requires { row < height_of self.now.area }
        ensures { IsTrue result ↔ IsEmptyRow self.now row }
    {
        are_gaps(self.row(row))
    }

    /// Whether a tile is at each site of the row, in one look at each.
    pub fn is_row_full(&self, row: u32) -> bool
        requires { row < height_of self.now.area }
        ensures { IsTrue result ↔ IsFullRow self.now row }
    {
        are_tiles(self.row(row))
    }

    // The cells of a row.
    fn row(&self, row: u32) -> &[u16]
        requires { row < height_of self.now.area }
        ensures length { length result.now ≡ width_of self.now.area }
        ensures cells { (column : ℕ) → column < width_of self.now.area →
            type_in (slice_index result.now column)
            ≡ tile_at self.now.tiles (site_in self.now.area column row) }
    {
        let width = self.area.width() as usize;
        let first = row as usize * width;
        &self.cells.as_slice()[first..first + width]
    }

    /// Takes all tiles out.
    pub fn clear(&mut self)
        ensures area { self.new.area ≡ self.old.area }
        ensures empty { self.new.tiles ≡ [] }
    {
        self.cells.as_mut_slice().fill(0);
        self.count = 0;
    }

    /// The type of the tile at the site with this number, in one look.
    #[inline(always)]
    pub fn tile(&self, index: usize) -> Option<TypeId>
        requires { index < cell_count self.now.area }
        ensures { result ≡ tile_at self.now.tiles (site_at self.now.area index) }
    {
        type_in(self.cells[index])
    }

    /// The tiles beside a site of the box whose number is known: what `beside` tells, without the
    /// site's number being worked out.
    #[inline(always)]
    pub fn beside_at(&self, site: Site, index: usize) -> Beside
        requires inside { InBox self.now.area site }
        requires within { index < cell_count self.now.area }
        requires number { site_at self.now.area index ≡ site }
        ensures { StandBeside self.now.tiles site result }
    {
        Beside {
            north: self.north_of(site, index),
            east: self.east_of(site, index),
            south: self.south_of(site, index),
            west: self.west_of(site, index),
        }
    }

    // The tile north of the site with this number. It and the next three look at one cell.
    #[inline(always)]
    fn north_of(&self, site: Site, index: usize) -> Option<TypeId>
        requires inside { InBox self.now.area site }
        requires within { index < cell_count self.now.area }
        requires number { site_at self.now.area index ≡ site }
        ensures { result ≡ tile_at self.now.tiles (neighbor site North) }
    {
        if site.y == self.area.y1 {
            return None;
        }
        self.tile(index + self.area.width() as usize)
    }

    #[inline(always)]
    fn east_of(&self, site: Site, index: usize) -> Option<TypeId>
        requires inside { InBox self.now.area site }
        requires within { index < cell_count self.now.area }
        requires number { site_at self.now.area index ≡ site }
        ensures { result ≡ tile_at self.now.tiles (neighbor site East) }
    {
        if site.x == self.area.x1 {
            return None;
        }
        self.tile(index + 1)
    }

    #[inline(always)]
    fn south_of(&self, site: Site, index: usize) -> Option<TypeId>
        requires inside { InBox self.now.area site }
        requires within { index < cell_count self.now.area }
        requires number { site_at self.now.area index ≡ site }
        ensures { result ≡ tile_at self.now.tiles (neighbor site South) }
    {
        if site.y == self.area.y0 {
            return None;
        }
        self.tile(index - self.area.width() as usize)
    }

    #[inline(always)]
    fn west_of(&self, site: Site, index: usize) -> Option<TypeId>
        requires inside { InBox self.now.area site }
        requires within { index < cell_count self.now.area }
        requires number { site_at self.now.area index ≡ site }
        ensures { result ≡ tile_at self.now.tiles (neighbor site West) }
    {
        if site.x == self.area.x0 {
            return None;
        }
        self.tile(index - 1)
    }
}

impl Placed for Grid {
    ghost placements = { λ g. g.tiles };

    #[inline(always)]
    fn at(&self, site: Site) -> Option<TypeId> {
        if !self.area.holds(site) {
            return None;
        }
        self.tile(site_index(&self.area, site))
    }

    #[inline(always)]
    fn beside(&self, site: Site) -> Beside {
        if !self.area.holds(site) {
            return Beside {
                north: self.at(site.step(Side::North)),
                east: self.at(site.step(Side::East)),
                south: self.at(site.step(Side::South)),
                west: self.at(site.step(Side::West)),
            };
        }
        self.beside_at(site, site_index(&self.area, site))
    }
}

// The type that a cell tells.
#[inline(always)]
fn type_in(cell: u16) -> Option<TypeId>
    ensures { result ≡ type_in cell }
{
    match cell {
        0 => None,
        cell => Some(TypeId(cell as u32 - 1)),
    }
}

// Whether no cell is of a tile. It and the next one look at all cells, many at once.
fn are_gaps(cells: &[u16]) -> bool
    ensures { IsTrue result ↔ ((k : ℕ) → k < length cells.now → slice_index cells.now k ≡ 0) }
{
    let mut any = 0;
    for cell in cells {
        any = any | *cell;
    }
    any == 0
}

// Whether each cell is of a tile.
fn are_tiles(cells: &[u16]) -> bool
    ensures { IsTrue result ↔ ((k : ℕ) → k < length cells.now → slice_index cells.now k ≢ 0) }
{
    let mut gaps = 0;
    for cell in cells {
        gaps = gaps | (*cell == 0) as u16;
    }
    gaps == 0
}

// Copies the cells of tiles to where there are none. It and `count_tiles` look at all cells, many
// at once.
fn fill_gaps(cells: &mut [u16], other: &[u16])
    requires { length cells.old ≡ length other.now }
    ensures { (k : ℕ) → k < length cells.old →
        slice_index cells.new k ≡ filled_cell cells.old other.now k }
{
    for index in 0..cells.len() {
        cells[index] = cell_over(cells[index], other[index]);
    }
}

// A cell, or the other one where it is of no tile. It is a function of its own, since only so the
// loop over it is compiled without a branch.
fn cell_over(own: u16, other: u16) -> u16
    ensures { result ≡ cell_over own other }
{
    if own == 0 { other } else { own }
}

// How many cells are of a tile.
fn count_tiles(cells: &[u16]) -> u32
    requires { length cells.now < 2 ^ 32 }
    ensures { result ≡ count_by is_tile cells.now }
{
    let mut count = 0;
    for cell in cells {
        count += (*cell != 0) as u32;
    }
    count
}
