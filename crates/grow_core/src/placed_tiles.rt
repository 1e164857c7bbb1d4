// The tiles of the core, by their sites and in their order.
ghost use Rattle.std.specs.Prelude.{◌≡◌, ◌<◌, ◌^◌, [], ◌∷◌, ◌++◌, map, None, IfOk};
ghost use Rattle.atam.specs.Sites.{InBox, IsBox};
ghost use Rattle.atam.specs.TileSystem.{IsValid};
ghost use Rattle.atam.specs.Placements.{tile_at, HasDistinctSites, SamePlacements};
ghost use Rattle.grow_core.specs.Core.{places};
ghost use Rattle.grow_core.specs.Steps.{tile_of};
ghost use Rattle.grow_core.specs.Machine.{placer_at};

use crate::PlacedTile;
use assembly::{Grid, site_index};
use std::alloc::Global;
use std::marker::Model;
use tile_system::{BoxArea, NoMemory, Placed, Site, System, TypeId};

// The placer of a seed.
const SEED: u32 = 65535;

// Tiles with distinct sites in a box, each with its placer, in the order in which they were placed.
pub(crate) struct PlacedTiles {
    grid: Grid,
    tiles: Vec<PlacedTile>,
    placers: Vec<u16>,
}

impl Drop for PlacedTiles {
    fn drop(self) {
        let PlacedTiles {
            grid: _grid,
            tiles: _tiles,
            placers: _placers,
        } = self;
    }
}

impl Model for PlacedTiles {
    ghost use Rattle.std.specs.Prelude.{vec_capacity};
    ghost use Rattle.grow_core.specs.Inner.Tables.{BoxedTiles, IsTable};

    ghost Value = { BoxedTiles };

    ghost view = { λ g. record { area = g.grid.area; tiles = g.tiles.items } };

    ghost invariant = { λ g. IsTable g.tiles.items g.grid g.placers.items (vec_capacity g.tiles) };
}

impl PlacedTiles {
    // No tile in a box, with room for a tile at each site.
    fn empty(alloc: Global, area: BoxArea) -> Result<PlacedTiles, NoMemory>
        requires { IsBox area }
        ensures area { IfOk result (λ placed. placed.area ≡ area) }
        ensures empty { IfOk result (λ placed. placed.tiles ≡ []) }
    {
        let cells = area.width() as usize * area.height() as usize;
        Ok(PlacedTiles {
            grid: Grid::make(alloc, area)?,
            tiles: Vec::with_capacity(alloc, cells)?,
            placers: Vec::from_elem(alloc, 0, cells)?,
        })
    }

    // The seeds alone.
    pub(crate) fn make(alloc: Global, sys: &System) -> Result<PlacedTiles, NoMemory>
        ensures valid { IsValid sys.now }
        ensures area { IfOk result (λ placed. placed.area ≡ sys.now.area) }
        ensures seeds { IfOk result (λ placed.
            placed.tiles ≡ map (λ p. tile_of p 65535) sys.now.seeds) }
    {
        let mut placed = PlacedTiles::empty(alloc, sys.area())?;
        for seed in sys.seeds() {
            placed.put(PlacedTile {
                place: *seed,
                placer: SEED,
            });
        }
        Ok(placed)
    }

    // Puts a tile at an empty site.
    pub(crate) fn put(&mut self, tile: PlacedTile)
        requires inside { InBox self.old.area tile.place.site }
        requires empty { tile_at (places self.old.tiles) tile.place.site ≡ None }
        requires small { tile.place.tile.0 < 16384 }
        requires placer { tile.placer < 65536 }
        ensures area { self.new.area ≡ self.old.area }
        ensures tiles { self.new.tiles ≡ self.old.tiles ++ tile ∷ [] }
    {
        let index = site_index(&self.grid.area(), tile.place.site);
        self.grid.put(tile.place);
        self.placers[index] = tile.placer as u16;
        self.tiles.push_reserved(tile);
    }

    // The type of the tile at a site.
    pub(crate) fn at(&self, site: Site) -> Option<TypeId>
        ensures { result ≡ tile_at (places self.now.tiles) site }
    {
        self.grid.at(site)
    }

    // The number that placed the tile at a site.
    pub(crate) fn placer_at(&self, site: Site) -> Option<u32>
        ensures { result ≡ placer_at self.now.tiles site }
    {
        self.grid.at(site)?;
        Some(self.placers[site_index(&self.grid.area(), site)] as u32)
    }

    pub(crate) fn grid(&self) -> &Grid
        ensures area { result.now.area ≡ self.now.area }
        ensures placements { SamePlacements (places self.now.tiles) result.now.tiles }
        ensures distinct { HasDistinctSites result.now.tiles }
    {
        self.grid.recall_sites();
        &self.grid
    }
}
