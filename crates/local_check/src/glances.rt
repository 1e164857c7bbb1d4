// What is seen of tiles as they come, by what came before with the same surroundings.
ghost use Rattle.std.specs.Prelude.{◌≡◌, ◌<◌, true, IfOk, IsTrue};
ghost use Rattle.atam.specs.declared.place.TypeId.{TypeId};
ghost use Rattle.atam.specs.Sites.{InBox};
ghost use Rattle.atam.specs.TileSystem.{IsType, IsValid};
ghost use Rattle.atam.specs.Assembly.{Fits};
ghost use Rattle.assembly.specs.Cells.{cell_count, site_at};
ghost use Rattle.type_index.specs.Indexes.{IsIndexOf};
ghost use Rattle.type_index.specs.HeldTypes.{IsHeld};
ghost use Rattle.type_cache.specs.Findings.{AreFindings};
ghost use Rattle.type_cache.specs.Clean.{AreSettled};
ghost use Rattle.local_check.specs.Inner.Glances.{AreGlances, IsGlance, IsGlanceFor};

use assembly::Grid;
use attach_rule::{FacingGlues, Strengths};
use std::alloc::Global;
use std::marker::Model;
use tile_system::{NoMemory, Place, System, TypeId};
use type_cache::{FacingCache, SideSet, settled_sides};
use type_index::{TypeIndex, glues_of_key, key_beside};

// What is seen of a tile as it comes: the sum that holds it, and whether it comes clean.
#[derive(Clone, Copy)]
pub(crate) struct Glance {
    pub(crate) sum: u32,
    pub(crate) clean: bool,
}

impl Glance {
    // Whether it comes clean, and so did all before it.
    #[inline(always)]
    pub(crate) fn is_clean_after(self, before: bool) -> bool
        ensures { IsTrue result → (before ≡ true) × (self.clean ≡ true) }
    {
        before && self.clean
    }
}

// What was seen where the glues had this key and tiles stood beside these sides.
#[derive(Clone, Copy)]
struct LastGlance {
    key: u64,
    sum: u32,
    beside: SideSet,
    clean: bool,
}

// For each type what was seen last of a tile of it, so that it need not be looked up again.
pub(crate) struct Glances {
    last: Vec<LastGlance>,
    cache: FacingCache,
}

impl Drop for Glances {
    fn drop(self) {
        let Glances {
            last: _last,
            cache: _cache,
        } = self;
    }
}

impl Model for Glances {
    ghost use Rattle.local_check.specs.Inner.Glances.{GlanceTable};

    ghost Value = { GlanceTable };

    ghost view = { λ g. record { last = g.last.items; cache = g.cache } };
}

impl Glances {
    pub(crate) fn make(alloc: Global, sys: &System) -> Result<Glances, NoMemory>
        ensures { IfOk result (AreGlances sys.now) }
    {
        sys.recall_valid();
        let none = LastGlance {
            key: 0,
            sum: 0,
            beside: SideSet::NONE,
            clean: false,
        };
        Ok(Glances {
            last: Vec::from_elem(alloc, none, sys.type_count() as usize)?,
            cache: FacingCache::make(alloc, sys)?,
        })
    }

    // What is seen of a tile that comes at a site of the grid's box. Where it isn't asked whether
    // tiles come clean, none is said to.
    #[inline(always)]
    pub(crate) fn at(
        &mut self,
        sys: &System,
        types: &TypeIndex,
        grid: &Grid,
        place: Place,
        number: usize,
        asked: bool,
    ) -> Glance
        requires valid { IsValid sys.now }
        requires known { AreGlances sys.now self.old }
        requires index { IsIndexOf sys.now types.now }
        requires fits { Fits sys.now grid.now.tiles }
        requires kind { IsType sys.now place.tile }
        requires inside { InBox grid.now.area place.site }
        requires within { number < cell_count grid.now.area }
        requires number { site_at grid.now.area number ≡ place.site }
        ensures glance { IsGlance sys.now grid.now.tiles place.site place.tile result }
        ensures known { AreGlances sys.now self.new }
    {
        grid.recall_sites();
        let Place { site, tile } = place;
        let tiles = grid.beside_at(site, number);
        let key = key_beside(sys, types, grid, site, &tiles);
        let beside = SideSet::beside(&tiles);
        let last = &self.last[tile.0 as usize];
        if last.key == key && last.beside.is_same(&beside) {
            return Glance {
                sum: last.sum,
                clean: last.clean,
            };
        }
        self.look(sys, types, tile, beside, key, asked)
    }

    // Looks it up anew, by the key of the glues and the sides alone, and keeps it.
    #[inline(never)]
    fn look(
        &mut self,
        sys: &System,
        types: &TypeIndex,
        tile: TypeId,
        beside: SideSet,
        key: u64,
        asked: bool,
    ) -> Glance
        requires known { AreGlances sys.now self.old }
        requires index { IsIndexOf sys.now types.now }
        requires kind { IsType sys.now tile }
        ensures glance { IsGlanceFor sys.now tile key beside result }
        ensures known { AreGlances sys.now self.new }
    {
        let glues = glues_of_key(key);
        let bonds = types.bonds(sys, &glues, tile);
        let sum = bonds.sum();
        let clean = self.is_clean(sys, types, tile, &glues, &bonds, beside, asked);
        self.last[tile.0 as usize] = LastGlance {
            key,
            sum,
            beside,
            clean,
        };
        Glance { sum, clean }
    }

    // Whether these sides have a strength or are dead, and the glues hold no other type, where it is
    // asked.
    fn is_clean(
        &mut self,
        sys: &System,
        types: &TypeIndex,
        tile: TypeId,
        glues: &FacingGlues,
        bonds: &Strengths,
        beside: SideSet,
        asked: bool,
    ) -> bool
        requires known { AreFindings sys.now self.old.cache }
        requires index { IsIndexOf sys.now types.now }
        requires kind { IsType sys.now tile }
        ensures settled { IsTrue result → AreSettled sys.now tile bonds.now beside }
        ensures sole { IsTrue result → (u : TypeId) → IsHeld sys.now glues.now u → u ≡ tile }
        ensures known { AreFindings sys.now self.new.cache }
        ensures last { self.new.last ≡ self.old.last }
    {
        let settled = settled_sides(sys, tile, bonds);
        if !asked || !beside.is_within(settled) {
            return false;
        }
        let other = self.cache.found(sys, types, glues).other_than(tile);
        other.is_none()
    }
}
