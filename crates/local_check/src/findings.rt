// What was found at places whose tiles and surroundings came before.
ghost use Rattle.std.specs.Prelude.{◌≡◌, ◌<◌, true, IfOk, IfNone};
ghost use Rattle.attach_rule.specs.declared.facing.FacingGlues.{FacingGlues};
ghost use Rattle.atam.specs.Sites.{InBox};
ghost use Rattle.atam.specs.TileSystem.{TileSystem, IsType, IsValid};
ghost use Rattle.atam.specs.Assembly.{Fits};
ghost use Rattle.assembly.specs.Cells.{cell_count, site_at};
ghost use Rattle.type_index.specs.Indexes.{IsIndexOf};
ghost use Rattle.type_index.specs.HeldTypes.{FirstHeldBut};
ghost use Rattle.type_cache.specs.Findings.{AreFindings};
ghost use Rattle.local_check.specs.Inner.PlaceFindings.{IsFinding, ArePlaceFindings, IsKept};

use assembly::Grid;
use attach_rule::FacingGlues;
use std::alloc::Global;
use std::marker::Model;
use tile_system::{NoMemory, Place, System, TypeId};
use type_cache::{FacingCache, SideSet};
use type_index::{TypeIndex, glues_of_key, key_beside};

// What is found at a place, where tiles stood beside some sides before: the sides that interact
// with those tiles, their pull, the other sides that interact, and the first rival.
#[derive(Clone, Copy)]
pub(crate) struct PlaceFinding {
    pub(crate) earlier: SideSet,
    pub(crate) sum: u32,
    pub(crate) outputs: SideSet,
    pub(crate) rival: Option<TypeId>,
}

impl PlaceFinding {
    // Where no glue faces the site.
    const NONE: PlaceFinding = PlaceFinding {
        earlier: SideSet::NONE,
        sum: 0,
        outputs: SideSet::NONE,
        rival: None,
    };
}

// What was found where tiles stood beside these sides before and the glues had this key.
#[derive(Clone, Copy)]
struct LastFinding {
    key: u64,
    before: SideSet,
    finding: PlaceFinding,
}

// For each type what was found last at a place of it, so that it need not be looked up again.
// Rivals are sought until one is found, since only the first one counts.
pub(crate) struct Findings {
    last: Vec<LastFinding>,
    cache: FacingCache,
    seeks: bool,
}

impl Drop for Findings {
    fn drop(self) {
        let Findings {
            last: _last,
            cache: _cache,
            seeks: _seeks,
        } = self;
    }
}

impl Model for Findings {
    ghost use Rattle.local_check.specs.Inner.PlaceFindings.{FindingTable};

    ghost Value = { FindingTable };

    ghost view = { λ f. record { last = f.last.items; cache = f.cache; seeks = f.seeks } };
}

impl Findings {
    pub(crate) fn make(alloc: Global, sys: &System) -> Result<Findings, NoMemory>
        ensures known { IfOk result (ArePlaceFindings sys.now) }
        ensures seeks { IfOk result (λ findings. findings.seeks ≡ true) }
    {
        sys.recall_valid();
        let none = LastFinding {
            key: 0,
            before: SideSet::NONE,
            finding: PlaceFinding::NONE,
        };
        Ok(Findings {
            last: Vec::from_elem(alloc, none, sys.type_count() as usize)?,
            cache: FacingCache::make(alloc, sys)?,
            seeks: true,
        })
    }

    // Once a rival is found, no further one is sought.
    #[inline(always)]
    pub(crate) fn stop_after(&mut self, rival: Option<TypeId>)
        ensures known { (sys : TileSystem) → ArePlaceFindings sys self.old
            → ArePlaceFindings sys self.new }
        ensures seeks { IfNone rival (self.new.seeks ≡ self.old.seeks) }
    {
        if rival.is_some() {
            self.seeks = false;
        }
    }

    // What is found at a place, in the grid of all of them.
    #[inline(always)]
    pub(crate) fn at(
        &mut self,
        sys: &System,
        types: &TypeIndex,
        whole: &Grid,
        place: Place,
        number: usize,
        before: &SideSet,
    ) -> PlaceFinding
        requires valid { IsValid sys.now }
        requires known { ArePlaceFindings sys.now self.old }
        requires index { IsIndexOf sys.now types.now }
        requires fits { Fits sys.now whole.now.tiles }
        requires kind { IsType sys.now place.tile }
        requires inside { InBox whole.now.area place.site }
        requires within { number < cell_count whole.now.area }
        requires number { site_at whole.now.area number ≡ place.site }
        ensures finding { IsFinding sys.now whole.now.tiles place.site place.tile
            before.now self.old.seeks result }
        ensures known { ArePlaceFindings sys.now self.new }
        ensures seeks { self.new.seeks ≡ self.old.seeks }
    {
        whole.recall_sites();
        let Place { site, tile } = place;
        let key = key_beside(sys, types, whole, site, &whole.beside_at(site, number));
        let last = &self.last[tile.0 as usize];
        if last.key == key && last.before.is_same(before) {
            return last.finding;
        }
        self.find(sys, types, tile, *before, key);
        self.last[tile.0 as usize].finding
    }

    // Finds it anew, from the key of the glues alone, and keeps it.
    #[inline(never)]
    fn find(&mut self, sys: &System, types: &TypeIndex, tile: TypeId, before: SideSet, key: u64)
        requires known { ArePlaceFindings sys.now self.old }
        requires index { IsIndexOf sys.now types.now }
        requires kind { IsType sys.now tile }
        ensures known { ArePlaceFindings sys.now self.new }
        ensures kept { IsKept self.new tile key before }
        ensures seeks { self.new.seeks ≡ self.old.seeks }
    {
        let glues = glues_of_key(key);
        let bonds = types.bonds(sys, &glues, tile);
        let bound = SideSet::bound_by(&bonds);
        let outputs = bound.without(before);
        let kept = outputs.complement().glues_on(&glues);
        let rival = self.rival(sys, types, &kept, tile);
        let finding = PlaceFinding {
            earlier: bound.within(before),
            sum: before.sum_on(&bonds),
            outputs,
            rival,
        };
        self.last[tile.0 as usize] = LastFinding {
            key,
            before,
            finding,
        };
    }

    // The first type other than this one that the glues hold, if rivals are sought.
    fn rival(
        &mut self,
        sys: &System,
        types: &TypeIndex,
        kept: &FacingGlues,
        tile: TypeId,
    ) -> Option<TypeId>
        requires known { AreFindings sys.now self.old.cache }
        requires index { IsIndexOf sys.now types.now }
        ensures rival { self.old.seeks ≡ true → FirstHeldBut sys.now kept.now tile result }
        ensures known { AreFindings sys.now self.new.cache }
        ensures last { self.new.last ≡ self.old.last }
        ensures seeks { self.new.seeks ≡ self.old.seeks }
    {
        if !self.seeks {
            return None;
        }
        self.cache.found(sys, types, kept).other_than(tile)
    }
}
