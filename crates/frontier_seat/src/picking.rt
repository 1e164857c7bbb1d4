// Which of the types that attach at a site is claimed.
ghost use Rattle.std.specs.Prelude.{◌≡◌, None, IfOk, IsTrue};
ghost use Rattle.atam.specs.Sites.{IsNearSite};
ghost use Rattle.atam.specs.Placements.{tile_at};
ghost use Rattle.atam.specs.Assembly.{Fits};
ghost use Rattle.tile_system.specs.Neighbors.{StandBeside};
ghost use Rattle.type_cache.specs.Clean.{OpensExact};
ghost use Rattle.type_index.specs.Sums.{SumsUpCandidates};
ghost use Rattle.type_index.specs.Indexes.{IsIndexOf};
ghost use Rattle.frontier_seat.specs.Inner.Looks.{IsOpenType};
ghost use Rattle.frontier_seat.specs.Inner.Pickers.{HasMoreThan, IsPickerOf};

use crate::Chooser;
use crate::types::Types;
use assembly::Grid;
use std::alloc::Global;
use tile_system::{Beside, NoMemory, Placed, Site, System, TypeId};
use type_cache::{FacingCache, HeldList};
use type_index::Found;

// One of the types that attach at a site, if any does, and whether it is clear that whichever
// attaches comes clean, held by exactly the temperature.
#[derive(Clone, Copy)]
pub(crate) struct Pick {
    pub(crate) tile: Option<TypeId>,
    pub(crate) clean: bool,
}

// An index of types, what was found by it before, and the types that were listed last.
pub(crate) struct Picker<'i> {
    types: Types<'i>,
    cache: FacingCache,
    list: HeldList,
}

impl<'i> Drop for Picker<'i> {
    fn drop(self) {
        let Picker {
            types: _types,
            cache: _cache,
            list: _list,
        } = self;
    }
}

impl<'i> Picker<'i> {
    pub(crate) fn make(
        alloc: Global,
        sys: &System,
        types: Types<'i>,
    ) -> Result<Picker<'i>, NoMemory>
        requires { IsIndexOf sys.now types }
        ensures { IfOk result (IsPickerOf sys.now) }
    {
        Ok(Picker {
            types,
            cache: FacingCache::make(alloc, sys)?,
            list: HeldList::make(alloc, sys)?,
        })
    }

    // One of the types that attach at the empty site, if there are any. Nothing is chosen where
    // there is only one.
    #[inline(always)]
    pub(crate) fn pick<C: Chooser>(
        &mut self,
        sys: &System,
        grid: &Grid,
        site: Site,
        beside: &Beside,
        chooser: &mut C,
    ) -> Pick
        requires picker { IsPickerOf sys.now self.old }
        requires near { IsNearSite site }
        requires empty { tile_at grid.now.tiles site ≡ None }
        requires beside { StandBeside grid.now.tiles site beside.now }
        requires fits { Fits sys.now grid.now.tiles }
        ensures open { IsOpenType sys.now grid.now.tiles site result.tile }
        ensures clean { IsTrue result.clean → OpensExact sys.now grid.now.tiles site }
        ensures picker { IsPickerOf sys.now self.new }
    {
        let sighting = self
            .cache
            .sight_beside(sys, self.types.index(), grid, site, beside);
        Pick {
            tile: self.pick_found(sys, grid, site, sighting.found, chooser),
            clean: sighting.clean,
        }
    }

    // One of the types that were found at the site.
    #[inline(always)]
    fn pick_found<C: Chooser>(
        &mut self,
        sys: &System,
        grid: &Grid,
        site: Site,
        found: Found,
        chooser: &mut C,
    ) -> Option<TypeId>
        requires picker { IsPickerOf sys.now self.old }
        requires near { IsNearSite site }
        requires empty { tile_at grid.now.tiles site ≡ None }
        requires fits { Fits sys.now grid.now.tiles }
        requires found { SumsUpCandidates sys.now grid.now.tiles site found }
        ensures open { IsOpenType sys.now grid.now.tiles site result }
        ensures picker { IsPickerOf sys.now self.new }
    {
        if found.count < 2 {
            return found.first;
        }
        match chooser.pick(found.count) {
            0 => found.first,
            1 => found.second,
            picked => self.pick_listed(sys, grid, site, picked),
        }
    }

    // The one at this place of the list of all that attach. It looks up itself what stands beside
    // the site, so that the caller need not keep that in memory.
    #[inline(never)]
    fn pick_listed(&mut self, sys: &System, grid: &Grid, site: Site, picked: u32) -> Option<TypeId>
        requires picker { IsPickerOf sys.now self.old }
        requires near { IsNearSite site }
        requires empty { tile_at grid.now.tiles site ≡ None }
        requires fits { Fits sys.now grid.now.tiles }
        requires more { HasMoreThan sys.now grid.now.tiles site picked }
        ensures open { IsOpenType sys.now grid.now.tiles site result }
        ensures picker { IsPickerOf sys.now self.new }
    {
        let beside = grid.beside(site);
        let index = self.types.index();
        self.cache
            .list_beside(sys, index, grid, site, &beside, &mut self.list);
        Some(self.list.types().get(picked))
    }
}
