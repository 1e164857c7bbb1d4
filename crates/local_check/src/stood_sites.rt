// The sites at which tiles stood so far.
ghost use Rattle.std.specs.Prelude.{◌≡◌, ◌<◌, ◌≤◌, ◌++◌, ◌∷◌, [], List, All, IfOk, is_some, length, max, take};
ghost use Rattle.atam.specs.declared.place.Place.{Place};
ghost use Rattle.atam.specs.Sites.{InBox, IsBox, neighbor};
ghost use Rattle.atam.specs.Placements.{tile_at};
ghost use Rattle.assembly.specs.Cells.{cell_count, site_at};
ghost use Rattle.type_cache.specs.SideSets.{sides_beside};
ghost use Rattle.local_check.specs.Inner.StoodSites.{TellsSites};

use assembly::{Sequence, number_beside, site_index};
use std::alloc::Global;
use std::marker::Model;
use tile_system::{BoxArea, NoMemory, Place, Side, Site};
use type_cache::SideSet;

// Whether a tile stood at each site of a box, by the site's number. Each call but `make` takes no
// memory.
#[derive(Drop)]
pub(crate) struct StoodSites {
    area: BoxArea,
    stood: Vec<bool>,
}

impl Model for StoodSites {
    ghost use Rattle.local_check.specs.Inner.StoodSites.{StoodTable, HasEachSite};

    ghost Value = { StoodTable };

    ghost view = { λ w. record { area = w.area; stood = w.stood.items } };

    ghost invariant = { λ w. HasEachSite w.area w.stood.items };
}

impl StoodSites {
    // The sites of these places.
    pub(crate) fn make(
        alloc: Global,
        area: BoxArea,
        places: &[Place],
    ) -> Result<StoodSites, NoMemory>
        requires limits { IsBox area }
        requires inside { All (λ p. InBox area p.site) places.now }
        ensures area { IfOk result (λ stood. stood.area ≡ area) }
        ensures tells { IfOk result (λ stood. TellsSites stood places.now) }
    {
        let sites = area.width() as usize * area.height() as usize;
        let mut sites_stood = StoodSites {
            area,
            stood: Vec::from_elem(alloc, false, sites)?,
        };
        for place in places {
            sites_stood.insert(*place, site_index(&area, place.site));
        }
        Ok(sites_stood)
    }

    // The site of one place more.
    #[inline(always)]
    pub(crate) fn insert(&mut self, place: Place, number: usize)
        requires inside { InBox self.old.area place.site }
        requires within { number < cell_count self.old.area }
        requires number { site_at self.old.area number ≡ place.site }
        ensures area { self.new.area ≡ self.old.area }
        ensures tells { (tiles : List Place) → TellsSites self.old tiles →
            TellsSites self.new (tiles ++ place ∷ []) }
    {
        self.stood[number] = true;
    }

    // The sites of the places from one index to before another.
    pub(crate) fn insert_range(&mut self, seq: &Sequence, start: usize, end: usize)
        requires inside { All (λ p. InBox self.old.area p.site) seq.now }
        requires within { end ≤ length seq.now }
        ensures area { self.new.area ≡ self.old.area }
        ensures tells { TellsSites self.old (take start seq.now) →
            TellsSites self.new (take (max start end) seq.now) }
    {
        let area = self.area;
        for index in start..end {
            let place = seq.get(index);
            self.insert(place, site_index(&area, place.site));
        }
    }

    // The sides of a site of the box beside which a tile stood.
    #[inline(always)]
    pub(crate) fn beside(&self, site: Site, number: usize) -> SideSet
        requires inside { InBox self.now.area site }
        requires within { number < cell_count self.now.area }
        requires number { site_at self.now.area number ≡ site }
        ensures { (tiles : List Place) → TellsSites self.now tiles →
            result ≡ sides_beside tiles site }
    {
        SideSet::of(
            self.is_beside(site, number, Side::North),
            self.is_beside(site, number, Side::East),
            self.is_beside(site, number, Side::South),
            self.is_beside(site, number, Side::West),
        )
    }

    // Whether one stood on this side of it.
    #[inline(always)]
    fn is_beside(&self, site: Site, number: usize, side: Side) -> bool
        requires inside { InBox self.now.area site }
        requires within { number < cell_count self.now.area }
        requires number { site_at self.now.area number ≡ site }
        ensures { (tiles : List Place) → TellsSites self.now tiles →
            result ≡ is_some (tile_at tiles (neighbor site side)) }
    {
        match number_beside(&self.area, site, number, side) {
            Some(beside) => self.stood[beside],
            None => false,
        }
    }
}
