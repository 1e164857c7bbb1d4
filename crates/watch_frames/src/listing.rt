// The sites at which a place is ready to follow.
ghost use Rattle.std.specs.Prelude.{◌≡◌, ◌<◌, ◌≤◌, ◌+◌, ◌^◌, ℕ, length, IfOk};
ghost use Rattle.atam.specs.declared.site.Side.{Side};
ghost use Rattle.atam.specs.Sites.{InBox};
ghost use Rattle.atam.specs.Placements.{IsPartOf, SamePlacements};
ghost use Rattle.atam.specs.Assembly.{Fits};
ghost use Rattle.assembly.specs.Cells.{cell_count, site_at};
ghost use Rattle.assembly.specs.Rows.{IsRow};
ghost use Rattle.number_set.specs.Numbers.{IsIn};
ghost use Rattle.watch_frames.specs.Extensions.{Extends};
ghost use Rattle.watch_frames.specs.Frames.{AreFrames, TakesFrame};
ghost use Rattle.watch_frames.specs.Inner.Listing.{AddsReady, AreReady, AtRest, CanGoOn, HasReadyOn, IsGoingOn, IsListingOf, IsReadyAt};

use crate::Frames;
use assembly::{Grid, Row, grid_of_seeds, number_beside};
use attach_rule::{facing_pull, glues_beside};
use number_set::NumberSet;
use std::alloc::Global;
use std::marker::Model;
use tile_system::{NoMemory, Place, Side, Site, System};

// The listed places as a grid, and the numbers of the sites where a tile that was seen attaches to
// them: two bytes and an eighth a site. All calls but `make` take no memory.
pub(crate) struct Listing {
    listed: Grid,
    ready: NumberSet,
}

impl Drop for Listing {
    fn drop(self) {
        let Listing {
            listed: _listed,
            ready: _ready,
        } = self;
    }
}

impl Model for Listing {
    ghost use Rattle.watch_frames.specs.Inner.Listing.{ListingValue};

    ghost Value = { ListingValue };

    ghost view = { λ l. record { listed = l.listed; ready = l.ready } };
}

impl Listing {
    // The seeds are listed.
    pub(crate) fn make(alloc: Global, sys: &System) -> Result<Listing, NoMemory>
        ensures { IfOk result (AtRest sys.now sys.now.seeds) }
    {
        let listed = grid_of_seeds(alloc, sys)?;
        let area = sys.area();
        let ready = NumberSet::make(alloc, area.width() * area.height())?;
        Ok(Listing { listed, ready })
    }

    // Adds the number of a site if it is ready.
    #[inline(always)]
    fn offer(&mut self, sys: &System, seen: &Grid, site: Site, number: usize)
        requires fit { IsListingOf sys.now self.old }
        requires area { seen.now.area ≡ sys.now.area }
        requires fits { Fits sys.now seen.now.tiles }
        requires listed_fits { Fits sys.now self.old.listed.tiles }
        requires inside { InBox sys.now.area site }
        requires within { number < cell_count sys.now.area }
        requires number { site_at sys.now.area number ≡ site }
        ensures adds { AddsReady sys.now seen.now.tiles self.old self.new }
        ensures here { IsReadyAt sys.now seen.now.tiles self.old.listed.tiles site →
            IsIn self.new.ready number }
    {
        let tau = sys.tau();
        let Some(tile) = seen.tile(number) else {
            return;
        };
        if self.listed.tile(number).is_some() {
            return;
        }
        let beside = self.listed.beside_at(site, number);
        let glues = glues_beside(sys, &self.listed, site, &beside);
        if facing_pull(sys, &glues, tile) >= tau {
            self.ready.insert(number);
        }
    }

    // The same by the number alone: the site is worked out only where a tile was seen that isn't
    // listed.
    #[inline(always)]
    fn offer_number(&mut self, sys: &System, seen: &Grid, row: &mut Row, number: usize)
        requires fit { IsListingOf sys.now self.old }
        requires area { seen.now.area ≡ sys.now.area }
        requires fits { Fits sys.now seen.now.tiles }
        requires listed_fits { Fits sys.now self.old.listed.tiles }
        requires within { number < cell_count sys.now.area }
        requires row { IsRow sys.now.area row.old }
        ensures adds { AddsReady sys.now seen.now.tiles self.old self.new }
        ensures here { IsReadyAt sys.now seen.now.tiles self.old.listed.tiles
            (site_at sys.now.area number) → IsIn self.new.ready number }
        ensures row { IsRow sys.now.area row.new }
    {
        if seen.tile(number).is_none() || self.listed.tile(number).is_some() {
            return;
        }
        let area = sys.area();
        let site = row.site(&area, number);
        self.offer(sys, seen, site, number);
    }

    // The same for the site on one side of a site, if it is in the box.
    #[inline(always)]
    fn offer_on(&mut self, sys: &System, seen: &Grid, site: Site, number: usize, side: Side)
        requires fit { IsListingOf sys.now self.old }
        requires area { seen.now.area ≡ sys.now.area }
        requires fits { Fits sys.now seen.now.tiles }
        requires listed_fits { Fits sys.now self.old.listed.tiles }
        requires inside { InBox sys.now.area site }
        requires within { number < cell_count sys.now.area }
        requires number { site_at sys.now.area number ≡ site }
        ensures adds { AddsReady sys.now seen.now.tiles self.old self.new }
        ensures has { HasReadyOn sys.now seen.now.tiles self.new site side }
    {
        let area = sys.area();
        if let Some(beside) = number_beside(&area, site, number, side) {
            self.offer(sys, seen, site.step(side), beside);
        }
    }

    // And for each of the sites beside it.
    fn offer_beside(&mut self, sys: &System, seen: &Grid, site: Site, number: usize)
        requires fit { IsListingOf sys.now self.old }
        requires area { seen.now.area ≡ sys.now.area }
        requires fits { Fits sys.now seen.now.tiles }
        requires listed_fits { Fits sys.now self.old.listed.tiles }
        requires inside { InBox sys.now.area site }
        requires within { number < cell_count sys.now.area }
        requires number { site_at sys.now.area number ≡ site }
        ensures adds { AddsReady sys.now seen.now.tiles self.old self.new }
        ensures has { (d : Side) → HasReadyOn sys.now seen.now.tiles self.new site d }
    {
        self.offer_on(sys, seen, site, number, Side::North);
        self.offer_on(sys, seen, site, number, Side::East);
        self.offer_on(sys, seen, site, number, Side::South);
        self.offer_on(sys, seen, site, number, Side::West);
    }

    // Finds the ready sites of the box, in one pass.
    fn find_ready(&mut self, sys: &System, seen: &Grid)
        requires fit { IsListingOf sys.now self.old }
        requires none { (i : ℕ) → ¬ IsIn self.old.ready i }
        requires area { seen.now.area ≡ sys.now.area }
        requires fits { Fits sys.now seen.now.tiles }
        requires listed_fits { Fits sys.now self.old.listed.tiles }
        ensures listed { self.new.listed ≡ self.old.listed }
        ensures bound { self.new.ready.bound ≡ self.old.ready.bound }
        ensures ready { AreReady sys.now seen.now.tiles self.new.listed.tiles self.new.ready }
    {
        let area = sys.area();
        let sites = area.width() as usize * area.height() as usize;
        let mut row = Row::least(&area);
        for number in 0..sites {
            self.offer_number(sys, seen, &mut row, number);
        }
    }

    // The ready place with the least site follows, as long as there is one.
    fn list_ready(&mut self, sys: &System, seen: &Grid, frames: &mut Frames)
        requires can { CanGoOn sys.now frames.old.places seen.now }
        requires room { cell_count sys.now.area ≤ frames.old.room }
        requires going { IsGoingOn sys.now frames.old.places seen.now.tiles frames.old.places self.old }
        ensures goes_on { Extends sys.now frames.old.places seen.now.tiles frames.new.places }
        ensures rest { AtRest sys.now frames.new.places self.new }
        ensures room { frames.new.room ≡ frames.old.room }
        ensures counts { frames.new.counts ≡ frames.old.counts }
        ensures most { frames.new.most ≡ frames.old.most }
    {
        sys.recall_valid();
        let area = seen.area();
        let mut row = Row::least(&area);
        while let Some(number) = self.ready.least() {
            self.ready.remove(number);
            let site = row.site(&area, number);
            let tile = seen.tile(number).unwrap();
            let place = Place { site, tile };
            frames.list(place);
            self.listed.put_at(place, number);
            self.offer_beside(sys, seen, site, number);
        }
    }

    // The places go on over what is seen now, to a frame more.
    pub(crate) fn extend_over(&mut self, sys: &System, seen: &Grid, frames: &mut Frames)
        requires can { CanGoOn sys.now frames.old.places seen.now }
        requires rest { AtRest sys.now frames.old.places self.old }
        requires frames { AreFrames sys.now frames.old.places frames.old.counts }
        requires room { cell_count sys.now.area ≤ frames.old.room }
        requires most { length frames.old.counts < frames.old.most }
        requires few { length frames.old.counts < 1000 }
        ensures takes { TakesFrame sys.now seen.now.tiles frames.old frames.new }
        ensures frames { AreFrames sys.now frames.new.places frames.new.counts }
        ensures part { IsPartOf frames.new.places seen.now.tiles }
        ensures rest { AtRest sys.now frames.new.places self.new }
    {
        sys.recall_valid();
        seen.recall_sites();
        self.find_ready(sys, seen);
        self.list_ready(sys, seen, frames);
        frames.end_frame();
    }
}
