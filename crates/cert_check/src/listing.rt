// The entries of a certificate by their sites.
ghost use Rattle.std.specs.Prelude.{◌≡◌, ◌<◌, All, IfOk, Some, length, slice_get, option_map};
ghost use Rattle.atam.specs.Sites.{InBox, IsBox, neighbor};
ghost use Rattle.atam.specs.Placements.{HasDistinctSites};
ghost use Rattle.atam.specs.Assembly.{Fits};
ghost use Rattle.assembly.specs.Cells.{cell_count, site_at};
ghost use Rattle.tile_system.specs.Neighbors.{StandBeside};
ghost use Rattle.cert_check.specs.Certificates.{places_of, entry_at};
ghost use Rattle.cert_check.specs.Inner.Listings.{AreNumbersOf, AreBeside};
ghost use Rattle.cert_check.specs.Inner.Checks.{waits};

use crate::{Certificate, Entry};
use assembly::{number_beside, site_index};
use std::alloc::Global;
use std::marker::Model;
use tile_system::{Beside, BoxArea, NoMemory, Placed, Side, Site, System, TypeId};

// The entries beside a site, in each direction; none where there is no entry.
#[derive(Clone, Copy)]
pub(crate) struct EntriesBeside {
    pub(crate) north: Option<Entry>,
    pub(crate) east: Option<Entry>,
    pub(crate) south: Option<Entry>,
    pub(crate) west: Option<Entry>,
}

impl EntriesBeside {
    // The types of their tiles.
    #[inline(always)]
    pub(crate) fn tiles(&self) -> Beside
        ensures north { result.north ≡ option_map (λ e. e.place.tile) self.now.north }
        ensures east { result.east ≡ option_map (λ e. e.place.tile) self.now.east }
        ensures south { result.south ≡ option_map (λ e. e.place.tile) self.now.south }
        ensures west { result.west ≡ option_map (λ e. e.place.tile) self.now.west }
    {
        Beside {
            north: tile_of(self.north),
            east: tile_of(self.east),
            south: tile_of(self.south),
            west: tile_of(self.west),
        }
    }
}

// The type of an entry's tile, if there is an entry.
#[inline(always)]
pub(crate) fn tile_of(entry: Option<Entry>) -> Option<TypeId>
    ensures { result ≡ option_map (λ e. e.place.tile) entry }
{
    match entry {
        Some(entry) => Some(entry.place.tile),
        None => None,
    }
}

// Whether the entry beside another on this side, if there is one, states the side towards it.
#[inline(always)]
pub(crate) fn waits(beside: &Option<Entry>, side: Side) -> bool
    ensures { result ≡ waits beside.now side }
{
    match beside {
        Some(entry) => entry.states(side.opposite()),
        None => false,
    }
}

// A certificate whose sites are in a box, and for each site of the box the number of its entry,
// counted from one; 0 where there is no entry. All calls but `make` take no memory, and look at one
// site or at those beside it.
#[derive(Drop)]
pub(crate) struct Listing<'a> {
    cert: &'a Certificate,
    area: BoxArea,
    numbers: Vec<u32>,
}

impl<'a> Model for Listing<'a> {
    ghost use Rattle.cert_check.specs.Inner.Listings.{EntryTable, IsListing};

    ghost Value = { EntryTable };

    ghost view = { λ l. record { area = l.area; entries = l.cert.now } };

    ghost invariant = { λ l. IsListing l.area l.cert.now l.numbers.items };
}

impl<'a> Listing<'a> {
    // The entries of a certificate that fits the system.
    pub(crate) fn make(
        alloc: Global,
        sys: &System,
        cert: &'a Certificate,
    ) -> Result<Listing<'a>, NoMemory>
        requires fits { Fits sys.now (places_of cert.now) }
        ensures area { IfOk result (λ listing. listing.area ≡ sys.now.area) }
        ensures entries { IfOk result (λ listing. listing.entries ≡ cert.now) }
    {
        sys.recall_valid();
        cert.recall_entries();
        let area = sys.area();
        let numbers = numbers_of(alloc, &area, cert)?;
        Ok(Listing {
            cert,
            area,
            numbers,
        })
    }

    // The number of entries.
    pub(crate) fn len(&self) -> usize
        ensures { result ≡ length self.now.entries }
    {
        self.cert.len()
    }

    #[inline(always)]
    pub(crate) fn get(&self, i: usize) -> Entry
        requires { i < length self.now.entries }
        ensures { slice_get self.now.entries i ≡ Some result }
    {
        self.cert.get(i)
    }

    // Does nothing: its clause is the fact that no two entries have one site.
    #[inline(always)]
    pub(crate) fn recall_sites(&self)
        ensures { HasDistinctSites (places_of self.now.entries) }
    {
        self.cert.recall_entries();
    }

    // The number of a site of the box.
    #[inline(always)]
    pub(crate) fn number(&self, site: Site) -> usize
        requires { InBox self.now.area site }
        ensures site { site_at self.now.area result ≡ site }
        ensures within { result < cell_count self.now.area }
    {
        site_index(&self.area, site)
    }

    // The entry at the site with this number.
    #[inline(always)]
    fn numbered(&self, index: usize) -> Option<Entry>
        requires { index < cell_count self.now.area }
        ensures { result ≡ entry_at self.now.entries (site_at self.now.area index) }
    {
        match self.numbers[index] {
            0 => None,
            number => Some(self.cert.get(number as usize - 1)),
        }
    }

    // The entry at a site.
    #[inline(always)]
    pub(crate) fn entry(&self, site: Site) -> Option<Entry>
        ensures { result ≡ entry_at self.now.entries site }
    {
        if !self.area.holds(site) {
            return None;
        }
        self.numbered(self.number(site))
    }

    // The entries beside a site of the box.
    #[inline(always)]
    pub(crate) fn entries_beside(&self, site: Site) -> EntriesBeside
        requires { InBox self.now.area site }
        ensures { AreBeside self.now.entries site result }
    {
        let number = self.number(site);
        EntriesBeside {
            north: self.entry_beside(site, number, Side::North),
            east: self.entry_beside(site, number, Side::East),
            south: self.entry_beside(site, number, Side::South),
            west: self.entry_beside(site, number, Side::West),
        }
    }

    // The entry on this side of it.
    #[inline(always)]
    fn entry_beside(&self, site: Site, number: usize, side: Side) -> Option<Entry>
        requires inside { InBox self.now.area site }
        requires within { number < cell_count self.now.area }
        requires number { site_at self.now.area number ≡ site }
        ensures { result ≡ entry_at self.now.entries (neighbor site side) }
    {
        match number_beside(&self.area, site, number, side) {
            Some(beside) => self.numbered(beside),
            None => None,
        }
    }
}

impl<'a> Placed for Listing<'a> {
    ghost placements = { λ l. places_of l.entries };

    fn at(&self, site: Site) -> Option<TypeId> {
        // no two entries have one site
        self.cert.recall_entries();
        tile_of(self.entry(site))
    }
}

// For each site of the box the number of the entry there.
fn numbers_of(alloc: Global, area: &BoxArea, cert: &Certificate) -> Result<Vec<u32>, NoMemory>
    requires limits { IsBox area.now }
    requires inside { All (λ p. InBox area.now p.site) (places_of cert.now) }
    requires distinct { HasDistinctSites (places_of cert.now) }
    ensures { IfOk result (λ numbers. AreNumbersOf area.now cert.now numbers.items) }
{
    let sites = area.width() as usize * area.height() as usize;
    let mut numbers = Vec::from_elem(alloc, 0, sites)?;
    for index in 0..cert.len() {
        let site = cert.get(index).place.site;
        numbers[site_index(area, site)] = index as u32 + 1;
    }
    Ok(numbers)
}
