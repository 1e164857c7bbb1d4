// The checks of one entry of a certificate.
ghost use Rattle.std.specs.Prelude.{◌≡◌, ◌≤◌, ◌↔◌, IsTrue, Some, false, nat_lt, Contains};
ghost use Rattle.std.specs.Option.{option_map_or};
ghost use Rattle.atam.specs.declared.limits.TheConstants.{MOST_STRENGTH};
ghost use Rattle.atam.specs.Sites.{InBox, neighbor};
ghost use Rattle.atam.specs.Placements.{tile_at};
ghost use Rattle.atam.specs.Growth.{IsLeastOpenAmong};
ghost use Rattle.attach_rule.specs.Bonds.{AreStrengths};
ghost use Rattle.attach_rule.specs.Searches.{IsFirstType};
ghost use Rattle.cert_check.specs.Certificates.{places_of, entry_at, IsSeed, StatesNone};
ghost use Rattle.cert_check.specs.Judgement.{IsBeside};
ghost use Rattle.cert_check.specs.Inner.Listings.{AreBeside};
ghost use Rattle.cert_check.specs.Inner.Checks.{CanCheck, IsAttachedVerdict, IsOwnVerdict, IsEntryVerdict, waits, is_held_on, is_held, is_ranked_on, is_ranked, is_loose_on, first_loose, bond_on, stated_sum, kept_glue, kept_glues};
ghost use Rattle.cert_check.specs.Inner.Looks.{LooksLike, AreLooks};

use crate::listing::{EntriesBeside, Listing, waits};
use crate::looks::{Look, Looks};
use crate::{CertVerdict, Entry};
use assembly::Grid;
use attach_rule::{FacingGlues, Strengths, TypeFinder, glues_beside};
use tile_system::{GlueId, Place, Side, Site, System, TypeId};
use type_index::TypeIndex;

// What checks read: a system, the entries of a certificate, the system's seeds in a grid, and an
// index of its types.
#[derive(Clone, Copy)]
pub(crate) struct Checker<'a> {
    pub(crate) sys: &'a System,
    pub(crate) listing: &'a Listing<'a>,
    pub(crate) seeds: &'a Grid,
    pub(crate) types: &'a TypeIndex,
}

impl<'a> Checker<'a> {
    // The first check that an entry fails. Each site beside it is looked at once, and its rivals
    // are looked up by the glues that face it.
    pub(crate) fn check_entry(&self, looks: &mut Looks, entry: Entry) -> CertVerdict
        requires can { CanCheck self.now }
        requires listed { Contains self.now.listing.now.entries entry }
        requires known { AreLooks self.now.sys.now looks.old }
        ensures verdict { IsEntryVerdict self.now.sys.now self.now.listing.now.entries
            entry result }
        ensures known { AreLooks self.now.sys.now looks.new }
    {
        let site = entry.place.site;
        let beside = self.listing.entries_beside(site);
        match self.check_own(looks, &entry, &beside) {
            CertVerdict::Yes => match self.open_beside(site, &beside) {
                Some((open, tile)) => CertVerdict::NotTerminal(open, tile),
                None => CertVerdict::Yes,
            },
            fault => fault,
        }
    }

    // The first of the checks of its own sides and site that an entry fails.
    #[inline(always)]
    fn check_own(&self, looks: &mut Looks, entry: &Entry, beside: &EntriesBeside) -> CertVerdict
        requires can { CanCheck self.now }
        requires listed { Contains self.now.listing.now.entries entry.now }
        requires beside { AreBeside self.now.listing.now.entries entry.now.place.site beside.now }
        requires known { AreLooks self.now.sys.now looks.old }
        ensures verdict { IsOwnVerdict self.now.sys.now self.now.listing.now.entries
            entry.now result }
        ensures known { AreLooks self.now.sys.now looks.new }
    {
        if !self.is_seed(entry) {
            return self.check_attached(looks, entry, beside);
        }
        if states_none(entry) {
            CertVerdict::Yes
        } else {
            CertVerdict::SeedSides(entry.place.site)
        }
    }

    // Whether its place is a seed's.
    #[inline(always)]
    fn is_seed(&self, entry: &Entry) -> bool
        requires area { self.now.seeds.now.area ≡ self.now.listing.now.area }
        requires inside { InBox self.now.listing.now.area entry.now.place.site }
        ensures { IsTrue result ↔
            (tile_at self.now.seeds.now.tiles entry.now.place.site ≡ Some entry.now.place.tile) }
    {
        self.seeds.tile(self.listing.number(entry.place.site)) == Some(entry.place.tile)
    }

    // The first of the checks of an entry that isn't a seed's, but that of the sites beside it.
    // Where one of its type that passed looked the same, only the ranks are compared.
    #[inline(always)]
    fn check_attached(
        &self,
        looks: &mut Looks,
        entry: &Entry,
        beside: &EntriesBeside,
    ) -> CertVerdict
        requires can { CanCheck self.now }
        requires listed { Contains self.now.listing.now.entries entry.now }
        requires beside { AreBeside self.now.listing.now.entries entry.now.place.site beside.now }
        requires known { AreLooks self.now.sys.now looks.old }
        requires attached { ¬ IsSeed self.now.sys.now entry.now }
        ensures verdict { IsAttachedVerdict self.now.sys.now self.now.listing.now.entries
            entry.now result }
        ensures known { AreLooks self.now.sys.now looks.new }
    {
        let look = Look::of(self.sys, self.types, self.listing, entry, beside);
        if looks.has(self.sys, entry.place.tile, &look) && is_ranked(entry, beside) {
            return CertVerdict::Yes;
        }
        self.check_anew(looks, *entry, look)
    }

    // Makes each of these checks, and keeps the look of an entry that passes. It looks anew at what
    // stands beside the entry, so that the caller can let go of it.
    #[inline(never)]
    fn check_anew(&self, looks: &mut Looks, entry: Entry, look: Look) -> CertVerdict
        requires can { CanCheck self.now }
        requires listed { Contains self.now.listing.now.entries entry }
        requires known { AreLooks self.now.sys.now looks.old }
        requires attached { ¬ IsSeed self.now.sys.now entry }
        requires looks { LooksLike self.now.sys.now self.now.listing.now.entries entry look }
        ensures verdict { IsAttachedVerdict self.now.sys.now self.now.listing.now.entries
            entry result }
        ensures known { AreLooks self.now.sys.now looks.new }
    {
        let beside = self.listing.entries_beside(entry.place.site);
        match self.check_in_turn(looks, &entry, &beside) {
            CertVerdict::Yes => {
                looks.keep(self.sys, entry.place.tile, look);
                CertVerdict::Yes
            }
            fault => fault,
        }
    }

    // The first of these checks that it fails.
    fn check_in_turn(&self, looks: &mut Looks, entry: &Entry, beside: &EntriesBeside) -> CertVerdict
        requires can { CanCheck self.now }
        requires listed { Contains self.now.listing.now.entries entry.now }
        requires beside { AreBeside self.now.listing.now.entries entry.now.place.site beside.now }
        requires known { AreLooks self.now.sys.now looks.old }
        requires attached { ¬ IsSeed self.now.sys.now entry.now }
        ensures verdict { IsAttachedVerdict self.now.sys.now self.now.listing.now.entries
            entry.now result }
        ensures known { AreLooks self.now.sys.now looks.new }
    {
        // no two entries have one site
        self.listing.recall_sites();
        let Place { site, tile } = entry.place;
        let glues = glues_beside(self.sys, self.listing, site, &beside.tiles());
        let bonds = self.types.bonds(self.sys, &glues, tile);
        if !is_held(entry, beside, &bonds) {
            return CertVerdict::BadInput(site);
        }
        let sum = stated_sum(entry, &bonds);
        if sum != self.sys.tau() {
            return CertVerdict::NotExact(site, sum);
        }
        if let Some(side) = first_loose(entry, beside, &bonds) {
            return CertVerdict::LooseBond(site, side);
        }
        let kept = kept_glues(&glues, beside);
        match looks.other_held(self.sys, self.types, &kept, tile) {
            Some(rival) => CertVerdict::Rival(site, rival),
            None => CertVerdict::Yes,
        }
    }

    // The least site beside an entry where a type attaches, with the first such type.
    #[inline(always)]
    fn open_beside(&self, site: Site, beside: &EntriesBeside) -> Option<(Site, TypeId)>
        requires can { CanCheck self.now }
        requires inside { InBox self.now.sys.now.area site }
        requires beside { AreBeside self.now.listing.now.entries site beside.now }
        ensures { IsLeastOpenAmong self.now.sys.now (places_of self.now.listing.now.entries)
            (IsBeside site) result }
    {
        if let Some(tile) = self.type_beside(site, Side::South, &beside.south) {
            return Some((site.step(Side::South), tile));
        }
        if let Some(tile) = self.type_beside(site, Side::West, &beside.west) {
            return Some((site.step(Side::West), tile));
        }
        if let Some(tile) = self.type_beside(site, Side::East, &beside.east) {
            return Some((site.step(Side::East), tile));
        }
        if let Some(tile) = self.type_beside(site, Side::North, &beside.north) {
            return Some((site.step(Side::North), tile));
        }
        None
    }

    // The first type that attaches on this side of the site: none where an entry is there.
    #[inline(always)]
    fn type_beside(&self, site: Site, side: Side, beside: &Option<Entry>) -> Option<TypeId>
        requires can { CanCheck self.now }
        requires inside { InBox self.now.sys.now.area site }
        requires beside { beside.now ≡ entry_at self.now.listing.now.entries (neighbor site side) }
        ensures { IsFirstType self.now.sys.now (places_of self.now.listing.now.entries)
            (neighbor site side) result }
    {
        if beside.is_some() {
            return None;
        }
        self.types
            .first_type(self.sys, self.listing, site.step(side))
    }
}

// Whether it states no side.
fn states_none(entry: &Entry) -> bool
    ensures { IsTrue result ↔ StatesNone entry.now }
{
    !entry.states(Side::North)
        && !entry.states(Side::East)
        && !entry.states(Side::South)
        && !entry.states(Side::West)
}

// Whether each stated side is held by an entry of lesser rank.
#[inline(always)]
fn is_held(entry: &Entry, beside: &EntriesBeside, bonds: &Strengths) -> bool
    ensures { result ≡ is_held entry.now beside.now bonds.now }
{
    is_held_on(entry, Side::North, &beside.north, bonds.north)
        && is_held_on(entry, Side::East, &beside.east, bonds.east)
        && is_held_on(entry, Side::South, &beside.south, bonds.south)
        && is_held_on(entry, Side::West, &beside.west, bonds.west)
}

// Whether the side isn't stated, or is held so.
#[inline(always)]
fn is_held_on(entry: &Entry, side: Side, beside: &Option<Entry>, bond: u32) -> bool
    ensures { result ≡ is_held_on entry.now side beside.now bond }
{
    !entry.states(side) || bond > 0 && is_before(beside, entry.rank)
}

// Whether each stated side leads to an entry of lesser rank.
#[inline(always)]
fn is_ranked(entry: &Entry, beside: &EntriesBeside) -> bool
    ensures { result ≡ is_ranked entry.now beside.now }
{
    is_ranked_on(entry, Side::North, &beside.north)
        && is_ranked_on(entry, Side::East, &beside.east)
        && is_ranked_on(entry, Side::South, &beside.south)
        && is_ranked_on(entry, Side::West, &beside.west)
}

// Whether the side isn't stated, or leads to such an entry.
#[inline(always)]
fn is_ranked_on(entry: &Entry, side: Side, beside: &Option<Entry>) -> bool
    ensures { result ≡ is_ranked_on entry.now side beside.now }
{
    !entry.states(side) || is_before(beside, entry.rank)
}

// Whether there is an entry, of a lesser rank.
#[inline(always)]
fn is_before(beside: &Option<Entry>, rank: u32) -> bool
    ensures { result ≡ option_map_or (λ f. nat_lt f.rank rank) beside.now false }
{
    match beside {
        Some(from) => from.rank < rank,
        None => false,
    }
}

// The sum of the strengths on its stated sides.
#[inline(always)]
fn stated_sum(entry: &Entry, bonds: &Strengths) -> u32
    requires { AreStrengths bonds.now }
    ensures { result ≡ stated_sum entry.now bonds.now }
{
    bond_on(entry, Side::North, bonds.north)
        + bond_on(entry, Side::East, bonds.east)
        + bond_on(entry, Side::South, bonds.south)
        + bond_on(entry, Side::West, bonds.west)
}

// The strength on a side, if the side is stated.
#[inline(always)]
fn bond_on(entry: &Entry, side: Side, bond: u32) -> u32
    requires { bond ≤ MOST_STRENGTH }
    ensures value { result ≡ bond_on entry.now side bond }
    ensures bound { result ≤ MOST_STRENGTH }
{
    if entry.states(side) { bond } else { 0 }
}

// The first side with a bond that isn't stated, and for which no entry waits.
#[inline(always)]
fn first_loose(entry: &Entry, beside: &EntriesBeside, bonds: &Strengths) -> Option<Side>
    ensures { result ≡ first_loose entry.now beside.now bonds.now }
{
    if is_loose_on(entry, Side::North, &beside.north, bonds.north) {
        return Some(Side::North);
    }
    if is_loose_on(entry, Side::East, &beside.east, bonds.east) {
        return Some(Side::East);
    }
    if is_loose_on(entry, Side::South, &beside.south, bonds.south) {
        return Some(Side::South);
    }
    if is_loose_on(entry, Side::West, &beside.west, bonds.west) {
        return Some(Side::West);
    }
    None
}

// Whether the side is such a one.
#[inline(always)]
fn is_loose_on(entry: &Entry, side: Side, beside: &Option<Entry>, bond: u32) -> bool
    ensures { result ≡ is_loose_on entry.now side beside.now bond }
{
    !entry.states(side) && bond > 0 && !waits(beside, side)
}

// The glues of the entries that don't wait.
#[inline(always)]
fn kept_glues(glues: &FacingGlues, beside: &EntriesBeside) -> FacingGlues
    ensures { result ≡ kept_glues glues.now beside.now }
{
    FacingGlues {
        north: kept_glue(glues.north, &beside.north, Side::North),
        east: kept_glue(glues.east, &beside.east, Side::East),
        south: kept_glue(glues.south, &beside.south, Side::South),
        west: kept_glue(glues.west, &beside.west, Side::West),
    }
}

// The glue, unless the entry waits.
#[inline(always)]
fn kept_glue(glue: Option<GlueId>, beside: &Option<Entry>, side: Side) -> Option<GlueId>
    ensures { result ≡ kept_glue glue beside.now side }
{
    if !waits(beside, side) { glue } else { None }
}
