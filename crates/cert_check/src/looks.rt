// What entries looked like that passed their checks.
ghost use Rattle.std.specs.Prelude.{◌≡◌, ◌↔◌, ◌<◌, IfOk, IfSome, IsTrue, option_and_then};
ghost use Rattle.atam.specs.TileSystem.{IsType, side_glue};
ghost use Rattle.atam.specs.Assembly.{Fits};
ghost use Rattle.type_index.specs.Codes.{code_of};
ghost use Rattle.type_index.specs.Indexes.{IsIndexOf};
ghost use Rattle.type_index.specs.HeldTypes.{FirstHeldBut};
ghost use Rattle.cert_check.specs.Certificates.{places_of};
ghost use Rattle.cert_check.specs.Inner.Listings.{AreBeside};
ghost use Rattle.cert_check.specs.Inner.Checks.{waiting_sides};
ghost use Rattle.cert_check.specs.Inner.Looks.{LooksLike, PassesLooking, AreLooks};

use crate::Entry;
use crate::listing::{EntriesBeside, Listing, tile_of, waits};
use attach_rule::FacingGlues;
use std::alloc::Global;
use std::marker::Model;
use tile_system::{NoMemory, Side, System, TypeId};
use type_cache::{FacingCache, SideSet};
use type_index::{TypeIndex, key_of_codes};

// What an entry looks like: the key of the glues that face its site, the sides that it states, and
// those on which the entries beside it wait.
#[derive(Clone, Copy)]
pub(crate) struct Look {
    key: u64,
    sides: u8,
    waits: SideSet,
}

impl Look {
    // The look of an entry.
    #[inline(always)]
    pub(crate) fn of(
        sys: &System,
        types: &TypeIndex,
        listing: &Listing<'_>,
        entry: &Entry,
        beside: &EntriesBeside,
    ) -> Look
        requires fits { Fits sys.now (places_of listing.now.entries) }
        requires index { IsIndexOf sys.now types.now }
        requires beside { AreBeside listing.now.entries entry.now.place.site beside.now }
        ensures { LooksLike sys.now listing.now.entries entry.now result }
    {
        let _listed = listing;
        Look {
            key: key_of_codes(
                code_beside(sys, types, &beside.north, Side::South),
                code_beside(sys, types, &beside.east, Side::West),
                code_beside(sys, types, &beside.south, Side::North),
                code_beside(sys, types, &beside.west, Side::East),
            ),
            sides: entry.sides,
            waits: waiting_sides(beside),
        }
    }

    // Whether the other one is the same.
    #[inline(always)]
    fn is_same(&self, other: &Look) -> bool
        ensures { IsTrue result ↔ (self.now ≡ other.now) }
    {
        self.key == other.key && self.sides == other.sides && self.waits.is_same(&other.waits)
    }
}

// The code of the glue on a side of an entry's tile, if there is an entry.
#[inline(always)]
fn code_beside(sys: &System, types: &TypeIndex, beside: &Option<Entry>, side: Side) -> u32
    requires index { IsIndexOf sys.now types.now }
    requires kind { IfSome beside.now (λ e. IsType sys.now e.place.tile) }
    ensures code { result ≡ code_of
        (option_and_then (λ e. side_glue sys.now e.place.tile side) beside.now) }
    ensures small { result < 65536 }
{
    types.side_code(sys, tile_of(*beside), side)
}

// The sides of a site on which the entries beside it wait.
#[inline(always)]
fn waiting_sides(beside: &EntriesBeside) -> SideSet
    ensures { result ≡ waiting_sides beside.now }
{
    SideSet::of(
        waits(&beside.north, Side::North),
        waits(&beside.east, Side::East),
        waits(&beside.south, Side::South),
        waits(&beside.west, Side::West),
    )
}

// For each type the look of the entry that passed last, and what was found for glues, so that what
// comes again need not be looked up again.
pub(crate) struct Looks {
    last: Vec<Option<Look>>,
    cache: FacingCache,
}

impl Drop for Looks {
    fn drop(self) {
        let Looks {
            last: _last,
            cache: _cache,
        } = self;
    }
}

impl Model for Looks {
    ghost use Rattle.cert_check.specs.Inner.Looks.{LookTable};

    ghost Value = { LookTable };

    ghost view = { λ l. record { last = l.last.items; cache = l.cache } };
}

impl Looks {
    // No entry has passed yet.
    pub(crate) fn make(alloc: Global, sys: &System) -> Result<Looks, NoMemory>
        ensures { IfOk result (AreLooks sys.now) }
    {
        sys.recall_valid();
        Ok(Looks {
            last: Vec::from_elem(alloc, None, sys.type_count() as usize)?,
            cache: FacingCache::make(alloc, sys)?,
        })
    }

    // Whether the entry of this type that passed last looked so.
    #[inline(always)]
    pub(crate) fn has(&self, sys: &System, tile: TypeId, look: &Look) -> bool
        requires known { AreLooks sys.now self.now }
        requires kind { IsType sys.now tile }
        ensures { IsTrue result → PassesLooking sys.now tile look.now }
    {
        let _looks_of = sys;
        match &self.last[tile.0 as usize] {
            Some(last) => last.is_same(look),
            None => false,
        }
    }

    // From now on it is the look of the entry of this type that passed last.
    pub(crate) fn keep(&mut self, sys: &System, tile: TypeId, look: Look)
        requires known { AreLooks sys.now self.old }
        requires kind { IsType sys.now tile }
        requires passes { PassesLooking sys.now tile look }
        ensures { AreLooks sys.now self.new }
    {
        let _looks_of = sys;
        self.last[tile.0 as usize] = Some(look);
    }

    // The first type but this one that these glues hold.
    pub(crate) fn other_held(
        &mut self,
        sys: &System,
        types: &TypeIndex,
        glues: &FacingGlues,
        tile: TypeId,
    ) -> Option<TypeId>
        requires known { AreLooks sys.now self.old }
        requires index { IsIndexOf sys.now types.now }
        ensures held { FirstHeldBut sys.now glues.now tile result }
        ensures known { AreLooks sys.now self.new }
    {
        self.cache.found(sys, types, glues).other_than(tile)
    }
}
