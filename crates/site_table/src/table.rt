// The table itself.
ghost use Rattle.std.specs.Prelude.{◌≡◌, ◌-◌, ◌+◌, ◌<◌, ◌%◌, ◌^◌, [], Some, None, IfSome, IfNone, IfOk, map};
ghost use Rattle.atam.specs.Sites.{InBox};
ghost use Rattle.assembly.specs.Cells.{cell_count, site_at};
ghost use Rattle.atam.specs.declared.site.Site.{Site};
ghost use Rattle.atam.specs.declared.place.TypeId.{TypeId};
ghost use Rattle.atam.specs.TileSystem.{IsType, IsValid};
ghost use Rattle.atam.specs.Placements.{tile_at};
ghost use Rattle.grow_core.specs.Core.{OwnsTwoOrMore};
ghost use Rattle.grow_core.specs.Steps.{IsScoutOf, IsKeptPart, IsGivenPart, IsUnion, Sees, Supports, place, tile_of};
ghost use Rattle.site_table.specs.Seats.{IsSeatOf, GoesOn, IsClaimOf, IsPartOfGrowth, Closes, holder};
ghost use Rattle.site_table.specs.Words.{Spells, code, type_in};

use crate::grown::{Grown, gather};
use crate::rule::{Check, Claim, Divide, GrowthRule, Look, Unite};
use crate::{SeatView, SiteSeat};
use assembly::{Grid, site_index};
use atomic_table::Table;
use std::alloc::Global;
use std::marker::Model;
use std::sync::ledger::Ledger;
use tile_io::Steps;
use tile_system::{BoxArea, NoMemory, Site, System, TypeId};

// The placer of a seed.
const SEED: u32 = 65535;

/// One word for each site of the box, by rows. A word is 0 where the site is empty; else its low
/// half is the type's index and 1, and its high half the number that placed the tile, 65535 for a
/// seed.
#[derive(Drop)]
pub struct SiteTable {
    table: Table<(), SeatView, System, GrowthRule, Global>,
    area: BoxArea,
}

impl Model for SiteTable {
    ghost use Rattle.std.specs.Prelude.{◌≡◌};
    ghost use Rattle.assembly.specs.Cells.{cell_count};
    ghost use Rattle.atam.specs.TileSystem.{IsValid};
    ghost use Rattle.site_table.specs.Seats.{TableValue};

    ghost Value = { TableValue };

    ghost view = { λ t. record { table = t.table.shared.table_id; sys = t.table.shared.key } };

    ghost invariant = { λ t. (t.area ≡ t.table.shared.key.area) × IsValid t.table.shared.key
        × (t.table.shared.table_id.words ≡ cell_count t.area)
        × (t.table.shared.table_id.slots ≡ 0) };
}

/// How a claim went.
#[derive(Clone, Copy, Debug, PartialEq, Eq)]
pub enum Claimed {
    Won,
    Held(TypeId),
}

impl SiteTable {
    /// A table with the seeds alone, and the seat that owns all numbers.
    pub fn make(alloc: Global, sys: &System) -> Result<(SiteTable, SiteSeat), NoMemory>
        ensures table { IfOk result (λ r. r.0.sys ≡ sys.now) }
        ensures seat { IfOk result (λ r. IsSeatOf r.0 r.1) }
        ensures scout { IfOk result (λ r. IsScoutOf (2 ^ 64 - 1) sys.now.seeds [] r.1.scout) }
    {
        let area = sys.area();
        let words = seed_words(alloc, sys)?;
        let (table, seat) = Table::of_words(alloc, words.as_slice(), sys)?;
        Ok((
            SiteTable { table, area },
            SiteSeat {
                seat,
                owned: u64::MAX,
            },
        ))
    }

    /// Claims a site for a type, in one compare-exchange, which is not tried again. It is won
    /// exactly where the word is 0 at this step (`ClaimStep`), which is the core's event of a claim
    /// (`law_steps`).
    #[inline(always)]
    pub fn claim<L: Ledger>(
        &self,
        seat: &mut SiteSeat,
        site: Site,
        tile: TypeId,
        steps: &mut Steps<L>,
    ) -> Claimed
        requires seat { IsSeatOf self.now seat.old }
        requires inside { InBox self.now.sys.area site }
        requires supported { Supports self.now.sys seat.old.scout site tile }
        ensures seat { GoesOn seat.old seat.new }
        ensures claim { IsClaimOf seat.old.scout site tile result seat.new.scout }
        ensures stands { tile_at seat.new.scout.seen site ≡ Some (holder tile result) }
        ensures kind { IsType self.now.sys (holder tile result) }
        ensures cost { steps.new ≡ steps.old + 1 }
    {
        let index = site_index(&self.area, site);
        self.claim_at(seat, site, index, tile, steps)
    }

    /// The same at a site whose number is known.
    #[inline(always)]
    pub fn claim_at<L: Ledger>(
        &self,
        seat: &mut SiteSeat,
        site: Site,
        index: usize,
        tile: TypeId,
        steps: &mut Steps<L>,
    ) -> Claimed
        requires seat { IsSeatOf self.now seat.old }
        requires within { index < cell_count self.now.sys.area }
        requires number { site_at self.now.sys.area index ≡ site }
        requires supported { Supports self.now.sys seat.old.scout site tile }
        ensures seat { GoesOn seat.old seat.new }
        ensures claim { IsClaimOf seat.old.scout site tile result seat.new.scout }
        ensures stands { tile_at seat.new.scout.seen site ≡ Some (holder tile result) }
        ensures kind { IsType self.now.sys (holder tile result) }
        ensures cost { steps.new ≡ steps.old + 1 }
    {
        steps.tick();
        let word = code_of(tile, seat.number());
        let found = self
            .table
            .shared
            .compare_exchange::<Claim>(&mut seat.seat, index, 0, word);
        if found == 0 {
            return Claimed::Won;
        }
        Claimed::Held(type_of(found))
    }

    /// What stands at a site, by one load.
    pub fn look(&self, seat: &mut SiteSeat, site: Site) -> Option<TypeId>
        requires seat { IsSeatOf self.now seat.old }
        requires inside { InBox self.now.sys.area site }
        ensures seat { GoesOn seat.old seat.new }
        ensures same { IfNone result (seat.new.scout ≡ seat.old.scout) }
        ensures unseen { IfNone result (tile_at seat.old.scout.seen site ≡ None) }
        ensures sees { IfSome result (λ t. Sees seat.old.scout (place site t) seat.new.scout) }
        ensures kind { IfSome result (IsType self.now.sys) }
        ensures seen { (t : TypeId) → tile_at seat.old.scout.seen site ≡ Some t → result ≡ Some t }
        ensures stands { IfSome result (λ t. tile_at seat.new.scout.seen site ≡ Some t) }
    {
        let index = site_index(&self.area, site);
        self.look_at(seat, site, index)
    }

    /// The same at a site whose number is known.
    #[inline(always)]
    pub fn look_at(&self, seat: &mut SiteSeat, site: Site, index: usize) -> Option<TypeId>
        requires seat { IsSeatOf self.now seat.old }
        requires within { index < cell_count self.now.sys.area }
        requires number { site_at self.now.sys.area index ≡ site }
        ensures seat { GoesOn seat.old seat.new }
        ensures same { IfNone result (seat.new.scout ≡ seat.old.scout) }
        ensures unseen { IfNone result (tile_at seat.old.scout.seen site ≡ None) }
        ensures sees { IfSome result (λ t. Sees seat.old.scout (place site t) seat.new.scout) }
        ensures kind { IfSome result (IsType self.now.sys) }
        ensures seen { (t : TypeId) → tile_at seat.old.scout.seen site ≡ Some t → result ≡ Some t }
        ensures stands { IfSome result (λ t. tile_at seat.new.scout.seen site ≡ Some t) }
    {
        let found = self.table.shared.load::<Look>(&mut seat.seat, index);
        if found == 0 {
            return None;
        }
        Some(type_of(found))
    }

    /// The old seat, and a new one with its greatest number.
    pub fn split(&self, seat: SiteSeat) -> (SiteSeat, SiteSeat)
        requires seat { IsSeatOf self.now seat }
        requires two { OwnsTwoOrMore seat.scout.owned }
        ensures first { IsSeatOf self.now result.0 }
        ensures second { IsSeatOf self.now result.1 }
        ensures kept { IsKeptPart seat.scout result.0.scout }
        ensures given { IsGivenPart seat.scout result.1.scout }
    {
        let SiteSeat { mut seat, owned } = seat;
        let greatest = 1u64 << (63 - owned.leading_zeros());
        let other = self.table.shared.split_seat::<Divide>(&mut seat);
        (
            SiteSeat {
                seat,
                owned: owned - greatest,
            },
            SiteSeat {
                seat: other,
                owned: greatest,
            },
        )
    }

    /// One seat with what both had. A second load, which keeps the view, tells what the rule says of
    /// it.
    pub fn join(&self, first: SiteSeat, second: SiteSeat) -> SiteSeat
        requires first { IsSeatOf self.now first }
        requires second { IsSeatOf self.now second }
        ensures seat { IsSeatOf self.now result }
        ensures union { IsUnion first.scout second.scout result.scout }
        ensures agree { (m : Site) (t u : TypeId) → tile_at first.scout.seen m ≡ Some t →
            tile_at second.scout.seen m ≡ Some u → t ≡ u }
        ensures part { IsPartOfGrowth self.now.sys result.scout.seen }
    {
        let SiteSeat { mut seat, owned } = first;
        let SiteSeat {
            seat: other,
            owned: more,
        } = second;
        self.table.shared.join_seat::<Unite>(&mut seat, other);
        self.table.shared.load::<Check>(&mut seat, 0);
        SiteSeat {
            seat,
            owned: owned | more,
        }
    }

    /// Ends the table. Its tiles go into an empty grid of the box.
    pub fn close(self, seat: SiteSeat, into: Grid) -> Grown
        requires seat { IsSeatOf self seat }
        requires area { into.area ≡ self.sys.area }
        requires empty { into.tiles ≡ [] }
        ensures { Closes self.sys seat.scout result }
    {
        let SiteTable { table, area } = self;
        let SiteSeat { seat, owned: _ } = seat;
        let closed = table.close_with(seat);
        let grown = gather(&closed, area, into);
        closed.free();
        grown
    }
}

// The word of a tile that this number placed.
#[inline(always)]
fn code_of(tile: TypeId, number: u32) -> u64
    requires { number < 65536 }
    ensures { result ≡ code tile number }
{
    u64::from(tile.0) + 1 + (u64::from(number) << 32)
}

// The type of a tile by its word.
#[inline(always)]
pub(crate) fn type_of(word: u64) -> TypeId
    requires { 0 < word % 4294967296 }
    ensures { result ≡ type_in word }
{
    TypeId((word % 4_294_967_296) as u32 - 1)
}

// The words that hold the seeds alone.
fn seed_words(alloc: Global, sys: &System) -> Result<Vec<u64>, NoMemory>
    ensures valid { IsValid sys.now }
    ensures words { IfOk result (λ words. Spells sys.now.area words.items
        (map (λ p. tile_of p 65535) sys.now.seeds)) }
{
    let area = sys.area();
    let count = area.width() as usize * area.height() as usize;
    let mut words = Vec::from_elem(alloc, 0u64, count)?;
    for seed in sys.seeds() {
        let index = site_index(&area, seed.site);
        words[index] = code_of(seed.tile, SEED);
    }
    Ok(words)
}
