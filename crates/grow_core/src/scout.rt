// One scout in memory.
ghost use Rattle.std.specs.Prelude.{◌≡◌, ◌<◌, ◌≤◌, ◌+◌, ◌-◌, ◌^◌, bit_or, vec_capacity, ◌↔◌, [], ◌∷◌, ◌++◌, length, Some, None, IsTrue, IfOk, IfErr, OnOk, OnErr};
ghost use Rattle.atam.specs.declared.site.Site.{Site};
ghost use Rattle.atam.specs.declared.place.TypeId.{TypeId};
ghost use Rattle.atam.specs.Sites.{InBox};
ghost use Rattle.atam.specs.Placements.{tile_at, HasDistinctSites};
ghost use Rattle.assembly.specs.Cells.{cell_count};
ghost use Rattle.grow_core.specs.Core.{least, greatest, OwnsTwoOrMore, placed_by};
ghost use Rattle.grow_core.specs.Steps.{IsScoutOf, Sees, Wins, IsKeptPart, IsGivenPart, IsUnion};
ghost use Rattle.grow_core.specs.Inner.Entries.{IsSplitStop};

use crate::PlacedTile;
use assembly::Grid;
use atam::CoreStop;
use std::alloc::Global;
use std::marker::Model;
use tile_system::{BoxArea, NoMemory, Place, Placed};

// A scout's numbers, what it has seen, and its own tiles, with room for a tile at each site of the box.
#[derive(Drop)]
pub(crate) struct CoreScout {
    owned: u64,
    seen: Grid,
    mine: Vec<PlacedTile>,
}

impl Model for CoreScout {
    ghost use Rattle.std.specs.Prelude.{◌≤◌, vec_capacity};
    ghost use Rattle.assembly.specs.Cells.{cell_count};
    ghost use Rattle.grow_core.specs.Inner.Entries.{BoxedScout};

    ghost Value = { BoxedScout };

    ghost view = { λ s. record {
      area = s.seen.area;
      scout = record { owned = s.owned; seen = s.seen.tiles; mine = s.mine.items };
    } };

    ghost invariant = { λ s. cell_count s.seen.area ≤ vec_capacity s.mine };
}

impl CoreScout {
    // A scout with these numbers, no tile of its own, and what it has seen.
    pub(crate) fn make(alloc: Global, owned: u64, seen: Grid) -> Result<CoreScout, NoMemory>
        ensures area { IfOk result (λ new. new.area ≡ seen.area) }
        ensures scout { IfOk result (λ new. new.scout
            ≡ record { owned = owned; seen = seen.tiles; mine = [] }) }
        ensures distinct { HasDistinctSites seen.tiles }
    {
        let area = seen.area();
        let cells = area.width() as usize * area.height() as usize;
        Ok(CoreScout {
            owned,
            seen,
            mine: Vec::with_capacity(alloc, cells)?,
        })
    }

    pub(crate) fn area(&self) -> BoxArea
        ensures { result ≡ self.now.area }
    {
        self.seen.area()
    }

    pub(crate) fn owned(&self) -> u64
        ensures { result ≡ self.now.scout.owned }
    {
        self.owned
    }

    pub(crate) fn seen(&self) -> &Grid
        ensures area { result.now.area ≡ self.now.area }
        ensures tiles { result.now.tiles ≡ self.now.scout.seen }
    {
        &self.seen
    }

    // The least of its numbers.
    pub(crate) fn name(&self) -> u32
        ensures { result ≡ least self.now.scout.owned }
    {
        self.owned.trailing_zeros()
    }

    // The greatest of its numbers.
    fn last_number(&self) -> u32
        requires { 0 < self.now.scout.owned }
        ensures value { result ≡ greatest self.now.scout.owned }
        ensures within { result < 64 }
    {
        63 - self.owned.leading_zeros()
    }

    pub(crate) fn owns_two_or_more(&self) -> bool
        requires { 0 < self.now.scout.owned }
        ensures { IsTrue result ↔ OwnsTwoOrMore self.now.scout.owned }
    {
        self.name() != self.last_number()
    }

    // Adds a tile to what it has seen, if it is not there.
    pub(crate) fn see(&mut self, place: Place)
        requires inside { InBox self.old.area place.site }
        requires agrees { (t : TypeId) →
            tile_at self.old.scout.seen place.site ≡ Some t → t ≡ place.tile }
        requires small { place.tile.0 < 16384 }
        ensures area { self.new.area ≡ self.old.area }
        ensures scout { Sees self.old.scout place self.new.scout }
    {
        if self.seen.at(place.site).is_none() {
            self.seen.put(place);
            self.seen.recall_sites();
        }
    }

    // Adds a tile of its own, placed by its least number.
    pub(crate) fn win(&mut self, place: Place)
        requires inside { InBox self.old.area place.site }
        requires empty { tile_at self.old.scout.seen place.site ≡ None }
        requires small { place.tile.0 < 16384 }
        requires room { length self.old.scout.mine < cell_count self.old.area }
        ensures area { self.new.area ≡ self.old.area }
        ensures scout { Wins self.old.scout place self.new.scout }
    {
        let placer = self.name();
        self.seen.put(place);
        self.seen.recall_sites();
        self.mine.push_reserved(PlacedTile { place, placer });
    }

    // Gives the greatest number to a new scout, unless it is the only one.
    pub(crate) fn split(&mut self, alloc: Global) -> Result<CoreScout, CoreStop>
        requires some_number { 0 < self.old.scout.owned }
        requires room { length self.old.scout.mine ≤ cell_count self.old.area }
        ensures area { self.new.area ≡ self.old.area }
        ensures two { OnOk result (OwnsTwoOrMore self.old.scout.owned) }
        ensures kept { OnOk result (IsKeptPart self.old.scout self.new.scout) }
        ensures given_area { IfOk result (λ new. new.area ≡ self.old.area) }
        ensures given { IfOk result (λ new. IsGivenPart self.old.scout new.scout) }
        ensures stop { IfErr result (IsSplitStop self.old.scout.owned) }
        ensures unchanged { OnErr result (self.new ≡ self.old) }
    {
        if !self.owns_two_or_more() {
            return Err(CoreStop::NoNumberLeft);
        }
        let number = self.last_number();
        let Ok(given) = self.given_part(alloc, number) else {
            return Err(CoreStop::NoMemory);
        };
        self.mine.retain(|tile| tile.placer != number);
        self.owned -= 1 << number;
        Ok(given)
    }

    // A scout of one number, which has seen the same, with the tiles that this number placed.
    fn given_part(&self, alloc: Global, number: u32) -> Result<CoreScout, NoMemory>
        requires within { number < 64 }
        requires room { length self.now.scout.mine ≤ cell_count self.now.area }
        ensures area { IfOk result (λ new. new.area ≡ self.now.area) }
        ensures given { IfOk result (λ new. IsScoutOf (2 ^ number) self.now.scout.seen
            (placed_by number self.now.scout.mine) new.scout) }
        ensures distinct { OnOk result (HasDistinctSites self.now.scout.seen) }
    {
        let mut given = CoreScout::make(alloc, 1 << number, self.seen.copy()?)?;
        copy_wins(&self.mine, number, &mut given.mine);
        Ok(given)
    }

    // Adds the numbers, the seen and the tiles of another scout to its own.
    pub(crate) fn join(&mut self, other: CoreScout)
        requires area { other.area ≡ self.old.area }
        requires agree { (m : Site) (t u : TypeId) → tile_at self.old.scout.seen m ≡ Some t →
            tile_at other.scout.seen m ≡ Some u → t ≡ u }
        requires room { length self.old.scout.mine + length other.scout.mine
            ≤ cell_count self.old.area }
        ensures area { self.new.area ≡ self.old.area }
        ensures scout { IsUnion self.old.scout other.scout self.new.scout }
    {
        self.owned |= other.owned;
        self.seen.merge(&other.seen);
        self.seen.recall_sites();
        self.mine.extend_from_slice(&other.mine).unwrap();
    }
}

// Puts the tiles that a number placed behind others, whose room is reserved.
fn copy_wins(tiles: &[PlacedTile], number: u32, wins: &mut Vec<PlacedTile>)
    requires room { length wins.old.items + length tiles.now ≤ vec_capacity wins.old }
    ensures wins { wins.new.items ≡ wins.old.items ++ placed_by number tiles.now }
    ensures room { vec_capacity wins.new ≡ vec_capacity wins.old }
{
    for tile in tiles {
        if tile.placer == number {
            wins.push_reserved(*tile);
        }
    }
}
