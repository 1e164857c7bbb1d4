// The scouts by their names.
ghost use Rattle.std.specs.Prelude.{◌≡◌, ◌≢◌, ◌<◌, ◌≤◌, ◌+◌, ◌^◌, bit_or, List, [], ◌∷◌, ◌++◌, length, replicate, slice_set, Some, None, IfSome, IfNone, IfOk};
ghost use Rattle.atam.specs.declared.site.Site.{Site};
ghost use Rattle.atam.specs.declared.place.TypeId.{TypeId};
ghost use Rattle.atam.specs.Sites.{InBox};
ghost use Rattle.atam.specs.Placements.{tile_at};
ghost use Rattle.assembly.specs.Cells.{cell_count};
ghost use Rattle.atam.specs.TileSystem.{TileSystem};
ghost use Rattle.grow_core.specs.declared.placed_tile.PlacedTile.{PlacedTile};
ghost use Rattle.atam.specs.declared.event.Event.TheVariants.{Split, Join};
ghost use Rattle.grow_core.specs.Core.{ScoutState, scout_at};
ghost use Rattle.grow_core.specs.Steps.{CoreStep, won_tile};
ghost use Rattle.grow_core.specs.Core.{state_of};
ghost use Rattle.grow_core.specs.Inner.Entries.{Becomes};

use crate::CoreScout;
use atam::{CoreStop, Seen};
use std::alloc::Global;
use std::marker::Model;
use tile_system::{BoxArea, NoMemory, Place};

// A name is below this.
const NAMES: usize = 64;

// One entry for each name from 0 to 63: the scout of this name, if it lives.
pub(crate) struct Scouts {
    area: BoxArea,
    entries: Vec<Option<CoreScout>>,
}

impl Drop for Scouts {
    fn drop(self) {
        let Scouts {
            area: _area,
            entries: _entries,
        } = self;
    }
}

impl Model for Scouts {
    ghost use Rattle.std.specs.Prelude.{◌≡◌, map, option_map};
    ghost use Rattle.grow_core.specs.Inner.Entries.{BoxedScouts, AreScoutsOf};

    ghost Value = { BoxedScouts };

    ghost view = { λ s. record {
      area = s.area;
      scouts = map (option_map (λ b. b.scout)) s.entries.items;
    } };

    ghost invariant = { λ s. AreScoutsOf s.area s.entries.items };
}

impl Scouts {
    // Scout 0 alone.
    pub(crate) fn make(alloc: Global, first: CoreScout) -> Result<Scouts, NoMemory>
        ensures area { IfOk result (λ all. all.area ≡ first.area) }
        ensures scouts { IfOk result (λ all. all.scouts
            ≡ Some first.scout ∷ replicate 63 None) }
    {
        let area = first.area();
        let mut entries = Vec::with_capacity(alloc, NAMES)?;
        for _ in 0..NAMES {
            entries.push_reserved(None);
        }
        let mut scouts = Scouts { area, entries };
        scouts.put(0, first);
        Ok(scouts)
    }

    // The scout of a name.
    pub(crate) fn get(&self, name: u32) -> Option<&CoreScout>
        ensures none { IfNone result (scout_at self.now.scouts name ≡ None) }
        ensures some { IfSome result (λ scout.
            scout_at self.now.scouts name ≡ Some scout.now.scout) }
        ensures area { IfSome result (λ scout. scout.now.area ≡ self.now.area) }
    {
        self.entries.get(name as usize)?.as_ref()
    }

    // Takes the scout of a name out.
    fn take(&mut self, name: u32) -> Option<CoreScout>
        ensures area { self.new.area ≡ self.old.area }
        ensures scouts { self.new.scouts ≡ slice_set self.old.scouts name None }
        ensures none { IfNone result (scout_at self.old.scouts name ≡ None) }
        ensures some { IfSome result (λ scout.
            scout_at self.old.scouts name ≡ Some scout.scout) }
        ensures scout_area { IfSome result (λ scout. scout.area ≡ self.old.area) }
    {
        if name as usize >= self.entries.len() {
            return None;
        }
        self.entries[name as usize].take()
    }

    // Puts a scout at a name, in place of who was there.
    fn put(&mut self, name: u32, scout: CoreScout)
        requires name { name < length self.old.scouts }
        requires area { scout.area ≡ self.old.area }
        ensures area { self.new.area ≡ self.old.area }
        ensures scouts { self.new.scouts ≡ slice_set self.old.scouts name (Some scout.scout) }
    {
        self.entries[name as usize] = Some(scout);
    }

    // The scout of a name sees a tile.
    pub(crate) fn see(&mut self, name: u32, place: Place)
        requires inside { InBox self.old.area place.site }
        requires small { place.tile.0 < 16384 }
        requires agrees { (v : ScoutState) (t : TypeId) → scout_at self.old.scouts name ≡ Some v →
            tile_at v.seen place.site ≡ Some t → t ≡ place.tile }
        ensures area { self.new.area ≡ self.old.area }
        ensures sees { (v : ScoutState) → scout_at self.old.scouts name ≡ Some v →
            Becomes self.old.scouts self.new.scouts name v.owned (v.seen ++ place ∷ []) v.mine }
    {
        if let Some(mut scout) = self.take(name) {
            scout.see(place);
            self.put(name, scout);
        }
    }

    // The scout of a name wins a tile.
    pub(crate) fn win(&mut self, name: u32, place: Place)
        requires inside { InBox self.old.area place.site }
        requires small { place.tile.0 < 16384 }
        requires empty { (v : ScoutState) → scout_at self.old.scouts name ≡ Some v →
            tile_at v.seen place.site ≡ None }
        requires room { (v : ScoutState) → scout_at self.old.scouts name ≡ Some v →
            length v.mine < cell_count self.old.area }
        ensures area { self.new.area ≡ self.old.area }
        ensures wins { (v : ScoutState) → scout_at self.old.scouts name ≡ Some v →
            Becomes self.old.scouts self.new.scouts name v.owned (v.seen ++ place ∷ [])
            (v.mine ++ won_tile v place.site place.tile ∷ []) }
    {
        if let Some(mut scout) = self.take(name) {
            scout.win(place);
            self.put(name, scout);
        }
    }

    // The scout of a name gives its greatest number to a new one.
    pub(crate) fn split(&mut self, alloc: Global, name: u32) -> Result<Seen, CoreStop>
        requires names { length self.old.scouts ≡ 64 }
        requires some_number { (v : ScoutState) → scout_at self.old.scouts name ≡ Some v →
            0 < v.owned }
        requires numbers { (v : ScoutState) → scout_at self.old.scouts name ≡ Some v →
            v.owned < 2 ^ 64 }
        requires room { (v : ScoutState) → scout_at self.old.scouts name ≡ Some v →
            length v.mine ≤ cell_count self.old.area }
        ensures area { self.new.area ≡ self.old.area }
        ensures step { (sys : TileSystem) (tiles : List PlacedTile) →
            CoreStep sys (state_of tiles self.old.scouts) (Split name) result
            (state_of tiles self.new.scouts) }
    {
        let Some(mut scout) = self.take(name) else {
            return Err(CoreStop::NoSuchScout);
        };
        let answer = scout.split(alloc);
        self.put(name, scout);
        let given = answer?;
        let given_name = given.name();
        self.put(given_name, given);
        Ok(Seen::Divided(given_name))
    }

    // One scout joins another.
    pub(crate) fn join(&mut self, into: u32, from: u32) -> Result<Seen, CoreStop>
        requires names { length self.old.scouts ≡ 64 }
        requires agree { (v w : ScoutState) (m : Site) (t u : TypeId) →
            scout_at self.old.scouts into ≡ Some v → scout_at self.old.scouts from ≡ Some w →
            tile_at v.seen m ≡ Some t → tile_at w.seen m ≡ Some u → t ≡ u }
        requires room { (v w : ScoutState) →
            scout_at self.old.scouts into ≡ Some v → scout_at self.old.scouts from ≡ Some w →
            into ≢ from → length v.mine + length w.mine ≤ cell_count self.old.area }
        ensures area { self.new.area ≡ self.old.area }
        ensures step { (sys : TileSystem) (tiles : List PlacedTile) →
            CoreStep sys (state_of tiles self.old.scouts) (Join into from) result
            (state_of tiles self.new.scouts) }
    {
        if into == from || self.get(from).is_none() {
            return Err(CoreStop::NoSuchScout);
        }
        let Some(first) = self.take(into) else {
            return Err(CoreStop::NoSuchScout);
        };
        let name = into.min(from);
        self.unite(first, from, name);
        Ok(Seen::Joined(name))
    }

    // The scout of a name joins one that is out of the list, which is put in at another name.
    fn unite(&mut self, first: CoreScout, from: u32, name: u32)
        requires name { name < length self.old.scouts }
        requires area { first.area ≡ self.old.area }
        requires agree { (w : ScoutState) (m : Site) (t u : TypeId) →
            scout_at self.old.scouts from ≡ Some w →
            tile_at first.scout.seen m ≡ Some t → tile_at w.seen m ≡ Some u → t ≡ u }
        requires room { (w : ScoutState) → scout_at self.old.scouts from ≡ Some w →
            length first.scout.mine + length w.mine ≤ cell_count self.old.area }
        ensures area { self.new.area ≡ self.old.area }
        ensures joins { (w : ScoutState) → scout_at self.old.scouts from ≡ Some w →
            Becomes (slice_set self.old.scouts from None) self.new.scouts name
            (bit_or first.scout.owned w.owned) (first.scout.seen ++ w.seen)
            (first.scout.mine ++ w.mine) }
    {
        let mut first = first;
        if let Some(second) = self.take(from) {
            first.join(second);
            self.put(name, first);
        }
    }
}
