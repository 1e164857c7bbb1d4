// Places in an order, most of them in eight bytes.
ghost use Rattle.std.specs.Prelude.{◌≡◌, ◌+◌, ◌<◌, ◌≤◌, [], ◌∷◌, ◌++◌, length, slice_get, Some, IfOk, OnOk, OnErr};
ghost use Rattle.assembly.specs.Inner.Packing.{IsNear};

use crate::packed_place::{PackedPlace, is_near};
use std::alloc::Global;
use std::marker::Model;
use tile_system::{NoMemory, Place};

// Places in their order. A near one takes eight bytes, a far one twenty.
#[derive(Drop)]
pub(crate) struct PackedPlaces {
    packed: Vec<PackedPlace>,
    far: Vec<Place>,
}

impl Model for PackedPlaces {
    ghost use Rattle.std.specs.Prelude.{All, vec_capacity};
    ghost use Rattle.assembly.specs.Inner.Packing.{IsPackedIn, places_in};
    ghost use Rattle.assembly.specs.Logs.{RoomyPlaces};

    ghost Value = { RoomyPlaces };

    ghost view = { λ p. record {
      places = places_in p.far.items p.packed.items;
      room = vec_capacity p.packed;
    } };

    ghost invariant = { λ p. All (IsPackedIn p.far.items) p.packed.items };
}

impl PackedPlaces {
    pub(crate) fn make(alloc: Global) -> PackedPlaces
        ensures { result.places ≡ [] }
    {
        PackedPlaces {
            packed: Vec::new(alloc),
            far: Vec::new(alloc),
        }
    }

    // Takes memory for so many more near places.
    pub(crate) fn reserve(&mut self, count: usize) -> Result<(), NoMemory>
        ensures places { self.new.places ≡ self.old.places }
        ensures room { OnOk result (length self.old.places + count ≤ self.new.room) }
    {
        self.packed.reserve(count)?;
        Ok(())
    }

    #[inline(always)]
    pub(crate) fn push(&mut self, place: Place) -> Result<(), NoMemory>
        ensures ok { OnOk result (self.new.places ≡ self.old.places ++ place ∷ []) }
        ensures unchanged { OnErr result (self.new.places ≡ self.old.places) }
    {
        if !is_near(place) {
            return self.push_far(place);
        }
        self.push_one_near(place)
    }

    // The same for a near place.
    #[inline(always)]
    pub(crate) fn push_one_near(&mut self, place: Place) -> Result<(), NoMemory>
        requires { IsNear place }
        ensures ok { OnOk result (self.new.places ≡ self.old.places ++ place ∷ []) }
        ensures unchanged { OnErr result (self.new.places ≡ self.old.places) }
    {
        self.packed.push(PackedPlace::near(place))?;
        Ok(())
    }

    #[inline(never)]
    fn push_far(&mut self, place: Place) -> Result<(), NoMemory>
        ensures ok { OnOk result (self.new.places ≡ self.old.places ++ place ∷ []) }
        ensures unchanged { OnErr result (self.new.places ≡ self.old.places) }
    {
        let index = self.far.as_slice().len();
        self.packed.reserve(1)?;
        self.far.push(place)?;
        self.packed.push_reserved(PackedPlace::far(index));
        Ok(())
    }

    // The same for a near place, in memory that was taken before.
    #[inline(always)]
    pub(crate) fn push_near(&mut self, place: Place)
        requires near { IsNear place }
        requires room { length self.old.places < self.old.room }
        ensures places { self.new.places ≡ self.old.places ++ place ∷ [] }
        ensures room { self.new.room ≡ self.old.room }
    {
        self.packed.push_reserved(PackedPlace::near(place));
    }

    // All places of another one behind these.
    pub(crate) fn append(&mut self, others: &PackedPlaces) -> Result<(), NoMemory>
        ensures ok { OnOk result (self.new.places ≡ self.old.places ++ others.now.places) }
        ensures unchanged { OnErr result (self.new.places ≡ self.old.places) }
    {
        if others.far.as_slice().len() > 0 {
            return self.append_each(others);
        }
        self.packed.extend_from_slice(others.packed.as_slice())?;
        Ok(())
    }

    // The same one by one, into a copy.
    fn append_each(&mut self, others: &PackedPlaces) -> Result<(), NoMemory>
        ensures ok { OnOk result (self.new.places ≡ self.old.places ++ others.now.places) }
        ensures unchanged { OnErr result (self.new.places ≡ self.old.places) }
    {
        let mut all = self.copy()?;
        for index in 0..others.len() {
            all.push(others.get(index))?;
        }
        *self = all;
        Ok(())
    }

    pub(crate) fn copy(&self) -> Result<PackedPlaces, NoMemory>
        ensures { IfOk result (λ places. places.places ≡ self.now.places) }
    {
        Ok(PackedPlaces {
            packed: Vec::from_slice(*self.packed.allocator(), self.packed.as_slice())?,
            far: Vec::from_slice(*self.far.allocator(), self.far.as_slice())?,
        })
    }

    // Gives back the memory that it has beyond its places, in place.
    pub(crate) fn shrink_to_fit(&mut self)
        ensures { self.new.places ≡ self.old.places }
    {
        self.packed.shrink_to_fit();
        self.far.shrink_to_fit();
    }

    #[inline(always)]
    pub(crate) fn len(&self) -> usize
        ensures { result ≡ length self.now.places }
    {
        self.packed.len()
    }

    #[inline(always)]
    pub(crate) fn get(&self, i: usize) -> Place
        requires { i < length self.now.places }
        ensures { slice_get self.now.places i ≡ Some result }
    {
        self.packed[i].place(self.far.as_slice())
    }
}
