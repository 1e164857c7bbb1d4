// Places in an order.
ghost use Rattle.std.specs.Prelude.{◌≡◌, ◌<◌, [], ◌∷◌, ◌++◌, length, take, slice_get, Some, IsTrue, ◌↔◌, IfOk, OnOk, OnErr};
ghost use Rattle.atam.specs.declared.limits.TheConstants.{MOST_TYPES};
ghost use Rattle.atam.specs.Sites.{IsNearSite};

use crate::packed_places::PackedPlaces;
use std::alloc::Global;
use std::marker::Model;
use tile_system::{NoMemory, Place};

/// Places in the order in which they were pushed. Their sites may repeat.
#[derive(Drop)]
pub struct Sequence {
    places: PackedPlaces,
}

impl Model for Sequence {
    ghost use Rattle.std.specs.Prelude.{List};
    ghost use Rattle.atam.specs.declared.place.Place.{Place};

    ghost Value = { List Place };

    ghost view = { λ s. s.places.places };
}

impl Sequence {
    /// An empty sequence, which takes memory for its places as they come.
    pub fn make(alloc: Global) -> Sequence
        ensures { result ≡ [] }
    {
        Sequence {
            places: PackedPlaces::make(alloc),
        }
    }

    // The sequence of these places.
    pub(crate) fn of_packed(places: PackedPlaces) -> Sequence
        ensures { result ≡ places.places }
    {
        Sequence { places }
    }

    #[inline(always)]
    pub fn push(&mut self, place: Place) -> Result<(), NoMemory>
        ensures ok { OnOk result (self.new ≡ self.old ++ place ∷ []) }
        ensures unchanged { OnErr result (self.new ≡ self.old) }
    {
        self.places.push(place)
    }

    /// The same for a place near the middle of the plane.
    #[inline(always)]
    pub fn push_near(&mut self, place: Place) -> Result<(), NoMemory>
        requires near { IsNearSite place.site }
        requires small { place.tile.0 < MOST_TYPES }
        ensures ok { OnOk result (self.new ≡ self.old ++ place ∷ []) }
        ensures unchanged { OnErr result (self.new ≡ self.old) }
    {
        self.places.push_one_near(place)
    }

    /// All places of another sequence behind these.
    pub fn append(&mut self, others: &Sequence) -> Result<(), NoMemory>
        ensures ok { OnOk result (self.new ≡ self.old ++ others.now) }
        ensures unchanged { OnErr result (self.new ≡ self.old) }
    {
        self.places.append(&others.places)
    }

    /// The same sequence once more.
    pub fn copy(&self) -> Result<Sequence, NoMemory>
        ensures { IfOk result (λ seq. seq ≡ self.now) }
    {
        Ok(Sequence {
            places: self.places.copy()?,
        })
    }

    /// Gives back the memory that it has beyond its places. It takes none.
    pub fn shrink_to_fit(&mut self)
        ensures { self.new ≡ self.old }
    {
        self.places.shrink_to_fit();
    }

    pub fn len(&self) -> usize
        ensures { result ≡ length self.now }
    {
        self.places.len()
    }

    pub fn is_empty(&self) -> bool
        ensures { IsTrue result ↔ (self.now ≡ []) }
    {
        self.places.len() == 0
    }

    pub fn get(&self, i: usize) -> Place
        requires { i < length self.now }
        ensures { slice_get self.now i ≡ Some result }
    {
        self.places.get(i)
    }

    /// Whether its first places are these, in their order.
    pub fn starts_with(&self, places: &[Place]) -> bool
        ensures { IsTrue result ↔ (take (length places.now) self.now ≡ places.now) }
    {
        if self.len() < places.len() {
            return false;
        }
        for (index, place) in places.iter().enumerate() {
            if self.get(index) != *place {
                return false;
            }
        }
        true
    }
}
