// Places in order, in memory that was taken before they come.
ghost use Rattle.std.specs.Prelude.{◌≡◌, ◌<◌, ◌≤◌, ◌+◌, [], ◌∷◌, ◌++◌, length, IfOk};
ghost use Rattle.atam.specs.declared.limits.TheConstants.{MOST_TYPES};
ghost use Rattle.atam.specs.Sites.{IsNearSite};
ghost use Rattle.assembly.specs.Cells.{cell_count};

use crate::Sequence;
use crate::packed_places::PackedPlaces;
use std::alloc::Global;
use std::marker::Model;
use tile_system::{NoMemory, Place, System};

/// Places near the middle of the plane in their order, with room for a number of them that is known
/// before they come: eight bytes each.
#[derive(Drop)]
pub struct PlaceLog {
    places: PackedPlaces,
}

impl Model for PlaceLog {
    ghost use Rattle.assembly.specs.Logs.{RoomyPlaces};

    ghost Value = { RoomyPlaces };

    ghost view = { λ l. l.places };
}

impl PlaceLog {
    /// No place, with room for so many.
    pub fn with_room(alloc: Global, count: usize) -> Result<PlaceLog, NoMemory>
        ensures empty { IfOk result (λ log. log.places ≡ []) }
        ensures room { IfOk result (λ log. count ≤ log.room) }
    {
        let mut places = PackedPlaces::make(alloc);
        places.reserve(count)?;
        Ok(PlaceLog { places })
    }

    /// The seeds alone, with room for a tile more at each site of the box.
    pub fn make(alloc: Global, sys: &System) -> Result<PlaceLog, NoMemory>
        ensures seeds { IfOk result (λ log. log.places ≡ sys.now.seeds) }
        ensures room { IfOk result
            (λ log. length sys.now.seeds + cell_count sys.now.area ≤ log.room) }
    {
        let area = sys.area();
        let count = area.width() as usize * area.height() as usize;
        let mut places = PackedPlaces::make(alloc);
        for seed in sys.seeds() {
            places.push(*seed)?;
        }
        places.reserve(count)?;
        Ok(PlaceLog { places })
    }

    /// One place more.
    #[inline(always)]
    pub fn push(&mut self, place: Place)
        requires near { IsNearSite place.site }
        requires small { place.tile.0 < MOST_TYPES }
        requires room { length self.old.places < self.old.room }
        ensures places { self.new.places ≡ self.old.places ++ place ∷ [] }
        ensures room { self.new.room ≡ self.old.room }
    {
        self.places.push_near(place);
    }

    /// The places as a sequence.
    pub fn into_sequence(self) -> Sequence
        ensures { result ≡ self.places }
    {
        Sequence::of_packed(self.places)
    }
}
