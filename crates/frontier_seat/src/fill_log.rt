// The tiles of growth on a grid alone, in their order.
ghost use Rattle.std.specs.Prelude.{◌≡◌, ◌<◌, ◌≤◌, ◌+◌, ◌∷◌, [], ◌++◌, true, length, IfOk, IsTrue};
ghost use Rattle.atam.specs.declared.limits.TheConstants.{MOST_TYPES};
ghost use Rattle.atam.specs.Sites.{IsNearSite};
ghost use Rattle.assembly.specs.Cells.{cell_count};

use assembly::{PlaceLog, Sequence};
use std::alloc::Global;
use std::marker::Model;
use tile_system::{NoMemory, Place, System};

// The seeds and the tiles that came after them, in memory that was taken before they come, and
// whether each tile came clean, as far as that was clear when it came.
#[derive(Drop)]
pub(crate) struct FillLog {
    places: PlaceLog,
    clean: bool,
}

impl Model for FillLog {
    ghost use Rattle.frontier_seat.specs.Inner.Logs.{LoggedTiles};

    ghost Value = { LoggedTiles };

    ghost view = { λ l. record {
      places = l.places.places;
      room = l.places.room;
      clean = l.clean;
    } };
}

impl FillLog {
    // The seeds alone, with room for a tile more at each site of the box.
    pub(crate) fn make(alloc: Global, sys: &System) -> Result<FillLog, NoMemory>
        ensures seeds { IfOk result (λ log. log.places ≡ sys.now.seeds) }
        ensures room { IfOk result
            (λ log. length sys.now.seeds + cell_count sys.now.area ≤ log.room) }
    {
        Ok(FillLog {
            places: PlaceLog::make(alloc, sys)?,
            clean: true,
        })
    }

    // One tile more, and whether it is clear that it came clean.
    #[inline(always)]
    pub(crate) fn push(&mut self, place: Place, clean: bool)
        requires near { IsNearSite place.site }
        requires small { place.tile.0 < MOST_TYPES }
        requires room { length self.old.places < self.old.room }
        ensures places { self.new.places ≡ self.old.places ++ place ∷ [] }
        ensures room { self.new.room ≡ self.old.room }
        ensures clean { IsTrue self.new.clean → (self.old.clean ≡ true) × (clean ≡ true) }
    {
        self.places.push(place);
        self.clean = self.clean && clean;
    }

    // Whether it is clear that each tile came clean, held by exactly the temperature.
    pub(crate) fn is_clean(&self) -> bool
        ensures { result ≡ self.now.clean }
    {
        self.clean
    }

    // The tiles as a sequence.
    pub(crate) fn into_sequence(self) -> Sequence
        ensures { result ≡ self.places }
    {
        self.places.into_sequence()
    }
}
