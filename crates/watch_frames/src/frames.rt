// Frames of a growth.
ghost use Rattle.std.specs.Prelude.{◌≡◌, ◌<◌, ◌≤◌, [], ◌∷◌, ◌++◌, length, slice_get, slice_index, Some, IfOk};
ghost use Rattle.assembly.specs.Cells.{cell_count};
ghost use Rattle.watch_frames.specs.Frames.{AreFrames};

use std::alloc::Global;
use std::marker::Model;
use tile_system::{NoMemory, Place, System};

/// Places in one order, and for each frame how many of the first ones it has. All calls but `make`
/// take no memory.
pub struct Frames {
    places: Vec<Place>,
    counts: Vec<u32>,
}

impl Drop for Frames {
    fn drop(self) {
        let Frames {
            places: _places,
            counts: _counts,
        } = self;
    }
}

impl Model for Frames {
    ghost use Rattle.std.specs.Prelude.{length, vec_capacity};
    ghost use Rattle.watch_frames.specs.Frames.{FrameList, AreCounts};

    ghost Value = { FrameList };

    ghost view = { λ f. record {
      places = f.places.items;
      room = vec_capacity f.places;
      counts = f.counts.items;
      most = vec_capacity f.counts;
    } };

    ghost invariant = { λ f. AreCounts (length f.places.items) f.counts.items };
}

impl Frames {
    // No frame, with the seeds listed, and room for so many frames and for a tile more at each site
    // of the box.
    pub(crate) fn make(alloc: Global, sys: &System, frames: u32) -> Result<Frames, NoMemory>
        ensures places { IfOk result (λ f. f.places ≡ sys.now.seeds) }
        ensures counts { IfOk result (λ f. f.counts ≡ []) }
        ensures room { IfOk result (λ f. cell_count sys.now.area ≤ f.room) }
        ensures most { IfOk result (λ f. frames ≤ f.most) }
        ensures frames { IfOk result (λ f. AreFrames sys.now f.places f.counts) }
    {
        let area = sys.area();
        let sites = area.width() as usize * area.height() as usize;
        let counts = Vec::with_capacity(alloc, frames as usize)?;
        let mut places = Vec::from_slice(alloc, sys.seeds())?;
        places.reserve(sites)?;
        Ok(Frames { places, counts })
    }

    /// How many frames were taken.
    pub fn taken(&self) -> u32
        ensures { result ≡ length self.now.counts }
    {
        self.counts.len() as u32
    }

    /// How many places a frame has.
    pub fn count(&self, i: u32) -> u32
        requires { i < length self.now.counts }
        ensures value { result ≡ slice_index self.now.counts i }
        ensures within { result ≤ length self.now.places }
    {
        self.counts[i as usize]
    }

    /// The place with this number in the order.
    pub fn place(&self, j: u32) -> Place
        requires { j < length self.now.places }
        ensures { slice_get self.now.places j ≡ Some result }
    {
        self.places[j as usize]
    }

    // One place more.
    #[inline(always)]
    pub(crate) fn list(&mut self, place: Place)
        requires { length self.old.places < self.old.room }
        ensures places { self.new.places ≡ self.old.places ++ place ∷ [] }
        ensures room { self.new.room ≡ self.old.room }
        ensures counts { self.new.counts ≡ self.old.counts }
        ensures most { self.new.most ≡ self.old.most }
    {
        self.places.push_reserved(place);
    }

    // A frame of all places so far.
    pub(crate) fn end_frame(&mut self)
        requires most { length self.old.counts < self.old.most }
        requires few { length self.old.counts < 1000 }
        requires small { length self.old.places < 4294967296 }
        ensures places { self.new.places ≡ self.old.places }
        ensures room { self.new.room ≡ self.old.room }
        ensures counts { self.new.counts ≡ self.old.counts ++ length self.old.places ∷ [] }
        ensures most { self.new.most ≡ self.old.most }
    {
        let count = self.places.len() as u32;
        self.counts.push_reserved(count);
    }
}
