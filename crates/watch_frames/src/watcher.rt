// A watcher of a growth.
ghost use Rattle.std.specs.Prelude.{◌≡◌, ◌<◌, ◌≤◌, [], length, IfOk, IfErr};
ghost use Rattle.atam.specs.Placements.{IsPartOf, SamePlacements};
ghost use Rattle.site_table.specs.Seats.{GoesOn, IsSeatOf};
ghost use Rattle.watch_frames.specs.Frames.{AreFrames, TakesFrame};
ghost use Rattle.watch_frames.specs.Watchers.{HasWatched};

use crate::Frames;
use crate::listing::Listing;
use crate::looks::look_over;
use assembly::Grid;
use site_table::{SiteSeat, SiteTable};
use std::alloc::Global;
use std::marker::Model;
use tile_io::Gate;
use tile_system::{NoMemory, System};

/// A seat that looks at the sites of the box while others claim them, and the frames that it took.
pub struct Watcher {
    seat: SiteSeat,
    seen: Grid,
    frames: Frames,
    listing: Listing,
    many: u32,
}

impl Drop for Watcher {
    fn drop(self) {
        let Watcher {
            seat: _seat,
            seen: _seen,
            frames: _frames,
            listing: _listing,
            many: _many,
        } = self;
    }
}

impl Model for Watcher {
    ghost use Rattle.watch_frames.specs.Watchers.{WatcherValue, IsWatching};

    ghost Value = { WatcherValue };

    ghost view = { λ w. record {
      seat = w.seat;
      seen = w.seen;
      frames = w.frames;
      many = w.many;
    } };

    ghost invariant = { λ w. IsWatching w.seat.sys (record {
      seat = w.seat;
      seen = w.seen;
      frames = w.frames;
      many = w.many;
    }) w.listing };
}

impl Watcher {
    /// A watcher that has taken no frame, with the seeds listed. The grid is what the seat has
    /// seen. All memory is taken here; where it is wanting both come back.
    pub fn make(
        alloc: Global,
        sys: &System,
        seat: SiteSeat,
        seen: Grid,
        frames: u32,
    ) -> Result<Watcher, (SiteSeat, Grid)>
        requires system { seat.sys ≡ sys.now }
        requires area { seen.area ≡ sys.now.area }
        requires seen { SamePlacements seat.scout.seen seen.tiles }
        requires some { 1 ≤ frames }
        requires few { frames ≤ 1000 }
        ensures seat { IfOk result (λ w. (w.seat ≡ seat) × (w.seen ≡ seen)) }
        ensures places { IfOk result (λ w. w.frames.places ≡ sys.now.seeds) }
        ensures counts { IfOk result (λ w. w.frames.counts ≡ []) }
        ensures many { IfOk result (λ w. w.many ≡ frames) }
        ensures err { IfErr result (λ parts. parts ≡ (seat, seen)) }
    {
        seat.recall_possible();
        let Ok(listing) = Listing::make(alloc, sys) else {
            return Err((seat, seen));
        };
        let Ok(empty) = Frames::make(alloc, sys, frames) else {
            return Err((seat, seen));
        };
        Ok(Watcher {
            seat,
            seen,
            frames: empty,
            listing,
            many: frames,
        })
    }

    /// Looks at each site of the box where it has seen no tile, since a tile that is there stays,
    /// and takes a frame of what is seen then: the list goes on over it. It takes no memory, and
    /// waits for nobody. It costs two passes over the box, and what is new to it.
    pub fn frame(&mut self, sys: &System, table: &SiteTable)
        requires seat { IsSeatOf table.now self.old.seat }
        requires system { table.now.sys ≡ sys.now }
        requires more { length self.old.frames.counts < self.old.many }
        ensures seat { GoesOn self.old.seat self.new.seat }
        ensures mine { self.new.seat.scout.mine ≡ self.old.seat.scout.mine }
        ensures kept { IsPartOf self.old.seen.tiles self.new.seen.tiles }
        ensures seen { SamePlacements self.new.seat.scout.seen self.new.seen.tiles }
        ensures takes { TakesFrame sys.now self.new.seen.tiles self.old.frames self.new.frames }
        ensures many { self.new.many ≡ self.old.many }
    {
        sys.recall_valid();
        look_over(sys, table, &mut self.seat, &mut self.seen);
        self.listing.extend_over(sys, &self.seen, &mut self.frames);
    }

    // Takes all frames.
    pub(crate) fn watch<G: Gate>(
        self,
        sys: &System,
        table: &SiteTable,
        worker: u32,
        gate: &G,
    ) -> Watcher
        requires seat { IsSeatOf table.now self.seat }
        requires system { table.now.sys ≡ sys.now }
        requires none { self.frames.counts ≡ [] }
        ensures { HasWatched self result }
    {
        gate.arrive(worker);
        let mut watcher = self;
        for _frame in 0..watcher.many {
            watcher.frame(sys, table);
        }
        watcher
    }

    /// The frames so far.
    pub fn frames(&self) -> &Frames
        ensures frames { result.now ≡ self.now.frames }
        ensures are { AreFrames self.now.seat.sys result.now.places result.now.counts }
        ensures part { IsPartOf result.now.places self.now.seat.scout.seen }
    {
        &self.frames
    }

    /// The seat, what it has seen, and the frames.
    pub fn end(self) -> (SiteSeat, Grid, Frames)
        ensures seat { result.0 ≡ self.seat }
        ensures grid { result.1 ≡ self.seen }
        ensures frames { result.2 ≡ self.frames }
        ensures seen { SamePlacements result.0.scout.seen result.1.tiles }
        ensures are { AreFrames self.seat.sys result.2.places result.2.counts }
        ensures part { IsPartOf result.2.places result.0.scout.seen }
    {
        let Watcher {
            seat,
            seen,
            frames,
            listing: _listing,
            many: _many,
        } = self;
        (seat, seen, frames)
    }
}
