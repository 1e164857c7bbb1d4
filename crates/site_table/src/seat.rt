// A seat at the table: what a thread has seen and won.
ghost use Rattle.std.specs.Prelude.{◌≡◌, ◌<◌};
ghost use Rattle.grow_core.specs.Core.{least};
ghost use Rattle.site_table.specs.Rule.{IsPossible};

use crate::SeatView;
use atomic_table::Seat;
use std::marker::Model;

/// A scout of the table. At run time it keeps only its numbers; what it has seen and won are ghost.
#[derive(Drop)]
pub struct SiteSeat {
    pub(crate) seat: Seat<(), SeatView>,
    pub(crate) owned: u64,
}

impl Model for SiteSeat {
    ghost use Rattle.std.specs.Prelude.{◌≡◌, []};
    ghost use Rattle.site_table.specs.Seats.{SeatValue};
    ghost use Rattle.site_table.specs.Rule.{IsPossible};
    ghost use Rattle.site_table.specs.Views.{scout_of};

    ghost Value = { SeatValue };

    ghost view = { λ s. record {
      table = s.seat.table_id;
      sys = s.seat.me.0.sys;
      scout = scout_of s.seat.me.0;
    } };

    ghost invariant = { λ s. (s.seat.me.1 ≡ []) × (s.owned ≡ s.seat.me.0.owned)
        × IsPossible s.seat.me.0.sys (scout_of s.seat.me.0) };
}

impl SiteSeat {
    /// Does nothing: its clauses are the facts that each seat owns a number, and is a scout of some
    /// growth of its system, for the proof of a caller.
    #[inline(always)]
    pub fn recall_possible(&self)
        ensures some_number { 0 < self.now.scout.owned }
        ensures possible { IsPossible self.now.sys self.now.scout }
    {
        let _ = &self.owned;
    }

    /// The least number owned.
    #[inline(always)]
    pub fn number(&self) -> u32
        ensures value { result ≡ least self.now.scout.owned }
        ensures below { result < 64 }
    {
        self.owned.trailing_zeros()
    }

    /// The numbers owned: bit i is set for number i.
    pub fn owned(&self) -> u64
        ensures owned { result ≡ self.now.scout.owned }
        ensures some_number { 0 < result }
        ensures possible { IsPossible self.now.sys self.now.scout }
    {
        self.owned
    }
}
