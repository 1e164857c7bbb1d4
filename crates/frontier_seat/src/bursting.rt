// Claims up to a bound, and whether a type attaches still.
ghost use Rattle.std.specs.Prelude.{◌≡◌, ◌⊎◌, ◌≤◌, ◌+◌, ℕ, length, None, MatchBool};
ghost use Rattle.atam.specs.declared.place.TypeId.{TypeId};
ghost use Rattle.atam.specs.Placements.{tile_at};
ghost use Rattle.atam.specs.Growth.{IsCandidate, IsClosedInBox};
ghost use Rattle.number_set.specs.Numbers.{IsIn};
ghost use Rattle.frontier_seat.specs.Growths.{GrowsOn, IsGrowing};
ghost use Rattle.frontier_seat.specs.Inner.Listings.{IsSpot};
ghost use Rattle.frontier_seat.specs.Inner.Looks.{CanLook, HasCandidate, HasListed, TakesSteps};
ghost use Rattle.frontier_seat.specs.Inner.Pickers.{IsPickerOf};

use crate::grower::{Grower, Setting};
use crate::picking::Picker;
use crate::work_list::Spot;
use crate::{Chooser, Growing};
use assembly::Row;
use std::sync::ledger::Ledger;
use tile_io::Steps;
use tile_system::System;

/// How a burst ended.
#[derive(Clone, Copy, Debug, PartialEq, Eq)]
pub enum Burst {
    /// No type attaches in the box to what was seen.
    Quiet,
    /// One attaches, and all claims that were allowed are made.
    Spent,
}

impl<'i> Grower<'i> {
    // Looks at the sites that are listed, and at those beside each tile that comes, until so many
    // claims are made or no site is left.
    pub(crate) fn spend<C: Chooser, L: Ledger>(
        &mut self,
        lent: Setting<'_, '_>,
        chooser: &mut C,
        most: u32,
        steps: &mut Steps<L>,
    )
        requires can { CanLook lent self.old }
        requires lists { HasListed lent.sys.now self.old }
        ensures can { CanLook lent.entry self.new }
        ensures lists { HasListed lent.entry.sys.now self.new }
        ensures goes { GrowsOn self.old.growing self.new.growing }
        ensures done { ((n : ℕ) → ¬ IsIn self.new.work.numbers n)
            ⊎ (length self.new.growing.grid.tiles ≡ length self.old.growing.grid.tiles + most) }
        ensures most { length self.new.growing.grid.tiles
            ≤ length self.old.growing.grid.tiles + most }
        ensures cost { TakesSteps self.old self.new steps.old steps.new }
    {
        lent.sys.recall_valid();
        let count = self.work.count();
        let mut row = Row::least(&lent.area);
        let mut left = most;
        while left > 0 {
            let Some(number) = self.work.take(chooser.start(count)) else {
                return;
            };
            let site = row.site(&lent.area, number);
            let seen = self.look(lent, chooser, Spot { site, number }, steps);
            if seen.claims {
                left -= 1;
            }
        }
    }

    // Whether a type attaches at a listed site. Sites at which none does are listed no longer.
    pub(crate) fn is_open<C: Chooser>(&mut self, lent: Setting<'_, '_>, chooser: &mut C) -> bool
        requires can { CanLook lent self.old }
        requires lists { HasListed lent.sys.now self.old }
        ensures can { CanLook lent.entry self.new }
        ensures lists { HasListed lent.entry.sys.now self.new }
        ensures same { self.new.growing ≡ self.old.growing }
        ensures open { MatchBool result
            (¬ IsClosedInBox lent.entry.sys.now self.new.growing.grid.tiles)
            (IsClosedInBox lent.entry.sys.now self.new.growing.grid.tiles) }
    {
        lent.sys.recall_valid();
        let count = self.work.count();
        let mut row = Row::least(&lent.area);
        while let Some(number) = self.work.take(chooser.start(count)) {
            let site = row.site(&lent.area, number);
            let spot = Spot { site, number };
            if attaches(lent.sys, &self.growing, chooser, &mut self.picker, spot) {
                self.work.put_back(number);
                return true;
            }
        }
        false
    }
}

// Whether a type attaches at an empty site.
fn attaches<C: Chooser>(
    sys: &System,
    growing: &Growing,
    chooser: &mut C,
    picker: &mut Picker<'_>,
    spot: Spot,
) -> bool
    requires growing { IsGrowing sys.now growing.now }
    requires picker { IsPickerOf sys.now picker.old }
    requires spot { IsSpot sys.now.area spot }
    requires empty { tile_at growing.now.grid.tiles spot.site ≡ None }
    ensures picker { IsPickerOf sys.now picker.new }
    ensures open { MatchBool result (HasCandidate sys.now growing.now.grid.tiles spot.site)
        ((t : TypeId) → ¬ IsCandidate sys.now growing.now.grid.tiles spot.site t) }
{
    sys.recall_valid();
    let beside = growing.grid.beside_at(spot.site, spot.number);
    let found = picker.pick(sys, &growing.grid, spot.site, &beside, chooser);
    if let Some(_tile) = found.tile {
        return true;
    }
    false
}
