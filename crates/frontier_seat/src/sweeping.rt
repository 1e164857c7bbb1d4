// Claims of one scout, always at the least open site, each of which is logged.
ghost use Rattle.std.specs.Prelude.{◌≡◌, ◌<◌, ◌≤◌, ◌-◌, ◌^◌, [], length, IsTrue};
ghost use Rattle.atam.specs.Placements.{SamePlacements};
ghost use Rattle.atam.specs.Growth.{IsClosedInBox};
ghost use Rattle.assembly.specs.Cells.{cell_count};
ghost use Rattle.frontier_seat.specs.Growths.{GrowsOn};
ghost use Rattle.frontier_seat.specs.Inner.Fillings.{GrewByLog};
ghost use Rattle.frontier_seat.specs.Inner.Looks.{CanLook, HasListed, HasTaken, LooksAt, MayLogClaim, TakesSteps};

use crate::grower::{Grower, Setting};
use crate::work_list::Spot;
use crate::{Chooser, ClaimLog};
use assembly::Row;
use std::sync::ledger::Ledger;
use tile_io::Steps;

impl<'i> Grower<'i> {
    // Looks at the listed sites, and at those beside each tile that comes, always at the least one,
    // and logs each claim.
    #[inline(never)]
    pub(crate) fn look_in_order<C: Chooser, L: Ledger>(
        &mut self,
        lent: Setting<'_, '_>,
        chooser: &mut C,
        steps: &mut Steps<L>,
        log: &mut ClaimLog,
    )
        requires can { CanLook lent self.old }
        requires lists { HasListed lent.sys.now self.old }
        requires start { SamePlacements lent.sys.now.seeds self.old.growing.grid.tiles }
        requires none { log.old.numbers ≡ [] }
        requires room { cell_count lent.sys.now.area ≤ log.old.room }
        ensures can { CanLook lent.entry self.new }
        ensures goes { GrowsOn self.old.growing self.new.growing }
        ensures closed { IsClosedInBox lent.entry.sys.now self.new.growing.grid.tiles }
        ensures lists { HasListed lent.entry.sys.now self.new }
        ensures order { IsTrue log.new.in_order →
            GrewByLog lent.entry.sys.now self.new.growing.grid.tiles log.new }
        ensures sole { self.old.growing.seat.scout.owned ≡ 2 ^ 64 - 1 → IsTrue log.old.in_order →
            IsTrue log.new.in_order }
        ensures cost { TakesSteps self.old self.new steps.old steps.new }
    {
        lent.sys.recall_valid();
        let mut row = Row::least(&lent.area);
        while let Some(number) = self.work.take_least() {
            let site = row.site(&lent.area, number);
            self.look_logged(lent, chooser, Spot { site, number }, steps, log);
        }
    }

    // Looks at one empty site that is listed no longer. A type that attaches there is claimed, and
    // the site is logged.
    #[inline(always)]
    fn look_logged<C: Chooser, L: Ledger>(
        &mut self,
        lent: Setting<'_, '_>,
        chooser: &mut C,
        spot: Spot,
        steps: &mut Steps<L>,
        log: &mut ClaimLog,
    )
        requires can { CanLook lent self.old }
        requires taken { HasTaken lent.sys.now self.old spot }
        requires room { length log.old.numbers < log.old.room }
        ensures can { CanLook lent.entry self.new }
        ensures looks { LooksAt lent.entry.sys.now self.old self.new }
        ensures logs { MayLogClaim lent.entry.sys.now spot self.old.growing self.new.growing
            log.old log.new }
        ensures room { log.new.room ≡ log.old.room }
        ensures cost { TakesSteps self.old self.new steps.old steps.new }
    {
        lent.sys.recall_valid();
        let seen = self.look(lent, chooser, spot, steps);
        if !seen.claims {
            return;
        }
        log.push(spot.number as u32, seen.picked, seen.clean);
    }
}
