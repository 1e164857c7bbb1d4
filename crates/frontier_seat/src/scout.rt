// A scout that claims until nothing attaches to what it has seen.
ghost use Rattle.std.specs.Prelude.{◌≡◌, ◌<◌, ◌≤◌, ◌+◌, ◌-◌, ◌^◌, [], length, IfOk, IfErr, IsTrue};
ghost use Rattle.atam.specs.TileSystem.{IsValid};
ghost use Rattle.atam.specs.Placements.{SamePlacements};
ghost use Rattle.atam.specs.Growth.{IsClosedInBox};
ghost use Rattle.assembly.specs.Cells.{cell_count};
ghost use Rattle.site_table.specs.Seats.{IsSeatOf};
ghost use Rattle.site_table.specs.Laws.{IsFinal};
ghost use Rattle.frontier_seat.specs.Growths.{ClaimsNothing, EndsBurst, IsGrowing, GrowsOn};
ghost use Rattle.frontier_seat.specs.Orders.{AreCanonicalClaims};
ghost use Rattle.type_cache.specs.Clean.{GrewExact};
ghost use Rattle.type_index.specs.Indexes.{IsIndexOf};
ghost use Rattle.frontier_seat.specs.Inner.Looks.{ListsOpen, MayList};

use crate::beside_seeds::list_beside_seeds;
use crate::grower::{Grower, Setting};
use crate::picking::Picker;
use crate::types::Types;
use crate::work_list::WorkList;
use crate::{Burst, Chooser, ClaimLog, Growing};
use assembly::Grid;
use site_table::{SiteSeat, SiteTable};
use std::alloc::Global;
use std::marker::Model;
use std::sync::ledger::Ledger;
use tile_io::Steps;
use tile_system::System;
use type_index::TypeIndex;

// More claims than a box has sites.
const MOST_CLAIMS: u32 = u32::MAX;

/// A seat with the grid of what it has seen, an index of types, which may be lent to it, and room to
/// work: with the grid, two bytes and an eighth a site.
pub struct Scout<'i> {
    grower: Grower<'i>,
    listed: bool,
}

impl<'i> Drop for Scout<'i> {
    fn drop(self) {
        let Scout {
            grower: _grower,
            listed: _listed,
        } = self;
    }
}

impl<'i> Model for Scout<'i> {
    ghost use Rattle.std.specs.Prelude.{◌≡◌};
    ghost use Rattle.frontier_seat.specs.declared.growing.Growing.{Growing};
    ghost use Rattle.frontier_seat.specs.Growths.{IsGrowing};
    ghost use Rattle.frontier_seat.specs.Inner.Pickers.{IsPickerOf};
    ghost use Rattle.frontier_seat.specs.Inner.Looks.{MayList};

    ghost Value = { Growing };

    ghost view = { λ s. s.grower.growing };

    ghost invariant = { λ s. IsGrowing s.grower.growing.seat.sys s.grower.growing
        × IsPickerOf s.grower.growing.seat.sys s.grower.picker
        × (s.grower.work.area ≡ s.grower.growing.seat.sys.area)
        × MayList s.grower.growing.seat.sys s.grower.growing.grid.tiles s.listed
        s.grower.work.numbers };
}

// Lists the empty sites beside what was seen, if that wasn't done before.
fn list(sys: &System, growing: &Growing, listed: bool, work: &mut WorkList)
    requires growing { IsGrowing sys.now growing.now }
    requires area { work.old.area ≡ sys.now.area }
    requires may { MayList sys.now growing.now.grid.tiles listed work.old.numbers }
    ensures area { work.new.area ≡ work.old.area }
    ensures lists { ListsOpen sys.now growing.now.grid.tiles work.new.numbers }
{
    sys.recall_valid();
    if listed {
        return;
    }
    work.list_frontier(&growing.grid);
}

// The same where the seeds alone were seen, without a look at each site.
fn list_seeded(sys: &System, growing: &Growing, listed: bool, work: &mut WorkList)
    requires growing { IsGrowing sys.now growing.now }
    requires start { SamePlacements sys.now.seeds growing.now.grid.tiles }
    requires area { work.old.area ≡ sys.now.area }
    requires may { MayList sys.now growing.now.grid.tiles listed work.old.numbers }
    ensures area { work.new.area ≡ work.old.area }
    ensures lists { ListsOpen sys.now growing.now.grid.tiles work.new.numbers }
{
    if listed {
        return;
    }
    list_beside_seeds(sys, &growing.grid, work);
}

impl<'i> Scout<'i> {
    /// A scout of this seat, with an index of types of its own. The grid is what the seat has seen.
    /// All its room is made here; where memory is wanting both come back.
    pub fn make(
        alloc: Global,
        sys: &System,
        seat: SiteSeat,
        seen: Grid,
    ) -> Result<Scout<'i>, (SiteSeat, Grid)>
        requires system { seat.sys ≡ sys.now }
        requires area { seen.area ≡ sys.now.area }
        requires seen { SamePlacements seat.scout.seen seen.tiles }
        ensures ok { IfOk result (λ scout. scout ≡ record { seat = seat; grid = seen; won = 0 }) }
        ensures err { IfErr result (λ parts. parts ≡ (seat, seen)) }
    {
        let Ok(types) = Types::build(alloc, sys) else {
            return Err((seat, seen));
        };
        Scout::with_types(alloc, sys, types, seat, seen)
    }

    /// The same with an index of types that is lent to it, as one index serves many scouts.
    pub fn with_index(
        alloc: Global,
        sys: &System,
        index: &'i TypeIndex,
        seat: SiteSeat,
        seen: Grid,
    ) -> Result<Scout<'i>, (SiteSeat, Grid)>
        requires index { IsIndexOf sys.now index.now }
        requires system { seat.sys ≡ sys.now }
        requires area { seen.area ≡ sys.now.area }
        requires seen { SamePlacements seat.scout.seen seen.tiles }
        ensures ok { IfOk result (λ scout. scout ≡ record { seat = seat; grid = seen; won = 0 }) }
        ensures err { IfErr result (λ parts. parts ≡ (seat, seen)) }
    {
        Scout::with_types(alloc, sys, Types::lent(index), seat, seen)
    }

    // The same, whoever owns the index.
    fn with_types(
        alloc: Global,
        sys: &System,
        types: Types<'i>,
        seat: SiteSeat,
        seen: Grid,
    ) -> Result<Scout<'i>, (SiteSeat, Grid)>
        requires types { IsIndexOf sys.now types }
        requires system { seat.sys ≡ sys.now }
        requires area { seen.area ≡ sys.now.area }
        requires seen { SamePlacements seat.scout.seen seen.tiles }
        ensures ok { IfOk result (λ scout. scout ≡ record { seat = seat; grid = seen; won = 0 }) }
        ensures err { IfErr result (λ parts. parts ≡ (seat, seen)) }
    {
        let area = sys.area();
        seat.recall_possible();
        seen.recall_sites();
        let Ok(picker) = Picker::make(alloc, sys, types) else {
            return Err((seat, seen));
        };
        let Ok(work) = WorkList::make(alloc, area) else {
            return Err((seat, seen));
        };
        let growing = Growing {
            seat,
            grid: seen,
            won: 0,
        };
        Ok(Scout {
            grower: Grower {
                growing,
                picker,
                work,
            },
            listed: false,
        })
    }

    /// The claims won since `make`.
    pub fn won(&self) -> u32
        ensures { result ≡ self.now.won }
    {
        self.grower.growing.won
    }

    /// What the seat has seen.
    pub fn seen(&self) -> &Grid
        ensures grid { result.now ≡ self.now.grid }
        ensures same { SamePlacements self.now.seat.scout.seen self.now.grid.tiles }
    {
        &self.grower.growing.grid
    }

    /// Claims until no type attaches in the box to what was seen. That is then all that stands, and
    /// stays so: the words are those of what was seen in every state of the table with this seat,
    /// and no event of any scout changes it. A lost claim fills a site too. Each claim takes one
    /// step, and adds one site to what was seen.
    pub fn sweep<C: Chooser, L: Ledger>(
        &mut self,
        sys: &System,
        table: &SiteTable,
        chooser: &mut C,
        steps: &mut Steps<L>,
    )
        requires seat { IsSeatOf table.now self.old.seat }
        requires system { table.now.sys ≡ sys.now }
        ensures goes { GrowsOn self.old self.new }
        ensures closed { IsClosedInBox sys.now self.new.grid.tiles }
        ensures seen { SamePlacements self.new.seat.scout.seen self.new.grid.tiles }
        ensures last { IsFinal sys.now self.new.seat.scout }
        ensures cost { steps.new + length self.old.grid.tiles
            ≡ steps.old + length self.new.grid.tiles }
        ensures few { steps.new < steps.old + cell_count sys.now.area }
    {
        sys.recall_valid();
        self.burst(sys, table, chooser, 0, 1, MOST_CLAIMS, steps);
    }

    /// The same for a scout that has seen the seeds alone: it always claims the least open site, and
    /// logs it. A site that another has filled is claimed and logged too. Where each logged site
    /// holds the type for which it was claimed, as it does for who owns all numbers, the logged
    /// tiles are, behind the seeds, the canonical sequence of what has grown (`law_least_first`),
    /// and the log says whether it is clear that each of them came clean.
    pub fn sweep_in_order<C: Chooser, L: Ledger>(
        &mut self,
        sys: &System,
        table: &SiteTable,
        chooser: &mut C,
        steps: &mut Steps<L>,
        log: &mut ClaimLog,
    )
        requires seat { IsSeatOf table.now self.old.seat }
        requires system { table.now.sys ≡ sys.now }
        requires start { SamePlacements sys.now.seeds self.old.grid.tiles }
        requires none { log.old.numbers ≡ [] }
        requires room { cell_count sys.now.area ≤ log.old.room }
        ensures goes { GrowsOn self.old self.new }
        ensures closed { IsClosedInBox sys.now self.new.grid.tiles }
        ensures seen { SamePlacements self.new.seat.scout.seen self.new.grid.tiles }
        ensures last { IsFinal sys.now self.new.seat.scout }
        ensures order { IsTrue log.new.in_order →
            AreCanonicalClaims sys.now self.new.grid.tiles log.new.numbers }
        ensures clean { IsTrue log.new.in_order → IsTrue log.new.clean →
            GrewExact sys.now self.new.grid.tiles }
        ensures sole { self.old.seat.scout.owned ≡ 2 ^ 64 - 1 → IsTrue log.old.in_order →
            IsTrue log.new.in_order }
        ensures cost { steps.new + length self.old.grid.tiles
            ≡ steps.old + length self.new.grid.tiles }
        ensures few { steps.new < steps.old + cell_count sys.now.area }
    {
        let grower = &mut self.grower;
        list_seeded(sys, &grower.growing, self.listed, &mut grower.work);
        self.listed = true;
        let area = sys.area();
        let lent = Setting { sys, table, area };
        self.grower.look_in_order(lent, chooser, steps, log);
        sys.recall_valid();
        self.grower.growing.seat.recall_possible();
    }

    /// Claims as a sweep does, at most so many times, and says whether the box is closed then. Of
    /// `of` workers that share the box, the one with the number `share` has every of-th band of 32
    /// rows for its own. It looks at the listed sites of its bands first, and elsewhere only where
    /// none is left; no clause says so. The first time it looks at each site for those beside what
    /// was seen, and later at none: the sites at which a type may attach stay listed. It takes no
    /// memory.
    pub fn burst<C: Chooser, L: Ledger>(
        &mut self,
        sys: &System,
        table: &SiteTable,
        chooser: &mut C,
        share: u32,
        of: u32,
        most: u32,
        steps: &mut Steps<L>,
    ) -> Burst
        requires seat { IsSeatOf table.now self.old.seat }
        requires system { table.now.sys ≡ sys.now }
        requires share { share < of }
        ensures goes { GrowsOn self.old self.new }
        ensures ends { EndsBurst sys.now self.old self.new most result }
        ensures seen { SamePlacements self.new.seat.scout.seen self.new.grid.tiles }
        ensures last { IsClosedInBox sys.now self.new.grid.tiles →
            IsFinal sys.now self.new.seat.scout }
        ensures cost { steps.new + length self.old.grid.tiles
            ≡ steps.old + length self.new.grid.tiles }
        ensures few { steps.new ≤ steps.old + most }
        ensures fewer { steps.new < steps.old + cell_count sys.now.area }
        ensures room { length self.new.grid.tiles ≤ cell_count sys.now.area }
    {
        sys.recall_valid();
        let grower = &mut self.grower;
        list(sys, &grower.growing, self.listed, &mut grower.work);
        self.listed = true;
        self.grower.work.cut(share, of);
        let area = sys.area();
        let lent = Setting { sys, table, area };
        self.grower.spend(lent, chooser, most, steps);
        let open = self.grower.is_open(lent, chooser);
        self.grower.growing.seat.recall_possible();
        if open { Burst::Spent } else { Burst::Quiet }
    }

    /// Whether a site is listed in the bands of the last burst or of the last look at their edges. It
    /// tells where a look or a burst saves time, so no clause says more of it.
    pub fn has_own(&self) -> bool {
        self.grower.work.has_own()
    }

    /// Looks at the empty sites of the rows just beside the bands of this worker (`burst`), where
    /// other workers put tiles: what stands there is seen then. Nothing is claimed.
    pub fn see_edges(&mut self, sys: &System, table: &SiteTable, share: u32, of: u32)
        requires seat { IsSeatOf table.now self.old.seat }
        requires system { table.now.sys ≡ sys.now }
        requires share { share < of }
        ensures goes { GrowsOn self.old self.new }
        ensures idle { ClaimsNothing self.old self.new }
        ensures seen { SamePlacements self.new.seat.scout.seen self.new.grid.tiles }
        ensures more { length self.old.grid.tiles ≤ length self.new.grid.tiles }
    {
        let grower = &mut self.grower;
        list(sys, &grower.growing, self.listed, &mut grower.work);
        self.listed = true;
        self.grower.work.cut(share, of);
        let area = sys.area();
        self.grower.see_edges(Setting { sys, table, area });
    }

    /// The seat, and what it has seen.
    pub fn end(self) -> (SiteSeat, Grid)
        ensures seat { result.0 ≡ self.entry.seat }
        ensures grid { result.1 ≡ self.entry.grid }
        ensures same { SamePlacements result.0.scout.seen result.1.tiles }
    {
        let Scout {
            grower,
            listed: _listed,
        } = self;
        let Grower {
            growing,
            picker: _picker,
            work: _work,
        } = grower;
        (growing.seat, growing.grid)
    }
}
