// A seat, and the grid of what it has seen.
ghost use Rattle.std.specs.Prelude.{◌≡◌, ◌<◌, ◌+◌, None, MatchBool};
ghost use Rattle.atam.specs.Placements.{tile_at};
ghost use Rattle.atam.specs.Growth.{IsCandidate};
ghost use Rattle.assembly.specs.Cells.{cell_count, site_at};
ghost use Rattle.site_table.specs.Seats.{IsSeatOf};
ghost use Rattle.frontier_seat.specs.Growths.{ClaimsNothing, IsGrowing};
ghost use Rattle.frontier_seat.specs.Inner.Listings.{IsSpot};
ghost use Rattle.frontier_seat.specs.Inner.Looks.{ClaimsAt, ClaimsPick, Puts};

use crate::work_list::Spot;
use assembly::Grid;
use site_table::{Claimed, SiteSeat, SiteTable};
use std::sync::ledger::Ledger;
use tile_io::Steps;
use tile_system::{Place, System, TypeId};

/// A seat, the grid of what it has seen, and how many claims it has won.
#[derive(Drop)]
pub struct Growing {
    pub(crate) seat: SiteSeat,
    pub(crate) grid: Grid,
    pub(crate) won: u32,
}

impl Growing {
    // A tile comes to an empty site of the grid.
    #[inline(always)]
    fn put(&mut self, place: Place, number: usize)
        requires within { number < cell_count self.old.grid.area }
        requires number { site_at self.old.grid.area number ≡ place.site }
        requires empty { tile_at self.old.grid.tiles place.site ≡ None }
        requires small { place.tile.0 < 16384 }
        ensures { Puts place self.old self.new }
    {
        self.grid.put_at(place, number);
        self.grid.recall_sites();
    }

    // One claim. The tile that stands there afterwards is seen, whoever has won, and it is told
    // whether it is of this type.
    #[inline(always)]
    pub(crate) fn claim<L: Ledger>(
        &mut self,
        sys: &System,
        table: &SiteTable,
        spot: Spot,
        tile: TypeId,
        steps: &mut Steps<L>,
    ) -> bool
        requires seat { IsSeatOf table.now self.old.seat }
        requires system { table.now.sys ≡ sys.now }
        requires growing { IsGrowing sys.now self.old }
        requires spot { IsSpot sys.now.area spot }
        requires open { IsCandidate sys.now self.old.grid.tiles spot.site tile }
        ensures claim { ClaimsPick sys.now spot.site self.old self.new result }
        ensures cost { steps.new ≡ steps.old + 1 }
    {
        self.seat.recall_possible();
        sys.recall_valid();
        let Spot { site, number } = spot;
        match table.claim_at(&mut self.seat, site, number, tile, steps) {
            Claimed::Won => {
                self.won += 1;
                self.put(Place { site, tile }, number);
                true
            }
            Claimed::Held(there) => {
                self.seat.recall_possible();
                self.put(Place { site, tile: there }, number);
                there == tile
            }
        }
    }

    // One look at an empty site of the grid, without a claim. It tells whether a tile stands there,
    // which is seen then.
    #[inline(always)]
    pub(crate) fn see(&mut self, sys: &System, table: &SiteTable, spot: Spot) -> bool
        requires seat { IsSeatOf table.now self.old.seat }
        requires system { table.now.sys ≡ sys.now }
        requires growing { IsGrowing sys.now self.old }
        requires spot { IsSpot sys.now.area spot }
        requires empty { tile_at self.old.grid.tiles spot.site ≡ None }
        ensures sees { MatchBool result (ClaimsAt sys.now spot.site self.old self.new)
            (self.new ≡ self.old) }
        ensures idle { ClaimsNothing self.old self.new }
    {
        self.seat.recall_possible();
        sys.recall_valid();
        let Spot { site, number } = spot;
        let Some(tile) = table.look_at(&mut self.seat, site, number) else {
            return false;
        };
        self.seat.recall_possible();
        self.put(Place { site, tile }, number);
        true
    }
}
