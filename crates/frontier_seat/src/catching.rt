// Looks at sites where others may have placed tiles.
ghost use Rattle.std.specs.Prelude.{◌<◌};
ghost use Rattle.atam.specs.Sites.{height_of};
ghost use Rattle.frontier_seat.specs.Inner.Listings.{IsSpot};
ghost use Rattle.frontier_seat.specs.Inner.Looks.{CanLook, CatchesUp, HasListed};

use crate::grower::{Grower, Setting};
use crate::work_list::Spot;

impl<'i> Grower<'i> {
    // Looks at a site where no tile was seen. Where a tile stands, it is seen, and the empty sites
    // beside it are listed.
    #[inline(always)]
    fn see(&mut self, lent: Setting<'_, '_>, spot: Spot)
        requires can { CanLook lent self.old }
        requires lists { HasListed lent.sys.now self.old }
        requires spot { IsSpot lent.area spot }
        ensures catches { CatchesUp lent.entry.sys.now self.old self.new }
        ensures can { CanLook lent.entry self.new }
    {
        let Setting { sys, table, .. } = lent;
        sys.recall_valid();
        if let Some(_tile) = self.growing.grid.tile(spot.number) {
            return;
        }
        if self.growing.see(sys, table, spot) {
            self.work.drop_spot(spot);
            let beside = self.growing.grid.beside_at(spot.site, spot.number);
            self.work.list_around(&self.growing.grid, spot, &beside);
        }
    }

    // The same at each site of one row, if one is empty.
    fn see_row(&mut self, lent: Setting<'_, '_>, row: u32)
        requires can { CanLook lent self.old }
        requires lists { HasListed lent.sys.now self.old }
        requires row { row < height_of lent.area }
        ensures catches { CatchesUp lent.entry.sys.now self.old self.new }
        ensures can { CanLook lent.entry self.new }
    {
        if self.growing.grid.is_row_full(row) {
            return;
        }
        let Setting { sys, area, .. } = lent;
        sys.recall_valid();
        let width = area.width();
        let first = row as usize * width as usize;
        for column in 0..width {
            let site = area.site(column, row);
            let number = first + column as usize;
            self.see(lent, Spot { site, number });
        }
    }

    // The same in the rows beside the worker's bands.
    pub(crate) fn see_edges(&mut self, lent: Setting<'_, '_>)
        requires can { CanLook lent self.old }
        requires lists { HasListed lent.sys.now self.old }
        ensures catches { CatchesUp lent.entry.sys.now self.old self.new }
        ensures can { CanLook lent.entry self.new }
    {
        lent.sys.recall_valid();
        for row in 0..lent.area.height() {
            if self.work.is_beside(row) {
                self.see_row(lent, row);
            }
        }
    }
}
