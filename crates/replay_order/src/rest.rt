// What is left of a grid once no site is ready.
ghost use Rattle.std.specs.Prelude.{◌≡◌, IfSome, IfNone};
ghost use Rattle.atam.specs.Sites.{IsBox};
ghost use Rattle.assembly.specs.Cells.{cell_count};
ghost use Rattle.replay_order.specs.Inner.Replays.{IsLeastLacking, NoneLacksBelow};

use crate::waiting::WaitingSites;
use assembly::{Grid, site_of_index};
use tile_system::{BoxArea, Placed, Site};

// The least site with a tile of the grid that lacks something.
pub(crate) fn least_left(area: &BoxArea, grid: &Grid, waiting: &WaitingSites) -> Option<Site>
    requires limits { IsBox area.now }
    requires same { area.now ≡ waiting.now.area }
    ensures least { IfSome result (IsLeastLacking grid.now.tiles waiting.now) }
    ensures none { IfNone result
        (NoneLacksBelow grid.now.tiles waiting.now (cell_count waiting.now.area)) }
{
    let cells = area.width() as usize * area.height() as usize;
    for index in 0..cells {
        let site = site_of_index(area, index);
        if waiting.is_lacking(index) && grid.at(site).is_some() {
            return Some(site);
        }
    }
    None
}
