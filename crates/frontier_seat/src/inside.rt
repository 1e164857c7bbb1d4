// Sites at no edge of their box: one test says of all four sites beside one that they are in the box.
ghost use Rattle.std.specs.Prelude.{◌≡◌, IsTrue};
ghost use Rattle.atam.specs.Sites.{IsBox, neighbor};
ghost use Rattle.atam.specs.Placements.{tile_at};
ghost use Rattle.assembly.specs.Cells.{IsSiteNumber};
ghost use Rattle.tile_system.specs.Neighbors.{StandBeside};
ghost use Rattle.frontier_seat.specs.Inner.Insides.{IsInner};
ghost use Rattle.frontier_seat.specs.Inner.Listings.{IsSpot};

use crate::work_list::Spot;
use assembly::Grid;
use tile_system::{Beside, BoxArea, Side, Site, TypeId};

// Whether a site is at no edge of the box.
#[inline(always)]
pub(crate) fn is_inner(area: &BoxArea, site: Site) -> bool
    ensures { IsTrue result → IsInner area.now site }
{
    if site.x == area.x0 || site.x == area.x1 {
        return false;
    }
    site.y != area.y0 && site.y != area.y1
}

// The number of the site on one side of such a site.
#[inline(always)]
pub(crate) fn number_next(area: &BoxArea, spot: Spot, side: Side) -> usize
    requires limits { IsBox area.now }
    requires spot { IsSpot area.now spot }
    requires inner { IsInner area.now spot.site }
    ensures { IsSiteNumber area.now (neighbor spot.site side) result }
{
    match side {
        Side::North => spot.number + area.width() as usize,
        Side::East => spot.number + 1,
        Side::South => spot.number - area.width() as usize,
        Side::West => spot.number - 1,
    }
}

// The tile there.
#[inline(always)]
fn tile_next(grid: &Grid, area: &BoxArea, spot: Spot, side: Side) -> Option<TypeId>
    requires limits { IsBox area.now }
    requires area { grid.now.area ≡ area.now }
    requires spot { IsSpot area.now spot }
    requires inner { IsInner area.now spot.site }
    ensures { result ≡ tile_at grid.now.tiles (neighbor spot.site side) }
{
    grid.tile(number_next(area, spot, side))
}

// The tiles on all four sides.
#[inline(always)]
pub(crate) fn beside_inner(grid: &Grid, area: &BoxArea, spot: Spot) -> Beside
    requires limits { IsBox area.now }
    requires area { grid.now.area ≡ area.now }
    requires spot { IsSpot area.now spot }
    requires inner { IsInner area.now spot.site }
    ensures { StandBeside grid.now.tiles spot.site result }
{
    Beside {
        north: tile_next(grid, area, spot, Side::North),
        east: tile_next(grid, area, spot, Side::East),
        south: tile_next(grid, area, spot, Side::South),
        west: tile_next(grid, area, spot, Side::West),
    }
}
