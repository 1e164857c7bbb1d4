// The number of a site in its box.
ghost use Rattle.std.specs.Prelude.{◌≡◌, ◌<◌, ◌+◌, ◌-◌};
ghost use Rattle.atam.specs.Sites.{InBox, IsBox, neighbor};
ghost use Rattle.assembly.specs.Cells.{IsNumberOf, cell_count, site_at};

use atam::{BoxArea, Side, Site};

/// The number of a site of the box, by rows from the least corner, in a table of the box's sites.
#[inline(always)]
pub fn site_index(area: &BoxArea, site: Site) -> usize
    requires limits { IsBox area.now }
    requires inside { InBox area.now site }
    ensures site { site_at area.now result ≡ site }
    ensures within { result < cell_count area.now }
{
    let column = (site.x - area.x0) as u32 as usize;
    let row = (site.y - area.y0) as u32 as usize;
    row * area.width() as usize + column
}

/// The site of the box with this number.
#[inline(always)]
pub fn site_of_index(area: &BoxArea, index: usize) -> Site
    requires limits { IsBox area.now }
    requires within { index < cell_count area.now }
    ensures site { result ≡ site_at area.now index }
    ensures inside { InBox area.now result }
{
    let width = area.width() as usize;
    area.site((index % width) as u32, (index / width) as u32)
}

/// The number of the site on one side of one whose number is known, if it is in the box.
#[inline(always)]
pub fn number_beside(area: &BoxArea, site: Site, number: usize, side: Side) -> Option<usize>
    requires limits { IsBox area.now }
    requires inside { InBox area.now site }
    requires within { number < cell_count area.now }
    requires number { site_at area.now number ≡ site }
    ensures { IsNumberOf area.now (neighbor site side) result }
{
    match side {
        Side::North => {
            if site.y == area.y1 {
                return None;
            }
            Some(number + area.width() as usize)
        }
        Side::East => {
            if site.x == area.x1 {
                return None;
            }
            Some(number + 1)
        }
        Side::South => {
            if site.y == area.y0 {
                return None;
            }
            Some(number - area.width() as usize)
        }
        Side::West => {
            if site.x == area.x0 {
                return None;
            }
            Some(number - 1)
        }
    }
}
