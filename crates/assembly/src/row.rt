// A row of a box.
ghost use Rattle.std.specs.Prelude.{◌≡◌, ◌<◌};
ghost use Rattle.atam.specs.Sites.{InBox, IsBox};
ghost use Rattle.assembly.specs.Cells.{cell_count, site_at};
ghost use Rattle.assembly.specs.Rows.{HasNumber, IsRow};

use crate::site_of_index;
use tile_system::{BoxArea, Site};

/// A row of a box. It finds the sites in it by their numbers without a division.
#[derive(Clone, Copy, Debug)]
pub struct Row {
    y: i32,
    first: usize,
}

impl Row {
    /// The least row.
    pub fn least(area: &BoxArea) -> Row
        requires { IsBox area.now }
        ensures { IsRow area.now result }
    {
        Row {
            y: area.y0,
            first: 0,
        }
    }

    // The row of the site with this number.
    fn of_number(area: &BoxArea, number: usize) -> Row
        requires limits { IsBox area.now }
        requires within { number < cell_count area.now }
        ensures row { IsRow area.now result }
        ensures number { HasNumber area.now result number }
    {
        let site = site_of_index(area, number);
        let column = (site.x - area.x0) as usize;
        Row {
            y: site.y,
            first: number - column,
        }
    }

    // This row, if the site with this number is in it, else the site's row.
    #[inline(always)]
    fn moved_to(self, area: &BoxArea, number: usize) -> Row
        requires limits { IsBox area.now }
        requires row { IsRow area.now self }
        requires within { number < cell_count area.now }
        ensures row { IsRow area.now result }
        ensures number { HasNumber area.now result number }
    {
        if number >= self.first && number - self.first < area.width() as usize {
            return self;
        }
        Row::of_number(area, number)
    }

    /// The site with this number, to whose row it moves. It divides only where that is another row
    /// than before.
    #[inline(always)]
    pub fn site(&mut self, area: &BoxArea, number: usize) -> Site
        requires limits { IsBox area.now }
        requires row { IsRow area.now self.old }
        requires within { number < cell_count area.now }
        ensures row { IsRow area.now self.new }
        ensures site { result ≡ site_at area.now number }
        ensures inside { InBox area.now result }
    {
        *self = self.moved_to(area, number);
        let x = area.x0 + (number - self.first) as i32;
        Site { y: self.y, x }
    }
}
