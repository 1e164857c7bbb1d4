// The sites that are to be looked at.
ghost use Rattle.std.specs.Prelude.{◌≡◌, ◌<◌, ◌≤◌, ◌+◌, ◌*◌, ℕ, IfOk, IfSome, IfNone, IsTrue};
ghost use Rattle.atam.specs.Sites.{IsBox, IsNearSite, neighbor, width_of, height_of};
ghost use Rattle.atam.specs.Placements.{tile_at};
ghost use Rattle.assembly.specs.Cells.{cell_count};
ghost use Rattle.tile_system.specs.Neighbors.{StandBeside};
ghost use Rattle.number_set.specs.Numbers.{Adds, IsIn, IsLeastOf, Removes};
ghost use Rattle.frontier_seat.specs.Inner.Insides.{IsInner};
ghost use Rattle.frontier_seat.specs.Inner.Listings.{AreEmptySites, ListsAround, ListsFrontier, ListsFrontierTo, ListsSide, IsClosedRow, IsSpot};

use crate::inside::number_next;
use crate::share::Share;
use assembly::{Grid, number_beside};
use number_set::NumberSet;
use std::alloc::Global;
use std::marker::Model;
use tile_system::{Beside, BoxArea, NoMemory, Placed, Side, Site, TypeId};

// A site of a box, and its number there.
#[derive(Clone, Copy)]
pub(crate) struct Spot {
    pub(crate) site: Site,
    pub(crate) number: usize,
}

// Sites of a box, each listed at most once, with room for all, and which of them are looked at
// first: an eighth of a byte a site. Sites are handed out by their numbers.
pub(crate) struct WorkList {
    area: BoxArea,
    numbers: NumberSet,
    share: Share,
}

impl Drop for WorkList {
    fn drop(self) {
        let WorkList {
            area: _area,
            numbers: _numbers,
            share: _share,
        } = self;
    }
}

impl Model for WorkList {
    ghost use Rattle.std.specs.Prelude.{◌≡◌};
    ghost use Rattle.atam.specs.Sites.{IsBox};
    ghost use Rattle.assembly.specs.Cells.{cell_count};
    ghost use Rattle.frontier_seat.specs.Inner.Listings.{ListedSites};

    ghost Value = { ListedSites };

    ghost view = { λ w. record { area = w.area; numbers = w.numbers } };

    ghost invariant = { λ w. IsBox w.area × (w.numbers.bound ≡ cell_count w.area) };
}

impl WorkList {
    // No site of a box.
    pub(crate) fn make(alloc: Global, area: BoxArea) -> Result<WorkList, NoMemory>
        requires { IsBox area }
        ensures area { IfOk result (λ work. work.area ≡ area) }
        ensures none { IfOk result (λ work. (n : ℕ) → ¬ IsIn work.numbers n) }
    {
        let count = area.width() * area.height();
        Ok(WorkList {
            area,
            numbers: NumberSet::make(alloc, count)?,
            share: Share::whole(),
        })
    }

    // The number of sites of the box.
    pub(crate) fn count(&self) -> u32
        ensures count { result ≡ cell_count self.now.area }
        ensures some { 0 < result }
    {
        self.area.width() * self.area.height()
    }

    // The number of the next of the worker's own sites, if any is left.
    #[inline(always)]
    fn next_own(&mut self, from: u32) -> Option<usize>
        requires { from < cell_count self.old.area }
        ensures same { self.new ≡ self.old }
        ensures within { IfSome result (λ n. n < cell_count self.old.area) }
        ensures listed { IfSome result (IsIn self.old.numbers) }
    {
        if from > 0 {
            return self.own_from(from);
        }
        if let Some(number) = self.share.here(&self.numbers) {
            return Some(number);
        }
        self.own_elsewhere()
    }

    // The same where the worker goes on elsewhere than it looked last.
    #[inline(never)]
    fn own_elsewhere(&mut self) -> Option<usize>
        ensures same { self.new ≡ self.old }
        ensures within { IfSome result (λ n. n < cell_count self.old.area) }
        ensures listed { IfSome result (IsIn self.old.numbers) }
    {
        let area = self.area;
        let number = self.share.elsewhere(&self.numbers, &area)?;
        let (column, row) = column_and_row(&area, number);
        self.share.move_to(&area, column, row);
        Some(number)
    }

    // The same where it is looked for from the site with this number on.
    fn own_from(&mut self, from: u32) -> Option<usize>
        requires { from < cell_count self.old.area }
        ensures same { self.new ≡ self.old }
        ensures within { IfSome result (λ n. n < cell_count self.old.area) }
        ensures listed { IfSome result (IsIn self.old.numbers) }
    {
        let area = self.area;
        self.share.from_number(&self.numbers, &area, from)
    }

    // The number of the next site to look at: where several work, one of the worker's own, if any
    // is left. It is looked for from the site with this number on.
    #[inline(always)]
    fn next(&mut self, from: u32) -> Option<usize>
        requires { from < cell_count self.old.area }
        ensures same { self.new ≡ self.old }
        ensures within { IfSome result (λ n. n < cell_count self.old.area) }
        ensures listed { IfSome result (IsIn self.old.numbers) }
        ensures none { IfNone result ((n : ℕ) → ¬ IsIn self.old.numbers n) }
    {
        if self.share.is_whole() {
            return self.next_from(from as usize);
        }
        if let Some(number) = self.next_own(from) {
            return Some(number);
        }
        self.next_of_others(from)
    }

    // The same where none of the worker's own is left.
    #[inline(never)]
    fn next_of_others(&mut self, from: u32) -> Option<usize>
        requires { from < cell_count self.old.area }
        ensures same { self.new ≡ self.old }
        ensures within { IfSome result (λ n. n < cell_count self.old.area) }
        ensures listed { IfSome result (IsIn self.old.numbers) }
        ensures none { IfNone result ((n : ℕ) → ¬ IsIn self.old.numbers n) }
    {
        let area = self.area;
        let number = self.next_from(from as usize)?;
        let (_column, row) = column_and_row(&area, number);
        self.share.visit(row);
        Some(number)
    }

    // The number of the least site that is listed at or after this one, else of the least one.
    #[inline(always)]
    fn next_from(&self, from: usize) -> Option<usize>
        requires { from < cell_count self.now.area }
        ensures within { IfSome result (λ n. n < cell_count self.now.area) }
        ensures listed { IfSome result (IsIn self.now.numbers) }
        ensures none { IfNone result ((n : ℕ) → ¬ IsIn self.now.numbers n) }
    {
        if from > 0 {
            if let Some(number) = self.numbers.least_from(from) {
                return Some(number);
            }
        }
        self.numbers.least()
    }

    // Takes the number of the next site to look at, which is looked for from the site with this
    // number on.
    #[inline(always)]
    pub(crate) fn take(&mut self, from: u32) -> Option<usize>
        requires { from < cell_count self.old.area }
        ensures area { self.new.area ≡ self.old.area }
        ensures within { IfSome result (λ n. n < cell_count self.old.area) }
        ensures listed { IfSome result (IsIn self.old.numbers) }
        ensures removed { IfSome result (Removes self.old.numbers self.new.numbers) }
        ensures none { IfNone result ((n : ℕ) → ¬ IsIn self.old.numbers n) }
        ensures same { IfNone result (self.new ≡ self.old) }
    {
        let number = self.next(from)?;
        self.numbers.remove(number);
        Some(number)
    }

    // Lists a site that was taken.
    pub(crate) fn put_back(&mut self, number: usize)
        requires { number < cell_count self.old.area }
        ensures area { self.new.area ≡ self.old.area }
        ensures adds { Adds self.old.numbers self.new.numbers number }
    {
        self.numbers.insert(number);
    }

    // A site that is to be looked at no longer.
    #[inline(always)]
    pub(crate) fn drop_spot(&mut self, spot: Spot)
        requires { IsSpot self.old.area spot }
        ensures area { self.new.area ≡ self.old.area }
        ensures removes { Removes self.old.numbers self.new.numbers spot.number }
    {
        self.numbers.remove(spot.number);
    }

    // Makes every of-th band of rows the worker's own.
    pub(crate) fn cut(&mut self, share: u32, of: u32)
        requires { share < of }
        ensures { self.new ≡ self.old }
    {
        self.share.deal(share, of);
    }

    // Whether a listed site is the worker's own.
    pub(crate) fn has_own(&self) -> bool {
        self.share.has_some(&self.numbers, &self.area)
    }

    // Whether a row of the box is beside the worker's bands, and in none of them.
    pub(crate) fn is_beside(&self, row: u32) -> bool {
        self.share.is_beside(row)
    }

    // Takes the number of the least site that is listed.
    #[inline(always)]
    pub(crate) fn take_least(&mut self) -> Option<usize>
        ensures area { self.new.area ≡ self.old.area }
        ensures within { IfSome result (λ n. n < cell_count self.old.area) }
        ensures least { IfSome result (IsLeastOf self.old.numbers) }
        ensures removed { IfSome result (Removes self.old.numbers self.new.numbers) }
        ensures none { IfNone result ((n : ℕ) → ¬ IsIn self.old.numbers n) }
        ensures same { IfNone result (self.new ≡ self.old) }
    {
        self.numbers.pop_least()
    }

    // Lists the site on one side, if it is in the box and no tile is there.
    #[inline(always)]
    fn list_side(&mut self, spot: Spot, side: Side, there: Option<TypeId>)
        requires near { IsNearSite spot.site }
        requires spot { IsSpot self.old.area spot }
        ensures area { self.new.area ≡ self.old.area }
        ensures lists { ListsSide self.old.area (neighbor spot.site side) there
            self.old.numbers self.new.numbers }
    {
        if there.is_some() {
            return;
        }
        if let Some(number) = number_beside(&self.area, spot.site, spot.number, side) {
            self.numbers.insert(number);
        }
    }

    // Lists the empty sites of the box beside a site, by what stands there.
    #[inline(always)]
    pub(crate) fn list_around(&mut self, grid: &Grid, spot: Spot, beside: &Beside)
        requires near { IsNearSite spot.site }
        requires spot { IsSpot self.old.area spot }
        requires beside { StandBeside grid.now.tiles spot.site beside.now }
        ensures area { self.new.area ≡ self.old.area }
        ensures lists { ListsAround self.old.area grid.now.tiles spot.site
            self.old.numbers self.new.numbers }
    {
        self.list_side(spot, Side::North, beside.north);
        self.list_side(spot, Side::East, beside.east);
        self.list_side(spot, Side::South, beside.south);
        self.list_side(spot, Side::West, beside.west);
    }

    // Lists the site on one side of one that is at no edge of the box, if no tile is there. The box
    // is the caller's, so that it need not be read again after each store.
    #[inline(always)]
    fn list_next(&mut self, area: &BoxArea, spot: Spot, side: Side, there: Option<TypeId>)
        requires area { self.old.area ≡ area.now }
        requires spot { IsSpot area.now spot }
        requires inner { IsInner area.now spot.site }
        ensures area { self.new.area ≡ self.old.area }
        ensures lists { ListsSide self.old.area (neighbor spot.site side) there
            self.old.numbers self.new.numbers }
    {
        if there.is_some() {
            return;
        }
        self.numbers.insert(number_next(area, spot, side));
    }

    // Lists the empty sites beside such a site.
    #[inline(always)]
    pub(crate) fn list_inner(&mut self, grid: &Grid, area: &BoxArea, spot: Spot, beside: &Beside)
        requires area { self.old.area ≡ area.now }
        requires spot { IsSpot area.now spot }
        requires inner { IsInner area.now spot.site }
        requires beside { StandBeside grid.now.tiles spot.site beside.now }
        ensures area { self.new.area ≡ self.old.area }
        ensures lists { ListsAround self.old.area grid.now.tiles spot.site
            self.old.numbers self.new.numbers }
    {
        self.list_next(area, spot, Side::North, beside.north);
        self.list_next(area, spot, Side::East, beside.east);
        self.list_next(area, spot, Side::South, beside.south);
        self.list_next(area, spot, Side::West, beside.west);
    }

    // Lists the empty sites of the box beside a site, if a tile is there.
    #[inline(always)]
    fn list_tile(&mut self, grid: &Grid, spot: Spot)
        requires near { IsNearSite spot.site }
        requires area { grid.now.area ≡ self.old.area }
        requires spot { IsSpot self.old.area spot }
        requires empty { AreEmptySites self.old.area grid.now.tiles self.old.numbers }
        requires before { ListsFrontierTo self.old.area grid.now.tiles self.old.numbers
            spot.number }
        ensures area { self.new.area ≡ self.old.area }
        ensures empty { AreEmptySites self.old.area grid.now.tiles self.new.numbers }
        ensures lists { ListsFrontierTo self.old.area grid.now.tiles self.new.numbers
            (spot.number + 1) }
    {
        if grid.tile(spot.number).is_none() {
            return;
        }
        let beside = grid.beside(spot.site);
        self.list_around(grid, spot, &beside);
    }

    // Lists the empty sites of the box beside the tiles of one row.
    fn list_row(&mut self, grid: &Grid, row: u32)
        requires area { grid.now.area ≡ self.old.area }
        requires row { row < height_of self.old.area }
        requires empty { AreEmptySites self.old.area grid.now.tiles self.old.numbers }
        requires before { ListsFrontierTo self.old.area grid.now.tiles self.old.numbers
            (row * width_of self.old.area) }
        ensures area { self.new.area ≡ self.old.area }
        ensures empty { AreEmptySites self.old.area grid.now.tiles self.new.numbers }
        ensures lists { ListsFrontierTo self.old.area grid.now.tiles self.new.numbers
            (row * width_of self.old.area + width_of self.old.area) }
    {
        if is_closed_row(grid, row) {
            return;
        }
        self.list_tiles(grid, row);
    }

    // The same, site by site.
    fn list_tiles(&mut self, grid: &Grid, row: u32)
        requires area { grid.now.area ≡ self.old.area }
        requires row { row < height_of self.old.area }
        requires empty { AreEmptySites self.old.area grid.now.tiles self.old.numbers }
        requires before { ListsFrontierTo self.old.area grid.now.tiles self.old.numbers
            (row * width_of self.old.area) }
        ensures area { self.new.area ≡ self.old.area }
        ensures empty { AreEmptySites self.old.area grid.now.tiles self.new.numbers }
        ensures lists { ListsFrontierTo self.old.area grid.now.tiles self.new.numbers
            (row * width_of self.old.area + width_of self.old.area) }
    {
        let area = self.area;
        let width = area.width();
        let first = row as usize * width as usize;
        for column in 0..width {
            let site = area.site(column, row);
            let number = first + column as usize;
            self.list_tile(grid, Spot { site, number });
        }
    }

    // Lists the empty sites of the box beside a tile, where no site is listed.
    pub(crate) fn list_frontier(&mut self, grid: &Grid)
        requires area { grid.now.area ≡ self.old.area }
        requires none { (n : ℕ) → ¬ IsIn self.old.numbers n }
        ensures area { self.new.area ≡ self.old.area }
        ensures empty { AreEmptySites self.old.area grid.now.tiles self.new.numbers }
        ensures lists { ListsFrontier self.old.area grid.now.tiles self.new.numbers }
    {
        let area = self.area;
        for row in 0..area.height() {
            self.list_row(grid, row);
        }
    }
}

// Whether each site of the box beside a tile of the row has a tile, as far as whole rows tell.
fn is_closed_row(grid: &Grid, row: u32) -> bool
    requires { row < height_of grid.now.area }
    ensures { IsTrue result → IsClosedRow grid.now row }
{
    let area = grid.area();
    if grid.is_row_empty(row) {
        return true;
    }
    if row == 0 || row + 1 >= area.height() || !grid.is_row_full(row) {
        return false;
    }
    if !grid.is_row_full(row - 1) {
        return false;
    }
    grid.is_row_full(row + 1)
}

// The column and row of the site of the box with this number.
fn column_and_row(area: &BoxArea, number: usize) -> (u32, u32)
    requires limits { IsBox area.now }
    requires within { number < cell_count area.now }
{
    let number = number as u32;
    let width = area.width();
    (number % width, number / width)
}
