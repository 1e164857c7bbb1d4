// The part of a work list that a worker looks at first.
ghost use Rattle.std.specs.Prelude.{◌<◌, IfSome, IsTrue};
ghost use Rattle.atam.specs.Sites.{IsBox};
ghost use Rattle.number_set.specs.Numbers.{IsIn};

use number_set::NumberSet;
use tile_system::BoxArea;

// The rows of a band, and the columns of a block of it.
const BAND_ROWS: u32 = 32;

const BLOCK_COLUMNS: u32 = 64;

// The most bands of a box.
const MOST_BANDS: u32 = 32;

// The sites of a row that are in one block, which begins at this column, by their numbers: from the
// one on and below the other.
#[derive(Clone, Copy)]
struct Span {
    column: u32,
    row: u32,
    from: usize,
    to: usize,
}

impl Span {
    // The span of the site in this column and row.
    fn at(area: &BoxArea, column: u32, row: u32) -> Span
        requires { IsBox area.now }
    {
        let width = area.width() as usize;
        let column = column / BLOCK_COLUMNS * BLOCK_COLUMNS;
        let first = row as usize * width;
        Span {
            column,
            row,
            from: first + column as usize,
            to: first + width.min(column as usize + BLOCK_COLUMNS as usize),
        }
    }

    // The least listed site in the spans of its block, in the rows from the one on and below the
    // other.
    fn in_rows(self, numbers: &NumberSet, area: &BoxArea, from: u32, to: u32) -> Option<usize>
        requires { IsBox area.now }
        ensures below { IfSome result (λ n. n < numbers.now.bound) }
        ensures listed { IfSome result (IsIn numbers.now) }
    {
        let width = area.width() as usize;
        let end = to as usize * width;
        let mut row = from;
        while row < to {
            let span = Span::at(area, self.column, row);
            let number = numbers.least_between(span.from, end)?;
            if number < span.to {
                return Some(number);
            }
            row = (row + 1).max((number / width) as u32);
        }
        None
    }

    // The same in all rows of the block, from its own one on.
    fn in_block(self, numbers: &NumberSet, area: &BoxArea) -> Option<usize>
        requires { IsBox area.now }
        ensures below { IfSome result (λ n. n < numbers.now.bound) }
        ensures listed { IfSome result (IsIn numbers.now) }
    {
        let bottom = self.row / BAND_ROWS * BAND_ROWS;
        let top = area.height().min(bottom.saturating_add(BAND_ROWS));
        if let Some(number) = self.in_rows(numbers, area, self.row, top) {
            return Some(number);
        }
        self.in_rows(numbers, area, bottom, self.row)
    }
}

// A set of bands of a box, as bits.
#[derive(Clone, Copy)]
struct Bands {
    bits: u32,
}

impl Bands {
    fn none() -> Bands {
        Bands { bits: 0 }
    }

    // Every of-th band.
    fn every(share: u32, of: u32) -> Bands
        requires { share < of }
    {
        let mut bits = 0;
        for band in 0..MOST_BANDS {
            if band % of == share {
                bits = bits | 1 << band;
            }
        }
        Bands { bits }
    }

    #[inline(always)]
    fn is_empty(self) -> bool {
        self.bits == 0
    }

    fn has(self, band: u32) -> bool
        ensures { IsTrue result → band < MOST_BANDS }
    {
        band < MOST_BANDS && (self.bits >> band) & 1 != 0
    }

    // The band of a row, if it is one of them.
    fn at_row(self, row: u32) -> Bands {
        let band = row / BAND_ROWS;
        if band >= MOST_BANDS {
            return Bands::none();
        }
        Bands {
            bits: self.bits & 1 << band,
        }
    }

    fn joined(self, more: Bands) -> Bands {
        Bands {
            bits: self.bits | more.bits,
        }
    }

    fn without(self, band: u32) -> Bands
        requires { band < MOST_BANDS }
    {
        Bands {
            bits: self.bits & !(1 << band),
        }
    }

    // The first of them from this one on, else of all, or the one behind all bands where there is
    // none.
    #[inline(always)]
    fn next_from(self, band: u32) -> u32 {
        if band < MOST_BANDS {
            let later = self.bits >> band << band;
            if later != 0 {
                return later.trailing_zeros();
            }
        }
        self.bits.trailing_zeros()
    }

    // The least listed site in the first of these bands that has one, from this band on and then
    // from the first one. Bands that have none are taken out.
    #[inline(always)]
    fn least_from(&mut self, numbers: &NumberSet, area: &BoxArea, band: u32) -> Option<usize>
        requires { IsBox area.now }
        ensures below { IfSome result (λ n. n < numbers.now.bound) }
        ensures listed { IfSome result (IsIn numbers.now) }
    {
        let band_sites = (area.width() * BAND_ROWS) as usize;
        let mut band = band;
        for _look in 0..MOST_BANDS {
            band = self.next_from(band);
            if band >= MOST_BANDS {
                return None;
            }
            let first = band as usize * band_sites;
            if let Some(number) = numbers.least_between(first, first + band_sites) {
                return Some(number);
            }
            *self = self.without(band);
        }
        None
    }
}

// What one of several workers has for its own of a work list: the listed sites in its bands of 32
// rows. It goes through a band by blocks of 64 columns, and through a block by rows, so that its
// claims lie together in memory, and it leaves a block only where nothing is listed there any more,
// so that the next band can go on beside it soon. All this says is what is looked at first, so
// clauses say no more than that it is listed.
#[derive(Drop)]
pub(crate) struct Share {
    // The own bands, and none where the worker has all sites.
    own: Bands,
    // Those of them in which a site may be listed. A claim lists sites in its own band and in those
    // beside it, which are another's, so where none was found none comes until a claim beside it.
    open: Bands,
    // Where it looked last.
    last: Span,
}

impl Share {
    // All sites are the worker's own: it works alone.
    pub(crate) fn whole() -> Share {
        let last = Span {
            column: 0,
            row: 0,
            from: 0,
            to: 0,
        };
        Share {
            own: Bands::none(),
            open: Bands::none(),
            last,
        }
    }

    // Makes every of-th band the worker's own, or all sites where it is the only one.
    pub(crate) fn deal(&mut self, share: u32, of: u32)
        requires { share < of }
    {
        self.own = if of == 1 {
            Bands::none()
        } else {
            Bands::every(share, of)
        };
        self.open = self.own;
    }

    // Whether the worker has no bands, but all sites.
    #[inline(always)]
    pub(crate) fn is_whole(&self) -> bool {
        self.own.is_empty()
    }

    fn owns(&self, row: u32) -> bool {
        self.own.has(row / BAND_ROWS)
    }

    // Whether a row of a box is beside the worker's bands, and in none of them.
    pub(crate) fn is_beside(&self, row: u32) -> bool {
        if row >= MOST_BANDS * BAND_ROWS {
            return false;
        }
        !self.owns(row) && (self.owns(row + 1) || row > 0 && self.owns(row - 1))
    }

    // Whether one of the worker's own sites is listed.
    pub(crate) fn has_some(&self, numbers: &NumberSet, area: &BoxArea) -> bool
        requires { IsBox area.now }
    {
        let mut open = self.open;
        open.least_from(numbers, area, 0).is_some()
    }

    // The next of the worker's own sites, if it is in the span in which it looked last.
    #[inline(always)]
    pub(crate) fn here(&self, numbers: &NumberSet) -> Option<usize>
        ensures below { IfSome result (λ n. n < numbers.now.bound) }
        ensures listed { IfSome result (IsIn numbers.now) }
    {
        numbers.least_between(self.last.from, self.last.to)
    }

    // The same where none is left there: in its block, else in the next own band that has one.
    pub(crate) fn elsewhere(&mut self, numbers: &NumberSet, area: &BoxArea) -> Option<usize>
        requires { IsBox area.now }
        ensures below { IfSome result (λ n. n < numbers.now.bound) }
        ensures listed { IfSome result (IsIn numbers.now) }
    {
        if self.owns(self.last.row) {
            if let Some(number) = self.last.in_block(numbers, area) {
                return Some(number);
            }
        }
        let band = self.last.row / BAND_ROWS;
        self.open.least_from(numbers, area, band)
    }

    // The least of the worker's own sites from the number on, else of all.
    pub(crate) fn from_number(
        &mut self,
        numbers: &NumberSet,
        area: &BoxArea,
        number: u32,
    ) -> Option<usize>
        requires { IsBox area.now }
        ensures below { IfSome result (λ n. n < numbers.now.bound) }
        ensures listed { IfSome result (IsIn numbers.now) }
    {
        let band_sites = area.width() * BAND_ROWS;
        let band = number / band_sites;
        if self.open.has(band) {
            let end = (band as usize + 1) * band_sites as usize;
            if let Some(own) = numbers.least_between(number as usize, end) {
                return Some(own);
            }
        }
        self.open.least_from(numbers, area, band + 1)
    }

    // The worker looks at a site of this row in another's band. A claim there lists the sites beside
    // it, and those of the rows beside it may be the worker's own.
    pub(crate) fn visit(&mut self, row: u32) {
        let above = self.own.at_row(row.saturating_add(1));
        let below = self.own.at_row(row.saturating_sub(1));
        self.open = self.open.joined(above).joined(below);
    }

    // The worker looks at the site in this column and row, and goes on beside it.
    pub(crate) fn move_to(&mut self, area: &BoxArea, column: u32, row: u32)
        requires { IsBox area.now }
    {
        self.last = Span::at(area, column, row);
    }
}
