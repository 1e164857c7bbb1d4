// What a table leaves when it is closed.
ghost use Rattle.std.specs.Prelude.{◌≡◌, ◌≢◌, ◌+◌, ◌-◌, ◌*◌, ◌%◌, ◌<◌, ◌≤◌, ℕ, [], ◌∷◌, ◌++◌, cond, None, length, slice_index, count_by, All};
ghost use Rattle.std.specs.Slots.{slots_items, slots_len, IsFull};
ghost use Rattle.atam.specs.Sites.{IsBox};
ghost use Rattle.atam.specs.declared.site.Site.{Site};
ghost use Rattle.atam.specs.Placements.{tile_at, SamePlacements, HasDistinctSites};
ghost use Rattle.assembly.specs.Cells.{cell_count, site_at};
ghost use Rattle.assembly.specs.Grids.{place_of};
ghost use Rattle.assembly.specs.Rows.{IsRow};
ghost use Rattle.site_table.specs.Inner.Tallies.{tallied};
ghost use Rattle.site_table.specs.Words.{is_by, spelled};

use crate::table::type_of;
use crate::tally::Tally;
use assembly::{Grid, Row};
use atomic_table::Closed;
use std::alloc::Global;
use std::marker::Model;
use tile_system::{BoxArea, Place};

/// The grown tiles, and how many of them each number placed. A table's `close` alone makes one.
#[derive(Drop)]
pub struct Grown {
    grid: Grid,
    won: [u32; 64],
}

impl Model for Grown {
    ghost use Rattle.site_table.specs.Seats.{GrownValue};

    ghost Value = { GrownValue };

    ghost view = { λ g. record { grid = g.grid; won = g.won } };
}

impl Grown {
    pub fn grid(&self) -> &Grid
        ensures { result.now ≡ self.now.grid }
    {
        &self.grid
    }

    pub fn into_grid(self) -> Grid
        ensures { result ≡ self.grid }
    {
        self.grid
    }

    /// How many tiles a number has placed.
    pub fn won(&self, number: u32) -> u32
        requires { number < 64 }
        ensures { result ≡ slice_index self.now.won number }
    {
        self.won[number as usize]
    }
}

// Adds the place of one word, if it is of a tile.
#[inline(always)]
fn take_word(
    area: &BoxArea,
    row: &mut Row,
    index: usize,
    word: u64,
    into: &mut Grid,
    won: &mut Tally,
)
    requires limits { IsBox area.now }
    requires row { IsRow area.now row.old }
    requires area { into.old.area ≡ area.now }
    requires within { index < cell_count area.now }
    requires coded { word ≢ 0 → 0 < word % 4294967296 }
    requires small { word % 4294967296 ≤ 16384 }
    requires empty { tile_at into.old.tiles (site_at area.now index) ≡ None }
    requires few { (n : ℕ) → tallied won.old n ≤ index }
    ensures row { IsRow area.now row.new }
    ensures area { into.new.area ≡ into.old.area }
    ensures tiles { (m : Site) → tile_at into.new.tiles m
        ≡ tile_at (into.old.tiles ++ place_of (site_at area.now index) (word % 4294967296)) m }
    ensures won { (n : ℕ) → n < 64 → tallied won.new n ≡ tallied won.old n + cond (is_by n word) 1 0 }
    ensures few { (n : ℕ) → tallied won.new n ≤ tallied won.old n + 1 }
{
    if word == 0 {
        return;
    }
    let site = row.site(area, index);
    let tile = type_of(word);
    into.put_at(Place { site, tile }, index);
    won.add((word >> 32) as usize);
}

// Reads all words.
pub(crate) fn gather(closed: &Closed<(), Global>, area: BoxArea, into: Grid) -> Grown
    requires limits { IsBox area }
    requires full { IsFull closed.now.words × (slots_len closed.now.words ≡ cell_count area)
        × (length (slots_items closed.now.words) ≡ cell_count area) }
    requires coded { All (λ word. word ≢ 0 → 0 < word % 4294967296)
        (slots_items closed.now.words) }
    requires small { All (λ word. word % 4294967296 ≤ 16384) (slots_items closed.now.words) }
    requires area { into.area ≡ area }
    requires empty { into.tiles ≡ [] }
    ensures area { result.grid.area ≡ area }
    ensures distinct { HasDistinctSites result.grid.tiles }
    ensures grid { SamePlacements (spelled area (slots_items closed.now.words)) result.grid.tiles }
    ensures numbers { length result.won ≡ 64 }
    ensures won { (n : ℕ) → n < 64 →
        slice_index result.won n ≡ count_by (is_by n) (slots_items closed.now.words) }
{
    let mut into = into;
    let mut won = Tally::new();
    let mut row = Row::least(&area);
    let count = area.width() as usize * area.height() as usize;
    let mut index = 0;
    while index < count {
        take_word(
            &area,
            &mut row,
            index,
            closed.word(index),
            &mut into,
            &mut won,
        );
        index += 1;
    }
    into.recall_sites();
    let won = won.into_counts();
    Grown { grid: into, won }
}
