// The input and output sides of the places of a sequence.
ghost use Rattle.std.specs.Prelude.{◌≡◌, ◌<◌, ◌≤◌, List, length, IfOk};
ghost use Rattle.std.specs.Cow.{cow_value};
ghost use Rattle.atam.specs.declared.place.Place.{Place};
ghost use Rattle.atam.specs.declared.site.Side.{Side};
ghost use Rattle.atam.specs.Placements.{SamePlacements};
ghost use Rattle.atam.specs.Assembly.{Fits};
ghost use Rattle.atam.specs.Growth.{IsLegal};
ghost use Rattle.type_index.specs.Indexes.{IsIndexOf};
ghost use Rattle.local_check.specs.Inner.Surveys.{CanSurvey, IsSurvey};
ghost use Rattle.type_cache.specs.SideSets.{has};
ghost use Rattle.local_check.specs.SideSets.{input_at, output_at, AreSidesOf};

use crate::grid_of::grid_of;
use crate::laid_out::LaidOut;
use crate::place_sides::PlaceSides;
use crate::survey::{Survey, survey_whole};
use assembly::{Grid, Sequence};
use std::alloc::Global;
use std::borrow::Cow;
use std::marker::Model;
use tile_system::{Beside, NoMemory, Placed, Side, Site, System, TypeId};
use type_cache::SideSet;
use type_index::TypeIndex;

/// The input and output sides of each place of a sequence, the grid of its places, an index of the
/// system's types, and where the sequence first breaks a condition on its places. The grid and the
/// index are its own or lent.
pub struct SideSets<'a> {
    grid: Cow<'a, Grid>,
    seed_count: usize,
    sides: Vec<PlaceSides>,
    index: Cow<'a, TypeIndex>,
    inexact: Option<(Site, u32)>,
    rival: Option<(Site, TypeId)>,
}

impl<'a> Drop for SideSets<'a> {
    fn drop(self) {
        let SideSets {
            grid: _grid,
            seed_count: _seed_count,
            sides: _sides,
            index: _index,
            inexact: _inexact,
            rival: _rival,
        } = self;
    }
}

impl<'a> Model for SideSets<'a> {
    ghost use Rattle.std.specs.Cow.{cow_value};
    ghost use Rattle.local_check.specs.SideSets.{SideTable};
    ghost use Rattle.local_check.specs.Inner.PlaceSides.{earlier_sets, output_sets};

    ghost Value = { SideTable };

    ghost view = { λ s. record {
      tiles = (cow_value s.grid).tiles;
      seeds = s.seed_count;
      earlier = earlier_sets s.sides.items;
      outputs = output_sets s.sides.items;
      index = cow_value s.index;
      inexact = s.inexact;
      rival = s.rival;
    } };
}

impl<'a> SideSets<'a> {
    /// Whether the side interacts with a tile placed before; a seed has no input sides.
    pub fn input(&self, i: usize, side: Side) -> bool
        requires { i < length self.now.outputs }
        ensures { result ≡ input_at self.now i side }
    {
        self.inputs_of(i).has(side)
    }

    /// Whether the side is one at which the tile beside it has an input side.
    pub fn output(&self, i: usize, side: Side) -> bool
        requires { i < length self.now.outputs }
        ensures { result ≡ output_at self.now i side }
    {
        self.sides[i].outputs().has(side)
    }

    // The input sides of a place.
    pub(crate) fn inputs_of(&self, i: usize) -> SideSet
        requires { i < length self.now.outputs }
        ensures { (d : Side) → has result d ≡ input_at self.now i d }
    {
        if i < self.seed_count {
            SideSet::NONE
        } else {
            self.sides[i].earlier()
        }
    }

    // The index of the system's types.
    pub(crate) fn index(&self) -> &TypeIndex
        ensures { result.now ≡ self.now.index }
    {
        &self.index
    }

    // The first place that isn't held by exactly the temperature, with what holds it.
    pub(crate) fn inexact(&self) -> Option<(Site, u32)>
        ensures { result ≡ self.now.inexact }
    {
        self.inexact
    }

    // The first place with a rival, with its first rival.
    pub(crate) fn rival(&self) -> Option<(Site, TypeId)>
        ensures { result ≡ self.now.rival }
    {
        self.rival
    }
}

impl<'a> Placed for SideSets<'a> {
    ghost placements = { λ s. s.tiles };

    fn at(&self, site: Site) -> Option<TypeId> {
        self.grid.at(site)
    }

    fn beside(&self, site: Site) -> Beside {
        self.grid.beside(site)
    }
}

/// The sides of the places of a legal sequence, with the first place that isn't held exactly and
/// the first rival. It takes memory for a grid of the places, an index of the types, and a byte for
/// each place and for each site of the box. Its time grows with the number of places and with the
/// number of sites of the box.
pub fn inputs<'a>(alloc: Global, sys: &System, seq: &Sequence) -> Result<SideSets<'a>, NoMemory>
    requires legal { IsLegal sys.now seq.now }
    requires fits { Fits sys.now seq.now }
    ensures { IfOk result (AreSidesOf sys.now seq.now) }
{
    sys.recall_valid();
    let grid = grid_of(alloc, sys, seq)?;
    sides_in(alloc, sys, seq, Cow::Owned(grid))
}

/// The same where a grid has the places already.
pub fn inputs_of_grid<'a>(
    alloc: Global,
    sys: &System,
    seq: &Sequence,
    grid: &'a Grid,
) -> Result<SideSets<'a>, NoMemory>
    requires legal { IsLegal sys.now seq.now }
    requires fits { Fits sys.now seq.now }
    requires area { grid.now.area ≡ sys.now.area }
    requires placements { SamePlacements seq.now grid.now.tiles }
    ensures { IfOk result (AreSidesOf sys.now seq.now) }
{
    sides_in(alloc, sys, seq, Cow::Borrowed(grid))
}

// The same where there is an index of the types too.
pub(crate) fn inputs_lent<'a>(alloc: Global, laid: &LaidOut<'a>) -> Result<SideSets<'a>, NoMemory>
    requires can { CanSurvey laid.now }
    ensures { IfOk result (AreSidesOf laid.now.sys.now laid.now.seq.now) }
{
    let survey = survey_whole(alloc, laid)?;
    Ok(table_lent(laid, survey))
}

// The sides of the places of a sequence, by the grid of all of them.
fn sides_in<'a>(
    alloc: Global,
    sys: &System,
    seq: &Sequence,
    grid: Cow<'a, Grid>,
) -> Result<SideSets<'a>, NoMemory>
    requires legal { IsLegal sys.now seq.now }
    requires fits { Fits sys.now seq.now }
    requires area { (cow_value grid).area ≡ sys.now.area }
    requires placements { SamePlacements seq.now (cow_value grid).tiles }
    ensures { IfOk result (AreSidesOf sys.now seq.now) }
{
    sys.recall_valid();
    let index = TypeIndex::build(alloc, sys)?;
    let laid = LaidOut {
        sys,
        seq,
        grid: &grid,
        types: &index,
    };
    let survey = survey_whole(alloc, &laid)?;
    Ok(table(sys, grid, Cow::Owned(index), survey))
}

// What was found of all places, with the grid and the index that are lent.
pub(crate) fn table_lent<'a>(laid: &LaidOut<'a>, survey: Survey) -> SideSets<'a>
    requires can { CanSurvey laid.now }
    requires survey { IsSurvey laid.now.sys.now laid.now.seq.now 0
        (length laid.now.seq.now) survey }
    ensures { AreSidesOf laid.now.sys.now laid.now.seq.now result }
{
    let grid = Cow::Borrowed(laid.grid);
    let index = Cow::Borrowed(laid.types);
    table(laid.sys, grid, index, survey)
}

// What was found of all places, with the grid and the index that it was found by.
fn table<'a>(
    sys: &System,
    grid: Cow<'a, Grid>,
    index: Cow<'a, TypeIndex>,
    survey: Survey,
) -> SideSets<'a>
    ensures { (s : List Place) → IsLegal sys.now s →
        SamePlacements s (cow_value grid.entry).tiles →
        IsIndexOf sys.now (cow_value index.entry) → IsSurvey sys.now s 0 (length s) survey →
        AreSidesOf sys.now s result }
{
    sys.recall_valid();
    let Survey { sides, breaches } = survey;
    SideSets {
        grid,
        seed_count: sys.seeds().len(),
        sides,
        index,
        inexact: breaches.inexact,
        rival: breaches.rival,
    }
}
