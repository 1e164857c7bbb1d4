// Systems and assemblies by random numbers.
ghost use Rattle.std.specs.Prelude.{◌≡◌, ◌<◌, IfOk};
ghost use Rattle.atam.specs.Assembly.{Fits};

use assembly::Grid;
use std::alloc::Global;
use tile_system::{
    BoxArea, BuildStop, GlueId, NoMemory, Place, Site, System, SystemBuilder, TypeId,
};
use worked_systems::{Spot, grid_of};

const SIDE: u32 = 4;

pub(crate) const AREA: BoxArea = BoxArea {
    x0: 0,
    y0: 0,
    x1: SIDE as i32 - 1,
    y1: SIDE as i32 - 1,
};

const START: Place = Place {
    site: Site { x: 0, y: 0 },
    tile: TypeId(0),
};

// The glues of systems without pairs, with their strengths.
const STRENGTHS: [(&[u8], u32); 3] = [(b"none", 0), (b"weak", 1), (b"strong", 2)];

// The glues of systems with pairs.
const GLUES: [&[u8]; 5] = [b"a", b"b", b"c", b"d", b"e"];

const TYPES: [&[u8]; 6] = [b"S", b"A", b"B", b"C", b"D", b"E"];

// Numbers one after another, by a linear rule modulo 2^32.
#[derive(Drop)]
pub(crate) struct Numbers {
    pub(crate) state: u32,
}

impl Numbers {
    fn below(&mut self, bound: u32) -> u32
        requires { 0 < bound }
        ensures { result < bound }
    {
        self.state = self
            .state
            .wrapping_mul(1_664_525)
            .wrapping_add(1_013_904_223);
        (self.state >> 16) % bound
    }

    // None or one of the glues, one choice of so many.
    fn side(&mut self, choices: u32) -> Option<GlueId>
        requires { 0 < choices }
    {
        match self.below(choices) {
            0 => None,
            glue => Some(GlueId(glue - 1)),
        }
    }

    fn spot(&mut self) -> Spot {
        let x = self.below(SIDE) as i32;
        let y = self.below(SIDE) as i32;
        (x, y, self.below(TYPES.len() as u32))
    }
}

// What a random system may have.
#[derive(Clone, Copy)]
pub(crate) enum Kind {
    OneSeed,
    SeedsAndPairs,
}

pub(crate) fn random_system(
    alloc: Global,
    kind: Kind,
    numbers: &mut Numbers,
) -> Result<System, BuildStop> {
    let tau = match kind {
        Kind::OneSeed => 2,
        Kind::SeedsAndPairs => 1 + numbers.below(3),
    };
    let mut draft = SystemBuilder::make(alloc, tau)?;
    add_all(&mut draft, kind, numbers)?;
    draft.finish().map_err(|refused| refused.0)
}

fn add_all(draft: &mut SystemBuilder, kind: Kind, numbers: &mut Numbers) -> Result<(), BuildStop> {
    draft.area(AREA)?;
    match kind {
        Kind::OneSeed => add_sole_seed(draft, numbers),
        Kind::SeedsAndPairs => add_seeds_and_pairs(draft, numbers),
    }
}

// Three glues of strength 0, 1 and 2, and six types with any of them.
fn add_sole_seed(draft: &mut SystemBuilder, numbers: &mut Numbers) -> Result<(), BuildStop> {
    for (name, strength) in STRENGTHS {
        draft.glue(name, strength)?;
    }
    add_types(draft, STRENGTHS.len() as u32 + 1, numbers)?;
    draft.seed(START)
}

// Five glues and pairs of them, six types with any of them, and seeds of these.
fn add_seeds_and_pairs(draft: &mut SystemBuilder, numbers: &mut Numbers) -> Result<(), BuildStop> {
    add_glues(draft, numbers)?;
    add_pairs(draft, numbers)?;
    add_types(draft, GLUES.len() as u32 + 1, numbers)?;
    add_seeds(draft, numbers)
}

fn add_glues(draft: &mut SystemBuilder, numbers: &mut Numbers) -> Result<(), BuildStop> {
    for name in GLUES {
        draft.glue(name, numbers.below(3))?;
    }
    Ok(())
}

// Types whose sides are one of so many choices each.
fn add_types(
    draft: &mut SystemBuilder,
    choices: u32,
    numbers: &mut Numbers,
) -> Result<(), BuildStop>
    requires { 0 < choices }
{
    for name in TYPES {
        add_type(draft, name, choices, numbers)?;
    }
    Ok(())
}

fn add_type(
    draft: &mut SystemBuilder,
    name: &[u8],
    choices: u32,
    numbers: &mut Numbers,
) -> Result<(), BuildStop>
    requires { 0 < choices }
{
    let north = numbers.side(choices);
    let east = numbers.side(choices);
    let south = numbers.side(choices);
    let west = numbers.side(choices);
    draft.tile(name, [north, east, south, west])?;
    Ok(())
}

fn add_pairs(draft: &mut SystemBuilder, numbers: &mut Numbers) -> Result<(), BuildStop> {
    for _ in 0..numbers.below(9) {
        pair_some(draft, numbers)?;
    }
    Ok(())
}

// Pairs two glues, unless they are one or paired already.
fn pair_some(draft: &mut SystemBuilder, numbers: &mut Numbers) -> Result<(), BuildStop> {
    let first = GlueId(numbers.below(GLUES.len() as u32));
    let second = GlueId(numbers.below(GLUES.len() as u32));
    match draft.pair(first, second, numbers.below(4)) {
        Err(BuildStop::DoublePair) => Ok(()),
        added => added,
    }
}

fn add_seeds(draft: &mut SystemBuilder, numbers: &mut Numbers) -> Result<(), BuildStop> {
    for _ in 0..1 + numbers.below(4) {
        seed_some(draft, numbers)?;
    }
    Ok(())
}

// Adds a seed, unless there is one at its site.
fn seed_some(draft: &mut SystemBuilder, numbers: &mut Numbers) -> Result<(), BuildStop> {
    let (x, y, tile) = numbers.spot();
    let seed = Place {
        site: Site { x, y },
        tile: TypeId(tile),
    };
    match draft.seed_more(seed) {
        Err(BuildStop::DoubleSite) => Ok(()),
        added => added,
    }
}

// An assembly of at most eight tiles, held or not.
pub(crate) fn random_grid(
    alloc: Global,
    sys: &System,
    numbers: &mut Numbers,
) -> Result<Grid, NoMemory>
    ensures { IfOk result (λ grid. (grid.area ≡ sys.now.area) × Fits sys.now grid.tiles) }
{
    let mut spots = [(0, 0, 0); 8];
    for index in 0..spots.len() {
        spots[index] = numbers.spot();
    }
    grid_of(alloc, sys, &spots)
}
