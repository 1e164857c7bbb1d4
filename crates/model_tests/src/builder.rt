// A system built item by item.
use std::alloc::Global;
use std::test::Fail;
use tile_system::{BoxArea, BuildStop, GlueId, Place, Side, Site, System, SystemBuilder, TypeId};

const ROW: BoxArea = BoxArea {
    x0: 0,
    y0: 0,
    x1: 2,
    y1: 0,
};

const START: Place = Place {
    site: Site { x: 0, y: 0 },
    tile: TypeId(0),
};

const A: Option<GlueId> = Some(GlueId(0));

const B: Option<GlueId> = Some(GlueId(1));

// Three tiles in a row, each held by the one to its west.
const TYPES: [(&[u8], [Option<GlueId>; 4]); 3] = [
    (b"S", [None, A, None, None]),
    (b"B", [None, B, None, A]),
    (b"C", [None, None, None, B]),
];

fn add_all(draft: &mut SystemBuilder) -> Result<(), BuildStop> {
    for name in [b"a", b"b"] {
        draft.glue(name, 2)?;
    }
    for (name, sides) in TYPES {
        draft.tile(name, sides)?;
    }
    draft.area(ROW)?;
    draft.seed(START)
}

fn chain(alloc: Global) -> Result<System, BuildStop> {
    let mut draft = SystemBuilder::make(alloc, 2)?;
    add_all(&mut draft)?;
    draft.finish().map_err(|refused| refused.0)
}

// The glue on a side of the type with this name, by its name.
fn glue_on<'a>(system: &'a System, tile: &[u8], side: Side) -> Option<&'a [u8]> {
    let glue = system.side(system.find_type(tile)?, side)?;
    Some(system.glue_name(glue))
}

// Whether each glue is on its sides.
fn has_glues(system: &System) -> bool {
    let (a, b) = (Some(b"a".as_slice()), Some(b"b".as_slice()));
    glue_on(system, b"S", Side::East) == a
        && glue_on(system, b"B", Side::West) == a
        && glue_on(system, b"B", Side::East) == b
        && glue_on(system, b"C", Side::North) == None
}

// Whether names are found, each in its own list.
fn has_names(system: &System) -> bool {
    system.find_type(b"S") == Some(TypeId(0))
        && system.find_type(b"C") == Some(TypeId(2))
        && system.find_type(b"a") == None
        && system.find_glue(b"b") == Some(GlueId(1))
        && system.find_glue(b"c") == None
}

#[test]
fn builds_a_chain(rt: HostRuntime) -> Result<(), Fail> {
    let system = chain(rt.alloc())?;
    assert!(rt; system.tau() == 2 && system.glue_count() == 2 && system.type_count() == 3);
    assert!(rt; system.area() == ROW && system.seed() == START);
    assert!(rt; has_names(&system));
    assert!(rt; has_glues(&system));
    Ok(())
}

const NO_TYPE: Place = Place {
    site: Site { x: 1, y: 0 },
    tile: TypeId(3),
};

// Another type at the first seed's site.
const TWICE: Place = Place {
    site: Site { x: 0, y: 0 },
    tile: TypeId(1),
};

// A chain's draft with its seed.
fn draft(alloc: Global) -> Result<SystemBuilder, BuildStop> {
    let mut draft = SystemBuilder::make(alloc, 2)?;
    add_all(&mut draft)?;
    Ok(draft)
}

#[test]
fn refuses_a_further_seed(rt: HostRuntime) -> Result<(), Fail> {
    let mut draft = draft(rt.alloc())?;
    assert!(rt; draft.seed_more(NO_TYPE).err() == Some(BuildStop::UnknownType));
    assert!(rt; draft.seed_more(START).err() == Some(BuildStop::DoubleSite));
    assert!(rt; draft.seed_more(TWICE).err() == Some(BuildStop::DoubleSite));
    for row in 1..4096i32 {
        let site = Site { x: 0, y: row };
        draft.seed_more(Place { site, ..START })?;
    }
    assert!(rt; draft.seed_more(NO_TYPE).err() == Some(BuildStop::TooMany));
    Ok(())
}

// Two glues, a strength, and what refuses them as a pair of a draft that has the pair of 0 and 1.
const PAIRS: [(u32, u32, u32, BuildStop); 6] = [
    (2, 0, 251, BuildStop::UnknownGlue),
    (0, 2, 1, BuildStop::UnknownGlue),
    (0, 0, 251, BuildStop::DoublePair),
    (0, 1, 1, BuildStop::DoublePair),
    (1, 0, 251, BuildStop::DoublePair),
    (1, 3, 1, BuildStop::UnknownGlue),
];

#[test]
fn refuses_a_pair(rt: HostRuntime) -> Result<(), Fail> {
    let mut draft = draft(rt.alloc())?;
    let (first, second) = (GlueId(0), GlueId(1));
    assert!(rt; draft.pair(first, second, 251).err() == Some(BuildStop::OutOfRange));
    draft.pair(first, second, 250)?;
    for (first, second, strength, stop) in PAIRS {
        let refused = draft.pair(GlueId(first), GlueId(second), strength).err();
        assert!(rt; refused == Some(stop));
    }
    Ok(())
}

// Each of so many glues with those before it, until a pair is refused: how many there are then.
fn paired(draft: &mut SystemBuilder, glues: u32) -> Result<u32, BuildStop> {
    let mut pairs = 0u32;
    for first in 0..glues {
        for second in 0..first {
            match draft.pair(GlueId(first), GlueId(second), 0) {
                Ok(()) => pairs = pairs.saturating_add(1),
                Err(BuildStop::TooMany) => return Ok(pairs),
                Err(stop) => return Err(stop),
            }
        }
    }
    Ok(pairs)
}

#[test]
fn takes_no_more_pairs_than_the_limit(rt: HostRuntime) -> Result<(), Fail> {
    let alloc = rt.alloc();
    let mut draft = SystemBuilder::make(alloc, 1)?;
    for glue in 0..363u32 {
        draft.glue(format!(in alloc; "g{glue}")?.as_bytes(), 0)?;
    }
    assert_eq!(rt; paired(&mut draft, 363)?, 65536);
    Ok(())
}
