// A system with two seeds and a pair of unlike glues, built.
use crate::random::AREA;
use std::alloc::Global;
use std::test::Fail;
use tile_system::{BuildStop, GlueId, Place, Site, System, SystemBuilder, TypeId};

const A: GlueId = GlueId(0);

const B: GlueId = GlueId(1);

const LEFT: Place = Place {
    site: Site { x: 0, y: 0 },
    tile: TypeId(0),
};

const RIGHT: Place = Place {
    site: Site { x: 1, y: 0 },
    tile: TypeId(1),
};

// Two glues that interact with one another and not with themselves, and a type with each.
fn add_types(draft: &mut SystemBuilder) -> Result<(), BuildStop> {
    for name in [b"a", b"b"] {
        draft.glue(name, 0)?;
    }
    draft.pair(B, A, 3)?;
    draft.tile(b"L", [None, Some(A), None, None])?;
    draft.tile(b"R", [None, None, None, Some(B)])?;
    Ok(())
}

// The types, and two seeds, the right one first.
fn add_all(draft: &mut SystemBuilder) -> Result<(), BuildStop> {
    add_types(draft)?;
    draft.area(AREA)?;
    draft.seed_more(RIGHT)?;
    draft.seed_more(LEFT)
}

fn couple(alloc: Global) -> Result<System, BuildStop> {
    let mut draft = SystemBuilder::make(alloc, 1)?;
    add_all(&mut draft)?;
    draft.finish().map_err(|refused| refused.0)
}

// Whether the pair is kept as it was given.
fn has_pair(system: &System) -> bool {
    system.pair_count() == 1 && system.pair_at(0) == (B, A, 3)
}

// Whether the glues interact with one another, either way round, and not with themselves.
fn has_strengths(system: &System) -> bool {
    system.glue_count() == 2
        && system.between(A, B) == 3
        && system.between(B, A) == 3
        && system.between(A, A) == 0
}

// Whether the seeds are kept in their order.
fn has_seeds(system: &System) -> bool {
    system.seed_count() == 2
        && system.seed_at(0) == system.seed()
        && system.seed() == RIGHT
        && system.seed_at(1) == LEFT
}

#[test]
fn builds_a_couple(rt: HostRuntime) -> Result<(), Fail> {
    let system = couple(rt.alloc())?;
    assert!(rt; has_pair(&system));
    assert!(rt; has_strengths(&system));
    assert!(rt; has_seeds(&system));
    Ok(())
}
