// How many types interact with each glue, at most.
ghost use Rattle.std.specs.Prelude.{◌≡◌, ◌<◌, length, IfOk};
ghost use Rattle.atam.specs.TileSystem.{IsType};
ghost use Rattle.type_index.specs.Indexes.{AreGlueFacts};

use crate::glue_table::{GlueKind, GlueTable};
use std::alloc::Global;
use tile_system::{GlueId, GluePair, NoMemory, Side, System, TypeId};

// For each glue the number of sides of types that bear it or a glue that is paired with it.
pub(crate) fn reach_of(alloc: Global, sys: &System) -> Result<Vec<u32>, NoMemory>
    ensures { IfOk result (λ reach. length reach.items ≡ length sys.now.glues) }
{
    let bearers = bearers_of(alloc, sys)?;
    let mut reach = bearers.as_slice().to_vec(alloc)?;
    for pair in sys.pairs() {
        add_partners(&mut reach, &bearers, *pair);
    }
    Ok(reach)
}

// Adds to the number of each glue of a pair that of the other one.
#[inline(always)]
fn add_partners(reach: &mut Vec<u32>, bearers: &[u32], pair: GluePair)
    requires first { pair.first.0 < length reach.old.items }
    requires second { pair.second.0 < length reach.old.items }
    requires bearers { length bearers.now ≡ length reach.old.items }
    ensures { length reach.new.items ≡ length reach.old.items }
{
    let first = pair.first.0 as usize;
    let second = pair.second.0 as usize;
    reach[first] = reach[first].saturating_add(bearers[second]);
    reach[second] = reach[second].saturating_add(bearers[first]);
}

// For each glue that has lists the number of types that interact with it on a side, and 0 for each
// other one.
pub(crate) fn room_of(
    alloc: Global,
    sys: &System,
    side: Side,
    glues: &GlueTable,
) -> Result<Vec<u32>, NoMemory>
    requires { AreGlueFacts sys.now glues.now }
    ensures { IfOk result (λ room. length room.items ≡ length sys.now.glues) }
{
    let count = sys.glue_count();
    let bearers = bearers_on(alloc, sys, side)?;
    let mut room = Vec::from_elem(alloc, 0, count as usize)?;
    for number in 0..count {
        if glues.strength(sys, GlueId(number)) > 0 {
            room[number as usize] = bearers[number as usize];
        }
    }
    for pair in sys.pairs() {
        if pair.strength > 0 {
            add_partners(&mut room, &bearers, *pair);
        }
    }
    for number in 0..count {
        if glues.kind(sys, GlueId(number)) != GlueKind::Listed {
            room[number as usize] = 0;
        }
    }
    Ok(room)
}

// For each glue the number of types that bear it on a side.
fn bearers_on(alloc: Global, sys: &System, side: Side) -> Result<Vec<u32>, NoMemory>
    ensures { IfOk result (λ bearers. length bearers.items ≡ length sys.now.glues) }
{
    let mut bearers = Vec::from_elem(alloc, 0, sys.glue_count() as usize)?;
    for number in 0..sys.type_count() {
        count_bearer(&mut bearers, sys, TypeId(number), side);
    }
    Ok(bearers)
}

// For each glue the number of sides of types that bear it.
fn bearers_of(alloc: Global, sys: &System) -> Result<Vec<u32>, NoMemory>
    ensures { IfOk result (λ bearers. length bearers.items ≡ length sys.now.glues) }
{
    let mut bearers = Vec::from_elem(alloc, 0, sys.glue_count() as usize)?;
    for number in 0..sys.type_count() {
        let tile = TypeId(number);
        count_bearer(&mut bearers, sys, tile, Side::North);
        count_bearer(&mut bearers, sys, tile, Side::East);
        count_bearer(&mut bearers, sys, tile, Side::South);
        count_bearer(&mut bearers, sys, tile, Side::West);
    }
    Ok(bearers)
}

// Counts the side of a type, where it bears a glue.
fn count_bearer(bearers: &mut Vec<u32>, sys: &System, tile: TypeId, side: Side)
    requires kind { IsType sys.now tile }
    requires count { length bearers.old.items ≡ length sys.now.glues }
    ensures { length bearers.new.items ≡ length sys.now.glues }
{
    if let Some(GlueId(glue)) = sys.side(tile, side) {
        bearers[glue as usize] = bearers[glue as usize].saturating_add(1);
    }
}
