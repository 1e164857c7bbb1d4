// The sides of a tile on which it comes clean, whatever stands beside the others.
ghost use Rattle.std.specs.Prelude.{◌≡◌, ◌⊎◌, ◌<◌, length, Option, Some, IsTrue};
ghost use Rattle.atam.specs.declared.place.GlueId.{GlueId};
ghost use Rattle.atam.specs.TileSystem.{IsType};
ghost use Rattle.atam.specs.Assembly.{interaction};
ghost use Rattle.type_index.specs.Sums.{SumsUpHeld};
ghost use Rattle.type_index.specs.Indexes.{IsIndexOf};
ghost use Rattle.type_cache.specs.Clean.{AreSettled, IsDead};
ghost use Rattle.type_cache.specs.Findings.{SettleSides};

use crate::SideSet;
use attach_rule::{FacingGlues, Strengths};
use tile_system::{GlueId, Side, System, TypeId};
use type_index::{Found, TypeIndex};

// The sides that are settled of the one type that these glues hold, if they hold it by exactly the
// temperature; no side where they hold others too.
pub(crate) fn settled_alone(
    sys: &System,
    index: &TypeIndex,
    glues: &FacingGlues,
    found: &Found,
) -> SideSet
    requires index { IsIndexOf sys.now index.now }
    requires found { SumsUpHeld sys.now glues.now found.now }
    ensures { SettleSides sys.now glues.now result }
{
    let Some(tile) = found.first else {
        return SideSet::NONE;
    };
    let bonds = index.bonds(sys, glues, tile);
    if found.other_than(tile).is_some() || bonds.sum() != sys.tau() {
        return SideSet::NONE;
    }
    settled_sides(sys, tile, &bonds)
}

/// The sides of a tile of this type that have a strength, or of which it is clear that no type
/// interacts with them.
pub fn settled_sides(sys: &System, tile: TypeId, bonds: &Strengths) -> SideSet
    requires { IsType sys.now tile }
    ensures { AreSettled sys.now tile bonds.now result }
{
    SideSet::of(
        is_settled(sys, tile, Side::North, bonds.north),
        is_settled(sys, tile, Side::East, bonds.east),
        is_settled(sys, tile, Side::South, bonds.south),
        is_settled(sys, tile, Side::West, bonds.west),
    )
}

// Whether a side has a strength, or it is clear that it is dead.
fn is_settled(sys: &System, tile: TypeId, side: Side, strength: u32) -> bool
    requires { IsType sys.now tile }
    ensures { IsTrue result → (0 < strength) ⊎ IsDead sys.now tile side }
{
    if strength > 0 {
        return true;
    }
    is_dead(sys, tile, side)
}

// Whether it is clear that no type interacts with the side.
fn is_dead(sys: &System, tile: TypeId, side: Side) -> bool
    requires { IsType sys.now tile }
    ensures { IsTrue result → IsDead sys.now tile side }
{
    match sys.side(tile, side) {
        None => true,
        Some(glue) => is_weak(sys, glue),
    }
}

// Whether it is clear that no glue interacts with this one. Where there are pairs, none is looked
// at.
fn is_weak(sys: &System, glue: GlueId) -> bool
    requires { glue.0 < length sys.now.glues }
    ensures { IsTrue result → (own : Option GlueId) → interaction sys.now own (Some glue) ≡ 0 }
{
    if sys.pair_count() > 0 {
        return false;
    }
    sys.between(glue, glue) == 0
}
