// Types that were found by their names.
ghost use Rattle.std.specs.Prelude.{◌≡◌, ◌≢◌, ◌<◌, IsTrue, IfSome, IfNone, option_map, All};
ghost use Rattle.atam.specs.TileSystem.{IsType, type_name};
ghost use Rattle.tile_system.specs.Names.{type_named};

use tile_system::{System, TypeId, is_same_name};

// Of so many types hardly a line finds its own kept, so that it costs more than it saves.
const MANY_TYPES: u32 = 4096;

// Spreads two bytes over the upper half of their product.
const SPREAD: u16 = 0x71b;

/// The types that were last found, for a text whose lines name few types. A type has a place by the
/// last three bytes of its name, and is found there by one comparison of names. Where a system has
/// very many types, nothing is kept.
#[derive(Drop)]
pub struct FoundTypes {
    kept: [TypeId; 256],
}

impl FoundTypes {
    pub fn new() -> FoundTypes {
        FoundTypes {
            kept: [TypeId(0); 256],
        }
    }

    /// The type with this name, as `System::find_type` gives it, which is asked where the name is
    /// not that of the type at its place. What was found in another system does no harm.
    #[inline(always)]
    pub fn find(&mut self, sys: &System, name: &[u8]) -> Option<TypeId>
        ensures index { option_map (λ tile. tile.0) result ≡ type_named sys.now.types name.now }
        ensures in_range { IfSome result (IsType sys.now) }
        ensures named { IfSome result (λ tile. type_name sys.now tile ≡ name.now) }
        ensures absent { IfNone result (All (λ tile. tile.name ≢ name.now) sys.now.types) }
    {
        if sys.type_count() >= MANY_TYPES {
            return sys.find_type(name);
        }
        // names of types are distinct
        sys.recall_valid();
        let place = place_of(name);
        let kept = self.kept[place];
        if has_name(sys, kept, name) {
            return Some(kept);
        }
        let found = sys.find_type(name);
        if let Some(tile) = found {
            self.kept[place] = tile;
        }
        found
    }
}

// By the last three bytes: the names that programs give differ most there.
#[inline(always)]
fn place_of(name: &[u8]) -> usize
    ensures { result < 256 }
{
    match name {
        [.., third, before, last] => {
            let pair = u16::from_le_bytes([*third, *before]).wrapping_mul(SPREAD);
            usize::from(((pair >> 8) as u8).wrapping_add(*last))
        }
        [.., last] => usize::from(*last),
        [] => 0,
    }
}

// Whether this is a type of the system, and has this name.
#[inline(always)]
fn has_name(sys: &System, tile: TypeId, name: &[u8]) -> bool
    ensures known { IsTrue result → IsType sys.now tile }
    ensures named { IsTrue result → type_name sys.now tile ≡ name.now }
{
    tile.0 < sys.type_count() && is_same_name(sys.type_name(tile), name)
}
