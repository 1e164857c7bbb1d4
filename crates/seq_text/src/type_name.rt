// A type's name in a line.
ghost use Rattle.std.specs.Prelude.{◌≡◌, ◌≤◌, ◌+◌, ◌++◌, length};
ghost use Rattle.atam.specs.TileSystem.{IsType, type_name};
ghost use Rattle.tile_io.specs.declared.chunk.TheConstants.{CHUNK_ROOM};

use tile_io::Chunk;
use tile_system::{System, TypeId};

/// Adds a type's name, for which there is room, to what is held. A short one is copied at once.
#[inline(always)]
pub fn hold_type_name(sys: &System, tile: TypeId, chunk: &mut Chunk)
    requires known { IsType sys.now tile }
    requires room { length chunk.old + 40 ≤ CHUNK_ROOM }
    ensures bytes { chunk.new ≡ chunk.old ++ type_name sys.now tile }
    ensures len { length chunk.new ≤ length chunk.old + 40 }
{
    // a name has up to forty bytes
    sys.recall_valid();
    match sys.type_name_front(tile) {
        Some((front, len)) => chunk.hold_front(front, len),
        None => chunk.hold(sys.type_name(tile)),
    }
}
