// The legend of a picture.
ghost use Rattle.std.specs.Prelude.{◌≡◌, ℕ, ◌<◌, ◌||◌, length, true, false, All};
ghost use Rattle.std.specs.List.{slice_index_or};
ghost use Rattle.atam.specs.TileSystem.{IsType};
ghost use Rattle.tile_io.specs.Chunks.{PassesOn};
ghost use Rattle.picture.specs.Pictures.{is_standing, legend};
ghost use Rattle.picture.specs.Inner.Entries.{entry, is_of};

use crate::characters::type_character;
use assembly::{Grid, site_of_index};
use atam::TypeId;
use tile_io::{Chunk, Failed, Sink};
use tile_system::{Placed, System};

/// Adds a line for each type of index 0 to 61 that stands in the grid.
pub(crate) fn put_legend<K: Sink>(
    sys: &System,
    grid: &Grid,
    chunk: &mut Chunk,
    sink: &mut K,
) -> Result<(), Failed>
    requires { All (λ p. IsType sys.now p.tile) grid.now.tiles }
    ensures { PassesOn K.written K.faults sink.old sink.new chunk.old chunk.new result
        (legend sys.now grid.now.tiles) }
{
    let standing = standing_types(grid);
    for index in 0..62u32 {
        put_entry(sys, TypeId(index), standing[index as usize], chunk, sink)?;
    }
    Ok(())
}

// Which of the types of index 0 to 61 stand in the grid.
fn standing_types(grid: &Grid) -> [bool; 62]
    ensures { (t : ℕ) → t < 62
        → slice_index_or result t false ≡ is_standing grid.now.tiles t }
{
    let mut standing = [false; 62];
    let area = grid.area();
    let count = area.width() as usize * area.height() as usize;
    for index in 0..count {
        mark(&mut standing, grid.at(site_of_index(&area, index)));
    }
    standing
}

// Marks a type that has a mark.
fn mark(marks: &mut [bool], tile: Option<TypeId>)
    ensures length { length marks.new ≡ length marks.old }
    ensures marked { (t : ℕ) → t < length marks.old → slice_index_or marks.new t false
        ≡ (slice_index_or marks.old t false || is_of tile t) }
{
    if let Some(tile) = tile {
        if (tile.0 as usize) < marks.len() {
            marks[tile.0 as usize] = true;
        }
    }
}

// Adds the line of a type, if it stands.
fn put_entry<K: Sink>(
    sys: &System,
    tile: TypeId,
    is_standing: bool,
    chunk: &mut Chunk,
    sink: &mut K,
) -> Result<(), Failed>
    requires { is_standing ≡ true → IsType sys.now tile }
    ensures { PassesOn K.written K.faults sink.old sink.new chunk.old chunk.new result
        (entry sys.now is_standing tile) }
{
    if !is_standing {
        return chunk.put(sink, b"");
    }
    chunk.put_line(sink, &[type_character(tile)], &[sys.type_name(tile)])
}
