// A grid is printed as its picture.
ghost use Rattle.std.specs.Prelude.{◌<◌, All, flat_map, reverse, map};
ghost use Rattle.atam.specs.Sites.{HasCorners, height_of, width_of, site_in};
ghost use Rattle.atam.specs.TileSystem.{IsType};
ghost use Rattle.tile_io.specs.Chunks.{PassesOn};
ghost use Rattle.tile_io.specs.Prints.{Prints};
ghost use Rattle.picture.specs.Pictures.{head_line, picture_text, row_line, site_character};
ghost use Rattle.std.specs.List.{range_with_len};

use crate::characters::site_character;
use crate::legend::put_legend;
use assembly::Grid;
use atam::BoxArea;
use itoa::Buffer;
use tile_io::{Chunk, Failed, Sink};
use tile_system::System;

/// Prints the picture of a grid: its size, a legend, and a character for each site. It takes no
/// memory.
pub fn print_picture<K: Sink>(sys: &System, grid: &Grid, sink: &mut K) -> Result<(), Failed>
    requires { All (λ p. IsType sys.now p.tile) grid.now.tiles }
    ensures { Prints K.written K.faults sink.old sink.new result (picture_text sys.now grid.now) }
{
    let mut chunk = Chunk::new();
    put_picture(sys, grid, &mut chunk, sink)?;
    chunk.flush(sink)
}

fn put_picture<K: Sink>(
    sys: &System,
    grid: &Grid,
    chunk: &mut Chunk,
    sink: &mut K,
) -> Result<(), Failed>
    requires { All (λ p. IsType sys.now p.tile) grid.now.tiles }
    ensures { PassesOn K.written K.faults sink.old sink.new chunk.old chunk.new result
        (picture_text sys.now grid.now) }
{
    put_head(grid.area(), chunk, sink)?;
    put_legend(sys, grid, chunk, sink)?;
    put_rows(grid, chunk, sink)
}

// Adds the line with the size.
fn put_head<K: Sink>(area: BoxArea, chunk: &mut Chunk, sink: &mut K) -> Result<(), Failed>
    requires { HasCorners area }
    ensures { PassesOn K.written K.faults sink.old sink.new chunk.old chunk.new result
        (head_line area) }
{
    let mut width = Buffer::new();
    let mut height = Buffer::new();
    let width = width.format(area.width()).as_bytes();
    let height = height.format(area.height()).as_bytes();
    chunk.put_line(sink, b"picture", &[width, height])
}

// Adds the rows, from the highest on.
fn put_rows<K: Sink>(grid: &Grid, chunk: &mut Chunk, sink: &mut K) -> Result<(), Failed>
    ensures { PassesOn K.written K.faults sink.old sink.new chunk.old chunk.new result
        (flat_map (row_line grid.now) (reverse (range_with_len 0 (height_of grid.now.area)))) }
{
    let height = grid.area().height();
    for index in 0..height {
        put_row(grid, height - 1 - index, chunk, sink)?;
    }
    Ok(())
}

// Adds the sites of a row and a newline.
fn put_row<K: Sink>(grid: &Grid, row: u32, chunk: &mut Chunk, sink: &mut K) -> Result<(), Failed>
    requires { row < height_of grid.now.area }
    ensures { PassesOn K.written K.faults sink.old sink.new chunk.old chunk.new result
        (row_line grid.now row) }
{
    put_sites(grid, row, chunk, sink)?;
    chunk.put(sink, b"\n")
}

// Adds the sites of a row, from the west.
fn put_sites<K: Sink>(grid: &Grid, row: u32, chunk: &mut Chunk, sink: &mut K) -> Result<(), Failed>
    requires { row < height_of grid.now.area }
    ensures { PassesOn K.written K.faults sink.old sink.new chunk.old chunk.new result
        (map (λ column. site_character grid.now.tiles (site_in grid.now.area column row))
        (range_with_len 0 (width_of grid.now.area))) }
{
    let area = grid.area();
    for column in 0..area.width() {
        chunk.put(sink, &[site_character(grid, area.site(column, row))])?;
    }
    Ok(())
}
