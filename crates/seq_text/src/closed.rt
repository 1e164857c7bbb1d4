// The last line of a growth.
ghost use Rattle.std.specs.Prelude.{IfSome, Some};
ghost use Rattle.atam.specs.TileSystem.{IsType};
ghost use Rattle.tile_io.specs.Prints.{Prints};
ghost use Rattle.tile_io.specs.Chunks.{PassesOn};
ghost use Rattle.seq_text.specs.GrowthLines.{closed_line};

use itoa::Buffer;
use tile_io::{Chunk, Failed, Sink};
use tile_system::{Site, System, TypeId};

/// Writes the `closed` line for what is open outside the box. It takes no memory.
pub fn print_closed<K: Sink>(
    sys: &System,
    found: Option<(Site, TypeId)>,
    sink: &mut K,
) -> Result<(), Failed>
    requires { IfSome found (λ open_site. IsType sys.now open_site.1) }
    ensures { Prints K.written K.faults sink.old sink.new result (closed_line sys.now found) }
{
    let mut chunk = Chunk::new();
    put_closed(sys, found, &mut chunk, sink)?;
    chunk.flush(sink)
}

/// Adds the line to what is held. It takes no memory.
pub fn put_closed<K: Sink>(
    sys: &System,
    found: Option<(Site, TypeId)>,
    chunk: &mut Chunk,
    sink: &mut K,
) -> Result<(), Failed>
    requires { IfSome found (λ open_site. IsType sys.now open_site.1) }
    ensures { PassesOn K.written K.faults sink.old sink.new chunk.old chunk.new result
        (closed_line sys.now found) }
{
    match found {
        Some((site, tile)) => put_clipped(sys, site, tile, chunk, sink),
        None => chunk.put_line(sink, b"closed", &[b"terminal"]),
    }
}

// Adds the line of an open site.
fn put_clipped<K: Sink>(
    sys: &System,
    site: Site,
    tile: TypeId,
    chunk: &mut Chunk,
    sink: &mut K,
) -> Result<(), Failed>
    requires { IsType sys.now tile }
    ensures { PassesOn K.written K.faults sink.old sink.new chunk.old chunk.new result
        (closed_line sys.now (Some (site, tile))) }
{
    let mut x = Buffer::new();
    let mut y = Buffer::new();
    let x = x.format(site.x).as_bytes();
    let y = y.format(site.y).as_bytes();
    chunk.put_line(sink, b"closed", &[b"clipped", x, y, sys.type_name(tile)])
}
