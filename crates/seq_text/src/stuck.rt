// The line on an assembly that can't be put in order.
ghost use Rattle.std.specs.Prelude.{codes, decimal};
ghost use Rattle.tile_io.specs.Prints.{Prints};
ghost use Rattle.seq_text.specs.StuckLines.{stuck_line};

use itoa::Buffer;
use tile_io::{Failed, Sink, print_line};
use tile_system::Site;

/// Writes the `stuck` line of an assembly of which so many tiles can't be reached, the least site
/// of theirs being this one. It takes no memory.
pub fn print_stuck<K: Sink>(left: u32, least: Site, sink: &mut K) -> Result<(), Failed>
    ensures { Prints K.written K.faults sink.old sink.new result
        (stuck_line (decimal left) least) }
{
    let mut number = Buffer::new();
    let left = number.format(left).as_bytes();
    print_site(left, least, sink)
}

/// Writes the `stuck` line of an assembly that lacks a seed, the one of this site. It takes no
/// memory.
pub fn print_stuck_seed<K: Sink>(site: Site, sink: &mut K) -> Result<(), Failed>
    ensures { Prints K.written K.faults sink.old sink.new result (stuck_line (codes "seed") site) }
{
    print_site(b"seed", site, sink)
}

// Writes the line with its second word and a site.
fn print_site<K: Sink>(what: &[u8], site: Site, sink: &mut K) -> Result<(), Failed>
    ensures { Prints K.written K.faults sink.old sink.new result (stuck_line what.now site) }
{
    let mut x = Buffer::new();
    let mut y = Buffer::new();
    let x = x.format(site.x).as_bytes();
    let y = y.format(site.y).as_bytes();
    print_line(sink, b"stuck", &[what, x, y])
}
