// The lines of a certificate.
ghost use Rattle.std.specs.Prelude.{◌≡◌, ◌<◌, ◌≤◌, ◌+◌, ◌++◌, All, length};
ghost use Rattle.atam.specs.TileSystem.{IsType};
ghost use Rattle.tile_io.specs.Chunks.{PassesOn};
ghost use Rattle.tile_io.specs.declared.chunk.TheConstants.{CHUNK_ROOM};
ghost use Rattle.tile_io.specs.Prints.{Prints};
ghost use Rattle.cert_check.specs.Certificates.{places_of};
ghost use Rattle.cert_text.specs.CertificateLines.{mark_line, mark_lines};

use crate::rank_text::RankText;
use crate::sides::sides_text;
use cert_check::{Certificate, Entry, EntryList};
use seq_text::{NumberTexts, hold_type_name};
use tile_io::{Chunk, Failed, Sink};
use tile_system::System;

// Room for a line: a keyword, two numbers of 32 bits, a name, a word of sides and a rank, behind
// each a space or the newline.
const LONGEST_MARK_LINE: usize = 96;

/// Writes the `mark` line of each entry, in order. It takes no memory.
pub fn print_certificate<K: Sink>(
    sys: &System,
    cert: &Certificate,
    sink: &mut K,
) -> Result<(), Failed>
    requires { All (λ p. IsType sys.now p.tile) (places_of cert.now) }
    ensures { Prints K.written K.faults sink.old sink.new result (mark_lines sys.now cert.now) }
{
    print_entries(sys, cert, sink)
}

/// The same of any list of entries, each of which may be made when it is asked for.
pub fn print_entries<C: EntryList, K: Sink>(
    sys: &System,
    cert: &C,
    sink: &mut K,
) -> Result<(), Failed>
    requires { All (λ p. IsType sys.now p.tile) (places_of (C.entries cert.now)) }
    ensures { Prints K.written K.faults sink.old sink.new result
        (mark_lines sys.now (C.entries cert.now)) }
{
    let mut chunk = Chunk::new();
    put_marks(sys, cert, &mut chunk, sink)?;
    chunk.flush(sink)
}

// Adds the lines to what is held.
fn put_marks<C: EntryList, K: Sink>(
    sys: &System,
    cert: &C,
    chunk: &mut Chunk,
    sink: &mut K,
) -> Result<(), Failed>
    requires { All (λ p. IsType sys.now p.tile) (places_of (C.entries cert.now)) }
    ensures { PassesOn K.written K.faults sink.old sink.new chunk.old chunk.new result
        (mark_lines sys.now (C.entries cert.now)) }
{
    // no entry states other sides than the four
    cert.recall_entries();
    let mut numbers = NumberTexts::new();
    let mut ranks = RankText::new(0);
    for index in 0..cert.len() {
        put_mark(sys, cert.get(index), &mut numbers, &mut ranks, chunk, sink)?;
    }
    Ok(())
}

// Adds the line of an entry.
fn put_mark<K: Sink>(
    sys: &System,
    entry: Entry,
    numbers: &mut NumberTexts,
    ranks: &mut RankText,
    chunk: &mut Chunk,
    sink: &mut K,
) -> Result<(), Failed>
    requires known { IsType sys.now entry.place.tile }
    requires sides { entry.sides < 16 }
    ensures { PassesOn K.written K.faults sink.old sink.new chunk.old chunk.new result
        (mark_line sys.now entry) }
{
    chunk.make_room(sink, LONGEST_MARK_LINE)?;
    hold_mark(sys, entry, numbers, ranks, chunk);
    Ok(())
}

// Adds the line of an entry, for which there is room.
fn hold_mark(
    sys: &System,
    entry: Entry,
    numbers: &mut NumberTexts,
    ranks: &mut RankText,
    chunk: &mut Chunk,
)
    requires known { IsType sys.now entry.place.tile }
    requires sides { entry.sides < 16 }
    requires room { length chunk.old + 96 ≤ CHUNK_ROOM }
    ensures { chunk.new ≡ chunk.old ++ mark_line sys.now entry }
{
    let Entry { place, sides, rank } = entry;
    let (sides, sides_len) = sides_text(sides);
    chunk.hold_front(b"mark    ", 5);
    numbers.hold(place.site.x, chunk);
    numbers.hold(place.site.y, chunk);
    hold_type_name(sys, place.tile, chunk);
    chunk.hold_front(b" ", 1);
    chunk.hold_front(sides, sides_len);
    ranks.hold(rank, chunk);
}
