// The line on local determinism.
ghost use Rattle.std.specs.Prelude.{List, ℕ};
ghost use Rattle.atam.specs.TileSystem.{IsType, type_name};
ghost use Rattle.tile_io.specs.Prints.{Prints};
ghost use Rattle.tile_io.specs.Chunks.{PassesOn};
ghost use Rattle.atam.specs.declared.verdict.Verdict.TheVariants.{NotExact, Rival, NotTerminal};
ghost use Rattle.atam.specs.Verdicts.{NamesTypes};
ghost use Rattle.seq_text.specs.VerdictLines.{verdict_line, failed_line};

use atam::Verdict;
use itoa::Buffer;
use tile_io::{Chunk, Failed, Sink};
use tile_system::{Site, System};

/// Writes the `unique` line. It takes no memory.
pub fn print_verdict<K: Sink>(sys: &System, verdict: &Verdict, sink: &mut K) -> Result<(), Failed>
    requires { NamesTypes sys.now verdict.now }
    ensures { Prints K.written K.faults sink.old sink.new result
        (verdict_line sys.now verdict.now) }
{
    let mut chunk = Chunk::new();
    put_verdict(sys, verdict, &mut chunk, sink)?;
    chunk.flush(sink)
}

/// Adds the line to what is held. It takes no memory.
pub fn put_verdict<K: Sink>(
    sys: &System,
    verdict: &Verdict,
    chunk: &mut Chunk,
    sink: &mut K,
) -> Result<(), Failed>
    requires { NamesTypes sys.now verdict.now }
    ensures { PassesOn K.written K.faults sink.old sink.new chunk.old chunk.new result
        (verdict_line sys.now verdict.now) }
{
    match *verdict {
        Verdict::Yes => chunk.put_line(sink, b"unique", &[b"yes"]),
        Verdict::NotExact { site, sum } => {
            let mut number = Buffer::new();
            put_failed(b"1", site, number.format(sum).as_bytes(), chunk, sink)
        }
        Verdict::Rival { site, tile } => put_failed(b"2", site, sys.type_name(tile), chunk, sink),
        Verdict::NotTerminal { site, tile } => {
            put_failed(b"3", site, sys.type_name(tile), chunk, sink)
        }
    }
}

// Adds the line of a condition that fails, with its site and what fails there.
fn put_failed<K: Sink>(
    condition: &[u8],
    site: Site,
    what: &[u8],
    chunk: &mut Chunk,
    sink: &mut K,
) -> Result<(), Failed>
    ensures { PassesOn K.written K.faults sink.old sink.new chunk.old chunk.new result
        (failed_line condition.now site what.now) }
{
    let mut x = Buffer::new();
    let mut y = Buffer::new();
    let x = x.format(site.x).as_bytes();
    let y = y.format(site.y).as_bytes();
    chunk.put_line(sink, b"unique", &[b"no", condition, x, y, what])
}
