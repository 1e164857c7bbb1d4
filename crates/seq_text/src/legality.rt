// The line on the legality of a sequence.
ghost use Rattle.tile_io.specs.Prints.{Prints};
ghost use Rattle.atam.specs.declared.legality.Legality.TheVariants.{SiteTaken, TooWeak};
ghost use Rattle.seq_text.specs.LegalityLines.{legality_line};

use atam::Legality;
use itoa::Buffer;
use tile_io::{Failed, Sink, print_line};

/// Writes the `legal` line. It takes no memory.
pub fn print_legality<K: Sink>(legality: &Legality, sink: &mut K) -> Result<(), Failed>
    ensures { Prints K.written K.faults sink.old sink.new result (legality_line legality.now) }
{
    match *legality {
        Legality::Legal => print_line(sink, b"legal", &[b"yes"]),
        Legality::WrongSeed => print_line(sink, b"legal", &[b"no", b"1"]),
        Legality::SiteTaken { index } => print_taken(index, sink),
        Legality::TooWeak { index, pull } => print_weak(index, pull, sink),
    }
}

// Writes the line of a place whose site is taken.
fn print_taken<K: Sink>(index: u32, sink: &mut K) -> Result<(), Failed>
    ensures { Prints K.written K.faults sink.old sink.new result (legality_line (SiteTaken index)) }
{
    let mut number = Buffer::new();
    let index = number.format(index).as_bytes();
    print_line(sink, b"legal", &[b"no", b"2", index])
}

// Writes the line of a place that is held too weakly.
fn print_weak<K: Sink>(index: u32, pull: u32, sink: &mut K) -> Result<(), Failed>
    ensures { Prints K.written K.faults sink.old sink.new result
        (legality_line (TooWeak index pull)) }
{
    let mut number = Buffer::new();
    let mut strength = Buffer::new();
    let index = number.format(index).as_bytes();
    let pull = strength.format(pull).as_bytes();
    print_line(sink, b"legal", &[b"no", b"3", index, pull])
}
