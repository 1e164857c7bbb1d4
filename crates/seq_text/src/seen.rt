// The lines on what scouts are told.
ghost use Rattle.std.specs.Prelude.{All, Ok, Err};
ghost use Rattle.atam.specs.TileSystem.{TileSystem};
ghost use Rattle.tile_io.specs.Prints.{Prints};
ghost use Rattle.tile_io.specs.Chunks.{PassesOn};
ghost use Rattle.seq_text.specs.SeenLines.{seen_line, seen_lines, HasLine};

use atam::{CoreStop, Seen};
use itoa::Buffer;
use tile_io::{Chunk, Failed, Sink};
use tile_system::System;

/// Writes the line of each answer, in order. It takes no memory.
pub fn print_replies<K: Sink>(
    sys: &System,
    replies: &[Result<Seen, CoreStop>],
    sink: &mut K,
) -> Result<(), Failed>
    requires { All (HasLine sys.now) replies.now }
    ensures { Prints K.written K.faults sink.old sink.new result (seen_lines sys.now replies.now) }
{
    let mut chunk = Chunk::new();
    put_replies(sys, replies, &mut chunk, sink)?;
    chunk.flush(sink)
}

/// Writes the line of one answer. It takes no memory.
pub fn print_seen<K: Sink>(
    sys: &System,
    answer: &Result<Seen, CoreStop>,
    sink: &mut K,
) -> Result<(), Failed>
    requires { HasLine sys.now answer.now }
    ensures { Prints K.written K.faults sink.old sink.new result (seen_line sys.now answer.now) }
{
    let mut chunk = Chunk::new();
    put_seen(sys, answer, &mut chunk, sink)?;
    chunk.flush(sink)
}

// Adds the lines to what is held.
fn put_replies<K: Sink>(
    sys: &System,
    replies: &[Result<Seen, CoreStop>],
    chunk: &mut Chunk,
    sink: &mut K,
) -> Result<(), Failed>
    requires { All (HasLine sys.now) replies.now }
    ensures { PassesOn K.written K.faults sink.old sink.new chunk.old chunk.new result
        (seen_lines sys.now replies.now) }
{
    for reply in replies {
        put_seen(sys, reply, chunk, sink)?;
    }
    Ok(())
}

/// Adds the line of one answer to what is held. It takes no memory.
pub fn put_seen<K: Sink>(
    sys: &System,
    answer: &Result<Seen, CoreStop>,
    chunk: &mut Chunk,
    sink: &mut K,
) -> Result<(), Failed>
    requires { HasLine sys.now answer.now }
    ensures { PassesOn K.written K.faults sink.old sink.new chunk.old chunk.new result
        (seen_line sys.now answer.now) }
{
    match *answer {
        Ok(seen) => put_told(sys, seen, chunk, sink),
        Err(stop) => put_refusal(stop, chunk, sink),
    }
}

// Adds the line of what a scout is told.
fn put_told<K: Sink>(
    sys: &System,
    seen: Seen,
    chunk: &mut Chunk,
    sink: &mut K,
) -> Result<(), Failed>
    requires { HasLine sys.now (Ok seen) }
    ensures { PassesOn K.written K.faults sink.old sink.new chunk.old chunk.new result
        (seen_line sys.now (Ok seen)) }
{
    match seen {
        Seen::Saw(None) => chunk.put_line(sink, b"saw", &[b"-"]),
        Seen::Saw(Some(tile)) => chunk.put_line(sink, b"saw", &[sys.type_name(tile)]),
        Seen::Won => chunk.put_line(sink, b"won", &[]),
        Seen::Held(tile) => chunk.put_line(sink, b"held", &[sys.type_name(tile)]),
        Seen::Divided(name) => {
            let mut number = Buffer::new();
            chunk.put_line(sink, b"split", &[number.format(name).as_bytes()])
        }
        Seen::Joined(name) => {
            let mut number = Buffer::new();
            chunk.put_line(sink, b"joined", &[number.format(name).as_bytes()])
        }
    }
}

// Adds the line of a refusal.
fn put_refusal<K: Sink>(stop: CoreStop, chunk: &mut Chunk, sink: &mut K) -> Result<(), Failed>
    requires { (sys : TileSystem) × HasLine sys (Err stop) }
    ensures { (sys : TileSystem) → PassesOn K.written K.faults sink.old sink.new chunk.old chunk.new
        result (seen_line sys (Err stop)) }
{
    match stop {
        CoreStop::NoSuchScout => chunk.put_line(sink, b"refused", &[b"1"]),
        CoreStop::NotSupported { pull } => {
            let mut number = Buffer::new();
            chunk.put_line(sink, b"refused", &[b"2", number.format(pull).as_bytes()])
        }
        CoreStop::OutsideBox => chunk.put_line(sink, b"refused", &[b"3"]),
        CoreStop::NoNumberLeft => chunk.put_line(sink, b"refused", &[b"4"]),
        CoreStop::NoMemory => unreachable!(),
    }
}
