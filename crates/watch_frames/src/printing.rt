// The lines of frames.
ghost use Rattle.std.specs.Prelude.{◌≡◌, ◌≤◌, All, length, drop, take};
ghost use Rattle.atam.specs.TileSystem.{IsType};
ghost use Rattle.tile_io.specs.Chunks.{PassesOn};
ghost use Rattle.tile_io.specs.Prints.{Prints};
ghost use Rattle.seq_text.specs.GrowthLines.{place_lines};
ghost use Rattle.watch_frames.specs.FrameText.{frame_lines, frames_text};
ghost use Rattle.watch_frames.specs.Inner.Spans.{span_lines};

use crate::Frames;
use itoa::Buffer;
use seq_text::PlacePieces;
use tile_io::{Chunk, Failed, Sink};
use tile_system::System;

// A frame: its number from 1, how many places were told of before, and how many it has.
#[derive(Clone, Copy)]
struct FrameSpan {
    number: u32,
    before: u32,
    count: u32,
}

/// Writes for each frame its line and the `place` lines of the places that it adds, and then the
/// line `grown`. It takes no memory.
pub fn print_frames<K: Sink>(sys: &System, frames: &Frames, sink: &mut K) -> Result<(), Failed>
    requires { All (λ p. IsType sys.now p.tile) frames.now.places }
    ensures { Prints K.written K.faults sink.old sink.new result
        (frames_text sys.now frames.now.places frames.now.counts) }
{
    let mut pieces = PlacePieces::new(sys);
    let mut chunk = Chunk::new();
    put_frames(frames, &mut pieces, &mut chunk, sink)?;
    chunk.put_line(sink, b"grown", &[])?;
    chunk.flush(sink)
}

// Adds the lines of all frames.
fn put_frames<K: Sink>(
    frames: &Frames,
    pieces: &mut PlacePieces,
    chunk: &mut Chunk,
    sink: &mut K,
) -> Result<(), Failed>
    requires { All (λ p. IsType pieces.old p.tile) frames.now.places }
    ensures { PassesOn K.written K.faults sink.old sink.new chunk.old chunk.new result
        (frame_lines pieces.old frames.now.places 1 0 frames.now.counts) }
{
    let mut before = 0;
    for index in 0..frames.taken() {
        let count = frames.count(index);
        let number = index + 1;
        let span = FrameSpan {
            number,
            before,
            count,
        };
        put_frame(frames, span, pieces, chunk, sink)?;
        before = count;
    }
    Ok(())
}

// Adds the lines of one frame.
fn put_frame<K: Sink>(
    frames: &Frames,
    span: FrameSpan,
    pieces: &mut PlacePieces,
    chunk: &mut Chunk,
    sink: &mut K,
) -> Result<(), Failed>
    requires types { All (λ p. IsType pieces.old p.tile) frames.now.places }
    requires within { span.count ≤ length frames.now.places }
    ensures same { pieces.new ≡ pieces.old }
    ensures passes { PassesOn K.written K.faults sink.old sink.new chunk.old chunk.new result
        (span_lines pieces.old frames.now.places span) }
{
    let mut first = Buffer::new();
    let mut second = Buffer::new();
    let number = first.format(span.number).as_bytes();
    let many = second.format(span.count).as_bytes();
    chunk.put_line(sink, b"frame", &[number, many])?;
    put_added(frames, span.before, span.count, pieces, chunk, sink)
}

// Adds the lines of the places from one number to before another.
fn put_added<K: Sink>(
    frames: &Frames,
    before: u32,
    count: u32,
    pieces: &mut PlacePieces,
    chunk: &mut Chunk,
    sink: &mut K,
) -> Result<(), Failed>
    requires types { All (λ p. IsType pieces.old p.tile) frames.now.places }
    requires within { count ≤ length frames.now.places }
    ensures same { pieces.new ≡ pieces.old }
    ensures passes { PassesOn K.written K.faults sink.old sink.new chunk.old chunk.new result
        (place_lines pieces.old (drop before (take count frames.now.places))) }
{
    for j in before..count {
        pieces.put(frames.place(j), chunk, sink)?;
    }
    Ok(())
}
