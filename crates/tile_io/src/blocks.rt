// A text that comes from a source in blocks.
ghost use Rattle.std.specs.Prelude.{◌≡◌, ◌≤◌, ◌+◌, ◌^◌, ◌++◌, ℕ, true, List, [], length, take, drop};
ghost use Rattle.std.specs.Io.KnownBytes.{IsAtEnd};
ghost use Rattle.tile_io.specs.declared.mark.Mark.{Mark};
ghost use Rattle.tile_io.specs.Blocks.{Begins, Completes, ReadsInBlocks};
ghost use Rattle.tile_io.specs.Checks.{table_format};
ghost use Rattle.tile_io.specs.LineReader.{ReadsInto};
ghost use Rattle.tile_io.specs.NextLine.{IsMark};
ghost use Rattle.tile_io.specs.Inner.Blocks.{ReadsBlock, PassesRest, IsEnded};
ghost use Rattle.tile_io.specs.Inner.Stops.{IsStopBelow, stop_after};

use crate::fault::{Cause, TextFault, TextStop};
use crate::limits::MOST_INPUT;
use crate::line_reader::LineReader;
use crate::mark::Mark;
use crate::outside::Source;
use crate::stretch::{Stretch, read_last_lines, read_lines};
use crate::whole::{ReadStop, read_on};
use crate::whole_text::read_text;
use memchr::memrchr;
use std::alloc::Global;

/// How many bytes of a text are read before their lines are taken: 1 MiB.
pub const BLOCK: usize = 1_048_576;

/// Why a text that comes from a source was not read.
#[derive(Clone, Copy, Debug, PartialEq, Eq)]
pub enum InputStop {
    /// It did not come whole, or there was no memory.
    Unread(ReadStop),
    /// Its first fault.
    Refused(TextFault),
}

/// The first bytes of a text that comes from a source, and whether they are all of it.
#[derive(Drop)]
pub struct Begun {
    pub text: Vec<u8>,
    pub is_whole: bool,
}

impl From<ReadStop> for InputStop {
    ghost use Rattle.tile_io.specs.declared.blocks.InputStop.TheVariants.{Unread};

    ghost from_gives = { λ read stop. stop ≡ Unread read };

    fn from(read: ReadStop) -> InputStop {
        InputStop::Unread(read)
    }
}

impl From<TextStop> for InputStop {
    ghost use Rattle.tile_io.specs.Blocks.{stop_of_text};

    ghost from_gives = { λ text stop. stop ≡ stop_of_text text };

    fn from(text: TextStop) -> InputStop {
        match text {
            TextStop::Fault(fault) => InputStop::Refused(fault),
            TextStop::NoMemory => InputStop::Unread(ReadStop::NoMemory),
        }
    }
}

/// Begins a text with the first block of what is left of a source, or with all of it where that is
/// less: then the source has said that it is at its end, and need not be asked again.
pub fn begin_text<S: Source>(alloc: Global, source: &mut S) -> Result<Begun, ReadStop>
    ensures read { Begins S.left S.faults source.old source.new result }
    ensures later { S.faults source.old ≤ S.faults source.new }
{
    let mut text = Vec::new(alloc);
    let is_whole = read_on(source, &mut text, BLOCK)?;
    Ok(Begun { text, is_whole })
}

/// The text that was begun, with all that is left of a source.
pub fn read_rest<S: Source>(source: &mut S, begun: Begun) -> Result<Vec<u8>, ReadStop>
    requires short { length begun.text.items ≤ MOST_INPUT }
    requires whole { begun.is_whole ≡ true → IsAtEnd (S.left source.old) }
    ensures read { Completes S.left S.faults (λ text. text.items) begun.text.items
        source.old source.new result }
    ensures unread { begun.is_whole ≡ true → source.new ≡ source.old }
    ensures later { S.faults source.old ≤ S.faults source.new }
{
    let Begun { mut text, is_whole } = begun;
    if !is_whole && !read_on(source, &mut text, MOST_INPUT + 1)? {
        return Err(ReadStop::TooLong);
    }
    Ok(text)
}

/// Reads the lines of a text, up to its own end line or the end of the input. The text was begun,
/// and goes on with all that is left of a source, which is read to its end, also behind the own end
/// line or a fault: a source that fails, or a text that is too long, is told before any other fault.
/// Of the text no more than what was begun, a block of 1 MiB and a line is kept at once.
pub fn read_text_in_blocks<S: Source, R: LineReader>(
    source: &mut S,
    reader: &mut R,
    begun: Begun,
    from: Mark,
) -> Result<(), InputStop>
    requires empty { R.holds reader.old [] }
    requires short { length begun.text.items ≤ MOST_INPUT }
    requires whole { begun.is_whole ≡ true → IsAtEnd (S.left source.old) }
    // It is a mark of each text that begins so.
    requires mark { (rest : List ℕ) → IsMark (begun.text.items ++ rest) from }
    ensures read { ReadsInBlocks S.left S.faults (table_format (R.table (R.context reader.old)))
        begun.text.items from
        (λ whole _. (to : Mark) × ReadsInto (table_format (R.table (R.context reader.old)))
        whole from (R.holds reader.new) to)
        source.old source.new result }
    ensures unread { begun.is_whole ≡ true → source.new ≡ source.old }
    ensures later { S.faults source.old ≤ S.faults source.new }
    ensures context { R.context reader.new ≡ R.context reader.old }
{
    if begun.is_whole {
        read_text(reader, &begun.text, from)?;
        return Ok(());
    }
    read_blocks(source, reader, begun.text, from)
}

// The same where more may be left of the source.
fn read_blocks<S: Source, R: LineReader>(
    source: &mut S,
    reader: &mut R,
    front: Vec<u8>,
    from: Mark,
) -> Result<(), InputStop>
    requires empty { R.holds reader.old [] }
    requires short { length front.items ≤ MOST_INPUT }
    requires mark { (rest : List ℕ) → IsMark (front.items ++ rest) from }
    ensures read { ReadsInBlocks S.left S.faults (table_format (R.table (R.context reader.old)))
        front.items from
        (λ whole _. (to : Mark) × ReadsInto (table_format (R.table (R.context reader.old)))
        whole from (R.holds reader.new) to)
        source.old source.new result }
    ensures later { S.faults source.old ≤ S.faults source.new }
    ensures context { R.context reader.new ≡ R.context reader.old }
{
    let mut came = front.len();
    let mut text = front;
    drop_front(&mut text, from.at);
    let mut passed = from.line - 1;
    let mut missing = Cause::NoHeader;
    'lines: loop {
        let kept = text.len();
        if read_block(source, &mut text, &mut came)? {
            return match read_last_lines(reader, &text, Mark::start(), missing) {
                Ok(_) => Ok(()),
                Err(stop) => Err(stop_after(passed, stop).into()),
            };
        }
        let count = whole_lines(&text, kept);
        match read_lines(reader, &text[..count], Mark::start(), missing) {
            Ok(Stretch::Left(end, next)) => {
                drop_front(&mut text, count);
                passed += end.line - 1;
                missing = next;
            }
            Ok(Stretch::Ended(_)) => {
                pass_rest(source, text, came)?;
                return Ok(());
            }
            Err(stop) => {
                pass_rest(source, text, came)?;
                return Err(stop_after(passed, stop).into());
            }
        }
    }
}

// Reads the next block behind the bytes of a text that are kept, and tells whether the source is at
// its end.
fn read_block<S: Source>(
    source: &mut S,
    kept: &mut Vec<u8>,
    came: &mut usize,
) -> Result<bool, ReadStop>
    requires within { length kept.old.items ≤ came.old }
    requires short { came.old ≤ MOST_INPUT }
    ensures read { ReadsBlock S.left S.faults kept.old.items kept.new.items came.old came.new
        source.old source.new result }
    ensures later { S.faults source.old ≤ S.faults source.new }
{
    let before = kept.len();
    let room = BLOCK.min(MOST_INPUT + 1 - *came);
    let is_end = read_on(source, kept, before + room)?;
    *came += kept.len() - before;
    if *came > MOST_INPUT {
        return Err(ReadStop::TooLong);
    }
    Ok(is_end)
}

// Reads a source to its end, and throws away what it gives.
fn pass_rest<S: Source>(
    source: &mut S,
    mut buffer: Vec<u8>,
    mut came: usize,
) -> Result<(), ReadStop>
    requires short { came ≤ MOST_INPUT }
    ensures read { PassesRest S.left S.faults came source.old source.new result }
    ensures later { S.faults source.old ≤ S.faults source.new }
{
    'passing: loop {
        buffer.clear();
        if read_block(source, &mut buffer, &mut came)? {
            return Ok(());
        }
    }
}

// How many bytes the lines have up to the last newline behind so many bytes: none where there is none
// there.
fn whole_lines(text: &[u8], kept: usize) -> usize
    requires { kept ≤ length text.now }
    ensures within { result ≤ length text.now }
    ensures ended { IsEnded (take result text.now) }
{
    match memrchr(b'\n', &text[kept..]) {
        Some(last) => kept + last + 1,
        None => 0,
    }
}

// Drops the first bytes, and keeps the memory.
fn drop_front(bytes: &mut Vec<u8>, count: usize)
    requires { count ≤ length bytes.old.items }
    ensures { bytes.new.items ≡ drop count bytes.old.items }
{
    let left = bytes.len() - count;
    bytes.as_mut_slice().copy_within(count.., 0);
    bytes.truncate(left);
}

// A stop of lines that stand behind so many others.
fn stop_after(lines: u32, stop: TextStop) -> TextStop
    requires { IsStopBelow lines (2 ^ 32) stop }
    ensures { result ≡ stop_after lines stop }
{
    match stop {
        TextStop::Fault(fault) => TextStop::Fault(TextFault {
            line: lines + fault.line,
            cause: fault.cause,
        }),
        TextStop::NoMemory => TextStop::NoMemory,
    }
}
