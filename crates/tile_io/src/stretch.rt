// A stretch of the lines of a text.
ghost use Rattle.std.specs.Prelude.{◌≡◌, ◌+◌, ◌≤◌, ◌<◌, ℕ, List, length, drop, IfSome, IfNone, IfOk};
ghost use Rattle.tile_io.specs.declared.mark.Mark.{Mark};
ghost use Rattle.tile_io.specs.declared.stretch.Stretch.TheVariants.{Left};
ghost use Rattle.tile_io.specs.Lines.{lines_from, mark_after};
ghost use Rattle.tile_io.specs.NextLine.{IsMark};
ghost use Rattle.tile_io.specs.Formats.{missing_cause};
ghost use Rattle.tile_io.specs.Checks.{table_format};
ghost use Rattle.tile_io.specs.Inner.Headers.{first_cause, stop_at};
ghost use Rattle.tile_io.specs.Inner.Stretches.{IsStretch, Progress, ReadsRest, moved};
ghost use Rattle.tile_io.specs.Inner.Turns.{TakesLine, TakesNext, turn_at};

use crate::fault::{Cause, TextFault, TextStop};
use crate::limits::MOST_INPUT;
use crate::line_reader::{Front, LineReader, LineStop};
use crate::mark::Mark;
use crate::reading::{Line, end_number, next_line};

// How far a stretch came.
#[derive(Clone, Copy)]
pub(crate) enum Stretch {
    // To the text's own end line, up to this mark.
    Ended(Mark),
    // Over all lines, to this mark; where the input ended there, this would be missing.
    Left(Mark, Cause),
}

// A line, and what a reader made of it.
#[derive(Clone, Copy)]
pub(crate) struct Turn {
    line: Line,
    done: Result<bool, LineStop>,
}

// Reads the lines of the rest of a text from a mark on, up to its own end line or all of them.
pub(crate) fn read_lines<R: LineReader>(
    reader: &mut R,
    text: &[u8],
    from: Mark,
    first_missing: Cause,
) -> Result<Stretch, TextStop>
    requires held { (items : List R.Item) × R.holds reader.old items }
    requires short { length text.now ≤ MOST_INPUT }
    requires mark { IsMark text.now from }

    // It is a stretch of each text that has this rest.
    ensures read { (whole : List ℕ) (bytes lines : ℕ) (start : Mark) (items : List R.Item) →
        text.now ≡ drop bytes whole → bytes ≤ length whole →
        Progress (table_format (R.table (R.context reader.old))) whole start items
        (moved bytes lines from) →
        R.holds reader.old items → first_missing ≡ missing_cause items →
        IsStretch (table_format (R.table (R.context reader.old))) whole start bytes lines
        (R.holds reader.new) result }
    ensures context { R.context reader.new ≡ R.context reader.old }
    ensures end { (to : Mark) (missing : Cause) → result ≡ Ok (Left to missing) →
        IsMark text.now to }
{
    let mut mark = from;
    let mut missing = first_missing;
    'lines: loop {
        let turn = match take_from_front(reader, text, mark) {
            Some(turn) => turn,
            None => match take_by_bytes(reader, text, mark) {
                Err(fault) => return Err(TextStop::Fault(fault)),
                Ok(None) => return Ok(Stretch::Left(end_mark(text, mark), missing)),
                Ok(Some(turn)) => turn,
            },
        };
        let Turn { line, done } = turn;
        match done {
            Ok(true) => return Ok(Stretch::Ended(line.next)),
            Ok(false) => {
                mark = line.next;
                missing = Cause::NoEnd;
            }
            Err(stop) => {
                return Err(stop_at(line.number, reader.has_header(), missing, stop));
            }
        }
    }
}

// Reads the lines of the rest of a text from a mark on, up to its own end line or the end of the
// input.
pub(crate) fn read_last_lines<R: LineReader>(
    reader: &mut R,
    text: &[u8],
    from: Mark,
    first_missing: Cause,
) -> Result<Mark, TextStop>
    requires held { (items : List R.Item) × R.holds reader.old items }
    requires short { length text.now ≤ MOST_INPUT }
    requires mark { IsMark text.now from }

    // They are the last ones of each text that has this rest.
    ensures read { (whole : List ℕ) (bytes lines : ℕ) (start : Mark) (items : List R.Item) →
        text.now ≡ drop bytes whole → bytes ≤ length whole →
        Progress (table_format (R.table (R.context reader.old))) whole start items
        (moved bytes lines from) →
        R.holds reader.old items → first_missing ≡ missing_cause items →
        ReadsRest (table_format (R.table (R.context reader.old))) whole start bytes lines
        (R.holds reader.new) result }
    ensures context { R.context reader.new ≡ R.context reader.old }
{
    match read_lines(reader, text, from, first_missing)? {
        Stretch::Ended(end) => Ok(end),
        Stretch::Left(end, missing) => {
            if reader.is_complete() {
                return Ok(end);
            }
            Err(TextStop::Fault(TextFault {
                line: end.line,
                cause: missing,
            }))
        }
    }
}

// Takes the line at a mark from the front of what is left, if the reader does so.
#[inline(always)]
fn take_from_front<R: LineReader>(reader: &mut R, text: &[u8], from: Mark) -> Option<Turn>
    requires held { (items : List R.Item) × R.holds reader.old items }
    requires short { length text.now ≤ MOST_INPUT }
    requires mark { IsMark text.now from }
    ensures taken { IfSome result (TakesLine (R.table (R.context reader.old))
        (R.holds reader.old) (R.holds reader.new) text.now from) }
    ensures left { IfNone result ((items : List R.Item) → R.holds reader.old items →
        R.holds reader.new items) }
    ensures context { R.context reader.new ≡ R.context reader.old }
{
    let front = reader.take_front(&text[from.at..])?;
    Some(turn_at(from, front))
}

// Takes the next line that is neither empty nor a remark, by its bytes.
#[inline(always)]
fn take_by_bytes<R: LineReader>(
    reader: &mut R,
    text: &[u8],
    from: Mark,
) -> Result<Option<Turn>, TextFault>
    requires held { (items : List R.Item) × R.holds reader.old items }
    requires short { length text.now ≤ MOST_INPUT }
    requires mark { IsMark text.now from }
    ensures taken { TakesNext (R.table (R.context reader.old)) (R.holds reader.old)
        (R.holds reader.new) text.now from result }
    ensures context { R.context reader.new ≡ R.context reader.old }
{
    let Some(line) = next_line(text, from)? else {
        return Ok(None);
    };
    let done = reader.take_bytes(&text[line.start..line.end]);
    Ok(Some(Turn { line, done }))
}

// The line at a mark that was taken from the front.
#[inline(always)]
fn turn_at(from: Mark, front: Front) -> Turn
    requires some { 0 < front.length }
    requires few { from.at + front.length ≤ MOST_INPUT }
    requires number { from.line ≤ from.at + 1 }
    ensures { result ≡ turn_at from front }
{
    let next = Mark {
        at: from.at + front.length,
        line: from.line + 1,
    };
    Turn {
        line: Line {
            start: from.at,
            end: next.at - 1,
            number: from.line,
            next,
        },
        done: front.done,
    }
}

// How a text stops at a line that was not taken.
fn stop_at(line: u32, has_header: bool, missing: Cause, stop: LineStop) -> TextStop
    ensures { result ≡ stop_at line has_header missing stop }
{
    match stop {
        LineStop::Fault(cause) => TextStop::Fault(TextFault {
            line,
            cause: first_cause(has_header, missing, cause),
        }),
        LineStop::NoMemory => TextStop::NoMemory,
    }
}

// The cause that a line has which fails a check: the first one of a text with a header is a missing
// header.
fn first_cause(has_header: bool, missing: Cause, cause: Cause) -> Cause
    ensures { result ≡ first_cause has_header missing cause }
{
    match missing {
        Cause::NoHeader if has_header => Cause::NoHeader,
        _ => cause,
    }
}

// The end of a text, from a mark in it.
fn end_mark(text: &[u8], from: Mark) -> Mark
    requires short { length text.now ≤ MOST_INPUT }
    requires mark { IsMark text.now from }
    ensures { let lines = lines_from text.now from in
        result ≡ mark_after lines from (length lines) }
{
    Mark {
        at: text.len(),
        line: end_number(text, from),
    }
}
