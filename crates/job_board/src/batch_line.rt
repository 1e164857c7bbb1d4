// One line of a batch is read.
ghost use Rattle.std.specs.Prelude.{◌≡◌, ◌≤◌, ℕ, [], length, find, bytes_eq, option_map};
ghost use Rattle.tile_io.specs.NextLine.{IsMark};
ghost use Rattle.tile_io.specs.Formats.{ReadsOrStops};
ghost use Rattle.job_board.specs.BatchLines.{batch_format, batch_table, row_at};
ghost use Rattle.job_board.specs.Inner.FoundLines.{FindsLine};

use crate::limits::{GREATEST_CHOICE, MOST_JOBS};
use crate::position::{BatchItem, Position};
use tile_io::{
    Cause, LineReader, LineStop, LineWords, MOST_INPUT, Mark, TextStop, is_word, read_count,
    read_text,
};

/// The next line of a batch that is neither empty nor a remark, or none where the input may end and
/// does, with the mark behind it.
pub(crate) fn read_line(
    text: &[u8],
    from: Mark,
    position: Position,
) -> Result<(Option<BatchItem>, Mark), TextStop>
    requires short { length text.now ≤ MOST_INPUT }
    requires mark { IsMark text.now from }
    ensures { ReadsOrStops (batch_format position) text.now from
        (λ found. FindsLine position text.now from found.0 found.1) result }
{
    let mut reader = BatchLine {
        position,
        taken: None,
    };
    let to = read_text(&mut reader, text, from)?;
    Ok((reader.taken, to))
}

// The line that is looked for, and what it was.
#[derive(Drop)]
struct BatchLine {
    position: Position,
    taken: Option<BatchItem>,
}

#[tactic(auto, unfolding(crate::specs::BatchLines::batch_table))]
impl LineReader for BatchLine {
    ghost use Rattle.job_board.specs.declared.position.Position.{Position};
    ghost use Rattle.job_board.specs.declared.position.BatchItem.{BatchItem};
    ghost use Rattle.job_board.specs.BatchLines.{batch_table, row_at};
    ghost use Rattle.job_board.specs.Inner.FoundLines.{HoldsLine};

    type Kind = ();

    ghost Item = { BatchItem };

    ghost Context = { Position };

    ghost context = { λ r. r.position };

    ghost table = { batch_table };

    ghost row = { λ position kind. row_at position };

    ghost holds = { λ r. HoldsLine r.position r.taken };

    fn has_header(&self) -> bool {
        matches!(self.position, Position::AtStart)
    }

    fn kind_of(&self, word: &[u8]) -> Option<()> {
        keyword_at(self.position, word)
    }

    fn has_words(&self, _kind: (), count: usize) -> bool {
        count == 2
    }

    fn may_stand(&self, _kind: ()) -> bool {
        self.taken.is_none()
    }

    fn has_room(&self, _kind: (), _words: &LineWords) -> bool {
        match self.position {
            Position::AtStart => true,
            Position::Behind(jobs) => jobs < MOST_JOBS,
        }
    }

    fn take_fields(&mut self, _kind: (), words: &LineWords) -> Result<bool, LineStop> {
        let item = fields(self.position, words)?;
        self.taken = Some(item);
        Ok(true)
    }

    fn is_complete(&self) -> bool {
        matches!(self.position, Position::Behind(_))
    }
}

// Whether a word is the keyword of the position.
#[tactic(auto, unfolding(crate::specs::BatchLines::batch_table))]
fn keyword_at(position: Position, word: &[u8]) -> Option<()>
    ensures { option_map (λ kind. row_at position) result
        ≡ find (λ row. bytes_eq word.now row.word) (batch_table position).keywords }
{
    let is_keyword = match position {
        Position::AtStart => is_word(word, b"batch"),
        Position::Behind(_) => is_word(word, b"job"),
    };
    if is_keyword { Some(()) } else { None }
}

// The fields of the keyword of a position.
fn fields(position: Position, words: &LineWords) -> Result<BatchItem, Cause>
    requires { length words.now ≡ 2 }
    ensures { result ≡ (row_at position).fields [] words.now }
{
    match position {
        Position::AtStart => version(words),
        Position::Behind(_) => choice(words),
    }
}

// The field of the header.
fn version(words: &LineWords) -> Result<BatchItem, Cause>
    requires { length words.now ≡ 2 }
    ensures { result ≡ (row_at Position.AtStart).fields [] words.now }
{
    if is_word(words.word(1), b"1") {
        Ok(BatchItem::Header)
    } else {
        Err(Cause::NoHeader)
    }
}

// The field of a job's line.
fn choice(words: &LineWords) -> Result<BatchItem, Cause>
    requires { length words.now ≡ 2 }
    ensures { (jobs : ℕ) → result ≡ (row_at (Position.Behind jobs)).fields [] words.now }
{
    match read_count(words.word(1), 0, GREATEST_CHOICE) {
        Ok(choice) => Ok(BatchItem::JobLine(choice)),
        Err(cause) => Err(cause),
    }
}
