// What reads the lines of a kind of text.
ghost use Rattle.std.specs.Prelude.{◌≡◌, ◌≤◌, List, true, length, find, bytes_eq, option_map, IfSome, IfNone};
ghost use Rattle.tile_io.specs.Lines.{words_of};
ghost use Rattle.tile_io.specs.Checks.{Keyword, Table, check_line, last_of};
ghost use Rattle.tile_io.specs.LineReader.{TakesItem, TakesFront, MayTake};

use crate::cut_line::LineWords;
use crate::fault::Cause;
use crate::limits::LONGEST_LINE;

/// Why a line was refused.
#[derive(Clone, Copy, Debug, PartialEq, Eq)]
pub enum LineStop {
    Fault(Cause),
    NoMemory,
}

/// What was taken from the front of a text: the bytes of a line, with its newline, and whether it
/// is the text's own end line.
#[derive(Clone, Copy, Debug, PartialEq, Eq)]
pub struct Front {
    pub length: usize,
    pub done: Result<bool, LineStop>,
}

impl From<Cause> for LineStop {
    ghost use Rattle.std.specs.Prelude.{◌≡◌};
    ghost use Rattle.tile_io.specs.declared.line_reader.LineStop.TheVariants.{Fault};

    ghost from_gives = { λ cause stop. stop ≡ Fault cause };

    fn from(cause: Cause) -> LineStop {
        LineStop::Fault(cause)
    }
}

/// What reads the lines of a kind of text: a table of its keywords, and what the fields of each
/// make of the reader. The table may depend on a context, as on the system that a growth text
/// follows; a line never changes the context.
pub trait LineReader {
    /// The keywords of the text.
    type Kind: Copy;

    ghost Item: { Type 0 };

    ghost Context: { Type 0 };

    ghost context: { Self → Context };

    ghost table: { Context → Table Item };

    // The row of a keyword in the table.
    ghost row: { Context → Self.Kind → Keyword (List Item) Item };

    // What the reader holds says so much of the lines that were taken.
    ghost holds: { Self → List Item → Type 0 };

    /// Whether the text begins with a header.
    fn has_header(&self) -> bool
        ensures { result ≡ (table (context self.now)).has_header };

    /// The keyword that a word is.
    fn kind_of(&self, word: &[u8]) -> Option<Self::Kind>
        ensures { option_map (row (context self.now)) result
            ≡ find (λ row. bytes_eq word.now row.word) (table (context self.now)).keywords };

    /// Whether a line of this keyword may have so many words.
    fn has_words(&self, kind: Self::Kind, count: usize) -> bool
        ensures { result ≡ (row (context self.now) kind).has_words count };

    /// Whether a line of this keyword may stand here.
    fn may_stand(&self, kind: Self::Kind) -> bool
        ensures { (items : List Item) → holds self.now items →
            result ≡ (row (context self.now) kind).may_follow (last_of items) };

    /// Whether the limit of its kind leaves room for a line of this keyword.
    fn has_room(&self, kind: Self::Kind, words: &LineWords) -> bool
        requires { (row (context self.now) kind).has_words (length words.now) ≡ true }
        ensures { (items : List Item) → holds self.now items →
            result ≡ (row (context self.now) kind).has_room items words.now };

    /// Takes the fields of a line of this keyword, and tells whether it is the text's own end line.
    fn take_fields(&mut self, kind: Self::Kind, words: &LineWords) -> Result<bool, LineStop>
        requires { MayTake (row (context self.old) kind) (holds self.old) words.now }
        ensures taken { (items : List Item) → holds self.old items →
            TakesItem (table (context self.old)).is_end (holds self.new) items
            ((row (context self.old) kind).fields items words.now) result }
        ensures context { context self.new ≡ context self.old };

    /// Takes a line in a form that the reader knows without cutting it into words, and tells
    /// whether it is the text's own end line. `None` leaves the line to `take_line`, as each line
    /// where the reader knows no such form.
    fn take_plain(&mut self, line: &[u8]) -> Option<Result<bool, LineStop>>
        requires { (items : List Item) × holds self.old items }
        ensures taken { IfSome result (λ done. (items : List Item) → holds self.old items →
            TakesItem (table (context self.old)).is_end (holds self.new) items
            (check_line (table (context self.old)).keywords items (words_of line.now)) done) }
        ensures left { IfNone result ((items : List Item) → holds self.old items →
            holds self.new items) }
        ensures context { context self.new ≡ context self.old }
    {
        let _ = line;
        None
    }

    /// Takes the line at the front of what is left of a text in a form that the reader knows,
    /// without a search for its newline. `None` leaves it to `take_bytes`, as each line where the
    /// reader knows no such form.
    fn take_front(&mut self, rest: &[u8]) -> Option<Front>
        requires { (items : List Item) × holds self.old items }
        ensures taken { IfSome result (TakesFront (table (context self.old)) (holds self.old)
            (holds self.new) rest.now) }
        ensures left { IfNone result ((items : List Item) → holds self.old items →
            holds self.new items) }
        ensures context { context self.new ≡ context self.old }
    {
        let _ = rest;
        None
    }

    /// Whether the input may end here.
    fn is_complete(&self) -> bool
        ensures { (items : List Item) → holds self.now items →
            result ≡ (table (context self.now)).is_complete items };

    /// Takes a line, and tells whether it is the text's own end line.
    final fn take_line(&mut self, words: &LineWords) -> Result<bool, LineStop>
        requires { (items : List Item) × holds self.old items }
        ensures taken { (items : List Item) → holds self.old items →
            TakesItem (table (context self.old)).is_end (holds self.new) items
            (check_line (table (context self.old)).keywords items words.now) result }
        ensures context { context self.new ≡ context self.old }
    {
        if words.len() == 0 {
            return Err(LineStop::Fault(Cause::BadLine));
        }
        let Some(kind) = self.kind_of(words.word(0)) else {
            return Err(LineStop::Fault(Cause::BadLine));
        };
        if !self.has_words(kind, words.len()) {
            return Err(LineStop::Fault(Cause::BadLine));
        }
        if !self.may_stand(kind) {
            return Err(LineStop::Fault(Cause::OutOfOrder));
        }
        if !self.has_room(kind, words) {
            return Err(LineStop::Fault(Cause::TooMany));
        }
        self.take_fields(kind, words)
    }

    /// Takes a line by its bytes, and tells whether it is the text's own end line.
    final fn take_bytes(&mut self, line: &[u8]) -> Result<bool, LineStop>
        requires short { length line.now ≤ LONGEST_LINE }
        requires held { (items : List Item) × holds self.old items }
        ensures taken { (items : List Item) → holds self.old items →
            TakesItem (table (context self.old)).is_end (holds self.new) items
            (check_line (table (context self.old)).keywords items (words_of line.now)) result }
        ensures context { context self.new ≡ context self.old }
    {
        if let Some(done) = self.take_plain(line) {
            return done;
        }
        let words = LineWords::cut(line);
        self.take_line(&words)
    }
}
