// A quadrant is read from its text.
ghost use Rattle.std.specs.Prelude.{◌≡◌, ◌≤◌, true, length, IfOk};
ghost use Rattle.tile_io.specs.declared.limits.TheConstants.{LONGEST_LINE};
ghost use Rattle.tile_io.specs.NextLine.{IsMark};
ghost use Rattle.tile_io.specs.Formats.{ReadsOrStops};
ghost use Rattle.quadrant_compile.specs.Quadrants.{IsQuadrant};
ghost use Rattle.quadrant_compile.specs.QuadrantText.{ReadsQuadrant, quadrant_format};

use crate::border::Border;
use crate::limits::MOST_SYMBOLS;
use crate::line_kind::LineKind;
use crate::parts::QuadrantParts;
use crate::quadrant::Quadrant;
use crate::take::{take_border, take_item};
use std::alloc::Global;
use tile_io::{
    LONGEST_LINE, LineReader, LineStop, LineWords, MOST_INPUT, Mark, TextStop, read_text,
};

/// Reads a quadrant text, up to its end line, in time that grows with its length and the number of
/// its symbols.
pub fn read_quadrant(alloc: Global, text: &[u8], from: Mark) -> Result<(Quadrant, Mark), TextStop>
    requires short { length text.now ≤ MOST_INPUT }
    requires mark { IsMark text.now from }
    ensures read { ReadsOrStops quadrant_format text.now from
        (λ found. ReadsQuadrant text.now from found.0 found.1) result }
    ensures mark { IfOk result (λ found. IsMark text.now found.1) }
    ensures valid { IfOk result (λ found. IsQuadrant found.0) }
{
    let Ok(parts) = QuadrantParts::new(alloc) else {
        return Err(TextStop::NoMemory);
    };
    let mut reader = QuadrantReader {
        alloc,
        parts,
        last: None,
    };
    let to = read_text(&mut reader, text, from)?;
    let Ok(quadrant) = Quadrant::new(alloc, reader.parts) else {
        return Err(TextStop::NoMemory);
    };
    Ok((quadrant, to))
}

// What was read so far: the parts of a quadrant, and the keyword of the last kept line.
#[derive(Drop)]
struct QuadrantReader {
    alloc: Global,
    parts: QuadrantParts,
    last: Option<LineKind>,
}

#[tactic(auto, unfolding(crate::specs::QuadrantText::quadrant_table))]
impl LineReader for QuadrantReader {
    ghost use Rattle.quadrant_compile.specs.QuadrantText.{QuadrantItem, quadrant_table};
    ghost use Rattle.quadrant_compile.specs.Inner.Keywords.{row_of};
    ghost use Rattle.quadrant_compile.specs.Inner.SoFar.{quadrant_in, HoldsLines};

    type Kind = LineKind;

    ghost Item = { QuadrantItem };

    ghost Context = { Unit {0} };

    ghost context = { λ _. tt };

    ghost table = { λ _. quadrant_table };

    ghost row = { λ _. row_of };

    ghost holds = { λ r. HoldsLines (quadrant_in r.parts) r.last };

    fn has_header(&self) -> bool {
        true
    }

    fn kind_of(&self, word: &[u8]) -> Option<LineKind> {
        LineKind::of(word)
    }

    fn has_words(&self, kind: LineKind, count: usize) -> bool {
        kind.has_words(count)
    }

    fn may_stand(&self, kind: LineKind) -> bool {
        kind.may_stand(self.last)
    }

    fn has_room(&self, kind: LineKind, words: &LineWords) -> bool {
        match kind {
            LineKind::Symbol => self.parts.symbols.len() < MOST_SYMBOLS,
            LineKind::Bottom => self.parts.has_columns(words.len() - 1),
            LineKind::Left => self.parts.has_rows(words.len() - 1),
            _ => true,
        }
    }

    fn take_fields(&mut self, kind: LineKind, words: &LineWords) -> Result<bool, LineStop> {
        take_item(self.alloc, &mut self.parts, kind, words)?;
        self.last = Some(kind);
        Ok(kind.is_last())
    }

    // A line of a border, which may have many words. Each other line is left, and so is one that
    // the checks before its fields refuse.
    fn take_plain(&mut self, line: &[u8]) -> Option<Result<bool, LineStop>> {
        if !may_be_of_border(line) {
            return None;
        }
        let words = LineWords::cut(line);
        let border = Border::of(&words)?;
        if !self.has_place(border, &words) {
            return None;
        }
        match take_border(self.alloc, &mut self.parts, border, line) {
            Ok(()) => {
                self.last = Some(border.kind());
                Some(Ok(false))
            }
            Err(stop) => Some(Err(stop)),
        }
    }

    fn is_complete(&self) -> bool {
        false
    }
}

impl QuadrantReader {
    ghost use Rattle.quadrant_compile.specs.Inner.SoFar.{quadrant_in};
    ghost use Rattle.quadrant_compile.specs.Inner.Borders.{HasPlace};

    // Whether a line of this border passes the checks before its fields.
    fn has_place(&self, border: Border, words: &LineWords) -> bool
        ensures { result ≡ true →
            HasPlace border (quadrant_in self.now.parts) self.now.last words.now }
    {
        let count = words.len();
        if count < 2 {
            return false;
        }
        if !border.kind().may_stand(self.last) {
            return false;
        }
        match border {
            Border::Bottom => self.parts.has_columns(count - 1),
            Border::Left => self.parts.has_rows(count - 1),
        }
    }
}

// Whether a line may be one of a border, by its length and its first byte.
fn may_be_of_border(line: &[u8]) -> bool
    ensures { result ≡ true → length line.now ≤ LONGEST_LINE }
{
    match line.first() {
        Some(b'b' | b'l') => line.len() <= LONGEST_LINE,
        _ => false,
    }
}
