// A line that is cut into its words.
ghost use Rattle.std.specs.Prelude.{◌≡◌, ◌<◌, ◌≤◌, ◌+◌, List, ℕ, length};
ghost use Rattle.tile_io.specs.Lines.{words_of};
ghost use Rattle.tile_io.specs.Checks.{field};
ghost use Rattle.tile_io.specs.Inner.AtHand.{IsCutUpTo, IsRun};

use crate::{LONGEST_LINE, word_at};
use std::marker::Model;

// How many words are at hand.
const AT_HAND: usize = 8;

/// The words of a line, by index. A line is cut once: the first eight words are at hand, and the
/// others are looked for where they are asked for.
#[derive(Drop)]
pub struct LineWords<'a> {
    line: &'a [u8],
    places: WordPlaces,
}

impl<'a> Model for LineWords<'a> {
    ghost use Rattle.std.specs.Prelude.{List, ℕ};
    ghost use Rattle.tile_io.specs.Lines.{words_of};
    ghost use Rattle.tile_io.specs.Inner.AtHand.{AreAtHand};

    ghost Value = { List (List ℕ) };

    ghost view = { λ w. words_of w.line.now };

    ghost invariant = { λ w. AreAtHand w.line.now w.places.count w.places.starts w.places.ends };
}

impl<'a> LineWords<'a> {
    /// Cuts a line, in time that grows with its length.
    pub fn cut(line: &'a [u8]) -> LineWords<'a>
        requires { length line.now ≤ LONGEST_LINE }
        ensures { result ≡ words_of line.now }
    {
        let mut places = WordPlaces::none();
        let mut start = 0;
        for at in 0..line.len() {
            if line[at] == b' ' {
                places.note(start, at);
                start = at + 1;
            }
        }
        places.note(start, line.len());
        LineWords { line, places }
    }

    /// The line, for who goes over its words one after the other.
    pub fn line(&self) -> &'a [u8]
        ensures { words_of result.now ≡ self.now }
    {
        self.line
    }

    /// The number of words.
    pub fn len(&self) -> usize
        ensures { result ≡ length self.now }
    {
        self.places.count
    }

    /// The word at this index.
    pub fn word(&self, index: usize) -> &'a [u8]
        requires { index < length self.now }
        ensures { result.now ≡ field self.now index }
    {
        if index < AT_HAND {
            let start = usize::from(self.places.starts[index]);
            let end = usize::from(self.places.ends[index]);
            &self.line[start..end]
        } else {
            word_at(self.line, index)
        }
    }
}

// How many words there are, and where the first of them start and end.
#[derive(Clone, Copy)]
struct WordPlaces {
    count: usize,
    starts: [u16; AT_HAND],
    ends: [u16; AT_HAND],
}

impl WordPlaces {
    // No words.
    #[inline(always)]
    fn none() -> WordPlaces
        ensures { (line : List ℕ) → IsCutUpTo line 0 result.count result.starts result.ends }
    {
        WordPlaces {
            count: 0,
            starts: [0; AT_HAND],
            ends: [0; AT_HAND],
        }
    }

    // Notes a run of bytes between spaces as a word, where it isn't empty.
    #[inline(always)]
    fn note(&mut self, start: usize, end: usize)
        requires order { start ≤ end }
        requires short { end ≤ LONGEST_LINE }
        requires few { self.old.count ≤ LONGEST_LINE + 1 }
        ensures { (line : List ℕ) →
            IsCutUpTo line start self.old.count self.old.starts self.old.ends →
            IsRun line start end →
            IsCutUpTo line end self.new.count self.new.starts self.new.ends }
    {
        if start == end {
            return;
        }
        let index = self.count;
        self.count += 1;
        if index >= AT_HAND {
            return;
        }
        self.starts[index] = start as u16;
        self.ends[index] = end as u16;
    }
}
