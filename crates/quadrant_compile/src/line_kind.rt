// The keywords of a quadrant text.
ghost use Rattle.std.specs.Prelude.{◌≡◌, option_map, find, bytes_eq};
ghost use Rattle.quadrant_compile.specs.QuadrantText.{quadrant_table};
ghost use Rattle.quadrant_compile.specs.Inner.Keywords.{row_of, may_stand_after, is_last};

/// A keyword.
#[derive(Clone, Copy, Debug, PartialEq, Eq)]
pub(crate) enum LineKind {
    Quadrant,
    Symbol,
    Rule,
    Size,
    Bottom,
    Left,
    End,
}

impl LineKind {
    /// The keyword that a word is.
    #[tactic(auto, unfolding(crate::specs::QuadrantText::quadrant_table))]
    pub(crate) fn of(word: &[u8]) -> Option<LineKind>
        ensures { option_map row_of result
            ≡ find (λ row. bytes_eq word.now row.word) quadrant_table.keywords }
    {
        match word {
            b"quadrant" => Some(LineKind::Quadrant),
            b"symbol" => Some(LineKind::Symbol),
            b"rule" => Some(LineKind::Rule),
            b"size" => Some(LineKind::Size),
            b"bottom" => Some(LineKind::Bottom),
            b"left" => Some(LineKind::Left),
            b"end" => Some(LineKind::End),
            _ => None,
        }
    }

    /// Whether its lines may have so many words.
    pub(crate) fn has_words(self, count: usize) -> bool
        ensures { result ≡ (row_of self).has_words count }
    {
        match self {
            LineKind::Quadrant | LineKind::Symbol => count == 2,
            LineKind::Rule => count == 5,
            LineKind::Size => count == 3,
            LineKind::Bottom | LineKind::Left => count >= 2,
            LineKind::End => count == 1,
        }
    }

    /// Whether it may stand right after a line of another one, or first.
    pub(crate) fn may_stand(self, last: Option<LineKind>) -> bool
        ensures { result ≡ may_stand_after self last }
    {
        match (self, last) {
            (LineKind::Quadrant, None) => true,
            (LineKind::Symbol, Some(LineKind::Quadrant | LineKind::Symbol)) => true,
            (LineKind::Rule | LineKind::Size, Some(LineKind::Symbol | LineKind::Rule)) => true,
            (LineKind::Bottom, Some(LineKind::Size | LineKind::Bottom)) => true,
            (
                LineKind::Left | LineKind::End,
                Some(LineKind::Size | LineKind::Bottom | LineKind::Left),
            ) => true,
            _ => false,
        }
    }

    /// Whether its line ends the text.
    pub(crate) fn is_last(self) -> bool
        ensures { result ≡ is_last self }
    {
        match self {
            LineKind::End => true,
            _ => false,
        }
    }
}
