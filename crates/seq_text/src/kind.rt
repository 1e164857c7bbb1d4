// The keywords of a growth text.
ghost use Rattle.std.specs.Prelude.{◌≡◌, Bool};
ghost use Rattle.atam.specs.TileSystem.{TileSystem};
ghost use Rattle.seq_text.specs.Inner.Kinds.{row_of, kind_named, may_stand_after};

/// A keyword.
#[derive(Clone, Copy, Debug, PartialEq, Eq)]
pub(crate) enum LineKind {
    Place,
    Closed,
    Unique,
}

impl LineKind {
    /// The keyword that a word is.
    pub(crate) fn of(word: &[u8]) -> Option<LineKind>
        ensures { result ≡ kind_named word.now }
    {
        match word {
            b"place" => Some(LineKind::Place),
            b"closed" => Some(LineKind::Closed),
            b"unique" => Some(LineKind::Unique),
            _ => None,
        }
    }

    /// Whether its lines may have so many words.
    pub(crate) fn has_words(self, count: usize) -> bool
        ensures { (distinct : Bool) (sys : TileSystem) →
            result ≡ (row_of distinct sys self).has_words count }
    {
        match self {
            LineKind::Place => count == 4,
            LineKind::Closed | LineKind::Unique => count >= 2,
        }
    }

    /// Whether it may stand right after a line of another one, or first.
    pub(crate) fn may_stand(self, last: Option<LineKind>) -> bool
        ensures { result ≡ may_stand_after self last }
    {
        match (self, last) {
            (_, None | Some(LineKind::Place)) => true,
            (LineKind::Unique, Some(LineKind::Closed)) => true,
            _ => false,
        }
    }
}
