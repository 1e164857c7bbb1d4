// The keywords of a machine text.
ghost use Rattle.std.specs.Prelude.{◌≡◌, option_map, find, bytes_eq};
ghost use Rattle.machine_text.specs.MachineText.{machine_table};
ghost use Rattle.machine_text.specs.Inner.Kinds.{row_of, may_stand_after, is_last};

/// A keyword.
#[derive(Clone, Copy, Debug, PartialEq, Eq)]
pub(crate) enum LineKind {
    Machine,
    State,
    Symbol,
    Rule,
    Cells,
    Rows,
    Head,
    Tape,
    End,
}

impl LineKind {
    /// The keyword that a word is.
    #[tactic(auto, unfolding(crate::specs::MachineText::machine_table))]
    pub(crate) fn of(word: &[u8]) -> Option<LineKind>
        ensures { option_map row_of result
            ≡ find (λ row. bytes_eq word.now row.word) machine_table.keywords }
    {
        match word {
            b"machine" => Some(LineKind::Machine),
            b"state" => Some(LineKind::State),
            b"symbol" => Some(LineKind::Symbol),
            b"rule" => Some(LineKind::Rule),
            b"cells" => Some(LineKind::Cells),
            b"rows" => Some(LineKind::Rows),
            b"head" => Some(LineKind::Head),
            b"tape" => Some(LineKind::Tape),
            b"end" => Some(LineKind::End),
            _ => None,
        }
    }

    /// Whether its lines may have so many words.
    pub(crate) fn has_words(self, count: usize) -> bool
        ensures { result ≡ (row_of self).has_words count }
    {
        match self {
            LineKind::Machine | LineKind::State | LineKind::Symbol => count == 2,
            LineKind::Cells | LineKind::Rows | LineKind::Head => count == 2,
            LineKind::Rule => count == 6,
            LineKind::Tape => count >= 2,
            LineKind::End => count == 1,
        }
    }

    /// Whether it may stand right after a line of another one, or first.
    pub(crate) fn may_stand(self, last: Option<LineKind>) -> bool
        ensures { result ≡ may_stand_after self last }
    {
        match (self, last) {
            (LineKind::Machine, None) => true,
            (LineKind::State, Some(LineKind::Machine | LineKind::State)) => true,
            (LineKind::Symbol, Some(LineKind::State | LineKind::Symbol)) => true,
            (LineKind::Rule | LineKind::Cells, Some(LineKind::Symbol | LineKind::Rule)) => true,
            (LineKind::Rows, Some(LineKind::Cells)) => true,
            (LineKind::Head, Some(LineKind::Rows)) => true,
            (LineKind::Tape | LineKind::End, Some(LineKind::Head | LineKind::Tape)) => true,
            _ => false,
        }
    }

    /// Whether its line ends the text.
    pub(crate) fn is_last(self) -> bool
        ensures { result ≡ is_last self }
    {
        match self {
            LineKind::End => true,
            _ => false,
        }
    }
}
