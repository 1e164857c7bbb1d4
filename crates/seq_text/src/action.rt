// The keywords of a schedule text.
ghost use Rattle.std.specs.Prelude.{◌≡◌, option_map, find, bytes_eq};
ghost use Rattle.atam.specs.TileSystem.{TileSystem};
ghost use Rattle.seq_text.specs.ScheduleText.{schedule_table};
ghost use Rattle.seq_text.specs.Inner.Kinds.{action_row};

/// A keyword.
#[derive(Clone, Copy, Debug, PartialEq, Eq)]
pub(crate) enum Action {
    Look,
    Claim,
    Split,
    Join,
}

impl Action {
    /// The keyword that a word is.
    #[tactic(auto, unfolding(crate::specs::ScheduleText::schedule_table))]
    pub(crate) fn of(word: &[u8]) -> Option<Action>
        ensures { (sys : TileSystem) → option_map (action_row sys) result
            ≡ find (λ row. bytes_eq word.now row.word) (schedule_table sys).keywords }
    {
        match word {
            b"look" => Some(Action::Look),
            b"claim" => Some(Action::Claim),
            b"split" => Some(Action::Split),
            b"join" => Some(Action::Join),
            _ => None,
        }
    }

    /// Whether its lines have so many words.
    pub(crate) fn has_words(self, count: usize) -> bool
        ensures { (sys : TileSystem) → result ≡ (action_row sys self).has_words count }
    {
        match self {
            Action::Look => count == 4,
            Action::Claim => count == 5,
            Action::Split => count == 2,
            Action::Join => count == 3,
        }
    }
}
