// Why words are refused.
ghost use Rattle.std.specs.Prelude.{◌≡◌};
ghost use Rattle.command_line.specs.Commands.{words_stop_name, words_stop_of};

use clap::error::ErrorKind;
use std::alloc::{AllocError, AllocFailed};
use thiserror::Error;

/// Why words are refused.
#[derive(Clone, Copy, Debug, PartialEq, Eq, Error)]
pub enum WordsStop {
    #[error("the first word is missing or names no command")]
    NoCommand,
    #[error("the command does not take these words")]
    Usage,
    #[error("memory was wanting")]
    NoMemory,
}

impl WordsStop {
    /// Its name, as the program prints it.
    pub fn name(self) -> &'static str
        ensures { result.now ≡ words_stop_name self }
    {
        match self {
            WordsStop::NoCommand => "NoCommand",
            WordsStop::Usage => "Usage",
            WordsStop::NoMemory => "NoMemory",
        }
    }

    /// What an error of clap becomes: want of memory is that, all else a refusal.
    pub(crate) fn of_kind(kind: ErrorKind) -> WordsStop
        ensures { result ≡ words_stop_of kind }
    {
        match kind {
            ErrorKind::OutOfMemory => WordsStop::NoMemory,
            _ => WordsStop::Usage,
        }
    }
}

impl From<AllocError> for WordsStop {
    ghost use Rattle.command_line.specs.declared.words_stop.WordsStop.TheVariants.{NoMemory};

    ghost from_gives = { λ _ stop. stop ≡ NoMemory };

    fn from(_: AllocError) -> WordsStop {
        WordsStop::NoMemory
    }
}
