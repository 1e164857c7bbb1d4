// Why there is no answer.
use crate::status::Status;
use command_line::WordsStop;
use counter_compile::CounterStop;
use thiserror::Error;
use tile_io::{Cause, InputStop, ReadStop, TextFault, TextStop};
use tile_system::NoMemory;

/// Why a command has no answer.
#[derive(Clone, Copy, Debug, PartialEq, Eq, Error)]
pub enum Stop {
    #[error("the words were refused")]
    Words(WordsStop),
    #[error("the numbers among the words were refused")]
    Counter(CounterStop),
    #[error("the input was refused")]
    Text(TextFault),
    #[error("the source failed")]
    ReadFault,
    #[error("memory was wanting")]
    NoMemory,
}

impl Stop {
    ghost use Rattle.std.specs.Prelude.{◌≡◌};
    ghost use Rattle.tilebench.specs.Inner.Stops.{status_of};

    /// The status that tells it, where its line could be written if it has one.
    pub fn status(self) -> Status
        ensures { result ≡ status_of self }
    {
        match self {
            Stop::Words(_) | Stop::Counter(_) => Status::Words,
            Stop::Text(_) => Status::Text,
            Stop::ReadFault => Status::ReadFault,
            Stop::NoMemory => Status::NoMemory,
        }
    }
}

impl From<WordsStop> for Stop {
    ghost use Rattle.std.specs.Prelude.{◌≡◌};
    ghost use Rattle.tilebench.specs.Inner.Stops.{stop_of_words};

    ghost from_gives = { λ words stop. stop ≡ stop_of_words words };

    fn from(words: WordsStop) -> Stop {
        match words {
            WordsStop::NoMemory => Stop::NoMemory,
            refusal => Stop::Words(refusal),
        }
    }
}

impl From<CounterStop> for Stop {
    ghost use Rattle.std.specs.Prelude.{◌≡◌};
    ghost use Rattle.tilebench.specs.Inner.Stops.{stop_of_counter};

    ghost from_gives = { λ counter stop. stop ≡ stop_of_counter counter };

    fn from(counter: CounterStop) -> Stop {
        match counter {
            CounterStop::NoMemory => Stop::NoMemory,
            refusal => Stop::Counter(refusal),
        }
    }
}

impl From<ReadStop> for Stop {
    ghost use Rattle.std.specs.Prelude.{◌≡◌};
    ghost use Rattle.tilebench.specs.Inner.Stops.{stop_of_read};

    ghost from_gives = { λ read stop. stop ≡ stop_of_read read };

    fn from(read: ReadStop) -> Stop {
        match read {
            ReadStop::Failed => Stop::ReadFault,
            ReadStop::TooLong => Stop::Text(TextFault {
                line: 0,
                cause: Cause::TooLong,
            }),
            ReadStop::NoMemory => Stop::NoMemory,
        }
    }
}

impl From<InputStop> for Stop {
    ghost use Rattle.std.specs.Prelude.{◌≡◌};
    ghost use Rattle.tilebench.specs.Inner.Stops.{stop_of_input};

    ghost from_gives = { λ input stop. stop ≡ stop_of_input input };

    fn from(input: InputStop) -> Stop {
        match input {
            InputStop::Unread(read) => Stop::from(read),
            InputStop::Refused(fault) => Stop::Text(fault),
        }
    }
}

impl From<TextStop> for Stop {
    ghost use Rattle.std.specs.Prelude.{◌≡◌};
    ghost use Rattle.tilebench.specs.Inner.Stops.{stop_of_text};

    ghost from_gives = { λ text stop. stop ≡ stop_of_text text };

    fn from(text: TextStop) -> Stop {
        match text {
            TextStop::Fault(fault) => Stop::Text(fault),
            TextStop::NoMemory => Stop::NoMemory,
        }
    }
}

impl From<TextFault> for Stop {
    ghost use Rattle.std.specs.Prelude.{◌≡◌};
    ghost use Rattle.tilebench.specs.declared.stop.Stop.TheVariants.{Text};

    ghost from_gives = { λ fault stop. stop ≡ Text fault };

    fn from(fault: TextFault) -> Stop {
        Stop::Text(fault)
    }
}

impl From<NoMemory> for Stop {
    ghost use Rattle.std.specs.Prelude.{◌≡◌};
    ghost use Rattle.tilebench.specs.declared.stop.Stop.TheVariants.{NoMemory as OutOfMemory};

    ghost from_gives = { λ _ stop. stop ≡ OutOfMemory };

    fn from(_: NoMemory) -> Stop {
        Stop::NoMemory
    }
}
