//! The words of a command line, read by clap.
#![tactic(auto)]

mod commands;
mod crew;
mod frame_count;
mod laws;
mod numbers;
mod parse;
mod words;
mod words_stop;

pub use commands::Command;
pub use crew::Crew;
pub use frame_count::FrameCount;
pub use laws::{law_further_words, law_one_reading, law_plain_words};
pub use words::command_of;
pub use words_stop::WordsStop;
