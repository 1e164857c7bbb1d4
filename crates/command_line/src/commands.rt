// The table of commands: their words, their arguments, and what a parse makes of them.
ghost use Rattle.std.specs.Prelude.{◌≡◌, ◌^◌, ◌-◌, false, codes, IfOk, ◌∷◌, []};
ghost use Rattle.clap.specs.Words.{app_of, found_of, rule_of};
ghost use Rattle.command_line.specs.Commands.{bits_argument, choice_option, frames_option, load_argument, numbers_of, plain_app, start_argument, workers_option};
ghost use Rattle.command_line.specs.Numbers.{AreInRange, number_rule};
ghost use Rattle.command_line.specs.Inner.Found.{FindsInRange, FindsNumber, FindsNumbers, HasValues};
ghost use Rattle.command_line.specs.Inner.Names.{first_name, name_app, name_arguments, name_of, name_word};

use crate::crew::Crew;
use crate::frame_count::FrameCount;
use crate::numbers::{number_argument, number_of};
use clap::{Arg, ArgMatches};
use fan_out::WorkerCount;
use std::alloc::{AllocError, Global};

/// A command of the program, with what its arguments say.
#[derive(Clone, Copy, Debug, PartialEq, Eq)]
pub enum Command {
    Grow(Crew),
    Race(Crew),
    Report(Crew),
    /// How many frames are taken while it grows.
    Watch(Crew, FrameCount),
    /// Each job has a choice of its own in the input.
    Batch { workers: WorkerCount },
    Check,
    Replay,
    Schedule,
    Format,
    Upgrade,
    Turing,
    Quadrant,
    Picture,
    Certify,
    Verify { workers: WorkerCount },
    /// Any numbers of their types: the counter's own limits are not looked at here.
    Counter { bits: u32, start: u64 },
    /// `number` is any number.
    Load { number: u64 },
}

// Which command the first word names.
#[derive(Clone, Copy, Debug, PartialEq, Eq)]
pub enum CommandName {
    Grow,
    Race,
    Report,
    Watch,
    Batch,
    Check,
    Replay,
    Schedule,
    Format,
    Upgrade,
    Turing,
    Quadrant,
    Picture,
    Certify,
    Verify,
    Counter,
    Load,
}

const NAMES: [CommandName; 17] = [
    CommandName::Grow,
    CommandName::Race,
    CommandName::Report,
    CommandName::Watch,
    CommandName::Batch,
    CommandName::Check,
    CommandName::Replay,
    CommandName::Schedule,
    CommandName::Format,
    CommandName::Upgrade,
    CommandName::Turing,
    CommandName::Quadrant,
    CommandName::Picture,
    CommandName::Certify,
    CommandName::Verify,
    CommandName::Counter,
    CommandName::Load,
];

const WORKERS: &str = "workers";

const MOST_WORKERS: u64 = 16;

const CHOICE: &str = "choice";

const FRAMES: &str = "frames";

const MOST_FRAMES: u64 = 1000;

const BITS: &str = "bits";

const START: &str = "start";

const NUMBER: &str = "number";

impl CommandName {
    // The word that names the command.
    pub fn word(self) -> &'static str
        ensures { result.now ≡ name_word self }
    {
        match self {
            CommandName::Grow => "grow",
            CommandName::Race => "race",
            CommandName::Report => "report",
            CommandName::Watch => "watch",
            CommandName::Batch => "batch",
            CommandName::Check => "check",
            CommandName::Replay => "replay",
            CommandName::Schedule => "schedule",
            CommandName::Format => "format",
            CommandName::Upgrade => "upgrade",
            CommandName::Turing => "turing",
            CommandName::Quadrant => "quadrant",
            CommandName::Picture => "picture",
            CommandName::Certify => "certify",
            CommandName::Verify => "verify",
            CommandName::Counter => "counter",
            CommandName::Load => "load",
        }
    }
}

// The command that a word names.
pub fn command_named_by(word: &str) -> Option<CommandName>
    ensures { result ≡ first_name (word.now ∷ []) }
{
    NAMES.iter().copied().find(|name| name.word() == word)
}

// The command as clap reads it.
#[tactic(auto, unfolding(crate::specs::Inner::Names::name_app))]
pub fn clap_command<'a>(alloc: Global, name: CommandName) -> Result<clap::Command<'a>, AllocError>
    ensures { IfOk result (λ command. app_of command ≡ name_app name) }
{
    let word: &'a str = name.word();
    match name {
        CommandName::Grow | CommandName::Race | CommandName::Report => {
            plain_command(alloc, word)
                .arg(workers_option(alloc))?
                .arg(choice_option(alloc))
        }
        CommandName::Watch => plain_command(alloc, word)
            .arg(workers_option(alloc))?
            .arg(choice_option(alloc))?
            .arg(frames_option(alloc)),
        CommandName::Batch | CommandName::Verify => {
            plain_command(alloc, word).arg(workers_option(alloc))
        }
        CommandName::Counter => plain_command(alloc, word)
            .arg(bits_argument(alloc))?
            .arg(start_argument(alloc)),
        CommandName::Load => plain_command(alloc, word).arg(load_argument(alloc)),
        _ => Ok(plain_command(alloc, word)),
    }
}

// The command of a name, with the values that a parse found for its arguments.
pub fn command_found(name: CommandName, found: &ArgMatches) -> Command
    requires { FindsNumbers (name_arguments name) (found_of found.now) }
    ensures name { name_of result ≡ name }
    ensures values { HasValues (name_arguments name) (numbers_of result) (found_of found.now) }
    ensures range { AreInRange (name_arguments name) (numbers_of result) }
{
    match name {
        CommandName::Grow => Command::Grow(crew_found(found)),
        CommandName::Race => Command::Race(crew_found(found)),
        CommandName::Report => Command::Report(crew_found(found)),
        CommandName::Watch => Command::Watch(crew_found(found), frames_found(found)),
        CommandName::Batch => Command::Batch {
            workers: workers_found(found),
        },
        CommandName::Check => Command::Check,
        CommandName::Replay => Command::Replay,
        CommandName::Schedule => Command::Schedule,
        CommandName::Format => Command::Format,
        CommandName::Upgrade => Command::Upgrade,
        CommandName::Turing => Command::Turing,
        CommandName::Quadrant => Command::Quadrant,
        CommandName::Picture => Command::Picture,
        CommandName::Certify => Command::Certify,
        CommandName::Verify => Command::Verify {
            workers: workers_found(found),
        },
        CommandName::Counter => Command::Counter {
            bits: bits_found(found),
            start: number_of(found, START),
        },
        CommandName::Load => Command::Load {
            number: number_of(found, NUMBER),
        },
    }
}

// A command without arguments, and with neither clap's help flag nor a version flag.
fn plain_command(alloc: Global, name: &str) -> clap::Command<'_>
    ensures { app_of result ≡ plain_app name.entry.now }
{
    clap::Command::new(alloc, name).disable_help_flag(true)
}

// The option `--workers N`.
fn workers_option<'a>(alloc: Global) -> Arg<'a>
    ensures rule { rule_of result ≡ number_rule workers_option }
    ensures local { result.global ≡ false }
{
    number_argument(alloc, WORKERS, Some("1"), 1, MOST_WORKERS)
}

// The option `--choice N`.
fn choice_option<'a>(alloc: Global) -> Arg<'a>
    ensures rule { rule_of result ≡ number_rule choice_option }
    ensures local { result.global ≡ false }
{
    number_argument(alloc, CHOICE, Some("0"), 0, u64::MAX)
}

// The option `--frames F`.
fn frames_option<'a>(alloc: Global) -> Arg<'a>
    ensures rule { rule_of result ≡ number_rule frames_option }
    ensures local { result.global ≡ false }
{
    number_argument(alloc, FRAMES, Some("1"), 1, MOST_FRAMES)
}

// The word `BITS`.
fn bits_argument<'a>(alloc: Global) -> Arg<'a>
    ensures rule { rule_of result ≡ number_rule bits_argument }
    ensures local { result.global ≡ false }
{
    number_argument(alloc, BITS, None, 0, u32::MAX as u64)
}

// The word `START`.
fn start_argument<'a>(alloc: Global) -> Arg<'a>
    ensures rule { rule_of result ≡ number_rule start_argument }
    ensures local { result.global ≡ false }
{
    number_argument(alloc, START, None, 0, u64::MAX)
}

// The word `N` of `load`.
fn load_argument<'a>(alloc: Global) -> Arg<'a>
    ensures rule { rule_of result ≡ number_rule load_argument }
    ensures local { result.global ≡ false }
{
    number_argument(alloc, NUMBER, None, 0, u64::MAX)
}

// The numbers of workers and of the choice that a parse found.
fn crew_found(found: &ArgMatches) -> Crew
    requires workers { FindsInRange (found_of found.now) (codes "workers") 1 16 }
    requires choice { FindsInRange (found_of found.now) (codes "choice") 0 (2 ^ 64 - 1) }
    ensures workers { FindsNumber (found_of found.now) (codes "workers") result.workers.count }
    ensures choice { FindsNumber (found_of found.now) (codes "choice") result.choice }
{
    Crew {
        workers: workers_found(found),
        choice: number_of(found, CHOICE),
    }
}

// The number of workers that a parse found.
fn workers_found(found: &ArgMatches) -> WorkerCount
    requires { FindsInRange (found_of found.now) (codes "workers") 1 16 }
    ensures { FindsNumber (found_of found.now) (codes "workers") result.count }
{
    WorkerCount::new(number_of(found, WORKERS) as u32)
}

// The number of frames that a parse found.
fn frames_found(found: &ArgMatches) -> FrameCount
    requires { FindsInRange (found_of found.now) (codes "frames") 1 1000 }
    ensures { FindsNumber (found_of found.now) (codes "frames") result.count }
{
    FrameCount::new(number_of(found, FRAMES) as u32)
}

// The number of bits that a parse found.
fn bits_found(found: &ArgMatches) -> u32
    requires { FindsInRange (found_of found.now) (codes "bits") 0 (2 ^ 32 - 1) }
    ensures { FindsNumber (found_of found.now) (codes "bits") result }
{
    number_of(found, BITS) as u32
}
