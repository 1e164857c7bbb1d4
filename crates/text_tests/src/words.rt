// What is made of lists of words.
use command_line::{Command, WordsStop, command_of};
use std::alloc::{AllocError, Global};
use std::test::Fail;

// What `text`, split at its newlines, comes to.
fn read(alloc: Global, text: &str) -> Result<Result<Command, WordsStop>, AllocError> {
    let mut words = Vec::new(alloc);
    for word in text.split('\n') {
        words.push(String::from_str(alloc, word)?)?;
    }
    Ok(command_of(alloc, &words))
}

// Texts whose first word names no command.
const NO_COMMAND: [&str; 6] = ["gorw", "", "--help", "grow check", "Grow", "pictures"];

// Texts that misuse a command without numbers of its own.
const MISUSED: [&str; 27] = [
    "grow\n--workers\n0",
    "grow\n--workers\n17",
    "grow\n--workers\n4294967297",
    "grow\n--workers\n2\n--workers\n2",
    "race\n--workers\n0",
    "grow\n--choice\n18446744073709551616",
    "grow\n--choice\n-1",
    "grow\n--choice\nx",
    "grow\n--choice",
    "grow\n--choice\n1\n--choice\n1",
    "report\n--workers\n17",
    "report\n3",
    "check\n--choice\n1",
    "grow\n--\n--",
    "grow\ncheck",
    "check\n--workers\n2",
    "grow\n--help",
    "grow\nhelp",
    "grow\n-h",
    "grow\n--version",
    "grow\n-V",
    "grow\n-",
    "grow\n",
    "grow\n ",
    "check\na b",
    "replay\nx",
    "format\n\n",
];

// Texts that misuse one with numbers, or without any words.
const MISUSED_NUMBERS: [&str; 17] = [
    "turing\n--choice\n1",
    "turing\nx",
    "picture\n--workers\n1",
    "counter\n4294967296\n0",
    "counter\n2\n18446744073709551616",
    "counter",
    "counter\n2",
    "counter\n2\n0\n0",
    "counter\n2\n-1",
    "counter\n2\n",
    "counter\n2 0",
    "counter\n2\n0x1",
    "counter\n--bits\n2\n0",
    "load",
    "load\n0\n0",
    "load\n18446744073709551616",
    "load\n--workers\n4\n0",
];

// Each of the texts is refused with this stop.
fn all_refused(alloc: Global, texts: &[&str], stop: WordsStop) -> Result<bool, AllocError> {
    for text in texts {
        if read(alloc, text)? != Err(stop) {
            return Ok(false);
        }
    }
    Ok(true)
}

#[test]
fn refuses_words(rt: HostRuntime) -> Result<(), Fail> {
    let alloc = rt.alloc();
    assert_eq!(rt; command_of(alloc, &[]), Err(WordsStop::NoCommand));
    assert!(rt; all_refused(alloc, &NO_COMMAND, WordsStop::NoCommand)?);
    assert!(rt; all_refused(alloc, &MISUSED, WordsStop::Usage)?);
    assert!(rt; all_refused(alloc, &MISUSED_NUMBERS, WordsStop::Usage)?);
    Ok(())
}

// The commands that grow by workers.
#[derive(Clone, Copy, PartialEq, Eq)]
enum Grower {
    Grow,
    Race,
    Report,
}

// Texts, and what they come to: a command, a number of workers, a choice.
const GROWING: [(&str, Grower, u32, u64); 14] = [
    ("grow", Grower::Grow, 1, 0),
    ("grow\n--choice\n7", Grower::Grow, 1, 7),
    ("grow\n--choice=7", Grower::Grow, 1, 7),
    (
        "grow\n--choice\n18446744073709551615",
        Grower::Grow,
        1,
        u64::MAX,
    ),
    ("grow\n--workers\n2", Grower::Grow, 2, 0),
    ("grow\n--workers=16\n--choice\n7", Grower::Grow, 16, 7),
    ("grow\n--choice\n7\n--workers\n16", Grower::Grow, 16, 7),
    ("grow\n--workers\n04", Grower::Grow, 4, 0),
    ("race", Grower::Race, 1, 0),
    ("race\n--choice\n1\n--workers\n4", Grower::Race, 4, 1),
    ("report", Grower::Report, 1, 0),
    ("report\n--workers\n3", Grower::Report, 3, 0),
    ("report\n--choice\n5\n--workers\n16", Grower::Report, 16, 5),
    ("grow\n--", Grower::Grow, 1, 0),
];

// The command, the number of workers and the choice of a command that grows.
fn growing(command: Command) -> Option<(Grower, u32, u64)> {
    match command {
        Command::Grow(crew) => Some((Grower::Grow, crew.workers.get(), crew.choice)),
        Command::Race(crew) => Some((Grower::Race, crew.workers.get(), crew.choice)),
        Command::Report(crew) => Some((Grower::Report, crew.workers.get(), crew.choice)),
        _ => None,
    }
}

// The number, from 0, of the first of the texts that comes to something else.
fn first_other_growing(alloc: Global) -> Result<Option<usize>, AllocError> {
    for (number, (text, grower, workers, choice)) in GROWING.iter().enumerate() {
        let came = read(alloc, text)?.ok().and_then(growing);
        if came != Some((*grower, *workers, *choice)) {
            return Ok(Some(number));
        }
    }
    Ok(None)
}

// Other texts, and what they come to.
const OTHERS: [(&str, Result<Command, WordsStop>); 14] = [
    ("check", Ok(Command::Check)),
    ("replay", Ok(Command::Replay)),
    ("format", Ok(Command::Format)),
    ("turing", Ok(Command::Turing)),
    ("picture", Ok(Command::Picture)),
    ("upgrade", Ok(Command::Upgrade)),
    ("counter\n2\n0", Ok(Command::Counter { bits: 2, start: 0 })),
    (
        "counter\n40\n0",
        Ok(Command::Counter { bits: 40, start: 0 }),
    ),
    (
        "counter\n+2\n007",
        Ok(Command::Counter { bits: 2, start: 7 }),
    ),
    (
        "counter\n4294967295\n18446744073709551615",
        Ok(Command::Counter {
            bits: u32::MAX,
            start: u64::MAX,
        }),
    ),
    (
        "counter\n--\n2\n3",
        Ok(Command::Counter { bits: 2, start: 3 }),
    ),
    ("load\n0", Ok(Command::Load { number: 0 })),
    ("load\n15871", Ok(Command::Load { number: 15871 })),
    (
        "load\n18446744073709551615",
        Ok(Command::Load { number: u64::MAX }),
    ),
];

// The number, from 0, of the first of these texts that comes to something else.
fn first_unlike(
    alloc: Global,
    texts: &[(&str, Result<Command, WordsStop>)],
) -> Result<Option<usize>, AllocError> {
    for (number, (text, wanted)) in texts.iter().enumerate() {
        if read(alloc, text)? != *wanted {
            return Ok(Some(number));
        }
    }
    Ok(None)
}

#[test]
fn reads_commands(rt: HostRuntime) -> Result<(), Fail> {
    assert_eq!(rt; first_other_growing(rt.alloc())?, None);
    assert_eq!(rt; first_unlike(rt.alloc(), &OTHERS)?, None);
    Ok(())
}

#[test]
fn tells_stops(rt: HostRuntime) -> Result<(), Fail> {
    for (stop, text) in [
        (
            WordsStop::NoCommand,
            "the first word is missing or names no command",
        ),
        (WordsStop::Usage, "the command does not take these words"),
        (WordsStop::NoMemory, "memory was wanting"),
    ] {
        let printed = format!(in rt.alloc(); "{stop}")?;
        assert!(rt; printed.as_str() == text);
    }
    Ok(())
}
