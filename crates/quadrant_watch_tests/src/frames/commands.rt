// The command: its words, and what stands behind its frames.
use crate::frames::answers::{count_of_frames, parts};
use program_runs::{Case, answered, first_unlike};
use site_table::Grown;
use std::alloc::{AllocError, Global};
use std::sync::Wait;
use std::test::Fail;
use std::thread::Threads;
use tilebench::Status;
use worked_systems::{CHAIN, RIVALS, SIERPINSKI, SINGLE, SMALL_COUNTER};

const USAGE: &str = "refused words Usage\n";

// Runs of one tile, which each frame has, and runs that are refused.
const RUNS: [Case; 8] = [
    Case {
        words: &["watch"],
        system: SINGLE,
        behind: "",
        status: Status::Done,
        out: "frame 1 1\nplace 0 0 S\ngrown\nplace 0 0 S\nclosed terminal\nunique yes\n",
        err: "",
    },
    Case {
        words: &["watch", "--frames", "3", "--choice", "7", "--workers", "2"],
        system: SINGLE,
        behind: "# no more\n\n",
        status: Status::Done,
        out: "frame 1 1\nplace 0 0 S\nframe 2 1\nframe 3 1\ngrown\nplace 0 0 S\n\
            closed terminal\nunique yes\n",
        err: "",
    },
    Case {
        words: &["watch", "--frames", "0"],
        system: SINGLE,
        behind: "",
        status: Status::Words,
        out: "",
        err: USAGE,
    },
    Case {
        words: &["watch", "--frames", "1001"],
        system: SINGLE,
        behind: "",
        status: Status::Words,
        out: "",
        err: USAGE,
    },
    Case {
        words: &["watch", "--workers", "17"],
        system: SINGLE,
        behind: "",
        status: Status::Words,
        out: "",
        err: USAGE,
    },
    Case {
        words: &["grow", "--frames", "1"],
        system: SINGLE,
        behind: "",
        status: Status::Words,
        out: "",
        err: USAGE,
    },
    Case {
        words: &["watch"],
        system: SINGLE,
        behind: "place 0 0 S\n",
        status: Status::Text,
        out: "",
        err: "refused text line 7 AfterEnd\n",
    },
    Case {
        words: &["watch", "--frames", "2"],
        system: "",
        behind: "",
        status: Status::Text,
        out: "",
        err: "refused text line 1 NoHeader\n",
    },
];

#[test]
fn runs_end_as_they_should(rt: HostRuntime) -> Result<(), Fail> {
    assert_eq!(rt; first_unlike(&rt, rt.alloc(), &RUNS)?, None);
    Ok(())
}

// How many tiles were handed out, if a growth was.
fn count_of(grown: &Option<Grown>) -> Option<u32> {
    match grown {
        Some(grown) => Some(grown.grid().count()),
        None => None,
    }
}

// How many legal frames stand before what `grow` prints of the system with the same status, where
// as many tiles are handed out.
fn frames_before_growth<R: Threads + Wait + Sync>(
    rt: &R,
    alloc: Global,
    words: &[&str],
    system: &str,
) -> Result<Option<u32>, AllocError> {
    let ran = answered(rt, alloc, words, system)?;
    let Some((frames, growth)) = parts(&ran.out) else {
        return Ok(None);
    };
    if !is_growth(rt, alloc, system, ran.status, growth, count_of(&ran.grown))? {
        return Ok(None);
    }
    count_of_frames(rt, alloc, system, frames)
}

// Whether `grow` ends so, prints this text, and hands out so many tiles.
fn is_growth<R: Threads + Wait + Sync>(
    rt: &R,
    alloc: Global,
    system: &str,
    status: Status,
    growth: &str,
    tiles: Option<u32>,
) -> Result<bool, AllocError> {
    let ran = answered(rt, alloc, &["grow"], system)?;
    Ok(ran.is(status, growth, "") && count_of(&ran.grown) == tiles)
}

// Words, a system that grows in one way within its box, and how many frames there are to be.
const WATCHED: [(&[&str], &str, u32); 5] = [
    (&["watch", "--workers", "2", "--frames", "2"], CHAIN, 2),
    (
        &["watch", "--workers", "4", "--frames", "12"],
        SIERPINSKI,
        12,
    ),
    (&["watch", "--choice", "5", "--frames", "4"], SIERPINSKI, 4),
    (&["watch", "--workers", "16"], SMALL_COUNTER, 1),
    (&["watch", "--frames", "1000"], CHAIN, 1000),
];

#[test]
fn legal_frames_stand_before_the_growth(rt: HostRuntime) -> Result<(), Fail> {
    for (words, system, many) in WATCHED {
        let found = frames_before_growth(&rt, rt.alloc(), words, system)?;
        assert_eq!(rt; found, Some(many));
    }
    Ok(())
}

// Where the choice decides, the growth is one of those that `grow` has.
const OF_RIVALS: [&str; 2] = [
    "place 0 0 S\nplace 1 0 A\nclosed terminal\nunique no 2 1 0 B\n",
    "place 0 0 S\nplace 1 0 B\nclosed terminal\nunique no 2 1 0 A\n",
];

#[test]
fn a_choice_is_watched(rt: HostRuntime) -> Result<(), Fail> {
    let ran = answered(&rt, rt.alloc(), &["watch", "--choice", "3"], RIVALS)?;
    let (_frames, growth) = parts(&ran.out).unwrap_or(("", ""));
    assert_eq!(rt; ran.status, Status::No);
    assert!(rt; growth == OF_RIVALS[0] || growth == OF_RIVALS[1]);
    Ok(())
}
