// How runs end over objects that tell nothing.
use crate::hostile::objects::{Drip, Endless, FAULTS_A_CALL, Narrow};
use std::alloc::{AllocError, Global};
use std::sync::Wait;
use std::test::Fail;
use std::thread::Threads;
use tile_io::{OpenGate, Source};
use tilebench::{Status, tilebench};
use worked_systems::CHAIN;

const AMPLE: usize = 4096;

// How many bytes the sinks have room for.
#[derive(Clone, Copy)]
struct Rooms {
    out: usize,
    err: usize,
}

const AMPLE_ROOMS: Rooms = Rooms {
    out: AMPLE,
    err: AMPLE,
};

// How a run ended, and how many bytes its sinks took.
type Ended = (Status, usize, usize);

fn run_on<R: Threads + Wait + Sync, S: Source>(
    rt: &R,
    alloc: Global,
    command: &str,
    source: &mut S,
    rooms: Rooms,
) -> Result<Ended, AllocError> {
    let words = [String::from_str(alloc, command)?];
    let mut out = Narrow::of(rooms.out);
    let mut err = Narrow::of(rooms.err);
    let ran = tilebench(rt, alloc, &words, source, &mut out, &mut err, &OpenGate);
    Ok((ran.status, out.taken(), err.taken()))
}

// The first number of bytes of the chain's text after which the source fails and the run ends
// otherwise than with that one call's faults.
fn first_unlike_source<R: Threads + Wait + Sync>(
    rt: &R,
    alloc: Global,
) -> Result<Option<usize>, AllocError> {
    for fails_from in 0..CHAIN.len() + 1 {
        let mut source = Drip::of(CHAIN, fails_from);
        let ended = run_on(rt, alloc, "grow", &mut source, AMPLE_ROOMS)?;
        if ended != (Status::ReadFault, 0, 0) || source.faults() != FAULTS_A_CALL {
            return Ok(Some(fails_from));
        }
    }
    Ok(None)
}

// The first room for the answer with which the run ends otherwise than with as much of it.
fn first_unlike_room<R: Threads + Wait + Sync>(
    rt: &R,
    alloc: Global,
) -> Result<Option<usize>, AllocError> {
    for room in 0..64 {
        let mut source = Drip::of(CHAIN, usize::MAX);
        let rooms = Rooms {
            out: room,
            err: AMPLE,
        };
        let ended = run_on(rt, alloc, "grow", &mut source, rooms)?;
        let status = if room < 63 {
            Status::WriteFault
        } else {
            Status::Done
        };
        if ended != (status, room.min(63), 0) {
            return Ok(Some(room));
        }
    }
    Ok(None)
}

// Each number of bytes after which the source fails, or a sink.
#[test]
fn tells_each_fault(rt: HostRuntime) -> Result<(), Fail> {
    assert_eq!(rt; first_unlike_source(&rt, rt.alloc())?, None);
    assert_eq!(rt; first_unlike_room(&rt, rt.alloc())?, None);
    Ok(())
}

const READING: [&str; 15] = [
    "grow", "watch", "batch", "race", "report", "check", "certify", "verify", "replay", "schedule",
    "format", "upgrade", "turing", "quadrant", "picture",
];

// After how many reads an empty source fails, the room for a refusal, and how the run ends.
const EMPTY: [(usize, usize, Ended); 3] = [
    (0, AMPLE, (Status::ReadFault, 0, 0)),
    (1, AMPLE, (Status::Text, 0, 29)),
    (1, 28, (Status::WriteFault, 0, 28)),
];

// The number, from 0, of the first of these ways in which the command ends otherwise.
fn first_unlike_empty<R: Threads + Wait + Sync>(
    rt: &R,
    alloc: Global,
    command: &str,
) -> Result<Option<usize>, AllocError> {
    for (number, (fails_from, room, wanted)) in EMPTY.iter().enumerate() {
        let mut source = Drip::of("", *fails_from);
        let rooms = Rooms {
            out: AMPLE,
            err: *room,
        };
        let ended = run_on(rt, alloc, command, &mut source, rooms)?;
        let faults = if wanted.0 == Status::ReadFault {
            FAULTS_A_CALL
        } else {
            0
        };
        if ended != *wanted || source.faults() != faults {
            return Ok(Some(number));
        }
    }
    Ok(None)
}

// Each command on an input that fails at once, and on none.
#[test]
fn tells_the_cause_by_each_command(rt: HostRuntime) -> Result<(), Fail> {
    for command in READING {
        assert_eq!(rt; first_unlike_empty(&rt, rt.alloc(), command)?, None);
    }
    Ok(())
}

// Commands on the chain's text, and how they end where nothing fails.
const CHAINED: [(&str, Ended); 7] = [
    ("grow", (Status::Done, 63, 0)),
    ("check", (Status::No, 11, 0)),
    ("replay", (Status::No, 15, 0)),
    ("certify", (Status::No, 15, 0)),
    ("verify", (Status::No, 18, 0)),
    ("picture", (Status::Done, 16, 0)),
    ("format", (Status::Done, 104, 0)),
];

// How a command ends on the chain's text, where the source fails from a call on, and how many faults
// it counts.
fn dripped<R: Threads + Wait + Sync>(
    rt: &R,
    alloc: Global,
    command: &str,
    fails_from: usize,
) -> Result<(Ended, u64), AllocError> {
    let mut source = Drip::of(CHAIN, fails_from);
    let ended = run_on(rt, alloc, command, &mut source, AMPLE_ROOMS)?;
    Ok((ended, source.faults()))
}

// A source that has told its end is not asked again: where it would fail then it counts no fault, and
// where it fails in place of its end it counts those of one call.
#[test]
fn asks_no_more_behind_the_end(rt: HostRuntime) -> Result<(), Fail> {
    for (command, ended) in CHAINED {
        let behind = dripped(&rt, rt.alloc(), command, CHAIN.len() + 1)?;
        assert!(rt; behind == (ended, 0), "{command}");
        let at_end = dripped(&rt, rt.alloc(), command, CHAIN.len())?;
        assert!(rt;
            at_end == ((Status::ReadFault, 0, 0), FAULTS_A_CALL),
            "{command}"
        );
    }
    Ok(())
}

#[test]
fn refuses_an_input_without_an_end(rt: HostRuntime) -> Result<(), Fail> {
    let ended = run_on(&rt, rt.alloc(), "grow", &mut Endless, AMPLE_ROOMS)?;
    assert_eq!(rt; ended, (Status::Text, 0, 28));
    Ok(())
}
