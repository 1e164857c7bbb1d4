// Who comes to the gate, and that the watcher takes its frames while workers run.
ghost use Rattle.std.specs.Prelude.{◌≤◌};

use meeting_gate::MeetingGate;
use program_runs::{EndedRun, Failures, run_at};
use std::alloc::{AllocError, Global};
use std::sync::Wait;
use std::test::Fail;
use std::thread::Threads;
use tile_io::Gate;
use tile_system::{NoMemory, System};
use tilebench::Status;
use watch_frames::{Frames, watch};
use worked_systems::{CountingGate, SIERPINSKI, SMALL_COUNTER, system};

// A run with a gate.
fn gated<R: Threads + Wait + Sync, G: Gate>(
    rt: &R,
    alloc: Global,
    words: &[&str],
    system: &str,
    gate: &G,
) -> Result<EndedRun, AllocError> {
    let input = system.as_bytes().to_vec(alloc)?;
    run_at(rt, alloc, words, input, Failures::NONE, gate)
}

// Whether so many come to the gate, each once with a number of its own: the workers and then the
// watcher.
fn each_comes_once<R: Threads + Wait + Sync>(
    rt: &R,
    alloc: Global,
    words: &[&str],
    comers: u32,
) -> Result<bool, AllocError> {
    let gate = CountingGate::make();
    let ran = gated(rt, alloc, words, SMALL_COUNTER, &gate)?;
    Ok(ran.status == Status::Done && gate.saw_each_once(comers))
}

// Words, and how many are to come.
const CALLS: [(&[&str], u32); 3] = [
    (&["watch"], 2),
    (&["watch", "--workers", "3", "--frames", "9"], 4),
    (&["watch", "--workers", "15", "--choice", "7"], 16),
];

#[test]
fn workers_and_the_watcher_come_once(rt: HostRuntime) -> Result<(), Fail> {
    for (words, comers) in CALLS {
        assert!(rt; each_comes_once(&rt, rt.alloc(), words, comers)?);
    }
    Ok(())
}

#[test]
fn the_program_watches_while_workers_run(rt: HostRuntime) -> Result<(), Fail> {
    let gate = MeetingGate::make(4);
    let words = ["watch", "--workers", "4", "--frames", "6"];
    let ran = gated(&rt, rt.alloc(), &words, SIERPINSKI, &gate)?;
    assert_eq!(rt; ran.status, Status::No);
    assert!(rt; gate.is_met());
    Ok(())
}

// Whether the first frame has a place, and none has fewer than the one before.
fn are_rising(frames: &Frames) -> bool {
    let mut before = 1;
    for index in 0..frames.taken() {
        let count = frames.count(index);
        if count < before {
            return false;
        }
        before = count;
    }
    true
}

// How many frames are taken and how many tiles grow, where no frame has fewer places than the one
// before it.
fn watched<R: Threads + Sync, G: Gate>(
    rt: &R,
    alloc: Global,
    sys: &System,
    workers: u32,
    frames: u32,
    gate: &G,
) -> Result<Option<(u32, u32)>, NoMemory>
    requires some { 1 ≤ workers }
    requires few { workers ≤ 16 }
    requires some_frame { 1 ≤ frames }
    requires few_frames { frames ≤ 1000 }
{
    let (frames, grown) = watch(rt, alloc, sys, workers, 0, frames, gate)?;
    if !are_rising(&frames) {
        return Ok(None);
    }
    Ok(Some((frames.taken(), grown.grid().count())))
}

#[test]
fn the_library_watches_while_workers_run(rt: HostRuntime) -> Result<(), Fail> {
    let sys = system(rt.alloc(), SIERPINSKI)?;
    let gate = MeetingGate::make(2);
    let found = watched(&rt, rt.alloc(), &sys, 2, 20, &gate)?;
    assert!(rt; found == Some((20, 64)));
    assert!(rt; gate.is_met());
    Ok(())
}
