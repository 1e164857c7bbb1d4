// What several workers do, and that they come.
use meeting_gate::MeetingGate;
use program_runs::{EndedRun, Failures, answered, run_at};
use site_table::Grown;
use std::alloc::{AllocError, Global};
use std::sync::Wait;
use std::test::Fail;
use std::thread::Threads;
use tile_io::Gate;
use tilebench::Status;
use worked_systems::{COUNTED, CountingGate, RIVALS, SMALL_COUNTER};

// Whether the small counter grows into its places by so many workers, at each of three choices.
fn grows_at_any_choice<R: Threads + Wait + Sync>(
    rt: &R,
    alloc: Global,
    workers: &str,
) -> Result<bool, AllocError> {
    let mut out = String::from_str(alloc, COUNTED)?;
    out.push_str("closed terminal\nunique yes\n")?;
    for choice in ["0", "1", "18446744073709551615"] {
        let words = ["grow", "--workers", workers, "--choice", choice];
        let ran = answered(rt, alloc, &words, SMALL_COUNTER)?;
        if !ran.is(Status::Done, out.as_str(), "") {
            return Ok(false);
        }
    }
    Ok(true)
}

// A yes has the same bytes by any number of workers, at every choice.
#[test]
fn prints_the_same_by_any_workers(rt: HostRuntime) -> Result<(), Fail> {
    for workers in ["1", "2", "16"] {
        assert!(rt; grows_at_any_choice(&rt, rt.alloc(), workers)?);
    }
    Ok(())
}

// The lines of four workers' wins, by the counts of their numbers.
fn told_wins(alloc: Global, grown: &Grown) -> Result<String, AllocError> {
    let wins = [grown.won(0), grown.won(63), grown.won(62), grown.won(61)];
    let mut text = String::new(alloc);
    for (worker, won) in wins.iter().enumerate() {
        let line = format!(in alloc; "won {worker} {won}\n")?;
        text.push_str(line.as_str())?;
    }
    text.push_str("total 15\n")?;
    Ok(text)
}

#[test]
fn prints_what_each_worker_won(rt: HostRuntime) -> Result<(), Fail> {
    let alloc = rt.alloc();
    let ran = answered(&rt, alloc, &["race", "--workers", "4"], SMALL_COUNTER)?;
    let Some(grown) = &ran.grown else {
        return Err("no growth").map_err(Fail::from);
    };
    assert_eq!(rt; grown.grid().count(), 16);
    let first = grown.won(0) as u64 + grown.won(63) as u64;
    let wins = first + grown.won(62) as u64 + grown.won(61) as u64;
    assert_eq!(rt; wins, 15);
    let text = told_wins(alloc, grown)?;
    assert!(rt; ran.is(Status::Done, text.as_str(), ""));
    Ok(())
}

// A run with a gate.
fn gated<R: Threads + Wait + Sync, G: Gate>(
    rt: &R,
    alloc: Global,
    words: &[&str],
    system: &str,
    gate: &G,
) -> Result<EndedRun, AllocError> {
    let input = system.as_bytes().to_vec(alloc)?;
    run_at(rt, alloc, words, input, Failures::NONE, gate)
}

// Whether each worker comes to the gate once, with a number of its own, and no other.
fn each_comes_once<R: Threads + Wait + Sync>(
    rt: &R,
    alloc: Global,
    words: &[&str],
    system: &str,
    workers: u32,
) -> Result<bool, AllocError> {
    let gate = CountingGate::make();
    let ran = gated(rt, alloc, words, system, &gate)?;
    Ok(ran.err.len() == 0 && ran.out.len() > 0 && gate.saw_each_once(workers))
}

// Words, what they are run on, and how many workers are to come.
const CALLS: [(&[&str], &str, u32); 12] = [
    (&["grow"], SMALL_COUNTER, 1),
    (&["grow", "--choice", "7"], SMALL_COUNTER, 1),
    (&["grow", "--workers", "2"], SMALL_COUNTER, 2),
    (&["grow", "--workers", "4"], RIVALS, 4),
    (
        &["grow", "--workers", "16", "--choice", "7"],
        SMALL_COUNTER,
        16,
    ),
    (&["race"], SMALL_COUNTER, 1),
    (&["race", "--workers", "4"], SMALL_COUNTER, 4),
    (&["report"], SMALL_COUNTER, 1),
    (&["report", "--workers", "3"], SMALL_COUNTER, 3),
    (&["load", "0"], "", 4),
    (&["load", "15871"], "", 4),
    (&["check"], SMALL_COUNTER, 0),
];

#[test]
fn each_worker_comes_once(rt: HostRuntime) -> Result<(), Fail> {
    for (words, system, workers) in CALLS {
        assert!(rt; each_comes_once(&rt, rt.alloc(), words, system, workers)?);
    }
    Ok(())
}

#[test]
fn workers_run_side_by_side(rt: HostRuntime) -> Result<(), Fail> {
    let gate = MeetingGate::make(1);
    let words = ["grow", "--workers", "2"];
    let ran = gated(&rt, rt.alloc(), &words, SMALL_COUNTER, &gate)?;
    assert_eq!(rt; ran.status, Status::Done);
    assert!(rt; gate.is_met());
    Ok(())
}
