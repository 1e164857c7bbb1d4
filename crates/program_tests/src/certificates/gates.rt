// Who comes to the gate of `verify`, and that its workers run side by side.
use crate::certificates::CHAIN_MARKS;
use meeting_gate::MeetingGate;
use program_runs::{EndedRun, Failures, run_at};
use std::alloc::{AllocError, Global};
use std::sync::Wait;
use std::test::Fail;
use std::thread::Threads;
use tile_io::Gate;
use tilebench::Status;
use worked_systems::{CHAIN, CountingGate};

// A run on the row of three tiles and these marks, with a gate.
fn gated<R: Threads + Wait + Sync, G: Gate>(
    rt: &R,
    alloc: Global,
    words: &[&str],
    marks: &str,
    gate: &G,
) -> Result<EndedRun, AllocError> {
    let mut input = CHAIN.as_bytes().to_vec(alloc)?;
    input.extend_from_slice(marks.as_bytes())?;
    run_at(rt, alloc, words, input, Failures::NONE, gate)
}

// Words, marks, how many workers are to come, and the answer.
type Call = (
    &'static [&'static str],
    &'static str,
    u32,
    Status,
    &'static str,
);

const YES: &str = "verified yes\n";

// A certificate that lacks the seed's mark is gone through too.
const SEEDLESS: &str = "mark 1 0 B W 1\nmark 2 0 C W 2\n";

const CALLS: [Call; 5] = [
    (&["verify"], CHAIN_MARKS, 1, Status::Done, YES),
    (
        &["verify", "--workers", "3"],
        CHAIN_MARKS,
        3,
        Status::Done,
        YES,
    ),
    (
        &["verify", "--workers", "16"],
        CHAIN_MARKS,
        16,
        Status::Done,
        YES,
    ),
    (
        &["verify", "--workers", "3"],
        SEEDLESS,
        3,
        Status::No,
        "verified no 1 0 0\n",
    ),
    (&["verify"], "", 1, Status::No, "verified no 1 0 0\n"),
];

// Whether each worker comes to the gate once, with a number of its own, and no other.
fn each_comes_once<R: Threads + Wait + Sync>(
    rt: &R,
    alloc: Global,
    call: Call,
) -> Result<bool, AllocError> {
    let (words, marks, workers, status, answer) = call;
    let gate = CountingGate::make();
    let ran = gated(rt, alloc, words, marks, &gate)?;
    Ok(ran.is(status, answer, "") && gate.saw_each_once(workers))
}

#[test]
fn each_worker_comes_once(rt: HostRuntime) -> Result<(), Fail> {
    for call in CALLS {
        assert!(rt; each_comes_once(&rt, rt.alloc(), call)?);
    }
    Ok(())
}

#[test]
fn two_workers_check_side_by_side(rt: HostRuntime) -> Result<(), Fail> {
    let gate = MeetingGate::make(1);
    let words = ["verify", "--workers", "2"];
    let ran = gated(&rt, rt.alloc(), &words, CHAIN_MARKS, &gate)?;
    assert!(rt; ran.is(Status::Done, YES, ""));
    assert!(rt; gate.is_met());
    Ok(())
}
