// Batches by several workers, who share one board.
use meeting_gate::MeetingGate;
use program_runs::{Failures, answered, run_at};
use std::alloc::{AllocError, Global};
use std::sync::Wait;
use std::test::Fail;
use std::thread::Threads;
use tile_io::Gate;
use tilebench::Status;
use worked_systems::{CountingGate, RIVALS, SIERPINSKI, SINGLE, SMALL_COUNTER};

// The system of each job, in turn.
const SYSTEMS: [&str; 4] = [SMALL_COUNTER, RIVALS, SINGLE, SIERPINSKI];

// So many jobs of these systems.
fn mixed_jobs(alloc: Global, count: usize) -> Result<String, AllocError> {
    let mut text = String::from_str(alloc, "batch 1\n")?;
    for number in 0..count {
        text.push_str(format!(in alloc; "job {number}\n")?.as_str())?;
        text.push_str(SYSTEMS[number % SYSTEMS.len()])?;
    }
    Ok(text)
}

// Whether so many workers print this of the batch.
fn prints<R: Threads + Wait + Sync>(
    rt: &R,
    alloc: Global,
    text: &str,
    workers: &str,
    out: &[u8],
) -> Result<bool, AllocError> {
    let ran = answered(rt, alloc, &["batch", "--workers", workers], text)?;
    Ok(ran.status == Status::No && ran.grown.is_none() && ran.out.as_slice() == out)
}

#[test]
fn prints_the_same_by_any_workers(rt: HostRuntime) -> Result<(), Fail> {
    let text = mixed_jobs(rt.alloc(), 100)?;
    let alone = answered(&rt, rt.alloc(), &["batch"], text.as_str())?;
    assert!(rt; alone.out.as_slice().ends_with(b"done 100 yes 50\n"));
    for workers in ["1", "4", "16"] {
        assert!(rt;
            prints(
                &rt,
                rt.alloc(),
                text.as_str(),
                workers,
                alone.out.as_slice()
            )?
        );
    }
    Ok(())
}

// One job with so many types, and three of the small counter.
fn one_wide_job(alloc: Global, types: u32) -> Result<String, AllocError> {
    let mut text = String::from_str(alloc, "batch 1\njob 0\ntiles 1\ntau 1\n")?;
    for number in 0..types {
        text.push_str(format!(in alloc; "tile t{number} - - - -\n")?.as_str())?;
    }
    text.push_str("box 0 0 1 1\nseed 0 0 t7\nend\n")?;
    for _ in 0..3 {
        text.push_str("job 1\n")?;
        text.push_str(SMALL_COUNTER)?;
    }
    Ok(text)
}

#[test]
fn one_job_has_all_the_types(rt: HostRuntime) -> Result<(), Fail> {
    let text = one_wide_job(rt.alloc(), 16_384)?;
    let ran = answered(&rt, rt.alloc(), &["batch", "--workers", "4"], text.as_str())?;
    assert_eq!(rt; ran.status, Status::Done);
    assert!(rt; ran.out.starts_with(b"job 0\nplace 0 0 t7\nclosed terminal\nunique yes\njob 1\n"));
    assert!(rt; ran.out.ends_with(b"done 4 yes 4\n"));
    Ok(())
}

// Whether a batch of eight jobs is answered with this gate.
fn passes<R: Threads + Wait + Sync, G: Gate>(
    rt: &R,
    alloc: Global,
    workers: &str,
    gate: &G,
) -> Result<bool, AllocError> {
    let text = mixed_jobs(alloc, 8)?;
    let input = text.as_bytes().to_vec(alloc)?;
    let words = ["batch", "--workers", workers];
    let ran = run_at(rt, alloc, &words, input, Failures::NONE, gate)?;
    Ok(ran.out.ends_with(b"done 8 yes 4\n"))
}

#[test]
fn each_worker_comes_once(rt: HostRuntime) -> Result<(), Fail> {
    for (workers, count) in [("1", 1u32), ("2", 2), ("5", 5), ("16", 16)] {
        let gate = CountingGate::make();
        assert!(rt; passes(&rt, rt.alloc(), workers, &gate)?);
        assert!(rt; gate.saw_each_once(count));
    }
    Ok(())
}

#[test]
fn two_workers_meet(rt: HostRuntime) -> Result<(), Fail> {
    let gate = MeetingGate::make(1);
    assert!(rt; passes(&rt, rt.alloc(), "2", &gate)?);
    assert!(rt; gate.is_met());
    Ok(())
}
