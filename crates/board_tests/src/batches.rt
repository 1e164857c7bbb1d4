// Batches that are read, worked by several workers, and printed.
ghost use Rattle.std.specs.Prelude.{◌≤◌};

use job_board::{print_batch, read_batch, run_board};
use std::alloc::Global;
use std::sync::Wait;
use std::test::Fail;
use std::thread::Threads;
use tile_io::{Gate, MOST_INPUT, Mark, MemorySink, OpenGate};
use worked_systems::{SINGLE, SMALL_COUNTER};

/// Two systems, of which the second is clipped.
pub const SINGLE_AND_CLIPPED: &str =
    "batch 1\n# the first\njob 0\ntiles 1\ntau 1\ntile S - - - -\nbox 0 0 0 0\nseed 0 0 S\nend\n\njob 7\n\
     tiles 1\ntau 1\nglue a 1\nglue b 1\ntile S - a - -\ntile B - b - a\ntile C - - - b\n\
     box 0 0 1 0\nseed 0 0 S\nend\n";

const ANSWERED: &str =
    "job 0\nplace 0 0 S\nclosed terminal\nunique yes\njob 1\nplace 0 0 S\nplace 1 0 B\n\
     closed clipped 2 0 C\nunique no 3 2 0 C\ndone 2 yes 1\n";

/// What so many workers answer to a batch.
pub fn answered<R: Threads + Wait + Sync, G: Gate>(
    rt: &R,
    alloc: Global,
    text: &str,
    workers: u32,
    gate: &G,
) -> Result<Vec<u8>, Fail>
    requires some { 1 ≤ workers }
    requires few { workers ≤ 16 }
{
    if text.len() > MOST_INPUT {
        return Err("too long").map_err(Fail::from);
    }
    let jobs = read_batch(alloc, text.as_bytes(), Mark::start())?;
    let outcomes = run_board(rt, alloc, jobs.as_slice(), workers, gate)?;
    let mut sink = MemorySink::make(alloc, 1_000_000, 4096, Vec::new(alloc))?;
    print_batch(jobs.as_slice(), outcomes.as_slice(), &mut sink)?;
    Ok(sink.bytes().to_vec(alloc)?)
}

#[test]
fn answers_two_jobs(rt: HostRuntime) -> Result<(), Fail> {
    for workers in 1..17u32 {
        let text = answered(&rt, rt.alloc(), SINGLE_AND_CLIPPED, workers, &OpenGate)?;
        assert!(rt; text.as_slice() == ANSWERED.as_bytes());
    }
    Ok(())
}

/// So many jobs of the small counter, and one of a single tile behind every third of them.
pub fn many_jobs(alloc: Global, count: u32) -> Result<String, Fail> {
    let mut text = String::from_str(alloc, "batch 1\n")?;
    for number in 0..count {
        text.push_str(format!(in alloc; "job {number}\n")?.as_str())?;
        text.push_str(if number % 3 == 2 {
            SINGLE
        } else {
            SMALL_COUNTER
        })?;
    }
    Ok(text)
}

#[test]
fn answers_the_most_jobs_in_order(rt: HostRuntime) -> Result<(), Fail> {
    let text = many_jobs(rt.alloc(), 1024)?;
    let alone = answered(&rt, rt.alloc(), text.as_str(), 1, &OpenGate)?;
    let together = answered(&rt, rt.alloc(), text.as_str(), 16, &OpenGate)?;
    assert!(rt; alone.as_slice() == together.as_slice());
    assert!(rt; together.as_slice().ends_with(b"done 1024 yes 1024\n"));
    Ok(())
}
