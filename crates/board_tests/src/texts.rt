// The text of batches: refused.
use crate::batches::{SINGLE_AND_CLIPPED, many_jobs};
use job_board::read_batch;
use std::alloc::{AllocError, Global};
use std::test::Fail;
use tile_io::{Cause, MOST_INPUT, Mark, TextFault, TextStop};
use worked_systems::{SINGLE, changed_line};

// What refuses a text.
fn refusal(alloc: Global, text: &str) -> Option<TextStop> {
    if text.len() > MOST_INPUT {
        return None;
    }
    read_batch(alloc, text.as_bytes(), Mark::start()).err()
}

// A line of the two jobs, counted from 1, what stands there instead, and the line and the cause of
// what refuses it.
const CHANGED: [(usize, &str, u32, Cause); 16] = [
    (1, "batch 2", 1, Cause::NoHeader),
    (1, "batch", 1, Cause::NoHeader),
    (1, "tiles 1", 1, Cause::NoHeader),
    (3, "tau 1", 3, Cause::BadLine),
    (3, "batch 1", 3, Cause::BadLine),
    (3, "job", 3, Cause::BadLine),
    (3, "job 1 2", 3, Cause::BadLine),
    (3, "job one", 3, Cause::BadNumber),
    (3, "job 4294967296", 3, Cause::OutOfRange),
    (3, "job -1", 3, Cause::OutOfRange),
    (4, "tau 1", 4, Cause::NoHeader),
    (4, "job 1", 4, Cause::NoHeader),
    (5, "tau 1\ntau 1", 6, Cause::OutOfOrder),
    (8, "seed 1 0 S", 8, Cause::SeedOutside),
    (10, "end", 10, Cause::BadLine),
    (21, "# no end", 22, Cause::NoEnd),
];

// The number, from 0, of the first change that is refused otherwise.
fn first_unlike(alloc: Global) -> Result<Option<usize>, AllocError> {
    for (change, (number, line, at, cause)) in CHANGED.iter().enumerate() {
        let text = changed_line(alloc, SINGLE_AND_CLIPPED, *number, line)?;
        let fault = TextFault {
            line: *at,
            cause: *cause,
        };
        if refusal(alloc, text.as_str()) != Some(TextStop::Fault(fault)) {
            return Ok(Some(change));
        }
    }
    Ok(None)
}

#[test]
fn refuses_a_changed_line(rt: HostRuntime) -> Result<(), Fail> {
    assert_eq!(rt; first_unlike(rt.alloc())?, None);
    Ok(())
}

// Inputs that end early, and the line and the cause of what refuses them.
const ENDED: [(&str, u32, Cause); 6] = [
    ("", 1, Cause::NoHeader),
    ("# none\n", 2, Cause::NoHeader),
    ("batch 1\n", 2, Cause::NoEnd),
    ("batch 1\n# none\n", 3, Cause::NoEnd),
    ("batch 1\njob 0\n", 3, Cause::NoEnd),
    ("batch 1\njob 0\n\ntiles 1\n", 5, Cause::NoEnd),
];

#[test]
fn refuses_an_input_that_ends_early(rt: HostRuntime) -> Result<(), Fail> {
    for (text, line, cause) in ENDED {
        let fault = TextFault { line, cause };
        assert!(rt; refusal(rt.alloc(), text) == Some(TextStop::Fault(fault)));
    }
    Ok(())
}

#[test]
fn takes_no_more_jobs_than_the_limit(rt: HostRuntime) -> Result<(), Fail> {
    let most = many_jobs(rt.alloc(), 1024)?;
    assert!(rt; refusal(rt.alloc(), most.as_str()).is_none());
    let more = many_jobs(rt.alloc(), 1025)?;
    let Some(TextStop::Fault(fault)) = refusal(rt.alloc(), more.as_str()) else {
        return Err("not refused").map_err(Fail::from);
    };
    assert_eq!(rt; fault.cause, Cause::TooMany);
    Ok(())
}

// Four jobs of one tile in the largest box.
fn wide_jobs(alloc: Global) -> Result<String, AllocError> {
    let mut text = String::from_str(alloc, "batch 1\n")?;
    for _ in 0..4u32 {
        text.push_str("job 0\ntiles 1\ntau 1\ntile S - - - -\n")?;
        text.push_str("box 0 0 1023 1023\nseed 0 0 S\nend\n")?;
    }
    Ok(text)
}

#[test]
fn takes_no_more_sites_than_the_limit(rt: HostRuntime) -> Result<(), Fail> {
    let mut jobs = wide_jobs(rt.alloc())?;
    assert!(rt; refusal(rt.alloc(), jobs.as_str()).is_none());
    let fault = TextFault {
        line: 36,
        cause: Cause::TooMany,
    };
    jobs.push_str("job 0\n")?;
    jobs.push_str(SINGLE)?;
    assert!(rt; refusal(rt.alloc(), jobs.as_str()) == Some(TextStop::Fault(fault)));
    Ok(())
}
