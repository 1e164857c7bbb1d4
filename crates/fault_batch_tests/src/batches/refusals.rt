// Batches that are refused.
use crate::batches::answers::TWO_JOBS;
use program_runs::answered;
use std::alloc::{AllocError, Global};
use std::sync::Wait;
use std::test::Fail;
use std::thread::Threads;
use tilebench::Status;
use worked_systems::changed_line;

// Whether the text is refused so: its line and its cause.
fn is_refused<R: Threads + Wait + Sync>(
    rt: &R,
    alloc: Global,
    text: &str,
    told: &str,
) -> Result<bool, AllocError> {
    let err = format!(in alloc; "refused text line {told}\n")?;
    let ran = answered(rt, alloc, &["batch", "--workers", "2"], text)?;
    Ok(ran.is(Status::Text, "", err.as_str()))
}

// A line of the two jobs, counted from 1, what stands there instead, and what refuses the text.
const CHANGED: [(usize, &str, &str); 20] = [
    (1, "batch 2", "1 NoHeader"),
    (1, "batch", "1 NoHeader"),
    (1, "tiles 1", "1 NoHeader"),
    (2, "tau 1", "2 BadLine"),
    (2, "batch 1", "2 BadLine"),
    (2, "job", "2 BadLine"),
    (2, "job 1 2", "2 BadLine"),
    (2, "job one", "2 BadNumber"),
    (2, "job 4294967296", "2 OutOfRange"),
    (2, "job -1", "2 OutOfRange"),
    (3, "tau 1", "3 NoHeader"),
    (3, "job 1", "3 NoHeader"),
    (5, "tile S - - -", "5 BadLine"),
    (7, "seed 1 0 S", "7 SeedOutside"),
    (8, "# no end", "9 BadLine"),
    (9, "end", "9 BadLine"),
    (9, "tiles 1", "9 BadLine"),
    (12, "glue a x", "12 BadNumber"),
    (16, "tile B - - - b", "16 DoubleName"),
    (19, "# no end", "20 NoEnd"),
];

// The number, from 0, of the first change that ends otherwise.
fn first_unlike<R: Threads + Wait + Sync>(
    rt: &R,
    alloc: Global,
) -> Result<Option<usize>, AllocError> {
    for (change, (number, line, told)) in CHANGED.iter().enumerate() {
        let text = changed_line(alloc, TWO_JOBS, *number, line)?;
        if !is_refused(rt, alloc, text.as_str(), told)? {
            return Ok(Some(change));
        }
    }
    Ok(None)
}

#[test]
fn refuses_a_changed_line(rt: HostRuntime) -> Result<(), Fail> {
    assert_eq!(rt; first_unlike(&rt, rt.alloc())?, None);
    Ok(())
}

// Inputs that end early, and what refuses them.
const ENDED: [(&str, &str); 8] = [
    ("", "1 NoHeader"),
    ("# none\n", "2 NoHeader"),
    ("batch 1", "1 NoEnd"),
    ("batch 1\n", "2 NoEnd"),
    ("batch 1\n# none\n", "3 NoEnd"),
    ("batch 1\ntau 1\n", "2 BadLine"),
    ("batch 1\njob 0\n", "3 NoEnd"),
    ("batch 1\njob 0\n\ntiles 1\n", "5 NoEnd"),
];

#[test]
fn refuses_an_input_that_ends_early(rt: HostRuntime) -> Result<(), Fail> {
    for (text, told) in ENDED {
        assert!(rt; is_refused(&rt, rt.alloc(), text, told)?);
    }
    Ok(())
}

// Jobs of one tile, each in a box of so many columns and rows.
fn square_jobs(alloc: Global, sides: &[u32]) -> Result<String, AllocError> {
    let mut text = String::from_str(alloc, "batch 1\n")?;
    for (number, side) in sides.iter().enumerate() {
        let most = side.saturating_sub(1);
        let job = format!(in alloc;
            "job {number}\ntiles 1\ntau 1\ntile S - - - -\nbox 0 0 {most} {most}\n"
        )?;
        text.push_str(job.as_str())?;
        text.push_str("seed 0 0 S\nend\n")?;
    }
    Ok(text)
}

// One job more than a batch may have, and one site more than the boxes of its jobs may have.
#[test]
fn takes_no_more_than_the_limits(rt: HostRuntime) -> Result<(), Fail> {
    let jobs = square_jobs(rt.alloc(), &[1; 1025])?;
    assert!(rt; is_refused(&rt, rt.alloc(), jobs.as_str(), "7170 TooMany")?);
    let sites = square_jobs(rt.alloc(), &[1024, 1024, 1024, 1024, 1])?;
    assert!(rt; is_refused(&rt, rt.alloc(), sites.as_str(), "36 TooMany")?);
    Ok(())
}
