// Runs of `certify` and `verify`, and how they end.
use crate::certificates::CHAIN_MARKS;
use program_runs::{answered, behind};
use std::alloc::{AllocError, Global};
use std::sync::Wait;
use std::test::Fail;
use std::thread::Threads;
use tilebench::Status;
use worked_systems::{CHAIN, PAIRED, RIVALS, SQUARE, TWO_SEEDS};

// The number, from 0, of the first row that ends otherwise: a system, what stands behind it, the
// status and what is printed.
fn first_unlike<R: Threads + Wait + Sync>(
    rt: &R,
    alloc: Global,
    words: &[&str],
    rows: &[(&str, &str, Status, &str)],
) -> Result<Option<usize>, AllocError> {
    for (number, (system, text, status, out)) in rows.iter().enumerate() {
        let ran = behind(rt, alloc, words, system, text)?;
        if !ran.is(*status, out, "") {
            return Ok(Some(number));
        }
    }
    Ok(None)
}

// Assemblies and their certificates, or what keeps them from having one.
const CERTIFIED: [(&str, &str, Status, &str); 7] = [
    (
        CHAIN,
        "place 0 0 S\nplace 1 0 B\nplace 2 0 C\n",
        Status::Done,
        CHAIN_MARKS,
    ),
    (
        TWO_SEEDS,
        "place 1 0 M\nplace 2 0 T\nplace 0 0 S\n",
        Status::Done,
        "mark 0 0 S - 0\nmark 2 0 T - 1\nmark 1 0 M EW 2\n",
    ),
    (
        PAIRED,
        "place 0 0 S\nplace 1 0 B\n",
        Status::Done,
        "mark 0 0 S - 0\nmark 1 0 B W 1\n",
    ),
    (
        SQUARE,
        "place 0 0 S\nplace 1 0 E\nplace 0 1 N\nplace 1 1 C\n",
        Status::No,
        "unique no 1 1 1 2\n",
    ),
    (
        CHAIN,
        "place 0 0 S\nplace 1 0 B\n",
        Status::No,
        "unique no 3 2 0 C\n",
    ),
    (
        CHAIN,
        "place 0 0 S\nplace 2 0 C\n",
        Status::No,
        "stuck 1 2 0\n",
    ),
    (CHAIN, "place 1 0 B\n", Status::No, "stuck seed 0 0\n"),
];

#[test]
fn certify_prints_the_certificate(rt: HostRuntime) -> Result<(), Fail> {
    let found = first_unlike(&rt, rt.alloc(), &["certify"], &CERTIFIED)?;
    assert_eq!(rt; found, None);
    Ok(())
}

// Certificates that are good, and some for each check that fails.
const VERIFIED: [(&str, &str, Status, &str); 14] = [
    (CHAIN, CHAIN_MARKS, Status::Done, "verified yes\n"),
    (
        TWO_SEEDS,
        "mark 1 0 M EW 1\nmark 0 0 S - 0\nmark 2 0 T - 0\n",
        Status::Done,
        "verified yes\n",
    ),
    (
        PAIRED,
        "# no more\nmark 0 0 S - 7\nmark 1 0 B W 4294967295\n",
        Status::Done,
        "verified yes\n",
    ),
    // zeros in front, a seventh digit, spaces
    (
        CHAIN,
        "mark 000 -0 S - 00\nmark  1 000000 B  W 007 \n mark 0000002 0 C W 0000000008\n",
        Status::Done,
        "verified yes\n",
    ),
    (CHAIN, "", Status::No, "verified no 1 0 0\n"),
    (
        TWO_SEEDS,
        "mark 0 0 S - 0\n",
        Status::No,
        "verified no 1 2 0\n",
    ),
    (
        CHAIN,
        "mark 0 0 S E 0\nmark 1 0 B W 1\nmark 2 0 C W 2\n",
        Status::No,
        "verified no 2 0 0\n",
    ),
    (
        CHAIN,
        "mark 0 0 S - 0\nmark 1 0 B W 1\nmark 2 0 C W 1\n",
        Status::No,
        "verified no 3 2 0\n",
    ),
    (
        CHAIN,
        "mark 0 0 S - 0\nmark 1 0 B E 1\nmark 2 0 C W 2\n",
        Status::No,
        "verified no 3 1 0\n",
    ),
    (
        SQUARE,
        "mark 0 0 S - 0\nmark 1 0 E W 1\nmark 0 1 N S 2\nmark 1 1 C SW 3\n",
        Status::No,
        "verified no 4 1 1 2\n",
    ),
    (
        SQUARE,
        "mark 0 0 S - 0\nmark 1 0 E W 1\nmark 0 1 N S 2\nmark 1 1 C S 3\n",
        Status::No,
        "verified no 5 0 1 E\n",
    ),
    (
        RIVALS,
        "mark 0 0 S - 0\nmark 1 0 A W 1\n",
        Status::No,
        "verified no 6 1 0 B\n",
    ),
    (
        CHAIN,
        "mark 0 0 S - 0\nmark 1 0 B W 1\n",
        Status::No,
        "verified no 7 2 0 C\n",
    ),
    (
        CHAIN,
        "mark 0 0 S - 0\n",
        Status::No,
        "verified no 7 1 0 B\n",
    ),
];

#[test]
fn verify_tells_the_first_check_that_fails(rt: HostRuntime) -> Result<(), Fail> {
    let found = first_unlike(&rt, rt.alloc(), &["verify"], &VERIFIED)?;
    assert_eq!(rt; found, None);
    Ok(())
}

#[test]
fn verify_tells_the_same_by_any_workers(rt: HostRuntime) -> Result<(), Fail> {
    for workers in ["1", "3", "16"] {
        let words = ["verify", "--workers", workers];
        let found = first_unlike(&rt, rt.alloc(), &words, &VERIFIED)?;
        assert_eq!(rt; found, None);
    }
    Ok(())
}

// Certificates whose text has a fault.
const FAULTY: [(&str, &str, &str); 17] = [
    (
        SQUARE,
        "mark 0 0 S - 0\nmark 1 0 E W 1\nmark 0 1 N S 2\nmark 1 1 C WS 3\n",
        "refused text line 17 BadName\n",
    ),
    (
        CHAIN,
        "mark 0 0 S - 0\nmark 0 0 S - 1\n",
        "refused text line 12 DoubleSite\n",
    ),
    (
        CHAIN,
        "mark 3 0 C W 2\n",
        "refused text line 11 OutsideBox\n",
    ),
    (
        CHAIN,
        "mark 0 0 S - 4294967296\n",
        "refused text line 11 OutOfRange\n",
    ),
    (
        CHAIN,
        "mark 0 0 Q - 0\n",
        "refused text line 11 UnknownName\n",
    ),
    (CHAIN, "mark 0 0 S -\n", "refused text line 11 BadLine\n"),
    (CHAIN, "place 0 0 S\n", "refused text line 11 BadLine\n"),
    // lines that are almost in plain form
    (
        CHAIN,
        "mark 1000001 0 B W 1\n",
        "refused text line 11 OutOfRange\n",
    ),
    (
        CHAIN,
        "mark 1000000 0 B W 1\n",
        "refused text line 11 OutsideBox\n",
    ),
    (
        CHAIN,
        "mark 0 0 S - 0\nmark +1 0 B W 1\n",
        "refused text line 12 BadNumber\n",
    ),
    (
        CHAIN,
        "mark 1 - B W 1\n",
        "refused text line 11 BadNumber\n",
    ),
    (
        SQUARE,
        "mark 0 0 S EN 0\n",
        "refused text line 14 BadName\n",
    ),
    (
        CHAIN,
        "mark 0 0 S - 0\nmark 1 0 B W -1\n",
        "refused text line 12 OutOfRange\n",
    ),
    (
        CHAIN,
        "mark 1 0 B W 00000000001\n",
        "refused text line 11 BadNumber\n",
    ),
    (
        CHAIN,
        "mark 1 0 B W 1\t\n",
        "refused text line 11 BadNumber\n",
    ),
    (CHAIN, "mark 1\t0 B W 1\n", "refused text line 11 BadLine\n"),
    (
        CHAIN,
        "mark 1 0 B W 1 1\n",
        "refused text line 11 BadLine\n",
    ),
];

#[test]
fn other_texts_are_refused(rt: HostRuntime) -> Result<(), Fail> {
    for (system, text, err) in FAULTY {
        let ran = behind(&rt, rt.alloc(), &["verify"], system, text)?;
        assert!(rt; ran.is(Status::Text, "", err));
    }
    Ok(())
}

// Words that none of the two takes.
const MISUSED: [&[&str]; 4] = [
    &["verify", "--workers", "17"],
    &["verify", "--workers", "0"],
    &["verify", "--choice", "1"],
    &["certify", "--workers", "2"],
];

#[test]
fn other_words_are_refused(rt: HostRuntime) -> Result<(), Fail> {
    for words in MISUSED {
        let ran = answered(&rt, rt.alloc(), words, CHAIN)?;
        assert!(rt; ran.is(Status::Words, "", "refused words Usage\n"));
    }
    Ok(())
}
