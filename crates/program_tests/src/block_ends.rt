// How inputs end: at the end of a block, within one, and without one.
use crate::certificates::CHAIN_MARKS;
use crate::changed_lines::CHAINED;
use program_runs::{Failures, run};
use std::alloc::{AllocError, Global};
use std::sync::Wait;
use std::test::Fail;
use std::thread::Threads;
use tile_io::BLOCK;
use tilebench::Status;
use worked_systems::CHAIN;

// How many bytes a call of a source gives: none goes over a block's end.
const PIECE: usize = 4096;

// Whether the run ends so on an input, where the source would fail behind the call that told its
// end; and with a read fault alone where that call fails in its place.
pub(crate) fn ends_so<R: Threads + Wait + Sync>(
    rt: &R,
    alloc: Global,
    words: &[&str],
    input: &[u8],
    status: Status,
    out: &str,
    err: &str,
) -> Result<bool, AllocError> {
    let end = u32::try_from(input.len().div_ceil(PIECE)).unwrap_or(0);
    let behind = Failures {
        source: end.saturating_add(1),
        most: PIECE,
        ..Failures::NONE
    };
    let at_end = Failures {
        source: end,
        ..behind
    };
    let ran = run(rt, alloc, words, input, behind)?;
    let failed = run(rt, alloc, words, input, at_end)?;
    Ok(ran.is(status, out, err) && failed.is(Status::ReadFault, "", ""))
}

const PLACES: &str = "place 0 0 S\nplace 1 0 B\nplace 2 0 C\n";

// What stands right behind the chain's text, and what stands at the end of an input of so many bytes,
// with empty lines and remarks between; and how the command ends.
#[derive(Clone, Copy)]
struct Spread {
    words: &'static [&'static str],
    front: &'static str,
    length: usize,
    last: &'static str,
    status: Status,
    out: &'static str,
    err: &'static str,
}

// Lengths of inputs whose last lines are places: without a block, at the end of one, a byte less and
// a byte more, and where it ends within a line and behind one.
const LENGTHS: [usize; 7] = [
    0,
    BLOCK - 1,
    BLOCK,
    BLOCK + 1,
    BLOCK + 18,
    BLOCK + 24,
    2 * BLOCK,
];

// Places that are replayed at the end of an input of so many bytes.
const fn replay_of(length: usize) -> Spread {
    Spread {
        words: &["replay"],
        front: "",
        length,
        last: PLACES,
        status: Status::Done,
        out: PLACES,
        err: "",
    }
}

const SPREAD: [Spread; 7] = [
    Spread {
        words: &["check"],
        front: "place 0 0 S\n",
        length: BLOCK + 7,
        last: "place 1 0 B\nplace 2 0 C\n",
        status: Status::Done,
        out: "legal yes\nunique yes\n",
        err: "",
    },
    Spread {
        words: &["certify"],
        front: "place 2 0 C\n",
        length: BLOCK + 7,
        last: "place 1 0 B\nplace 0 0 S\n",
        status: Status::Done,
        out: CHAIN_MARKS,
        err: "",
    },
    Spread {
        words: &["verify", "--workers", "2"],
        front: "mark 2 0 C W 2\n",
        length: BLOCK + 20,
        last: "mark 1 0 B W 1\nmark 0 0 S - 0\n",
        status: Status::Done,
        out: "verified yes\n",
        err: "",
    },
    // the last lines of a growth, which end nothing, in an early block
    Spread {
        words: &["replay"],
        front: CHAINED,
        length: 2 * BLOCK,
        last: "# no more\n",
        status: Status::Done,
        out: PLACES,
        err: "",
    },
    Spread {
        words: &["replay"],
        front: CHAINED,
        length: BLOCK + 179,
        last: "place 0 0 S\n",
        status: Status::Text,
        out: "",
        err: "refused text line 16400 OutOfOrder\n",
    },
    // lines that are refused in an early block, and one that lacks its end in the last
    Spread {
        words: &["verify"],
        front: "mark 0 0 S - 0\nmark 0 0 S - 1\n",
        length: 2 * BLOCK,
        last: CHAIN_MARKS,
        status: Status::Text,
        out: "",
        err: "refused text line 12 DoubleSite\n",
    },
    Spread {
        words: &["check"],
        front: PLACES,
        length: BLOCK + 152,
        last: "place 0 0 S",
        status: Status::Text,
        out: "",
        err: "refused text line 16399 NoEnd\n",
    },
];

// A remark with its newline.
const REMARK: [u8; 64] = *b"#23456789 123456789 123456789 123456789 123456789 123456789 123\n";

// Adds so many bytes of empty lines, fewer than a remark has bytes, and of remarks.
fn push_skipped(alloc: Global, input: &mut Vec<u8>, count: usize) -> Result<(), AllocError> {
    let empty = vec![in alloc; b'\n'; count % 64]?;
    input.extend_from_slice(&empty)?;
    for _remark in 0..count / 64 {
        input.extend_from_slice(&REMARK)?;
    }
    Ok(())
}

// The input of a row.
fn spread_input(alloc: Global, row: &Spread) -> Result<Vec<u8>, AllocError> {
    let mut input = CHAIN.as_bytes().to_vec(alloc)?;
    input.extend_from_slice(row.front.as_bytes())?;
    let others = input.len().saturating_add(row.last.len());
    push_skipped(alloc, &mut input, row.length.saturating_sub(others))?;
    input.extend_from_slice(row.last.as_bytes())?;
    Ok(input)
}

// Whether a row ends as it tells.
fn is_as_told<R: Threads + Wait + Sync>(
    rt: &R,
    alloc: Global,
    row: &Spread,
) -> Result<bool, AllocError> {
    let input = spread_input(alloc, row)?;
    ends_so(rt, alloc, row.words, &input, row.status, row.out, row.err)
}

// The first of the lengths at which the places are not replayed.
fn first_unlike_length<R: Threads + Wait + Sync>(
    rt: &R,
    alloc: Global,
) -> Result<Option<usize>, AllocError> {
    for length in LENGTHS {
        if !is_as_told(rt, alloc, &replay_of(length))? {
            return Ok(Some(length));
        }
    }
    Ok(None)
}

// The number, from 0, of the first row that ends otherwise.
fn first_unlike_row<R: Threads + Wait + Sync>(
    rt: &R,
    alloc: Global,
) -> Result<Option<usize>, AllocError> {
    for (number, row) in SPREAD.iter().enumerate() {
        if !is_as_told(rt, alloc, row)? {
            return Ok(Some(number));
        }
    }
    Ok(None)
}

// Lines of one block and of several, at whatever length. The source is asked up to its end, and no
// more.
#[test]
fn reads_up_to_the_end(rt: HostRuntime) -> Result<(), Fail> {
    assert_eq!(rt; first_unlike_length(&rt, rt.alloc())?, None);
    assert_eq!(rt; first_unlike_row(&rt, rt.alloc())?, None);
    Ok(())
}
