// Calls that fail, where each call moves one byte.
use program_runs::{Failures, run};
use std::alloc::{AllocError, Global};
use std::sync::Wait;
use std::test::Fail;
use std::thread::Threads;
use tilebench::Status;
use worked_systems::SINGLE;

const WHOLE: &str = "place 0 0 S\nclosed terminal\nunique yes\n";

const BYTE_BY_BYTE: Failures = Failures {
    most: 1,
    ..Failures::NONE
};

// Words that are run with these failures, and how they end.
struct Fault {
    words: &'static [&'static str],
    failures: Failures,
    status: Status,
    out: &'static str,
}

const FAULTS: [Fault; 6] = [
    Fault {
        words: &["grow"],
        failures: BYTE_BY_BYTE,
        status: Status::Done,
        out: WHOLE,
    },
    Fault {
        words: &["grow"],
        failures: Failures {
            out: 1,
            ..BYTE_BY_BYTE
        },
        status: Status::WriteFault,
        out: "p",
    },
    // The call behind the last one is never made.
    Fault {
        words: &["grow"],
        failures: Failures {
            out: 39,
            ..BYTE_BY_BYTE
        },
        status: Status::Done,
        out: WHOLE,
    },
    Fault {
        words: &["grow"],
        failures: Failures {
            source: 1,
            ..BYTE_BY_BYTE
        },
        status: Status::ReadFault,
        out: "",
    },
    Fault {
        words: &[],
        failures: Failures {
            err: 0,
            ..BYTE_BY_BYTE
        },
        status: Status::WriteFault,
        out: "",
    },
    Fault {
        words: &["grow", "x"],
        failures: Failures {
            err: 0,
            ..BYTE_BY_BYTE
        },
        status: Status::WriteFault,
        out: "",
    },
];

// The number, from 0, of the first of these that ends otherwise.
fn first_unlike_fault<R: Threads + Wait + Sync>(
    rt: &R,
    alloc: Global,
) -> Result<Option<usize>, AllocError> {
    for (number, fault) in FAULTS.iter().enumerate() {
        let ran = run(rt, alloc, fault.words, SINGLE.as_bytes(), fault.failures)?;
        if !ran.is(fault.status, fault.out, "") {
            return Ok(Some(number));
        }
    }
    Ok(None)
}

// The first call of the source after whose failure there is an answer, or that is not the last.
fn first_unlike_read<R: Threads + Wait + Sync>(
    rt: &R,
    alloc: Global,
) -> Result<Option<u32>, AllocError> {
    for source in 0..58u32 {
        let failures = Failures {
            source,
            ..BYTE_BY_BYTE
        };
        let ran = run(rt, alloc, &["grow"], SINGLE.as_bytes(), failures)?;
        let (status, out) = if source < 57 {
            (Status::ReadFault, "")
        } else {
            (Status::Done, WHOLE)
        };
        if !ran.is(status, out, "") {
            return Ok(Some(source));
        }
    }
    Ok(None)
}

// The first call of the sink whose failure does not leave a front of the answer.
fn first_unlike_write<R: Threads + Wait + Sync>(
    rt: &R,
    alloc: Global,
) -> Result<Option<usize>, AllocError> {
    for call in 0..39usize {
        let failures = Failures {
            out: call as u32,
            ..BYTE_BY_BYTE
        };
        let ran = run(rt, alloc, &["grow"], SINGLE.as_bytes(), failures)?;
        if !ran.is(Status::WriteFault, WHOLE.get(..call).unwrap_or(WHOLE), "") {
            return Ok(Some(call));
        }
    }
    Ok(None)
}

// Where one call of the source fails there is no answer, and where one of the sink fails a front of
// it. The calls behind the last one are never made.
#[test]
fn tells_the_fault_of_each_call(rt: HostRuntime) -> Result<(), Fail> {
    assert_eq!(rt; first_unlike_fault(&rt, rt.alloc())?, None);
    assert_eq!(rt; first_unlike_read(&rt, rt.alloc())?, None);
    assert_eq!(rt; first_unlike_write(&rt, rt.alloc())?, None);
    Ok(())
}
