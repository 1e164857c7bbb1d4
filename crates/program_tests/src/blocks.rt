// Inputs of more than one block, which are read block by block.
use crate::block_ends::ends_so;
use crate::limits::items;
use program_runs::{EndedRun, Failures, answered, run};
use std::alloc::{AllocError, Global};
use std::sync::Wait;
use std::test::Fail;
use std::thread::Threads;
use tile_io::BLOCK;
use tilebench::Status;

// One type that binds on all sides: what grows of it takes 1.3 MiB as text, some 336 calls of the
// source.
const FILLED: &str = "tiles 1
tau 1
glue g 1
tile A g g g g
box 0 0 299 299
seed 0 0 A
end
";

// What stands before and behind the places that grew, the call of the source that fails, and how
// their reading ends.
struct Fault {
    before: &'static str,
    behind: &'static str,
    source: u32,
    status: Status,
    err: &'static str,
}

const FAULTS: [Fault; 6] = [
    Fault {
        before: "",
        behind: "place x\n",
        source: u32::MAX,
        status: Status::Text,
        err: "refused text line 90008 BadLine\n",
    },
    Fault {
        before: "# a remark\n\n",
        behind: "place 0 0 A\n",
        source: u32::MAX,
        status: Status::Text,
        err: "refused text line 90010 DoubleSite\n",
    },
    Fault {
        before: "",
        behind: "place 0 0 A",
        source: u32::MAX,
        status: Status::Text,
        err: "refused text line 90008 NoEnd\n",
    },
    Fault {
        before: "place x\n",
        behind: "",
        source: u32::MAX,
        status: Status::Text,
        err: "refused text line 8 BadLine\n",
    },
    // A source that fails is told before a fault of a line.
    Fault {
        before: "place x\n",
        behind: "",
        source: 330,
        status: Status::ReadFault,
        err: "",
    },
    Fault {
        before: "",
        behind: "",
        source: 330,
        status: Status::ReadFault,
        err: "",
    },
];

// The lines of the places that grow.
fn grown_places<R: Threads + Wait + Sync>(rt: &R, alloc: Global) -> Result<String, AllocError> {
    let grown = answered(rt, alloc, &["grow"], FILLED)?;
    let text = str::from_utf8(&grown.out).unwrap_or("");
    match text.split_once("closed") {
        Some((places, _)) => String::from_str(alloc, places),
        None => String::from_str(alloc, ""),
    }
}

// What is replayed of them, with what stands around them.
fn replayed<R: Threads + Wait + Sync>(
    rt: &R,
    alloc: Global,
    before: &str,
    places: &str,
    behind: &str,
    failures: Failures,
) -> Result<EndedRun, AllocError> {
    let text = format!(in alloc; "{FILLED}{before}{places}{behind}")?;
    run(rt, alloc, &["replay"], text.as_bytes(), failures)
}

// The number, from 0, of the first fault that is told otherwise.
fn first_unlike_fault<R: Threads + Wait + Sync>(
    rt: &R,
    alloc: Global,
    places: &str,
) -> Result<Option<usize>, AllocError> {
    for (number, fault) in FAULTS.iter().enumerate() {
        let failures = Failures {
            source: fault.source,
            ..Failures::NONE
        };
        let ran = replayed(rt, alloc, fault.before, places, fault.behind, failures)?;
        if !ran.is(fault.status, "", fault.err) {
            return Ok(Some(number));
        }
    }
    Ok(None)
}

// What grew is replayed as it is, with remarks and empty lines before it, and by calls that break
// its lines; and the first fault of a long text is told with its line.
#[test]
fn reads_block_by_block(rt: HostRuntime) -> Result<(), Fail> {
    let alloc = rt.alloc();
    let places = grown_places(&rt, alloc)?;
    let failures = Failures {
        most: 4093,
        ..Failures::NONE
    };
    let again = replayed(&rt, alloc, "\n# a remark\n", &places, "\n", failures)?;
    assert!(rt; again.is(Status::Done, &places, ""));
    assert_eq!(rt; first_unlike_fault(&rt, alloc, &places)?, None);
    Ok(())
}

// Two-input rules of one symbol, whose tiles fill a box of 182 by 182 sites in one way.
const RULES: &str =
    "quadrant 1\nsymbol abcdefgh\nrule abcdefgh abcdefgh abcdefgh abcdefgh\nsize 181 181\nend\n";

// What a run that ends well prints behind a text.
fn text_of<R: Threads + Wait + Sync>(
    rt: &R,
    alloc: Global,
    words: &[&str],
    text: &str,
    behind: &str,
) -> Result<String, AllocError> {
    let whole = format!(in alloc; "{text}{behind}")?;
    let ran = answered(rt, alloc, words, whole.as_str())?;
    if ran.status != Status::Done {
        return Ok(String::new(alloc));
    }
    String::from_str(alloc, str::from_utf8(&ran.out).unwrap_or(""))
}

// Whether the run ends well so on more than a block behind a system.
fn ends_well_behind<R: Threads + Wait + Sync>(
    rt: &R,
    alloc: Global,
    words: &[&str],
    system: &str,
    long: &str,
    out: &str,
) -> Result<bool, AllocError> {
    let text = format!(in alloc; "{system}{long}")?;
    let is_so = ends_so(rt, alloc, words, text.as_bytes(), Status::Done, out, "")?;
    Ok(is_so && long.len() > BLOCK)
}

// A growth and a certificate of more than a block each: what grew is legal, and in one way, and so
// the certificate is good.
#[test]
fn checks_and_verifies_block_by_block(rt: HostRuntime) -> Result<(), Fail> {
    let alloc = rt.alloc();
    let system = text_of(&rt, alloc, &["quadrant"], RULES, "")?;
    let grown = text_of(&rt, alloc, &["grow"], &system, "")?;
    assert!(rt; grown.ends_with("closed terminal\nunique yes\n"));
    let judged = "legal yes\nunique yes\n";
    assert!(rt; ends_well_behind(&rt, alloc, &["check"], &system, &grown, judged)?);
    let marks = text_of(&rt, alloc, &["certify"], &system, &grown)?;
    let words = ["verify", "--workers", "4"];
    assert!(rt; ends_well_behind(&rt, alloc, &words, &system, &marks, "verified yes\n")?);
    Ok(())
}

// The sides of a type without glues, with spaces between them.
const WIDE_SIDES: &str = "-                                                                \
    -                                                                \
    -                                                                -";

// A system of more than a block, and what stands behind it.
#[test]
fn reads_a_system_of_more_than_a_block(rt: HostRuntime) -> Result<(), Fail> {
    let alloc = rt.alloc();
    let mut system = items(alloc, "tile", WIDE_SIDES, 5100)?;
    system.push_str("box 0 0 0 0\nseed 0 0 n7\nend\n")?;
    assert!(rt; system.len() > BLOCK);
    for (behind, status, out, err) in [
        ("place 0 0 n7\n", Status::Done, "place 0 0 n7\n", ""),
        ("", Status::No, "stuck seed 0 0\n", ""),
        (
            "place 0 0 n7\nplace 0 0 n5100\n",
            Status::Text,
            "",
            "refused text line 5107 UnknownName\n",
        ),
    ] {
        let text = format!(in alloc; "{system}{behind}")?;
        assert!(rt; ends_so(&rt, alloc, &["replay"], text.as_bytes(), status, out, err)?);
    }
    Ok(())
}
