// Texts at the limits.
use program_runs::{Failures, answered, run, run_at};
use std::alloc::{AllocError, Global};
use std::sync::Wait;
use std::test::Fail;
use std::thread::Threads;
use tile_io::OpenGate;
use tilebench::Status;
use worked_systems::{CHAIN, changed_line, scattered_seeds};

// The length of the first front of the chain's text that is refused otherwise than for the want of
// its end, at the line where it is cut.
fn first_unlike_front<R: Threads + Wait + Sync>(
    rt: &R,
    alloc: Global,
) -> Result<Option<usize>, AllocError> {
    let mut line = 1u32;
    for (length, byte) in CHAIN.as_bytes().iter().enumerate() {
        let front = CHAIN.get(..length).unwrap_or("");
        if !lacks_its_end(rt, alloc, front, line)? {
            return Ok(Some(length));
        }
        if *byte == b'\n' {
            line = line.saturating_add(1);
        }
    }
    Ok(None)
}

fn lacks_its_end<R: Threads + Wait + Sync>(
    rt: &R,
    alloc: Global,
    front: &str,
    line: u32,
) -> Result<bool, AllocError> {
    let cause = if front.is_empty() {
        "NoHeader"
    } else {
        "NoEnd"
    };
    let err = format!(in alloc; "refused text line {line} {cause}\n")?;
    let ran = answered(rt, alloc, &["grow"], front)?;
    Ok(ran.is(Status::Text, "", err.as_str()))
}

#[test]
fn refuses_each_front_of_a_text(rt: HostRuntime) -> Result<(), Fail> {
    assert_eq!(rt; first_unlike_front(&rt, rt.alloc())?, None);
    Ok(())
}

// A text of so many items, each with a name of its own.
pub(crate) fn items(
    alloc: Global,
    item: &str,
    rest: &str,
    count: u32,
) -> Result<String, AllocError> {
    let mut text = String::from_str(alloc, "tiles 1\ntau 1\n")?;
    for number in 0..count {
        let line = format!(in alloc; "{item} n{number} {rest}\n")?;
        text.push_str(line.as_str())?;
    }
    Ok(text)
}

fn is_refused<R: Threads + Wait + Sync>(
    rt: &R,
    alloc: Global,
    text: &[u8],
    err: &str,
) -> Result<bool, AllocError> {
    let ran = run(rt, alloc, &["grow"], text, Failures::NONE)?;
    Ok(ran.is(Status::Text, "", err))
}

// One item more than its limit allows.
#[test]
fn refuses_too_many_items(rt: HostRuntime) -> Result<(), Fail> {
    let alloc = rt.alloc();
    let glues = items(alloc, "glue", "1", 8193)?;
    assert!(rt;
        is_refused(
            &rt,
            alloc,
            glues.as_bytes(),
            "refused text line 8195 TooMany\n"
        )?
    );
    let types = items(alloc, "tile", "- - - -", 16385)?;
    assert!(rt;
        is_refused(
            &rt,
            alloc,
            types.as_bytes(),
            "refused text line 16387 TooMany\n"
        )?
    );
    Ok(())
}

// An input of one byte more than the limit.
#[test]
fn refuses_a_long_input(rt: HostRuntime) -> Result<(), Fail> {
    let alloc = rt.alloc();
    let input = vec![in alloc; b'\n'; 67108865]?;
    let failures = Failures {
        most: 65536,
        ..Failures::NONE
    };
    let ran = run_at(&rt, alloc, &["grow"], input, failures, &OpenGate)?;
    assert!(rt; ran.is(Status::Text, "", "refused text line 0 TooLong\n"));
    Ok(())
}

// A text with so many pairs of 363 glues, each with its own two.
fn paired(alloc: Global, count: u32) -> Result<String, AllocError> {
    let mut text = String::from_str(alloc, "tiles 2\ntau 1\n")?;
    for glue in 0..363u32 {
        text.push_str(format!(in alloc; "glue g{glue} 1\n")?.as_str())?;
    }
    push_pairs(alloc, &mut text, count)?;
    text.push_str("tile S - - - -\nbox 0 0 0 0\nseed 0 0 S\nend\n")?;
    Ok(text)
}

// Each glue with those before it.
fn push_pairs(alloc: Global, text: &mut String, count: u32) -> Result<(), AllocError> {
    let (mut one, mut other) = (1u32, 0u32);
    for _pair in 0..count {
        text.push_str(format!(in alloc; "pair g{one} g{other} 1\n")?.as_str())?;
        other = other.saturating_add(1);
        if other == one {
            one = one.saturating_add(1);
            other = 0;
        }
    }
    Ok(())
}

// Whether the text is printed as it is.
fn is_printed<R: Threads + Wait + Sync>(
    rt: &R,
    alloc: Global,
    text: &str,
) -> Result<bool, AllocError> {
    let ran = answered(rt, alloc, &["format"], text)?;
    Ok(ran.is(Status::Done, text, ""))
}

// As many pairs as there may be, and one more.
#[test]
fn takes_no_more_pairs_than_there_may_be(rt: HostRuntime) -> Result<(), Fail> {
    let alloc = rt.alloc();
    assert!(rt; is_printed(&rt, alloc, paired(alloc, 65536)?.as_str())?);
    let text = paired(alloc, 65537)?;
    assert!(rt;
        is_refused(
            &rt,
            alloc,
            text.as_bytes(),
            "refused text line 65902 TooMany\n"
        )?
    );
    Ok(())
}

// As many seeds as there may be, and one more.
#[test]
fn takes_no_more_seeds_than_there_may_be(rt: HostRuntime) -> Result<(), Fail> {
    let alloc = rt.alloc();
    let text = scattered_seeds(alloc, 4096)?;
    assert!(rt; is_printed(&rt, alloc, text.as_str())?);
    let more = changed_line(alloc, text.as_str(), 4102, "seed 1 1 T\nend")?;
    assert!(rt;
        is_refused(
            &rt,
            alloc,
            more.as_bytes(),
            "refused text line 4102 TooMany\n"
        )?
    );
    Ok(())
}
