// Systems that the program compiles, grown by it.
use program_runs::{EndedRun, Failures, answered, run};
use std::alloc::{AllocError, Global};
use std::sync::Wait;
use std::test::Fail;
use std::thread::Threads;
use tilebench::Status;
use worked_systems::{
    BIT_FLIPPER, CLIPPED_FLIPPER, FLIPPED, IDLE, LEFT_RUNNER, RUN_LEFT, SMALL_COUNTER,
    changed_line, widest_machine,
};

// Words that compile a text, and how the tiles grow: the places, and what stands behind them.
struct Compiled {
    words: &'static [&'static str],
    text: &'static str,
    status: Status,
    places: &'static str,
    behind: &'static str,
}

const YES: &str = "closed terminal\nunique yes\n";

const COMPILED: [Compiled; 5] = [
    Compiled {
        words: &["turing"],
        text: BIT_FLIPPER,
        status: Status::Done,
        places: FLIPPED,
        behind: YES,
    },
    Compiled {
        words: &["turing"],
        text: CLIPPED_FLIPPER,
        status: Status::No,
        places: "place 0 0 t:0\nplace 1 0 t:1\nplace 2 0 t:2\nplace 0 1 a:F:1\nplace 1 1 R:F:0\n\
                 place 2 1 r:1\n",
        behind: "closed clipped 1 2 a:F:0\nunique no 3 1 2 a:F:0\n",
    },
    Compiled {
        words: &["turing"],
        text: IDLE,
        status: Status::Done,
        places: "place 0 0 t:0\nplace 1 0 t:1\n",
        behind: YES,
    },
    Compiled {
        words: &["turing"],
        text: LEFT_RUNNER,
        status: Status::Done,
        places: RUN_LEFT,
        behind: YES,
    },
    Compiled {
        words: &["counter", "2", "3"],
        text: "",
        status: Status::Done,
        places: "place 0 0 t:0\nplace 1 0 t:1\nplace 1 1 ie:1\nplace 0 1 iw:11\n",
        behind: YES,
    },
];

// What these words make of a text, grown by so many workers.
fn grown<R: Threads + Wait + Sync>(
    rt: &R,
    alloc: Global,
    words: &[&str],
    text: &str,
    workers: &str,
) -> Result<EndedRun, AllocError> {
    let made = answered(rt, alloc, words, text)?;
    run(
        rt,
        alloc,
        &["grow", "--workers", workers],
        &made.out,
        Failures::NONE,
    )
}

fn grows_so<R: Threads + Wait + Sync>(
    rt: &R,
    alloc: Global,
    compiled: &Compiled,
) -> Result<bool, AllocError> {
    let mut out = String::from_str(alloc, compiled.places)?;
    out.push_str(compiled.behind)?;
    let ran = grown(rt, alloc, compiled.words, compiled.text, "1")?;
    Ok(ran.is(compiled.status, out.as_str(), ""))
}

#[test]
fn compiled_systems_grow(rt: HostRuntime) -> Result<(), Fail> {
    for compiled in &COMPILED {
        assert!(rt; grows_so(&rt, rt.alloc(), compiled)?);
    }
    Ok(())
}

// The small counter from 3 has other seed tiles and two rows.
fn last_counter(alloc: Global) -> Result<String, AllocError> {
    let text = changed_line(alloc, SMALL_COUNTER, 17, "tile t:0 w1 p:1 - -")?;
    let text = changed_line(alloc, text.as_str(), 18, "tile t:1 e1 - - p:1")?;
    changed_line(alloc, text.as_str(), 35, "box 0 0 1 1")
}

#[test]
fn a_counter_starts_from_its_number(rt: HostRuntime) -> Result<(), Fail> {
    let wanted = last_counter(rt.alloc())?;
    let ran = answered(&rt, rt.alloc(), &["counter", "2", "3"], "")?;
    assert!(rt; ran.is(Status::Done, wanted.as_str(), ""));
    Ok(())
}

// How many lines of a text begin with this front.
fn count_lines(text: &[u8], front: &str) -> usize {
    let mut count = 0usize;
    for line in str::from_utf8(text).unwrap_or("").lines() {
        if line.starts_with(front) {
            count = count.saturating_add(1);
        }
    }
    count
}

// A row of seed tiles, which is all that grows from a machine without rules.
fn seed_row(alloc: Global, cells: u32) -> Result<String, AllocError> {
    let mut text = String::new(alloc);
    for cell in 0..cells {
        let line = format!(in alloc; "place {cell} 0 t:{cell}\n")?;
        text.push_str(line.as_str())?;
    }
    text.push_str(YES)?;
    Ok(text)
}

#[test]
fn the_widest_machine_grows(rt: HostRuntime) -> Result<(), Fail> {
    let alloc = rt.alloc();
    let machine = widest_machine(alloc, false)?;
    let made = answered(&rt, alloc, &["turing"], machine.as_str())?;
    assert_eq!(rt;
        (
            count_lines(&made.out, "glue "),
            count_lines(&made.out, "tile ")
        ),
        (705, 8832)
    );
    let row = seed_row(alloc, 512)?;
    let ran = grown(&rt, alloc, &["turing"], machine.as_str(), "4")?;
    assert!(rt; ran.is(Status::Done, row.as_str(), ""));
    Ok(())
}
