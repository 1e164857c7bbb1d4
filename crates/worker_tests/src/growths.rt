// Growths whose text is made by rule, and what is read of a growth.
use program_runs::{Change, answered, behind, first_unlike_change};
use std::alloc::{AllocError, Global};
use std::sync::Wait;
use std::test::Fail;
use std::thread::Threads;
use tilebench::Status;
use worked_systems::{
    CHAIN, FULL, MISMATCH, PAIRED, RIVALS, SIERPINSKI, SMALL_COUNTER, TWO_SEEDS, WIDE, filled_box,
    scattered_seeds,
};

// Whether `check` and `replay` take what `grow` prints, behind its own system text, and `replay`
// leaves its own order as it is.
fn reads_what_it_prints<R: Threads + Wait + Sync>(
    rt: &R,
    alloc: Global,
    system: &str,
) -> Result<bool, AllocError> {
    let grown = answered(rt, alloc, &["grow"], system)?;
    let growth = str::from_utf8(&grown.out).unwrap_or("");
    let checked = behind(rt, alloc, &["check"], system, growth)?;
    let ordered = behind(rt, alloc, &["replay"], system, growth)?;
    let order = str::from_utf8(&ordered.out).unwrap_or("");
    let again = behind(rt, alloc, &["replay"], system, order)?;
    Ok(
        checked.status == grown.status
            && growth.starts_with(order)
            && again.is(Status::Done, order, ""),
    )
}

#[test]
fn each_growth_is_read_back(rt: HostRuntime) -> Result<(), Fail> {
    for system in [
        CHAIN,
        RIVALS,
        SIERPINSKI,
        MISMATCH,
        SMALL_COUNTER,
        FULL,
        TWO_SEEDS,
        PAIRED,
    ] {
        assert!(rt; reads_what_it_prints(&rt, rt.alloc(), system)?);
    }
    Ok(())
}

// The name of a tile of the Sierpinski triangle. A tile inside tells by its digits whether its west
// and its south neighbour are black, which is so exactly where two numbers share no binary one.
fn sierpinski_name(x: u32, y: u32) -> &'static str {
    if x == 0 && y == 0 {
        return "S";
    }
    if y == 0 {
        return "B";
    }
    if x == 0 {
        return "L";
    }
    let west = (x - 1) & y == 0;
    let south = x & (y - 1) == 0;
    match (west, south) {
        (false, false) => "r00",
        (false, true) => "r01",
        (true, false) => "r10",
        (true, true) => "r11",
    }
}

fn sierpinski_places(alloc: Global) -> Result<String, AllocError> {
    let mut text = String::new(alloc);
    for number in 0..64u32 {
        let (x, y) = (number % 8, number / 8);
        let name = sierpinski_name(x, y);
        let line = format!(in alloc; "place {x} {y} {name}\n")?;
        text.push_str(line.as_str())?;
    }
    Ok(text)
}

// The number of the first of these workers and choices by which the system does not grow into these
// places and a no in these words.
fn first_unlike_crew<R: Threads + Wait + Sync>(
    rt: &R,
    alloc: Global,
    crews: &[(&str, &str)],
    system: &str,
    places: &str,
    no: &str,
) -> Result<Option<usize>, AllocError> {
    let mut out = String::from_str(alloc, places)?;
    out.push_str(no)?;
    for (number, (workers, choice)) in crews.iter().enumerate() {
        let words = ["grow", "--workers", workers, "--choice", choice];
        let ran = answered(rt, alloc, &words, system)?;
        if !ran.is(Status::No, out.as_str(), "") {
            return Ok(Some(number));
        }
    }
    Ok(None)
}

// A no by the third condition has the same bytes by any number of workers, at every choice.
#[test]
fn grows_the_sierpinski_triangle(rt: HostRuntime) -> Result<(), Fail> {
    let alloc = rt.alloc();
    let places = sierpinski_places(alloc)?;
    let no = "closed clipped 8 0 B\nunique no 3 8 0 B\n";
    let crews = [
        ("1", "0"),
        ("4", "0"),
        ("16", "0"),
        ("1", "7"),
        ("2", "18446744073709551615"),
        ("16", "3"),
    ];
    let found = first_unlike_crew(&rt, alloc, &crews, SIERPINSKI, places.as_str(), no)?;
    assert_eq!(rt; found, None);
    Ok(())
}

// Four tiles, each held by the one before it, that go round to the site beside the first.
const ROUND: &str = "tiles 1\ntau 1\nglue a 1\nglue b 1\nglue c 1\ntile S a - - -\n\
    tile N - b a -\ntile E - - c b\ntile B c - - -\nbox 0 0 1 1\nseed 0 0 S\nend\n";

// The boxes that cut them off. Nothing else can grow within such a box, yet the way round it leads
// to a site of the first one.
const BOXES: [Change; 3] = [
    Change {
        number: 10,
        line: "box 0 0 1 0",
        status: Status::No,
        out: "place 0 0 S\nclosed clipped 0 1 N\nunique no 3 0 1 N\n",
        err: "",
    },
    Change {
        number: 10,
        line: "box 0 0 0 1",
        status: Status::No,
        out: "place 0 0 S\nplace 0 1 N\nclosed clipped 1 1 E\nunique no 3 1 1 E\n",
        err: "",
    },
    Change {
        number: 10,
        line: "box 0 0 1 1",
        status: Status::Done,
        out: "place 0 0 S\nplace 0 1 N\nplace 1 1 E\nplace 1 0 B\nclosed terminal\nunique yes\n",
        err: "",
    },
];

#[test]
fn a_verdict_on_a_cut_growth_is_of_its_box(rt: HostRuntime) -> Result<(), Fail> {
    assert_eq!(rt;
        first_unlike_change(&rt, rt.alloc(), "grow", ROUND, &BOXES)?,
        None
    );
    Ok(())
}

// A box of more sites than one of several workers judges alone.
const VAST: &str = "tiles 1\ntau 1\nglue a 1\ntile T a a a a\nbox 0 0 256 256\nseed 0 0 T\nend\n";

#[test]
fn fills_a_box(rt: HostRuntime) -> Result<(), Fail> {
    let alloc = rt.alloc();
    let no = "closed clipped 0 -1 T\nunique no 1 1 1 2\n";
    for (system, side, crews) in [
        (FULL, 64, &[("1", "0"), ("4", "0"), ("16", "0")][..]),
        (WIDE, 128, &[("2", "0")]),
        (VAST, 257, &[("2", "1")]),
    ] {
        let places = filled_box(alloc, side, "T")?;
        let found = first_unlike_crew(&rt, alloc, crews, system, places.as_str(), no)?;
        assert_eq!(rt; found, None);
    }
    Ok(())
}

// The seeds, which stand at every second site of every second row, and then all others by rows.
fn scattered_places(alloc: Global) -> Result<String, AllocError> {
    let mut seeds = String::new(alloc);
    let mut others = String::new(alloc);
    for number in 0..16384u32 {
        let (x, y) = (number % 128, number / 128);
        let line = format!(in alloc; "place {x} {y} T\n")?;
        if x % 2 == 0 && y % 2 == 0 {
            seeds.push_str(line.as_str())?;
        } else {
            others.push_str(line.as_str())?;
        }
    }
    seeds.push_str(others.as_str())?;
    Ok(seeds)
}

#[test]
fn grows_from_scattered_seeds(rt: HostRuntime) -> Result<(), Fail> {
    let alloc = rt.alloc();
    let system = scattered_seeds(alloc, 4096)?;
    let places = scattered_places(alloc)?;
    let no = "closed clipped 0 -1 T\nunique no 1 1 0 2\n";
    let crews = [("1", "0"), ("4", "0"), ("16", "0")];
    let found = first_unlike_crew(&rt, alloc, &crews, system.as_str(), places.as_str(), no)?;
    assert_eq!(rt; found, None);
    Ok(())
}
