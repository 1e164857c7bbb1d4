// The text of a system: read, refused, and printed.
use std::alloc::{AllocError, Global};
use std::test::Fail;
use tile_io::{Cause, MOST_INPUT, Mark, MemorySink, TextFault, TextStop};
use tile_system::{BoxArea, Side, Site, System};
use tile_text::{print_system, read_system};
use worked_systems::{CHAIN, changed_line};

// The glue on a side of the type with this name, by its name.
fn glue_on<'a>(system: &'a System, tile: &[u8], side: Side) -> Option<&'a [u8]> {
    let glue = system.side(system.find_type(tile)?, side)?;
    Some(system.glue_name(glue))
}

#[test]
#[tactic(auto, using(tile_io::proofs::Progress::start_is_mark))]
fn reads_a_chain(rt: HostRuntime) -> Result<(), Fail> {
    let (system, to) = read_system(rt.alloc(), CHAIN.as_bytes(), Mark::start())?;
    assert!(rt; to == Mark { at: 104, line: 11 });
    assert!(rt; system.tau() == 2 && system.glue_count() == 2 && system.type_count() == 3);
    let row = BoxArea {
        x0: 0,
        y0: 0,
        x1: 2,
        y1: 0,
    };
    assert!(rt; system.area() == row && system.seed().site == Site { x: 0, y: 0 });
    assert!(rt; system.find_type(b"S") == Some(system.seed().tile));
    assert!(rt; has_glues(&system));
    Ok(())
}

// Whether each glue is on its sides.
fn has_glues(system: &System) -> bool {
    let (a, b) = (Some(b"a".as_slice()), Some(b"b".as_slice()));
    glue_on(system, b"S", Side::East) == a
        && glue_on(system, b"B", Side::West) == a
        && glue_on(system, b"B", Side::East) == b
        && glue_on(system, b"C", Side::North) == None
}

// What refuses a text from its start on.
#[tactic(auto, using(tile_io::proofs::Progress::start_is_mark))]
fn refusal(alloc: Global, text: &str) -> Option<TextStop> {
    if text.len() > MOST_INPUT {
        return None;
    }
    read_system(alloc, text.as_bytes(), Mark::start()).err()
}

const LONG_NAME: &str = "glue aaaaaaaaaabbbbbbbbbbccccccccccddddddddddx 2";

// One byte more than a line may have.
const LONG_REMARK: &str = "################################################################\
    ################################################################\
    ################################################################\
    #################################################################";

// A line of the chain, counted from 1, what stands there instead, and the line and the cause of
// what refuses it.
const CHANGED: [(usize, &str, u32, Cause); 25] = [
    (1, "tiles 2", 1, Cause::NoHeader),
    (1, "tiles 1\r", 1, Cause::NoHeader),
    (2, "tau 0", 2, Cause::OutOfRange),
    (2, "tau 1001", 2, Cause::OutOfRange),
    (2, "tau -1", 2, Cause::OutOfRange),
    (2, "tau 4294967297", 2, Cause::OutOfRange),
    (2, "tau 00000000002", 2, Cause::BadNumber),
    (2, "tau +1", 2, Cause::BadNumber),
    (2, "tau -", 2, Cause::BadNumber),
    (2, "tau 1 2", 2, Cause::BadLine),
    (2, "end", 2, Cause::OutOfOrder),
    (3, "glue a 251", 3, Cause::OutOfRange),
    (3, LONG_NAME, 3, Cause::BadName),
    (4, "glue a 2", 4, Cause::DoubleName),
    (4, "glue a 251", 4, Cause::DoubleName),
    (4, LONG_REMARK, 4, Cause::LineTooLong),
    (5, "tile S - z - -", 5, Cause::UnknownName),
    (5, "tile S - a# - -", 5, Cause::BadName),
    (6, "tile S - b - z", 6, Cause::DoubleName),
    (8, "box 0 0 1024 0", 8, Cause::OutOfRange),
    (8, "box 0 0 1000001 0", 8, Cause::OutOfRange),
    (9, "seed 3 0 S", 9, Cause::SeedOutside),
    (9, "seed 3 0 X", 9, Cause::UnknownName),
    (9, "seed 0 0 S\nseed 0 0 S", 10, Cause::OutOfOrder),
    (10, "# no end", 11, Cause::NoEnd),
];

fn is_refused(alloc: Global, text: &str, line: u32, cause: Cause) -> bool {
    refusal(alloc, text) == Some(TextStop::Fault(TextFault { line, cause }))
}

// The number, from 0, of the first change that is refused otherwise.
fn first_unlike(alloc: Global) -> Result<Option<usize>, AllocError> {
    for (change, (number, line, at, cause)) in CHANGED.iter().enumerate() {
        let text = changed_line(alloc, CHAIN, *number, line)?;
        if !is_refused(alloc, text.as_str(), *at, *cause) {
            return Ok(Some(change));
        }
    }
    Ok(None)
}

#[test]
fn refuses_a_changed_line(rt: HostRuntime) -> Result<(), Fail> {
    assert_eq!(rt; first_unlike(rt.alloc())?, None);
    Ok(())
}

// Lines that mean the same.
const TAKEN: [(usize, &str); 4] = [
    (2, "tau 0000000002"),
    (2, "  tau   2 "),
    (9, "seed -0 00 S"),
    (10, "# a remark\n\nend\nlies"),
];

#[test]
fn takes_a_changed_line(rt: HostRuntime) -> Result<(), Fail> {
    for (number, line) in TAKEN {
        let text = changed_line(rt.alloc(), CHAIN, number, line)?;
        assert!(rt; refusal(rt.alloc(), text.as_str()).is_none());
    }
    Ok(())
}

// The lengths of parts of the chain that lack its end, and where.
const CUT: [(usize, u32, Cause); 8] = [
    (0, 1, Cause::NoHeader),
    (1, 1, Cause::NoEnd),
    (7, 1, Cause::NoEnd),
    (8, 2, Cause::NoEnd),
    (13, 2, Cause::NoEnd),
    (14, 3, Cause::NoEnd),
    (100, 10, Cause::NoEnd),
    (103, 10, Cause::NoEnd),
];

#[test]
fn refuses_a_cut_text(rt: HostRuntime) -> Result<(), Fail> {
    for (length, line, cause) in CUT {
        let front = CHAIN.get(..length).unwrap_or(CHAIN);
        assert!(rt; is_refused(rt.alloc(), front, line, cause));
    }
    Ok(())
}

const UNTIDY: &str =
    "# two words\n\ntiles 1\ntau  02\n  glue a 0002 \ntile S - a - -\nbox -3 -0 0005 1\n\
    seed -0 00   S\nend\n";

const TIDY: &str = "tiles 1\ntau 2\nglue a 2\ntile S - a - -\nbox -3 0 5 1\nseed 0 0 S\nend\n";

// What is printed has single spaces, plain numbers and no remarks.
#[test]
#[tactic(auto, using(tile_io::proofs::Progress::start_is_mark))]
fn prints_what_was_read(rt: HostRuntime) -> Result<(), Fail> {
    let alloc = rt.alloc();
    for (text, want) in [(UNTIDY, TIDY), (CHAIN, CHAIN)] {
        assert!(rt; text.len() <= 200);
        let (system, _) = read_system(alloc, text.as_bytes(), Mark::start())?;
        let mut sink = MemorySink::make(alloc, 200, 7, Vec::new(alloc))?;
        print_system(&system, &mut sink)?;
        assert!(rt; sink.bytes() == want.as_bytes());
    }
    Ok(())
}
