// Growths as text, and the schedules of scouts: read, refused, and printed.
ghost use Rattle.atam.specs.TileSystem.{IsType};

use assembly::{Grid, Sequence};
use atam::{CoreStop, Event, Seen};
use seq_text::{print_replies, print_seen, read_events, read_grid, read_sequence};
use std::alloc::{AllocError, Global};
use std::test::Fail;
use tile_io::{Cause, MOST_INPUT, Mark, MemorySink, TextFault, TextStop};
use tile_system::{Place, Placed, Site, System, TypeId};
use tile_text::read_system;
use worked_systems::system;

// Two types, and a box of three columns and two rows. The growth text begins in line 9.
const SYSTEM: &str =
    "tiles 1\ntau 1\nglue a 1\ntile S - a - -\ntile B - - - a\nbox -1 0 1 1\nseed 0 0 S\nend\n";

const FIRST: u32 = 9;

// The text of the system with a growth text behind it.
fn whole(alloc: Global, growth: &str) -> Result<String, AllocError> {
    let mut text = String::from_str(alloc, SYSTEM)?;
    text.push_str(growth)?;
    Ok(text)
}

#[tactic(auto, using(tile_io::proofs::Progress::start_is_mark))]
fn sequence_of(alloc: Global, growth: &str) -> Result<Sequence, TextStop> {
    let text = whole(alloc, growth)?;
    let text = text.as_bytes();
    if text.len() > MOST_INPUT {
        return Err(TextStop::NoMemory);
    }
    let (system, from) = read_system(alloc, text, Mark::start())?;
    read_sequence(alloc, &system, text, from)
}

#[tactic(auto, using(tile_io::proofs::Progress::start_is_mark))]
fn grid_of(alloc: Global, growth: &str) -> Result<Grid, TextStop> {
    let text = whole(alloc, growth)?;
    let text = text.as_bytes();
    if text.len() > MOST_INPUT {
        return Err(TextStop::NoMemory);
    }
    let (system, from) = read_system(alloc, text, Mark::start())?;
    read_grid(alloc, &system, text, from)
}

#[tactic(auto, using(tile_io::proofs::Progress::start_is_mark))]
fn events_of(alloc: Global, schedule: &str) -> Result<Vec<Event>, TextStop> {
    let text = whole(alloc, schedule)?;
    let text = text.as_bytes();
    if text.len() > MOST_INPUT {
        return Err(TextStop::NoMemory);
    }
    let (system, from) = read_system(alloc, text, Mark::start())?;
    read_events(alloc, &system, text, from)
}

const fn place(x: i32, y: i32, tile: u32) -> Place {
    Place {
        site: Site { x, y },
        tile: TypeId(tile),
    }
}

// Whether the text is read as this sequence.
fn is_sequence(alloc: Global, growth: &str, places: &[Place]) -> Result<bool, TextStop> {
    let sequence = sequence_of(alloc, growth)?;
    Ok(sequence.len() == places.len() && sequence.starts_with(places))
}

// Whether the text is read as the grid with these places.
fn is_grid(alloc: Global, growth: &str, places: &[Place]) -> Result<bool, TextStop> {
    let grid = grid_of(alloc, growth)?;
    for place in places {
        if grid.at(place.site) != Some(place.tile) {
            return Ok(false);
        }
    }
    Ok(grid.count() as usize == places.len())
}

// Remarks, empty lines and spaces, numbers with zeros in front, and what is not looked at.
const GROWTH: &str =
    "# two words\nplace 0 0 S\n\n  place  01 -0 B \nplace -1 1 S\nclosed later # or never\n\
    unique 1 2 3 4 5 6\n";

// Texts, and how many places they list.
const COUNTS: [(&str, usize); 6] = [
    ("", 0),
    ("# nothing\n\n", 0),
    ("closed terminal\n", 0),
    ("unique yes\n", 0),
    ("place 1 1 B\nunique yes\n", 1),
    ("place 1 1 B\nclosed place 1 1 B\n", 1),
];

#[test]
fn reads_places(rt: HostRuntime) -> Result<(), Fail> {
    let places = [place(0, 0, 0), place(1, 0, 1), place(-1, 1, 0)];
    assert!(rt; is_sequence(rt.alloc(), GROWTH, &places)?);
    assert!(rt; is_grid(rt.alloc(), GROWTH, &places)?);
    for (growth, count) in COUNTS {
        assert!(rt; sequence_of(rt.alloc(), growth)?.len() == count);
    }
    Ok(())
}

// One byte more than a line may have.
const LONG_REMARK: &str = "################################################################\
    ################################################################\
    ################################################################\
    #################################################################";

// Texts, and the line, after the system's, and the cause of what refuses them.
const REFUSED: [(&str, u32, Cause); 19] = [
    ("place 0 0\n", 0, Cause::BadLine),
    ("place 0 0 S S\n", 0, Cause::BadLine),
    ("place 0 0 S\nclosed\n", 1, Cause::BadLine),
    ("unique\n", 0, Cause::BadLine),
    ("places 0 0 S\n", 0, Cause::BadLine),
    ("seed 0 0 S\n", 0, Cause::BadLine),
    ("closed terminal\nplace 0 0 S\n", 1, Cause::OutOfOrder),
    ("unique yes\nclosed terminal\n", 1, Cause::OutOfOrder),
    (
        "closed terminal\n#\nclosed terminal\n",
        2,
        Cause::OutOfOrder,
    ),
    ("closed a\nunique yes\nunique yes\n", 2, Cause::OutOfOrder),
    ("place 1000001 0 S\n", 0, Cause::OutOfRange),
    ("place 0 -1000001 0\n", 0, Cause::OutOfRange),
    ("place 0 y -\n", 0, Cause::BadNumber),
    ("place 9 9 -\n", 0, Cause::BadName),
    ("place 9 9 C\n", 0, Cause::UnknownName),
    ("place 0 1 S\nplace 0 2 S\n", 1, Cause::OutsideBox),
    ("place 1000000 0 S\n", 0, Cause::OutsideBox),
    ("place 0 0 S\nplace 1 0 S", 1, Cause::NoEnd),
    (LONG_REMARK, 0, Cause::LineTooLong),
];

const fn fault(at: u32, cause: Cause) -> TextStop {
    TextStop::Fault(TextFault {
        line: FIRST.saturating_add(at),
        cause,
    })
}

// The number, from 0, of the first of these texts that is refused otherwise.
fn first_unlike(alloc: Global) -> Option<usize> {
    for (number, (growth, at, cause)) in REFUSED.iter().enumerate() {
        let stop = Some(fault(*at, *cause));
        if sequence_of(alloc, growth).err() != stop || grid_of(alloc, growth).err() != stop {
            return Some(number);
        }
    }
    None
}

#[test]
fn refuses_lines(rt: HostRuntime) -> Result<(), Fail> {
    assert_eq!(rt; first_unlike(rt.alloc()), None);
    Ok(())
}

// A site may repeat in a sequence alone.
#[test]
fn refuses_a_double_site_in_a_grid(rt: HostRuntime) -> Result<(), Fail> {
    let growth = "place 0 0 S\nplace 1 0 B\nplace 0 0 B\n";
    assert!(rt; grid_of(rt.alloc(), growth).err() == Some(fault(2, Cause::DoubleSite)));
    let places = [place(0, 0, 0), place(1, 0, 1), place(0, 0, 1)];
    assert!(rt; is_sequence(rt.alloc(), growth, &places)?);
    Ok(())
}

// Lines in any order, sites outside the box, and the greatest number of a scout.
const SCHEDULE: &str =
    "# two\nsplit 0\nclaim 4294967295 1 -0 B\nlook 007 -1000000 1000000\n\njoin 2 40\nsplit 2\n";

const EVENTS: [Event; 5] = [
    Event::Split { who: 0 },
    Event::Claim {
        who: 4294967295,
        site: Site { x: 1, y: 0 },
        tile: TypeId(1),
    },
    Event::Look {
        who: 7,
        site: Site {
            x: -1000000,
            y: 1000000,
        },
    },
    Event::Join { into: 2, from: 40 },
    Event::Split { who: 2 },
];

#[test]
fn reads_a_schedule(rt: HostRuntime) -> Result<(), Fail> {
    assert!(rt; events_of(rt.alloc(), SCHEDULE)?.as_slice() == EVENTS.as_slice());
    assert!(rt; events_of(rt.alloc(), "# nothing\n")?.len() == 0);
    Ok(())
}

const REFUSED_EVENTS: [(&str, u32, Cause); 12] = [
    ("look 0 0\n", 0, Cause::BadLine),
    ("split 0 1\n", 0, Cause::BadLine),
    ("join 0\n", 0, Cause::BadLine),
    ("claim 0 0 0\n", 0, Cause::BadLine),
    ("split 0\nplace 0 0 S\n", 1, Cause::BadLine),
    ("look x y 0\n", 0, Cause::BadNumber),
    ("split -1\n", 0, Cause::OutOfRange),
    ("join 0 4294967296\n", 0, Cause::OutOfRange),
    ("look 0 1000001 y\n", 0, Cause::OutOfRange),
    ("claim 0 0 0 -\n", 0, Cause::BadName),
    ("#\nclaim 0 9 9 C\n", 1, Cause::UnknownName),
    ("split 0\nsplit 0", 1, Cause::NoEnd),
];

// The number, from 0, of the first of these schedules that is refused otherwise.
fn first_unlike_schedule(alloc: Global) -> Option<usize> {
    for (number, (schedule, at, cause)) in REFUSED_EVENTS.iter().enumerate() {
        if events_of(alloc, schedule).err() != Some(fault(*at, *cause)) {
            return Some(number);
        }
    }
    None
}

#[test]
fn refuses_lines_of_a_schedule(rt: HostRuntime) -> Result<(), Fail> {
    assert_eq!(rt; first_unlike_schedule(rt.alloc()), None);
    Ok(())
}

const TOLD: &str =
    "saw -\nsaw B\nwon\nheld B\nsplit 32\njoined 4294967295\nrefused 1\nrefused 2 10\n\
    refused 3\nrefused 4\n";

// What is printed of each kind of answer, where this type is told.
fn printed(alloc: Global, system: &System, tile: TypeId) -> Result<Vec<u8>, Fail>
    requires { IsType system.now tile }
{
    let mut sink = MemorySink::make(alloc, 200, 7, Vec::new(alloc))?;
    let replies = [
        Ok(Seen::Saw(None)),
        Ok(Seen::Saw(Some(tile))),
        Ok(Seen::Won),
        Ok(Seen::Held(tile)),
        Ok(Seen::Divided(32)),
        Ok(Seen::Joined(4294967295)),
        Err(CoreStop::NoSuchScout),
        Err(CoreStop::NotSupported { pull: 10 }),
        Err(CoreStop::OutsideBox),
    ];
    print_replies(system, &replies, &mut sink)?;
    print_seen(system, &Err(CoreStop::NoNumberLeft), &mut sink)?;
    Ok(sink.bytes().to_vec(alloc)?)
}

// One line for each answer.
#[test]
fn prints_answers(rt: HostRuntime) -> Result<(), Fail> {
    let system = system(rt.alloc(), SYSTEM)?;
    let Some(tile) = system.find_type(b"B") else {
        return Err("no type B").map_err(Fail::from);
    };
    let told = printed(rt.alloc(), &system, tile)?;
    assert!(rt; told.as_slice() == TOLD.as_bytes());
    Ok(())
}
