// What machines compile to, and what the rows of their tiles show.
ghost use Rattle.std.specs.Prelude.{◌<◌, ◌≤◌, length, IfOk, IfSome};
ghost use Rattle.tile_io.specs.declared.limits.TheConstants.{MOST_INPUT};
ghost use Rattle.machine_text.specs.Machines.{IsConfigOf};

use crate::machines::machine;
use crate::runs::{Shown, is_shown};
use machine_text::{Config, Machine};
use seq_text::read_grid;
use std::alloc::Global;
use std::test::Fail;
use tile_io::{MOST_INPUT, Mark, MemorySink, TextStop};
use tile_text::print_system;
use turing_compile::{compile, row_config};
use worked_systems::{
    BIT_FLIPPER, CLIPPED_FLIPPER, FLIPPED, FLIPPER, IDLE, LEFT_RUNNER, RUN_LEFT, widest_machine,
};

// What grows from the bit flipper's tiles in a box of two rows.
const CLIPPED: &str =
    "place 0 0 t:0\nplace 1 0 t:1\nplace 2 0 t:2\nplace 0 1 a:F:1\nplace 1 1 R:F:0\n\
    place 2 1 r:1\n";

const IDLED: &str = "place 0 0 t:0\nplace 1 0 t:1\n";

// Rows that nothing grows into: with a gap, and with two heads.
const GAP: &str = "place 0 0 t:0\nplace 2 0 t:2\n";

const TWO_HEADS: &str = "place 0 1 R:F:0\nplace 1 1 r:1\nplace 2 1 L:F:1\n";

#[test]
fn compiles_the_bit_flipper(rt: HostRuntime) -> Result<(), Fail> {
    let machine = machine(rt.alloc(), BIT_FLIPPER)?;
    let system = compile(rt.alloc(), &machine)?;
    let mut sink = MemorySink::make(rt.alloc(), 2000, 2000, Vec::new(rt.alloc()))?;
    print_system(&system, &mut sink)?;
    assert!(rt; sink.bytes() == FLIPPER.as_bytes());
    Ok(())
}

// A machine, places of its tiles, a row, and the configuration that it shows.
struct ShownRow {
    machine: &'static str,
    places: &'static str,
    y: u32,
    wanted: Option<Shown>,
}

const ROWS: [ShownRow; 12] = [
    ShownRow {
        machine: BIT_FLIPPER,
        places: FLIPPED,
        y: 0,
        wanted: Some((&[1, 0, 1], Some((0, 0)))),
    },
    ShownRow {
        machine: BIT_FLIPPER,
        places: FLIPPED,
        y: 1,
        wanted: Some((&[0, 0, 1], Some((1, 0)))),
    },
    ShownRow {
        machine: BIT_FLIPPER,
        places: FLIPPED,
        y: 2,
        wanted: Some((&[0, 1, 1], Some((2, 0)))),
    },
    ShownRow {
        machine: BIT_FLIPPER,
        places: FLIPPED,
        y: 3,
        wanted: Some((&[0, 1, 0], None)),
    },
    ShownRow {
        machine: BIT_FLIPPER,
        places: FLIPPED,
        y: 4,
        wanted: None,
    },
    ShownRow {
        machine: CLIPPED_FLIPPER,
        places: CLIPPED,
        y: 1,
        wanted: Some((&[0, 0, 1], Some((1, 0)))),
    },
    ShownRow {
        machine: BIT_FLIPPER,
        places: GAP,
        y: 0,
        wanted: None,
    },
    ShownRow {
        machine: BIT_FLIPPER,
        places: TWO_HEADS,
        y: 1,
        wanted: None,
    },
    ShownRow {
        machine: IDLE,
        places: IDLED,
        y: 0,
        wanted: Some((&[0, 0], Some((0, 0)))),
    },
    ShownRow {
        machine: IDLE,
        places: IDLED,
        y: 1,
        wanted: None,
    },
    ShownRow {
        machine: LEFT_RUNNER,
        places: RUN_LEFT,
        y: 1,
        wanted: Some((&[1, 0], None)),
    },
    ShownRow {
        machine: LEFT_RUNNER,
        places: RUN_LEFT,
        y: 2,
        wanted: None,
    },
];

// The configuration that a row of these places shows.
#[tactic(auto, using(tile_io::proofs::Progress::start_is_mark))]
fn row(alloc: Global, machine: &Machine, places: &[u8], y: u32) -> Result<Option<Config>, TextStop>
    requires row { y < machine.now.rows }
    requires short { length places.now ≤ MOST_INPUT }
    ensures { IfOk result (λ found. IfSome found (IsConfigOf machine.now)) }
{
    let Ok(system) = compile(alloc, machine) else {
        return Err(TextStop::NoMemory);
    };
    let grid = read_grid(alloc, &system, places, Mark::start())?;
    match row_config(alloc, machine, &grid, y) {
        Ok(found) => Ok(found),
        Err(_) => Err(TextStop::NoMemory),
    }
}

fn shows_so(alloc: Global, wanted: &ShownRow) -> Result<bool, TextStop> {
    let machine = machine(alloc, wanted.machine)?;
    if wanted.y >= machine.rows() || wanted.places.len() > MOST_INPUT {
        return Ok(false);
    }
    let found = row(alloc, &machine, wanted.places.as_bytes(), wanted.y)?;
    Ok(is_shown(&machine, &found, wanted.wanted))
}

#[test]
fn rows_show_configurations(rt: HostRuntime) -> Result<(), Fail> {
    for (number, row) in ROWS.iter().enumerate() {
        assert!(rt; shows_so(rt.alloc(), row)?, "{number}");
    }
    Ok(())
}

#[test]
fn the_widest_machine_is_within_the_limits(rt: HostRuntime) -> Result<(), Fail> {
    for (has_rules, glues, types) in [(false, 705, 8832), (true, 4801, 12928)] {
        let text = widest_machine(rt.alloc(), has_rules)?;
        let machine = machine(rt.alloc(), text.as_str())?;
        let system = compile(rt.alloc(), &machine)?;
        assert!(rt; system.glue_count() == glues && system.type_count() == types);
    }
    Ok(())
}
