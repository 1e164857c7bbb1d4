// What counters compile to, and what their rows show.
ghost use Rattle.std.specs.Prelude.{ℕ};
ghost use Rattle.counter_compile.specs.Counters.{IsOfCounter};

use assembly::Grid;
use counter_compile::{CounterStop, compile_counter, row_value};
use seq_text::read_grid;
use std::alloc::Global;
use std::test::Fail;
use tile_io::{MOST_INPUT, Mark, MemorySink};
use tile_text::print_system;
use worked_systems::{COUNTED, SMALL_COUNTER};

#[test]
fn compiles_the_small_counter(rt: HostRuntime) -> Result<(), Fail> {
    let system = compile_counter(rt.alloc(), 2, 0)?;
    let mut sink = MemorySink::make(rt.alloc(), 2000, 2000, Vec::new(rt.alloc()))?;
    print_system(&system, &mut sink)?;
    assert!(rt; sink.bytes() == SMALL_COUNTER.as_bytes());
    Ok(())
}

// Bits, a start, and what stops such a counter.
const STOPS: [(u32, u64, Option<CounterStop>); 9] = [
    (1, 0, Some(CounterStop::BitsOutOfRange)),
    (33, 1 << 40, Some(CounterStop::BitsOutOfRange)),
    (2, 4, Some(CounterStop::StartTooLarge)),
    (32, 1 << 32, Some(CounterStop::StartTooLarge)),
    (10, 511, Some(CounterStop::TooTall)),
    (32, 0, Some(CounterStop::TooTall)),
    (2, 3, None),
    (10, 512, None),
    (32, (1 << 32) - 512, None),
];

#[test]
fn refuses_what_passes_a_limit(rt: HostRuntime) -> Result<(), Fail> {
    for (bits, start, stop) in STOPS {
        assert!(rt; compile_counter(rt.alloc(), bits, start).err() == stop);
    }
    Ok(())
}

// What the whole counter of two bits shows from 0, row by row, and what that from 3 does.
const FROM_NOUGHT: [Option<u64>; 8] = [
    Some(0),
    Some(1),
    Some(1),
    Some(2),
    Some(2),
    Some(3),
    Some(3),
    Some(0),
];

// What the first three places show.
const FRONT: [Option<u64>; 8] = [Some(0), None, None, None, None, None, None, None];

const FROM_THREE: [Option<u64>; 2] = [Some(3), Some(0)];

// What grows from the counter of two bits from 3.
const LAST_COUNTED: &str = "place 0 0 t:0\nplace 1 0 t:1\nplace 1 1 ie:1\nplace 0 1 iw:11\n";

// Whether the rows of these places of a counter of two bits show these numbers.
#[tactic(auto, using(tile_io::proofs::Progress::start_is_mark))]
fn show(alloc: Global, start: u64, places: &str, values: &[Option<u64>]) -> Result<bool, Fail> {
    let system = compile_counter(alloc, 2, start)?;
    if places.len() > MOST_INPUT {
        return Ok(false);
    }
    let grid = read_grid(alloc, &system, places.as_bytes(), Mark::start())?;
    Ok(rows_show(&grid, values))
}

// Whether the rows of the box show these numbers.
fn rows_show(grid: &Grid, values: &[Option<u64>]) -> bool
    requires { (start : ℕ) × IsOfCounter 2 start grid.now }
{
    let area = grid.area();
    for y in 0..area.height() {
        if values.get(y as usize) != Some(&row_value(2, grid, y)) {
            return false;
        }
    }
    true
}

#[test]
fn rows_show_numbers(rt: HostRuntime) -> Result<(), Fail> {
    assert!(rt; show(rt.alloc(), 0, COUNTED, &FROM_NOUGHT)?);
    assert!(rt; show(rt.alloc(), 3, LAST_COUNTED, &FROM_THREE)?);
    let front = COUNTED.get(..43).unwrap_or("");
    assert!(rt; show(rt.alloc(), 0, front, &FRONT)?);
    Ok(())
}
