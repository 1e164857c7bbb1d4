// What two-input rules compile to, and what grows from it.
ghost use Rattle.std.specs.Prelude.{◌<◌, ◌≡◌, ◌^◌, true, length, IfOk};
ghost use Rattle.atam.specs.Assembly.{Fits};
ghost use Rattle.atam.specs.Growth.{IsLegal};

use crate::rules::quadrants::{
    EXCLUSIVE_OR, EXCLUSIVE_OR_PLACES, EXCLUSIVE_OR_TILES, LOPSIDED, LOPSIDED_PLACES,
    LOPSIDED_TILES, WITHOUT_ONES, WITHOUT_ONES_PLACES, WITHOUT_ONES_TILES, quadrant,
};
use crate::rules::texts::largest;
use assembly::{Grid, Sequence};
use atam::{Legality, Verdict};
use local_check::{inputs, judge};
use quadrant_compile::compile_quadrant;
use replay_order::check_legal;
use std::alloc::Global;
use std::test::Fail;
use tile_io::MemorySink;
use tile_system::{NoMemory, System};
use tile_text::print_system;
use worked_systems::{Spot, sequence_of};

// Rules, their tiles, and what grows from these.
const WORKED: [(&str, &str, &[Spot]); 3] = [
    (EXCLUSIVE_OR, EXCLUSIVE_OR_TILES, &EXCLUSIVE_OR_PLACES),
    (WITHOUT_ONES, WITHOUT_ONES_TILES, &WITHOUT_ONES_PLACES),
    (LOPSIDED, LOPSIDED_TILES, &LOPSIDED_PLACES),
];

// The system of a text of rules, and its own text.
fn compiled(alloc: Global, rules: &str) -> Result<(System, MemorySink), Fail> {
    let quadrant = quadrant(alloc, rules)?;
    let system = compile_quadrant(alloc, &quadrant)?;
    let mut sink = MemorySink::make(alloc, 4000, 4000, Vec::new(alloc))?;
    print_system(&system, &mut sink)?;
    Ok((system, sink))
}

#[test]
fn compiles_worked_rules(rt: HostRuntime) -> Result<(), Fail> {
    for (rules, tiles, _places) in WORKED {
        let (_system, sink) = compiled(rt.alloc(), rules)?;
        assert!(rt; sink.bytes() == tiles.as_bytes(), "{rules}");
    }
    Ok(())
}

// Whether a sequence is legal.
fn is_legal(alloc: Global, sys: &System, order: &Sequence) -> Result<bool, NoMemory>
    requires fits { Fits sys.now order.now }
    requires short { length order.now < 2 ^ 32 }
    ensures { IfOk result (λ legal. legal ≡ true → IsLegal sys.now order.now) }
{
    let mut scratch = Grid::make(alloc, sys.area())?;
    let legality = check_legal(sys, order, &mut scratch);
    Ok(matches!(legality, Legality::Legal))
}

// Whether a sequence is legal, and the only one that grows as far as the order goes.
fn is_the_growth(alloc: Global, sys: &System, order: &Sequence) -> Result<bool, NoMemory>
    requires fits { Fits sys.now order.now }
    requires short { length order.now < 2 ^ 32 }
{
    if !is_legal(alloc, sys, order)? {
        return Ok(false);
    }
    let sides = inputs(alloc, sys, order)?;
    Ok(judge(sys, order, &sides) == Verdict::Yes)
}

#[test]
fn worked_rules_grow_so(rt: HostRuntime) -> Result<(), Fail> {
    for (rules, _tiles, places) in WORKED {
        let (system, _sink) = compiled(rt.alloc(), rules)?;
        let few = places.len() < 10;
        assert!(rt; few);
        let order = sequence_of(rt.alloc(), &system, places)?;
        assert!(rt; is_the_growth(rt.alloc(), &system, &order)?, "{rules}");
    }
    Ok(())
}

#[test]
fn the_largest_rules_are_within_the_limits(rt: HostRuntime) -> Result<(), Fail> {
    for (has_rules, types) in [(false, 2047), (true, 6143)] {
        let text = largest(rt.alloc(), 64, has_rules)?;
        let quadrant = quadrant(rt.alloc(), text.as_str())?;
        let system = compile_quadrant(rt.alloc(), &quadrant)?;
        assert!(rt; system.glue_count() == 2174 && system.type_count() == types);
    }
    Ok(())
}
