// The verdict on legal sequences, and what beginnings grow into.
ghost use Rattle.std.specs.Prelude.{◌<◌, ◌^◌, ◌≡◌, true, length, IfOk, IfSome};
ghost use Rattle.atam.specs.Assembly.{Fits};
ghost use Rattle.atam.specs.Growth.{IsLegal};
ghost use Rattle.atam.specs.Determinism.{IsLocallyDeterministic};
ghost use Rattle.local_check.specs.Judgement.{IsVerdict};

use assembly::{Grid, Sequence};
use atam::{Legality, Verdict};
use attach_rule::closed_in_box;
use fan_out::WorkerCount;
use local_check::{Judged, LaidOut, SideSets, inputs, judge, judge_grown, judge_once};
use replay_order::check_legal;
use std::alloc::Global;
use std::test::Fail;
use std::thread::Threads;
use tile_system::{NoMemory, Side, Site, System, TypeId};
use type_index::TypeIndex;
use unique_law::{law_extends, law_part, law_same_verdict};
use worked_systems::{CHAIN, MISMATCH, RIVALS, SQUARE, Spot, lists, sequence_of, system};

const S: Spot = (0, 0, 0);

const B: Spot = (1, 0, 1);

const D: Spot = (2, 0, 2);

const L: Spot = (0, 1, 3);

const T: Spot = (1, 1, 4);

const R: Spot = (2, 1, 5);

// By rows, so that T attaches before the tile with which it mismatches; and the other way round.
const BY_ROWS: [Spot; 6] = [S, B, D, L, T, R];

const MISMATCH_FIRST: [Spot; 6] = [S, B, D, L, R, T];

// Whether a sequence is legal.
fn is_legal(alloc: Global, sys: &System, order: &Sequence) -> Result<bool, NoMemory>
    requires fits { Fits sys.now order.now }
    requires short { length order.now < 2 ^ 32 }
    ensures { IfOk result (λ legal. legal ≡ true → IsLegal sys.now order.now) }
{
    let mut scratch = Grid::make(alloc, sys.area())?;
    let legality = check_legal(sys, order, &mut scratch);
    Ok(matches!(legality, Legality::Legal))
}

// A sequence of these places, if it is legal.
fn legal_sequence(alloc: Global, sys: &System, spots: &[Spot]) -> Result<Option<Sequence>, NoMemory>
    requires { length spots.now < 2 ^ 32 }
    ensures fits { IfOk result (λ found. IfSome found (Fits sys.now)) }
    ensures short { IfOk result (λ found. IfSome found (λ order. length order < 2 ^ 32)) }
    ensures legal { IfOk result (λ found. IfSome found (IsLegal sys.now)) }
{
    let order = sequence_of(alloc, sys, spots)?;
    if is_legal(alloc, sys, &order)? {
        Ok(Some(order))
    } else {
        Ok(None)
    }
}

// The verdict on a legal sequence.
fn verdict_on(alloc: Global, sys: &System, order: &Sequence) -> Result<Verdict, NoMemory>
    requires fits { Fits sys.now order.now }
    requires short { length order.now < 2 ^ 32 }
    requires legal { IsLegal sys.now order.now }
    ensures { IfOk result (IsVerdict sys.now order.now) }
{
    let sides = inputs(alloc, sys, order)?;
    Ok(judge(sys, order, &sides))
}

// The verdict on a legal sequence as on a full growth, if nothing extends it in the box.
fn verdict_on_grown<R: Threads + Sync>(
    rt: &R,
    alloc: Global,
    sys: &System,
    order: &Sequence,
) -> Result<Option<Verdict>, NoMemory>
    requires fits { Fits sys.now order.now }
    requires short { length order.now < 2 ^ 32 }
    requires legal { IsLegal sys.now order.now }
    ensures { IfOk result (λ found. IfSome found (IsVerdict sys.now order.now)) }
{
    let mut grid = Grid::make(alloc, sys.area())?;
    let _legal = check_legal(sys, order, &mut grid);
    if !closed_in_box(sys, &grid) {
        return Ok(None);
    }
    let types = TypeIndex::build(alloc, sys)?;
    let outside = types.least_open_outside(sys, &grid);
    let laid = LaidOut {
        sys,
        seq: order,
        grid: &grid,
        types: &types,
    };
    let verdict = judge_grown(rt, alloc, &laid, false, outside, WorkerCount::new(3))?;
    Ok(Some(verdict))
}

const CLIPPED: Verdict = Verdict::NotTerminal {
    site: Site { x: 2, y: 0 },
    tile: TypeId(2),
};

const RIVAL: Verdict = Verdict::Rival {
    site: Site { x: 1, y: 0 },
    tile: TypeId(2),
};

const HELD_TWICE: Verdict = Verdict::NotExact {
    site: Site { x: 1, y: 1 },
    sum: 2,
};

// A tile without a glue towards one that comes later, whose glue there holds a rival of it.
const BARE_BESIDE: &str = "tiles 1\ntau 1\nglue a 1\nglue b 1\nglue c 1\nglue d 1\ntile S b a - -\n\
    tile A - - - a\ntile N - c b -\ntile C - - d c\ntile U d - - -\nbox 0 0 1 1\nseed 0 0 S\nend\n";

const AROUND: [Spot; 4] = [S, B, (0, 1, 2), (1, 1, 3)];

const RIVAL_BEHIND: Verdict = Verdict::Rival {
    site: Site { x: 1, y: 0 },
    tile: TypeId(4),
};

// Systems, legal sequences, the verdict, and whether nothing extends the sequence in the box.
const CASES: [(&str, &[Spot], Verdict, bool); 6] = [
    (CHAIN, &[S, B, D], Verdict::Yes, true),
    (CHAIN, &[S, B], CLIPPED, false),
    (RIVALS, &[S, B], RIVAL, true),
    (SQUARE, &AROUND, HELD_TWICE, true),
    (BARE_BESIDE, &AROUND, RIVAL_BEHIND, true),
    (MISMATCH, &BY_ROWS, Verdict::Yes, true),
];

// Whether a sequence of these places is legal and has this verdict, as a full growth too if it is
// said to be one.
fn is_judged_so<R: Threads + Sync>(
    rt: &R,
    alloc: Global,
    text: &str,
    spots: &[Spot],
    verdict: Verdict,
    is_full: bool,
) -> Result<bool, Fail>
    requires { length spots.now < 2 ^ 32 }
{
    let sys = system(alloc, text)?;
    let Some(order) = legal_sequence(alloc, &sys, spots)? else {
        return Ok(false);
    };
    let told = if is_full { Some(verdict) } else { None };
    if verdict_on_grown(rt, alloc, &sys, &order)? != told {
        return Ok(false);
    }
    Ok(verdict_on(alloc, &sys, &order)? == verdict)
}

#[test]
fn judges_sequences(rt: HostRuntime) -> Result<(), Fail> {
    for (text, spots, verdict, is_full) in CASES {
        let few = spots.len() < 10;
        assert!(rt; few);
        assert!(rt; is_judged_so(&rt, rt.alloc(), text, spots, verdict, is_full)?);
    }
    Ok(())
}

// Systems and sequences: all clean, not held exactly, with rivals, with a mismatch, and broken.
const IN_ONE_PASS: [(&str, &[Spot]); 11] = [
    (CHAIN, &[S, B, D]),
    (CHAIN, &[S, B]),
    (RIVALS, &[S, B]),
    (SQUARE, &AROUND),
    (MISMATCH, &BY_ROWS),
    (MISMATCH, &MISMATCH_FIRST),
    (BARE_BESIDE, &AROUND),
    (CHAIN, &[B]),
    (CHAIN, &[S, D]),
    (CHAIN, &[S, B, B]),
    (SQUARE, &[S, B, (0, 1, 2), (1, 1, 3), B]),
];

// What is found of a sequence in two passes.
fn judged_in_two(alloc: Global, sys: &System, order: &Sequence) -> Result<Judged, NoMemory>
    requires fits { Fits sys.now order.now }
    requires short { length order.now < 2 ^ 32 }
{
    let mut grid = Grid::make(alloc, sys.area())?;
    match check_legal(sys, order, &mut grid) {
        Legality::Legal => Ok(Judged::Legal(verdict_on(alloc, sys, order)?)),
        breach => Ok(Judged::Breach(breach)),
    }
}

// Whether one pass finds the same.
fn is_judged_alike(alloc: Global, text: &str, spots: &[Spot]) -> Result<bool, Fail>
    requires { length spots.now < 2 ^ 32 }
{
    let sys = system(alloc, text)?;
    let order = sequence_of(alloc, &sys, spots)?;
    Ok(judge_once(alloc, &sys, &order)? == judged_in_two(alloc, &sys, &order)?)
}

#[test]
fn judges_in_one_pass(rt: HostRuntime) -> Result<(), Fail> {
    for (text, spots) in IN_ONE_PASS {
        let few = spots.len() < 10;
        assert!(rt; few);
        assert!(rt; is_judged_alike(rt.alloc(), text, spots)?);
    }
    Ok(())
}

// Whether the places of a chain that grows eastward have their input sides in the west, and their
// output sides in the east.
fn has_chain_sides(alloc: Global, sys: &System, chain: &Sequence) -> Result<bool, NoMemory>
    requires fits { Fits sys.now chain.now }
    requires legal { IsLegal sys.now chain.now }
{
    let sides = inputs(alloc, sys, chain)?;
    Ok(are_chain_sides(&sides, chain.len()))
}

// Whether these are the sides of such a chain of so many places.
fn are_chain_sides(sides: &SideSets<'_>, count: usize) -> bool
    requires { length sides.now.outputs ≡ count }
{
    for index in 0..count {
        let begins = index == 0;
        let ends = index + 1 == count;
        if sides.input(index, Side::West) == begins || sides.output(index, Side::East) == ends {
            return false;
        }
        if sides.input(index, Side::East) || sides.output(index, Side::West) {
            return false;
        }
    }
    true
}

#[test]
fn sides_of_a_chain(rt: HostRuntime) -> Result<(), Fail> {
    let sys = system(rt.alloc(), CHAIN)?;
    let is_so = match legal_sequence(rt.alloc(), &sys, &[S, B, D])? {
        Some(chain) => has_chain_sides(rt.alloc(), &sys, &chain)?,
        None => false,
    };
    assert!(rt; is_so);
    Ok(())
}

// What a legal sequence grows into by a locally deterministic one.
fn extended(
    alloc: Global,
    sys: &System,
    order: &Sequence,
    beginning: &Sequence,
) -> Result<Sequence, NoMemory>
    requires deterministic { IsLocallyDeterministic sys.now order.now }
    requires order { IsLegal sys.now order.now }
    requires beginning { IsLegal sys.now beginning.now }
    requires fits { Fits sys.now order.now }
{
    law_part(sys, order, beginning);
    let whole = law_extends(alloc, sys, order, beginning)?;
    law_same_verdict(sys, &whole, order);
    Ok(whole)
}

// The same, if that one is locally deterministic.
fn extended_by(
    alloc: Global,
    sys: &System,
    order: &Sequence,
    beginning: &Sequence,
) -> Result<Option<Sequence>, NoMemory>
    requires order { IsLegal sys.now order.now }
    requires beginning { IsLegal sys.now beginning.now }
    requires fits { Fits sys.now order.now }
    requires short { length order.now < 2 ^ 32 }
{
    match verdict_on(alloc, sys, order)? {
        Verdict::Yes => Ok(Some(extended(alloc, sys, order, beginning)?)),
        _ => Ok(None),
    }
}

// What a beginning grows into by an order, where that is locally deterministic.
fn grown(
    alloc: Global,
    sys: &System,
    order: &[Spot],
    beginning: &[Spot],
) -> Result<Option<Sequence>, NoMemory>
    requires order { length order.now < 2 ^ 32 }
    requires beginning { length beginning.now < 2 ^ 32 }
{
    let Some(full) = legal_sequence(alloc, sys, order)? else {
        return Ok(None);
    };
    let Some(begun) = legal_sequence(alloc, sys, beginning)? else {
        return Ok(None);
    };
    extended_by(alloc, sys, &full, &begun)
}

// Orders, beginnings, and what they grow into by these orders.
const EXTENDED: [(&[Spot; 6], &[Spot], [Spot; 6]); 3] = [
    (&BY_ROWS, &[S, L], [S, L, B, D, T, R]),
    (&MISMATCH_FIRST, &[S, L], [S, L, B, D, R, T]),
    (&BY_ROWS, &MISMATCH_FIRST, MISMATCH_FIRST),
];

#[test]
fn beginnings_grow_into_the_assembly(rt: HostRuntime) -> Result<(), Fail> {
    let sys = system(rt.alloc(), MISMATCH)?;
    for (order, beginning, wanted) in EXTENDED {
        let few = beginning.len() < 10;
        assert!(rt; few);
        let found = grown(rt.alloc(), &sys, order, beginning)?;
        assert!(rt; found.is_some_and(|whole| lists(&sys, &whole, &wanted)));
    }
    Ok(())
}
