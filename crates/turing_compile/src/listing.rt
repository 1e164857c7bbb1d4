// The lists of a machine's kinds and labels.
ghost use Rattle.std.specs.Prelude.{◌≡◌, ◌<◌, ◌≤◌, ◌-◌, [], ◌∷◌, ◌++◌, length, map, filter, take, IfOk, OnOk};
ghost use Rattle.std.specs.List.{range_with_len};
ghost use Rattle.machine_text.specs.Machines.{IsMachine};
ghost use Rattle.turing_compile.specs.Compiled.{pairs};
ghost use Rattle.turing_compile.specs.Inner.Listed.{kinds, labels, ruled_pairs};

use crate::kind::{Kind, Label};
use machine_text::Machine;
use std::alloc::Global;
use tile_system::NoMemory;

/// The kinds of a machine, in the order of its types.
pub fn kinds(alloc: Global, machine: &Machine) -> Result<Vec<Kind>, NoMemory>
    ensures { IfOk result (λ found. found.items ≡ kinds machine.now) }
{
    let pairs = pairs(alloc, machine)?;
    let ruled = ruled_pairs(alloc, machine, pairs.as_slice())?;
    let mut kinds = firsts(alloc, machine.cells())?;
    kinds.append(&mut actions(alloc, ruled.as_slice())?)?;
    kinds.append(&mut from_lefts(alloc, pairs.as_slice())?)?;
    kinds.append(&mut from_rights(alloc, pairs.as_slice())?)?;
    kinds.append(&mut right_ofs(alloc, machine.symbols())?)?;
    kinds.append(&mut left_ofs(alloc, machine.symbols())?)?;
    Ok(kinds)
}

/// The labels of a machine, in the order of its glues.
pub fn labels(alloc: Global, machine: &Machine) -> Result<Vec<Label>, NoMemory>
    ensures { IfOk result (λ found. found.items ≡ labels machine.now) }
{
    let pairs = pairs(alloc, machine)?;
    let ruled = ruled_pairs(alloc, machine, pairs.as_slice())?;
    let mut labels = symbols(alloc, machine.symbols())?;
    labels.append(&mut acting(alloc, ruled.as_slice())?)?;
    labels.append(&mut sideways(alloc, machine)?)?;
    Ok(labels)
}

// The labels on east and west sides.
fn sideways(alloc: Global, machine: &Machine) -> Result<Vec<Label>, NoMemory>
    ensures { IfOk result (λ found. found.items
        ≡ Label.Rightward ∷ Label.Leftward ∷ (map Label.HeadRightward (range_with_len 0 (length machine.now.states))
        ++ (map Label.HeadLeftward (range_with_len 0 (length machine.now.states))
        ++ map Label.Joint (range_with_len 1 (machine.now.cells - 1))))) }
{
    let mut labels = Vec::new(alloc);
    labels.push(Label::Rightward)?;
    labels.push(Label::Leftward)?;
    labels.append(&mut heads_rightward(alloc, machine.states())?)?;
    labels.append(&mut heads_leftward(alloc, machine.states())?)?;
    labels.append(&mut joints(alloc, machine.cells())?)?;
    Ok(labels)
}

/// The pairs of a state and a symbol, by state and then by symbol.
pub fn pairs(alloc: Global, machine: &Machine) -> Result<Vec<(u32, u32)>, NoMemory>
    ensures { IfOk result (λ found. found.items ≡ pairs machine.now) }
{
    let mut pairs = Vec::new(alloc);
    for state in 0..machine.states() {
        pairs.append(&mut pairs_of_state(alloc, machine, state)?)?;
    }
    Ok(pairs)
}

fn pairs_of_state(alloc: Global, machine: &Machine, state: u32) -> Result<Vec<(u32, u32)>, NoMemory>
    ensures { IfOk result (λ found. found.items
        ≡ map (λ symbol. (state, symbol)) (range_with_len 0 (length machine.now.symbols))) }
{
    Ok(
        (0..machine.symbols())
            .map(|symbol| (state, symbol))
            .collect(alloc)?,
    )
}

// Those that have a rule.
fn ruled_pairs(
    alloc: Global,
    machine: &Machine,
    all: &[(u32, u32)],
) -> Result<Vec<(u32, u32)>, NoMemory>
    requires { all.now ≡ pairs machine.now }
    ensures { IfOk result (λ found. found.items ≡ ruled_pairs machine.now) }
{
    prove!(machine.states() > 0);
    let mut ruled = Vec::new(alloc);
    for (state, symbol) in all {
        if machine.rule(*state, *symbol).is_some() {
            ruled.push((*state, *symbol))?;
        }
    }
    Ok(ruled)
}

fn firsts(alloc: Global, cells: u32) -> Result<Vec<Kind>, NoMemory>
    ensures { IfOk result (λ found. found.items ≡ map Kind.First (range_with_len 0 cells)) }
{
    Ok((0..cells).map(|cell| Kind::First { cell }).collect(alloc)?)
}

fn actions(alloc: Global, pairs: &[(u32, u32)]) -> Result<Vec<Kind>, NoMemory>
    ensures { IfOk result (λ found. found.items ≡ map (λ p. Kind.Action p.0 p.1) pairs.now) }
{
    Ok(
        pairs
            .iter()
            .map(|(state, symbol)| Kind::Action {
                state: *state,
                symbol: *symbol,
            })
            .collect(alloc)?,
    )
}

fn from_lefts(alloc: Global, pairs: &[(u32, u32)]) -> Result<Vec<Kind>, NoMemory>
    ensures { IfOk result (λ found. found.items ≡ map (λ p. Kind.FromLeft p.0 p.1) pairs.now) }
{
    Ok(
        pairs
            .iter()
            .map(|(state, symbol)| Kind::FromLeft {
                state: *state,
                symbol: *symbol,
            })
            .collect(alloc)?,
    )
}

fn from_rights(alloc: Global, pairs: &[(u32, u32)]) -> Result<Vec<Kind>, NoMemory>
    ensures { IfOk result (λ found. found.items ≡ map (λ p. Kind.FromRight p.0 p.1) pairs.now) }
{
    Ok(
        pairs
            .iter()
            .map(|(state, symbol)| Kind::FromRight {
                state: *state,
                symbol: *symbol,
            })
            .collect(alloc)?,
    )
}

fn right_ofs(alloc: Global, symbols: u32) -> Result<Vec<Kind>, NoMemory>
    ensures { IfOk result (λ found. found.items ≡ map Kind.RightOf (range_with_len 0 symbols)) }
{
    Ok(
        (0..symbols)
            .map(|symbol| Kind::RightOf { symbol })
            .collect(alloc)?,
    )
}

fn left_ofs(alloc: Global, symbols: u32) -> Result<Vec<Kind>, NoMemory>
    ensures { IfOk result (λ found. found.items ≡ map Kind.LeftOf (range_with_len 0 symbols)) }
{
    Ok(
        (0..symbols)
            .map(|symbol| Kind::LeftOf { symbol })
            .collect(alloc)?,
    )
}

fn symbols(alloc: Global, symbols: u32) -> Result<Vec<Label>, NoMemory>
    ensures { IfOk result (λ found. found.items ≡ map Label.Symbol (range_with_len 0 symbols)) }
{
    Ok(
        (0..symbols)
            .map(|symbol| Label::Symbol { symbol })
            .collect(alloc)?,
    )
}

fn acting(alloc: Global, pairs: &[(u32, u32)]) -> Result<Vec<Label>, NoMemory>
    ensures { IfOk result (λ found. found.items ≡ map (λ p. Label.Acting p.0 p.1) pairs.now) }
{
    Ok(
        pairs
            .iter()
            .map(|(state, symbol)| Label::Acting {
                state: *state,
                symbol: *symbol,
            })
            .collect(alloc)?,
    )
}

fn heads_rightward(alloc: Global, states: u32) -> Result<Vec<Label>, NoMemory>
    ensures { IfOk result (λ found. found.items
        ≡ map Label.HeadRightward (range_with_len 0 states)) }
{
    Ok(
        (0..states)
            .map(|state| Label::HeadRightward { state })
            .collect(alloc)?,
    )
}

fn heads_leftward(alloc: Global, states: u32) -> Result<Vec<Label>, NoMemory>
    ensures { IfOk result (λ found. found.items
        ≡ map Label.HeadLeftward (range_with_len 0 states)) }
{
    Ok(
        (0..states)
            .map(|state| Label::HeadLeftward { state })
            .collect(alloc)?,
    )
}

fn joints(alloc: Global, cells: u32) -> Result<Vec<Label>, NoMemory>
    ensures { IfOk result (λ found. found.items ≡ map Label.Joint (range_with_len 1 (cells - 1))) }
{
    Ok((1..cells).map(|cell| Label::Joint { cell }).collect(alloc)?)
}
