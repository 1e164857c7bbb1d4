// The table of a machine's tiles.
ghost use Rattle.std.specs.Prelude.{◌≡◌, ◌<◌, ◌-◌, length};
ghost use Rattle.design.specs.Sides.{label_ahead, label_behind};
ghost use Rattle.machine_text.specs.Machines.{IsMachine, TuringMachine};
ghost use Rattle.turing_compile.specs.Tiles.{top};
ghost use Rattle.turing_compile.specs.Compiled.{tiles_of};
ghost use Rattle.turing_compile.specs.Inner.Members.{IsKind};
ghost use Rattle.turing_compile.specs.Inner.Rows.{strength};

use crate::kind::{Kind, Label};
use atam::Side;
use machine_text::{Machine, Turn};

/// The label on a side of a kind.
#[inline(always)]
pub fn label_on(machine: &Machine, kind: Kind, side: Side) -> Option<Label>
    requires valid { IsMachine machine.now }
    requires kind { IsKind machine.now kind }
    ensures { result ≡ (tiles_of machine.now).side kind side }
{
    match kind {
        Kind::First { cell } => first_label(machine, cell, side),
        Kind::Action { state, symbol } => action_label(machine, state, symbol, side),
        Kind::FromLeft { state, symbol } => match side {
            Side::North => top(machine, state, symbol),
            Side::East => Some(Label::Rightward),
            Side::South => Some(Label::Symbol { symbol }),
            Side::West => Some(Label::HeadRightward { state }),
        },
        Kind::FromRight { state, symbol } => match side {
            Side::North => top(machine, state, symbol),
            Side::East => Some(Label::HeadLeftward { state }),
            Side::South => Some(Label::Symbol { symbol }),
            Side::West => Some(Label::Leftward),
        },
        Kind::RightOf { symbol } => match side {
            Side::North | Side::South => Some(Label::Symbol { symbol }),
            Side::East | Side::West => Some(Label::Rightward),
        },
        Kind::LeftOf { symbol } => match side {
            Side::North | Side::South => Some(Label::Symbol { symbol }),
            Side::East | Side::West => Some(Label::Leftward),
        },
    }
}

/// The strength of a label.
pub fn strength(label: Label) -> u32
    ensures { (machine : TuringMachine) → result ≡ strength machine label }
{
    match label {
        Label::Symbol { .. } => 1,
        Label::Acting { .. } => 2,
        Label::Rightward => 1,
        Label::Leftward => 1,
        Label::HeadRightward { .. } => 1,
        Label::HeadLeftward { .. } => 1,
        Label::Joint { .. } => 2,
    }
}

// The label on a side of a cell's tile in the first row.
fn first_label(machine: &Machine, cell: u32, side: Side) -> Option<Label>
    requires valid { IsMachine machine.now }
    requires cell { cell < machine.now.cells }
    ensures { result ≡ (tiles_of machine.now).side (Kind.First cell) side }
{
    match side {
        Side::North => first_top(machine, cell),
        Side::East => joint_right(machine, cell),
        Side::South => None,
        Side::West => joint_left(cell),
    }
}

// The label that a cell turns upwards in the first row.
fn first_top(machine: &Machine, cell: u32) -> Option<Label>
    requires valid { IsMachine machine.now }
    requires cell { cell < machine.now.cells }
    ensures { result ≡ (tiles_of machine.now).side (Kind.First cell) Side.North }
{
    let symbol = machine.first_symbol(cell);
    let head = machine.first_head();
    if cell == head.cell {
        top(machine, head.state, symbol)
    } else {
        Some(Label::Symbol { symbol })
    }
}

// The label on a side of the tile over a head that acts.
fn action_label(machine: &Machine, state: u32, symbol: u32, side: Side) -> Option<Label>
    requires valid { IsMachine machine.now }
    requires kind { IsKind machine.now (Kind.Action state symbol) }
    ensures { result ≡ (tiles_of machine.now).side (Kind.Action state symbol) side }
{
    let rule = machine.rule(state, symbol)?;
    match (side, rule.turn) {
        (Side::North, Turn::Stay) => top(machine, rule.state, rule.symbol),
        (Side::North, _) => Some(Label::Symbol {
            symbol: rule.symbol,
        }),
        (Side::East, Turn::Right) => Some(Label::HeadRightward { state: rule.state }),
        (Side::East, _) => Some(Label::Rightward),
        (Side::South, _) => Some(Label::Acting { state, symbol }),
        (Side::West, Turn::Left) => Some(Label::HeadLeftward { state: rule.state }),
        (Side::West, _) => Some(Label::Leftward),
    }
}

// The label of a state and a symbol, where they have a rule.
fn top(machine: &Machine, state: u32, symbol: u32) -> Option<Label>
    requires state { state < length machine.now.states }
    requires symbol { symbol < length machine.now.symbols }
    ensures { result ≡ top machine.now state symbol }
{
    machine.rule(state, symbol)?;
    Some(Label::Acting { state, symbol })
}

// The labels between a cell of the first row and the cells beside it.
fn joint_right(machine: &Machine, cell: u32) -> Option<Label>
    requires { cell < machine.now.cells }
    ensures { result ≡ label_ahead Label.Joint (machine.now.cells - 1) cell }
{
    if cell < machine.cells() - 1 {
        Some(Label::Joint { cell: cell + 1 })
    } else {
        None
    }
}

fn joint_left(cell: u32) -> Option<Label>
    ensures { result ≡ label_behind Label.Joint cell }
{
    match cell {
        0 => None,
        _ => Some(Label::Joint { cell }),
    }
}
