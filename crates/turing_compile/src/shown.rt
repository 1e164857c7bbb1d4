// What the kinds of a machine's tiles show.
ghost use Rattle.std.specs.Prelude.{◌≡◌, ◌<◌};
ghost use Rattle.machine_text.specs.Machines.{IsMachine, first};
ghost use Rattle.turing_compile.specs.Shown.{cell_of, headed, plain, shown};
ghost use Rattle.turing_compile.specs.Inner.Members.{IsKind};

use crate::kind::{Kind, Shown};
use machine_text::{Machine, Turn};

/// What a kind shows.
pub fn shown(machine: &Machine, kind: Kind) -> Option<Shown>
    requires valid { IsMachine machine.now }
    requires kind { IsKind machine.now kind }
    ensures { result ≡ shown machine.now kind }
{
    match kind {
        Kind::First { cell } => Some(first_cell(machine, cell)),
        Kind::Action { state, symbol } => action_shown(machine, state, symbol),
        Kind::FromLeft { state, symbol } => Some(headed(state, symbol)),
        Kind::FromRight { state, symbol } => Some(headed(state, symbol)),
        Kind::RightOf { symbol } => Some(plain(symbol)),
        Kind::LeftOf { symbol } => Some(plain(symbol)),
    }
}

// A cell of the first configuration.
fn first_cell(machine: &Machine, cell: u32) -> Shown
    requires { cell < machine.now.cells }
    ensures { result ≡ cell_of (first machine.now) cell }
{
    let head = machine.first_head();
    let state = if cell == head.cell {
        Some(head.state)
    } else {
        None
    };
    Shown {
        symbol: machine.first_symbol(cell),
        state,
    }
}

// What the tile over a head that acts shows.
fn action_shown(machine: &Machine, state: u32, symbol: u32) -> Option<Shown>
    requires valid { IsMachine machine.now }
    requires kind { IsKind machine.now (Kind.Action state symbol) }
    ensures { result ≡ shown machine.now (Kind.Action state symbol) }
{
    let rule = machine.rule(state, symbol)?;
    Some(match rule.turn {
        Turn::Right | Turn::Left => plain(rule.symbol),
        Turn::Stay => headed(rule.state, rule.symbol),
    })
}

fn plain(symbol: u32) -> Shown
    ensures { result ≡ plain symbol }
{
    Shown {
        symbol,
        state: None,
    }
}

fn headed(state: u32, symbol: u32) -> Shown
    ensures { result ≡ headed state symbol }
{
    Shown {
        symbol,
        state: Some(state),
    }
}
