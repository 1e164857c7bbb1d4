// The runs of machines.
ghost use Rattle.std.specs.Prelude.{IfSome};
ghost use Rattle.machine_text.specs.Machines.{IsConfigOf};

use crate::machines::machine;
use machine_text::{Config, Machine, run_machine};
use std::alloc::{AllocError, Global};
use std::test::Fail;
use worked_systems::{BIT_FLIPPER, IDLE, LEFT_RUNNER, STAYER};

// The symbols of a configuration, cell by cell, and the cell and state of its head.
pub type Shown = (&'static [u32], Option<(u32, u32)>);

// Whether the configuration has these symbols, cell by cell.
fn has_symbols(machine: &Machine, config: &Config, symbols: &[u32]) -> bool
    requires { IsConfigOf machine.now config.now }
{
    for cell in 0..machine.cells() {
        if symbols.get(cell as usize) != Some(&config.symbol(cell)) {
            return false;
        }
    }
    symbols.len() == machine.cells() as usize
}

// Whether this is the configuration that is wanted.
pub fn is_shown(machine: &Machine, found: &Option<Config>, wanted: Option<Shown>) -> bool
    requires { IfSome found.now (IsConfigOf machine.now) }
{
    match (found, wanted) {
        (Some(config), Some((symbols, head))) => {
            config.head() == head && has_symbols(machine, config, symbols)
        }
        (None, None) => true,
        _ => false,
    }
}

// A machine, a number of steps, and what they lead to.
struct Run {
    machine: &'static str,
    steps: u32,
    wanted: Option<Shown>,
}

const RUNS: [Run; 13] = [
    Run {
        machine: BIT_FLIPPER,
        steps: 0,
        wanted: Some((&[1, 0, 1], Some((0, 0)))),
    },
    Run {
        machine: BIT_FLIPPER,
        steps: 1,
        wanted: Some((&[0, 0, 1], Some((1, 0)))),
    },
    Run {
        machine: BIT_FLIPPER,
        steps: 2,
        wanted: Some((&[0, 1, 1], Some((2, 0)))),
    },
    Run {
        machine: BIT_FLIPPER,
        steps: 3,
        wanted: Some((&[0, 1, 0], None)),
    },
    Run {
        machine: BIT_FLIPPER,
        steps: 4,
        wanted: None,
    },
    Run {
        machine: BIT_FLIPPER,
        steps: 1023,
        wanted: None,
    },
    Run {
        machine: IDLE,
        steps: 0,
        wanted: Some((&[0, 0], Some((0, 0)))),
    },
    Run {
        machine: IDLE,
        steps: 1,
        wanted: None,
    },
    Run {
        machine: LEFT_RUNNER,
        steps: 1,
        wanted: Some((&[1, 0], None)),
    },
    Run {
        machine: LEFT_RUNNER,
        steps: 2,
        wanted: None,
    },
    Run {
        machine: STAYER,
        steps: 1,
        wanted: Some((&[1], Some((0, 1)))),
    },
    Run {
        machine: STAYER,
        steps: 2,
        wanted: Some((&[0], None)),
    },
    Run {
        machine: STAYER,
        steps: 3,
        wanted: None,
    },
];

#[test]
fn begins_with_the_tape(rt: HostRuntime) -> Result<(), Fail> {
    let machine = machine(rt.alloc(), BIT_FLIPPER)?;
    let first = Some(machine.first(rt.alloc())?);
    assert!(rt; is_shown(&machine, &first, Some((&[1, 0, 1], Some((0, 0))))));
    Ok(())
}

fn leads_so(alloc: Global, run: &Run) -> Result<bool, Fail> {
    let machine = machine(alloc, run.machine)?;
    let found = run_machine(alloc, &machine, run.steps.min(1023))?;
    Ok(is_shown(&machine, &found, run.wanted))
}

#[test]
fn runs_step_by_step(rt: HostRuntime) -> Result<(), Fail> {
    for (number, run) in RUNS.iter().enumerate() {
        assert!(rt; leads_so(rt.alloc(), run)?, "{number}");
    }
    Ok(())
}
