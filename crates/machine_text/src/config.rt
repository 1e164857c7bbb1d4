// A configuration of a machine.
ghost use Rattle.std.specs.Prelude.{◌≡◌, ◌<◌, ◌≤◌, length, slice_get, option_map, Some};
ghost use Rattle.machine_text.specs.Machines.{moved};

use crate::rule::{Rule, Turn};
use std::marker::Model;

/// The head of a machine: the cell that it is at, and the state that the machine is in.
#[derive(Clone, Copy, Debug, PartialEq, Eq)]
pub struct Head {
    pub cell: u32,
    pub state: u32,
}

/// A configuration: the symbol of each cell, and the head, if it hasn't left the cells.
#[derive(Drop)]
pub struct Config {
    symbols: Vec<u32>,
    head: Option<Head>,
}

impl Model for Config {
    ghost use Rattle.machine_text.specs.Machines.{Configuration};

    ghost Value = { Configuration };

    ghost view = { λ c. record { symbols = c.symbols.items; head = c.head } };
}

impl Config {
    ghost use Rattle.machine_text.specs.Machines.{Configuration, acted};

    /// A configuration of these symbols, one for each cell.
    pub fn new(symbols: Vec<u32>, head: Option<Head>) -> Config
        ensures { result ≡ record { symbols = symbols.items; head = head } }
    {
        Config { symbols, head }
    }

    /// The symbol of a cell, by its number.
    pub fn symbol(&self, cell: u32) -> u32
        requires { cell < length self.now.symbols }
        ensures { slice_get self.now.symbols cell ≡ Some result }
    {
        self.symbols[cell as usize]
    }

    /// The head's cell and its state.
    pub fn head(&self) -> Option<(u32, u32)>
        ensures { result ≡ option_map (λ head. (head.cell, head.state)) self.now.head }
    {
        match self.head {
            Some(head) => Some((head.cell, head.state)),
            None => None,
        }
    }

    /// The head.
    pub(crate) fn place(&self) -> Option<Head>
        ensures { result ≡ self.now.head }
    {
        self.head
    }

    /// Carries out a rule.
    pub(crate) fn act(&mut self, last: u32, head: Head, rule: Rule)
        requires inside { head.cell < length self.old.symbols }
        requires last { head.cell ≤ last }
        ensures { self.new ≡ acted last self.old head rule }
    {
        self.symbols[head.cell as usize] = rule.symbol;
        self.head = moved(last, rule.turn, head.cell, rule.state);
    }
}

// The head in a state, moved from a cell.
fn moved(last: u32, turn: Turn, cell: u32, state: u32) -> Option<Head>
    requires { cell ≤ last }
    ensures { result ≡ moved last turn cell state }
{
    match turn {
        Turn::Stay => Some(Head { cell, state }),
        Turn::Right if cell < last => Some(Head {
            cell: cell + 1,
            state,
        }),
        Turn::Left if cell > 0 => Some(Head {
            cell: cell - 1,
            state,
        }),
        Turn::Right | Turn::Left => None,
    }
}
