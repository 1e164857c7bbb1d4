// A machine, and its run.
ghost use Rattle.std.specs.Prelude.{◌≡◌, ◌<◌, length, slice_get, true, false, Some, None, IfOk, IfSome};
ghost use Rattle.machine_text.specs.declared.limits.TheConstants.{MOST_ROWS};
ghost use Rattle.machine_text.specs.Machines.{TuringMachine, IsMachine, IsConfigOf, rule_of, symbol_at, first, next, after};

use crate::config::{Config, Head};
use crate::limits::MOST_ROWS;
use crate::name_list::NameList;
use crate::parts::MachineParts;
use crate::rule::Rule;
use crate::rule_list::RuleList;
use std::alloc::Global;
use std::marker::Model;
use tile_system::NoMemory;

/// A Turing machine on a row of cells. States and symbols go by their numbers, from 0 in the order
/// in which the text declares them: state 0 is the start state, and symbol 0 the blank.
pub struct Machine {
    states: NameList,
    symbols: NameList,
    rules: RuleList,
    cells: u32,
    rows: u32,
    head: u32,
    tape: Vec<u32>,
}

impl Drop for Machine {
    fn drop(self) {
        let Machine {
            states: _states,
            symbols: _symbols,
            rules: _rules,
            cells: _cells,
            rows: _rows,
            head: _head,
            tape: _tape,
        } = self;
    }
}

impl Model for Machine {
    ghost use Rattle.machine_text.specs.Machines.{TuringMachine, IsMachine};

    ghost Value = { TuringMachine };

    ghost view = { λ m. record {
      states = m.states;
      symbols = m.symbols;
      rules = m.rules;
      cells = m.cells;
      rows = m.rows;
      head = m.head;
      tape = m.tape.items;
    } };

    ghost invariant = { λ m. IsMachine (record {
      states = m.states;
      symbols = m.symbols;
      rules = m.rules;
      cells = m.cells;
      rows = m.rows;
      head = m.head;
      tape = m.tape.items;
    }) };
}

impl Machine {
    ghost use Rattle.machine_text.specs.Inner.SoFar.{machine_in};

    /// The machine of these parts.
    pub(crate) fn new(parts: MachineParts) -> Machine
        requires { IsMachine (machine_in parts) }
        ensures { result ≡ machine_in parts }
    {
        Machine {
            states: parts.states,
            symbols: parts.symbols,
            rules: parts.rules,
            cells: parts.cells,
            rows: parts.rows,
            head: parts.head,
            tape: parts.tape,
        }
    }

    /// The number of states.
    pub fn states(&self) -> u32
        ensures count { result ≡ length self.now.states }
        ensures valid { IsMachine self.now }
    {
        self.states.len()
    }

    /// The number of symbols.
    pub fn symbols(&self) -> u32
        ensures { result ≡ length self.now.symbols }
    {
        self.symbols.len()
    }

    pub fn state_name(&self, state: u32) -> &[u8]
        requires { state < length self.now.states }
        ensures { slice_get self.now.states state ≡ Some result.now }
    {
        self.states.name(state)
    }

    pub fn symbol_name(&self, symbol: u32) -> &[u8]
        requires { symbol < length self.now.symbols }
        ensures { slice_get self.now.symbols symbol ≡ Some result.now }
    {
        self.symbols.name(symbol)
    }

    /// The rule for a state and a symbol.
    pub fn rule(&self, state: u32, symbol: u32) -> Option<Rule>
        requires state { state < length self.now.states }
        requires symbol { symbol < length self.now.symbols }
        ensures rule { result ≡ rule_of self.now state symbol }
        ensures next_state { IfSome result (λ rule. rule.state < length self.now.states) }
        ensures next_symbol { IfSome result (λ rule. rule.symbol < length self.now.symbols) }
    {
        self.rules.find(state, symbol)
    }

    /// The number of cells.
    pub fn cells(&self) -> u32
        ensures { result ≡ self.now.cells }
    {
        self.cells
    }

    /// How many configurations of the run are to be shown.
    pub fn rows(&self) -> u32
        ensures { result ≡ self.now.rows }
    {
        self.rows
    }

    /// The first configuration: the tape and blanks behind it, and the head in the start state.
    pub fn first(&self, alloc: Global) -> Result<Config, NoMemory>
        ensures first { IfOk result (λ config. config ≡ first self.now) }
        ensures config { IfOk result (IsConfigOf self.now) }
    {
        let mut symbols = Vec::from_slice(alloc, self.tape.as_slice())?;
        symbols.resize(self.cells as usize, 0)?;
        Ok(Config::new(symbols, Some(self.first_head())))
    }

    /// The symbol of a cell in the first configuration.
    pub fn first_symbol(&self, cell: u32) -> u32
        requires { cell < self.now.cells }
        ensures { result ≡ symbol_at (first self.now) cell }
    {
        self.tape.get(cell as usize).copied().unwrap_or(0)
    }

    /// The head in the first configuration.
    pub fn first_head(&self) -> Head
        ensures { Some result ≡ (first self.now).head }
    {
        Head {
            cell: self.head,
            state: 0,
        }
    }

    /// Makes one step, and tells whether there is one. It takes no memory.
    pub fn next(&self, config: &mut Config) -> bool
        requires { IsConfigOf self.now config.old }
        ensures step { result ≡ true → next self.now config.old ≡ Some config.new }
        // There is no head, or no rule for its state and the symbol of its cell.
        ensures none { result ≡ false → next self.now config.old ≡ None }
        ensures unchanged { result ≡ false → config.new ≡ config.old }
        ensures config { IsConfigOf self.now config.new }
    {
        let Some(head) = config.place() else {
            return false;
        };
        let symbol = config.symbol(head.cell);
        let Some(rule) = self.rule(head.state, symbol) else {
            return false;
        };
        config.act(self.cells - 1, head, rule);
        true
    }
}

/// The configuration of a machine after some steps, or none where it stops before.
pub fn run_machine(alloc: Global, machine: &Machine, steps: u32) -> Result<Option<Config>, NoMemory>
    requires { steps < MOST_ROWS }
    ensures run { IfOk result (λ found. found ≡ after machine.now steps) }
    ensures config { IfOk result (λ found. IfSome found (IsConfigOf machine.now)) }
{
    let mut config = machine.first(alloc)?;
    for _step in 0..steps {
        if !machine.next(&mut config) {
            return Ok(None);
        }
    }
    Ok(Some(config))
}
