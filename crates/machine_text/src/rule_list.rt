// Rules, by the state and the symbol that they are for.
ghost use Rattle.std.specs.Prelude.{◌≡◌, ◌<◌, ◌*◌, [], ◌∷◌, ◌++◌, None, IfOk, OnOk, OnErr};
ghost use Rattle.machine_text.specs.declared.limits.TheConstants.{MOST_STATES, MOST_SYMBOLS};
ghost use Rattle.machine_text.specs.Machines.{rule_among};
ghost use Rattle.machine_text.specs.Inner.Tables.{entry};

use crate::limits::{MOST_STATES, MOST_SYMBOLS};
use crate::rule::{Rule, Transition};
use std::alloc::Global;
use std::marker::Model;
use tile_system::NoMemory;

/// The rules of a machine in their order, at most one for each state and symbol, beside a table of
/// them.
pub(crate) struct RuleList {
    transitions: Vec<Transition>,
    table: Vec<Option<Rule>>,
}

impl Drop for RuleList {
    fn drop(self) {
        let RuleList {
            transitions: _transitions,
            table: _table,
        } = self;
    }
}

impl Model for RuleList {
    ghost use Rattle.std.specs.Prelude.{List};
    ghost use Rattle.machine_text.specs.declared.rule.Transition.{Transition};
    ghost use Rattle.machine_text.specs.Inner.Tables.{IsTableOf};

    ghost Value = { List Transition };

    ghost view = { λ l. l.transitions.items };

    ghost invariant = { λ l. IsTableOf l.transitions.items l.table.items };
}

impl RuleList {
    pub(crate) fn new(alloc: Global) -> Result<RuleList, NoMemory>
        ensures { IfOk result (λ rules. rules ≡ []) }
    {
        let mut table = Vec::new(alloc);
        table.resize((MOST_STATES * MOST_SYMBOLS) as usize, None)?;
        Ok(RuleList {
            transitions: Vec::new(alloc),
            table,
        })
    }

    /// The rule for a state and a symbol.
    pub(crate) fn find(&self, state: u32, symbol: u32) -> Option<Rule>
        requires state { state < MOST_STATES }
        requires symbol { symbol < MOST_SYMBOLS }
        ensures { result ≡ rule_among self.now state symbol }
    {
        self.table[entry(state, symbol)]
    }

    pub(crate) fn push(&mut self, transition: Transition) -> Result<(), NoMemory>
        requires state { transition.state < MOST_STATES }
        requires symbol { transition.symbol < MOST_SYMBOLS }
        requires fresh { rule_among self.old transition.state transition.symbol ≡ None }
        ensures ok { OnOk result (self.new ≡ self.old ++ transition ∷ []) }
        ensures unchanged { OnErr result (self.new ≡ self.old) }
    {
        self.transitions.push(transition)?;
        self.table[entry(transition.state, transition.symbol)] = Some(transition.rule);
        Ok(())
    }
}

// The place of a state and a symbol in the table.
fn entry(state: u32, symbol: u32) -> usize
    requires state { state < MOST_STATES }
    requires symbol { symbol < MOST_SYMBOLS }
    ensures place { result ≡ entry state symbol }
    ensures inside { result < MOST_STATES * MOST_SYMBOLS }
{
    (state * MOST_SYMBOLS + symbol) as usize
}
