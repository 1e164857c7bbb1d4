// Rules, by the symbols that they are for.
ghost use Rattle.std.specs.Prelude.{◌≡◌, ◌<◌, ◌*◌, [], ◌∷◌, ◌++◌, None, IfOk, OnOk, OnErr};
ghost use Rattle.quadrant_compile.specs.declared.limits.TheConstants.{MOST_SYMBOLS};
ghost use Rattle.quadrant_compile.specs.Quadrants.{answer_among};
ghost use Rattle.quadrant_compile.specs.Inner.Tables.{entry};

use crate::limits::MOST_SYMBOLS;
use crate::rule::{Answer, Rule};
use std::alloc::Global;
use std::marker::Model;
use tile_system::NoMemory;

/// Rules in their order, at most one for any two symbols, beside a table of their answers.
pub(crate) struct RuleList {
    rules: Vec<Rule>,
    table: Vec<Option<Answer>>,
}

impl Drop for RuleList {
    fn drop(self) {
        let RuleList {
            rules: _rules,
            table: _table,
        } = self;
    }
}

impl Model for RuleList {
    ghost use Rattle.std.specs.Prelude.{List};
    ghost use Rattle.quadrant_compile.specs.declared.rule.Rule.{Rule};
    ghost use Rattle.quadrant_compile.specs.Inner.Tables.{IsTableOf};

    ghost Value = { List Rule };

    ghost view = { λ l. l.rules.items };

    ghost invariant = { λ l. IsTableOf l.rules.items l.table.items };
}

impl RuleList {
    pub(crate) fn new(alloc: Global) -> Result<RuleList, NoMemory>
        ensures { IfOk result (λ rules. rules ≡ []) }
    {
        let mut table = Vec::new(alloc);
        table.resize((MOST_SYMBOLS * MOST_SYMBOLS) as usize, None)?;
        Ok(RuleList {
            rules: Vec::new(alloc),
            table,
        })
    }

    /// The answer for two symbols.
    pub(crate) fn find(&self, west: u32, south: u32) -> Option<Answer>
        requires west { west < MOST_SYMBOLS }
        requires south { south < MOST_SYMBOLS }
        ensures { result ≡ answer_among self.now west south }
    {
        self.table[entry(west, south)]
    }

    pub(crate) fn push(&mut self, rule: Rule) -> Result<(), NoMemory>
        requires west { rule.west < MOST_SYMBOLS }
        requires south { rule.south < MOST_SYMBOLS }
        requires fresh { answer_among self.old rule.west rule.south ≡ None }
        ensures ok { OnOk result (self.new ≡ self.old ++ rule ∷ []) }
        ensures unchanged { OnErr result (self.new ≡ self.old) }
    {
        self.rules.push(rule)?;
        self.table[entry(rule.west, rule.south)] = Some(rule.answer);
        Ok(())
    }
}

// The place of two symbols in the table.
fn entry(west: u32, south: u32) -> usize
    requires west { west < MOST_SYMBOLS }
    requires south { south < MOST_SYMBOLS }
    ensures place { result ≡ entry west south }
    ensures inside { result < MOST_SYMBOLS * MOST_SYMBOLS }
{
    (west * MOST_SYMBOLS + south) as usize
}
