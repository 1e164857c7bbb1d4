// A machine in the making.
ghost use Rattle.std.specs.Prelude.{◌≡◌, ◌+◌, [], length, nat_le, IfOk};

use crate::name_list::NameList;
use crate::rule_list::RuleList;
use std::alloc::Global;
use tile_system::NoMemory;

/// The parts of a machine. The numbers are 0 until they are read.
#[derive(Drop)]
pub(crate) struct MachineParts {
    pub(crate) states: NameList,
    pub(crate) symbols: NameList,
    pub(crate) rules: RuleList,
    pub(crate) cells: u32,
    pub(crate) rows: u32,
    pub(crate) head: u32,
    pub(crate) tape: Vec<u32>,
}

impl MachineParts {
    ghost use Rattle.machine_text.specs.MachineText.{machine_of};
    ghost use Rattle.machine_text.specs.Inner.SoFar.{machine_in};

    pub(crate) fn new(alloc: Global) -> Result<MachineParts, NoMemory>
        ensures { IfOk result (λ parts. machine_in parts ≡ machine_of []) }
    {
        Ok(MachineParts {
            states: NameList::new(alloc),
            symbols: NameList::new(alloc),
            rules: RuleList::new(alloc)?,
            cells: 0,
            rows: 0,
            head: 0,
            tape: Vec::new(alloc),
        })
    }

    /// Whether there are cells for so many more symbols of the tape.
    pub(crate) fn has_cells(&self, more: usize) -> bool
        ensures { result ≡ nat_le (length self.now.tape.items + more) self.now.cells }
    {
        let cells = self.cells as usize;
        self.tape.len() <= cells && more <= cells - self.tape.len()
    }
}
