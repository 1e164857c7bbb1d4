// A machine as a tile system.
ghost use Rattle.std.specs.Prelude.{◌≡◌, IfOk, IfSome};
ghost use Rattle.machine_text.specs.Machines.{IsMachine};
ghost use Rattle.turing_compile.specs.Compiled.{compiled};
ghost use Rattle.turing_compile.specs.Inner.Listed.{area_of};

use crate::kind::{Kind, Label};
use crate::listing::{kinds, labels};
use crate::names::{add_kind_name, add_label_name};
use crate::table::{label_on, strength};
use atam::{BoxArea, Side};
use machine_text::Machine;
use std::alloc::Global;
use tile_system::{NoMemory, System};
use tile_table::{ListedTiles, ShortText, Table, build_system};

/// The tile set of a machine, seen as the system that `compile` gives.
pub type MachineTiles = ListedTiles<Kind, Label, Machine>;

// The seed is the first cell of the first row.
const SEED: Kind = Kind::First { cell: 0 };

/// The system whose rows show the machine's run: row y of a complete assembly shows the
/// configuration after y steps. It has a type for each cell, each rule, and each pair of a state
/// and a symbol twice, so it takes time that grows with the number of these.
pub fn compile(alloc: Global, machine: &Machine) -> Result<System, NoMemory>
    ensures { IfOk result (λ system. system ≡ compiled machine.now) }
{
    prove!(machine.states() > 0);
    let labels = labels(alloc, machine)?;
    let kinds = kinds(alloc, machine)?;
    build_system(
        alloc,
        machine,
        labels.as_slice(),
        kinds.as_slice(),
        SEED,
        area(machine),
    )
}

/// Lists the tiles of a machine, to be printed, in time that grows with the number of its cells, its
/// rules, and its pairs of a state and a symbol.
pub fn machine_tiles(alloc: Global, machine: Machine) -> Result<MachineTiles, NoMemory>
    ensures { IfOk result (λ tiles. tiles ≡ compiled machine) }
{
    prove!(machine.states() > 0);
    let labels = labels(alloc, &machine)?;
    let kinds = kinds(alloc, &machine)?;
    let area = area(&machine);
    Ok(ListedTiles::new(machine, labels, kinds, SEED, area))
}

impl Table<Kind, Label> for Machine {
    ghost use Rattle.turing_compile.specs.Compiled.{tiles_of};

    ghost tiles = { λ machine. tiles_of machine };

    #[inline(always)]
    fn side(&self, kind: Kind, side: Side) -> Option<Label> {
        prove!(self.states() > 0);
        label_on(self, kind, side)
    }

    fn strength(&self, label: Label) -> u32 {
        strength(label)
    }

    fn add_kind_name(&self, text: &mut ShortText, kind: Kind) {
        prove!(self.states() > 0);
        add_kind_name(text, self, kind)
    }

    fn add_label_name(&self, text: &mut ShortText, label: Label) {
        prove!(self.states() > 0);
        add_label_name(text, self, label)
    }
}

// The box of the machine's cells and rows.
fn area(machine: &Machine) -> BoxArea
    ensures { result ≡ area_of machine.now }
{
    prove!(machine.states() > 0);
    BoxArea {
        x0: 0,
        y0: 0,
        x1: machine.cells() as i32 - 1,
        y1: machine.rows() as i32 - 1,
    }
}
