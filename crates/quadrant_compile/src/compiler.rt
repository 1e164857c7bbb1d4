// A quadrant as a tile system.
ghost use Rattle.std.specs.Prelude.{◌≡◌, IfOk};
ghost use Rattle.quadrant_compile.specs.QuadrantSystems.{quadrant_system};
ghost use Rattle.quadrant_compile.specs.Inner.Listed.{area_of};

use crate::listing::{kinds, labels};
use crate::names::{add_kind_name, add_label_name};
use crate::quadrant::Quadrant;
use crate::table::{label_on, strength};
use crate::tile::{Kind, Label};
use atam::{BoxArea, Side};
use std::alloc::Global;
use tile_system::{NoMemory, System};
use tile_table::{ListedTiles, ShortText, Table, build_system};

/// The tile set of a quadrant, seen as the system that `compile_quadrant` gives.
pub type QuadrantTiles = ListedTiles<Kind, Label, Quadrant>;

/// The system whose assembly shows the recurrence of the rules: a cell's tile names the symbols
/// that come out of the cell to the west and out of the cell below. It has a type for each column,
/// each row and each rule, so it takes time that grows with the number of these.
pub fn compile_quadrant(alloc: Global, quadrant: &Quadrant) -> Result<System, NoMemory>
    ensures { IfOk result (λ system. system ≡ quadrant_system quadrant.now) }
{
    prove!(quadrant.symbols() > 0);
    let labels = labels(alloc, quadrant)?;
    let kinds = kinds(alloc, quadrant)?;
    build_system(
        alloc,
        quadrant,
        labels.as_slice(),
        kinds.as_slice(),
        Kind::Corner,
        area(quadrant),
    )
}

/// Lists the tiles of a quadrant, to be printed, in time that grows with the number of its columns,
/// rows and rules.
pub fn quadrant_tiles(alloc: Global, quadrant: Quadrant) -> Result<QuadrantTiles, NoMemory>
    ensures { IfOk result (λ tiles. tiles ≡ quadrant_system quadrant) }
{
    prove!(quadrant.symbols() > 0);
    let labels = labels(alloc, &quadrant)?;
    let kinds = kinds(alloc, &quadrant)?;
    let area = area(&quadrant);
    Ok(ListedTiles::new(quadrant, labels, kinds, Kind::Corner, area))
}

impl Table<Kind, Label> for Quadrant {
    ghost use Rattle.quadrant_compile.specs.QuadrantSystems.{tiles_of};

    ghost tiles = { λ quadrant. tiles_of quadrant };

    fn side(&self, kind: Kind, side: Side) -> Option<Label> {
        prove!(self.symbols() > 0);
        label_on(self, kind, side)
    }

    fn strength(&self, label: Label) -> u32 {
        strength(label)
    }

    fn add_kind_name(&self, text: &mut ShortText, kind: Kind) {
        prove!(self.symbols() > 0);
        add_kind_name(text, self, kind)
    }

    fn add_label_name(&self, text: &mut ShortText, label: Label) {
        prove!(self.symbols() > 0);
        add_label_name(text, self, label)
    }
}

// The box of the borders and the cells.
fn area(quadrant: &Quadrant) -> BoxArea
    ensures { result ≡ area_of quadrant.now }
{
    prove!(quadrant.symbols() > 0);
    BoxArea {
        x0: 0,
        y0: 0,
        x1: quadrant.width() as i32,
        y1: quadrant.height() as i32,
    }
}
