// An assembly in canonical order, or what keeps it from that.
ghost use Rattle.std.specs.Prelude.{◌≡◌, IfOk};
ghost use Rattle.atam.specs.Assembly.{Fits};
ghost use Rattle.replay_order.specs.ReplayAnswers.{LacksSeed};
ghost use Rattle.tile_io.specs.Prints.{Prints};
ghost use Rattle.tilebench.specs.Commands.Replay.{LacksSeedAt};
ghost use Rattle.tilebench.specs.Inner.Reorderings.{IsReordering, reordering_text};
ghost use Rattle.tilebench.specs.Inner.Rooms.{OrdersTypes};

use assembly::{Grid, Sequence};
use replay_order::{ReplayStop, replay};
use seq_text::{print_places, print_stuck, print_stuck_seed};
use std::alloc::Global;
use tile_io::{Failed, Sink};
use tile_system::{NoMemory, Placed, Site, System};

/// The canonical order of an assembly, or what keeps it from having one.
#[derive(Drop)]
pub enum Reordering {
    /// The tiles in canonical order.
    Whole(Sequence),
    /// The site of the first seed that the assembly lacks.
    SeedMissing(Site),
    /// How many tiles can't be reached from the seeds, and the least site of theirs.
    Stuck { left: u32, least: Site },
}

/// Writes its text.
pub fn print_reordering<K: Sink>(
    sys: &System,
    reordering: &Reordering,
    out: &mut K,
) -> Result<(), Failed>
    requires { OrdersTypes sys.now reordering.now }
    ensures { Prints K.written K.faults out.old out.new result
        (reordering_text sys.now reordering.now) }
{
    match reordering {
        Reordering::Whole(order) => print_places(sys, order, out),
        Reordering::SeedMissing(site) => print_stuck_seed(*site, out),
        Reordering::Stuck { left, least } => print_stuck(*left, *least, out),
    }
}

/// The canonical order of an assembly, or what keeps it from having one.
pub fn reordering_of(alloc: Global, sys: &System, grid: &Grid) -> Result<Reordering, NoMemory>
    requires area { grid.now.area ≡ sys.now.area }
    requires fits { Fits sys.now grid.now.tiles }
    ensures reordered { IfOk result (IsReordering sys.now grid.now.tiles) }
    ensures types { IfOk result (OrdersTypes sys.now) }
{
    sys.recall_valid();
    match replay(alloc, sys, grid) {
        Ok(order) => Ok(Reordering::Whole(order)),
        Err(ReplayStop::NoSeedThere) => Ok(Reordering::SeedMissing(missing_seed(sys, grid))),
        Err(ReplayStop::Stuck { left, least }) => Ok(Reordering::Stuck { left, least }),
        Err(ReplayStop::NoMemory) => Err(NoMemory),
    }
}

// The site of the first seed, in the system's order, that the assembly lacks.
fn missing_seed(sys: &System, grid: &Grid) -> Site
    requires { LacksSeed sys.now grid.now.tiles }
    ensures { LacksSeedAt sys.now grid.now.tiles result }
{
    for seed in sys.seeds() {
        if grid.at(seed.site) != Some(seed.tile) {
            return seed.site;
        }
    }
    unreachable!()
}
