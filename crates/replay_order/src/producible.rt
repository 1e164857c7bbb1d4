// The canonical order of an assembly that is known to be producible.
ghost use Rattle.std.specs.Prelude.{◌≡◌, Ok, IfOk, IfErr, IsErr};
ghost use Rattle.atam.specs.Assembly.{Fits};
ghost use Rattle.atam.specs.Growth.{IsProducible};
ghost use Rattle.replay_order.specs.ReplayAnswers.{IsWholeOrder};

use crate::by_rows::replay_by;
use crate::canonical::replay;
use crate::stop::ReplayStop;
use assembly::{Grid, Sequence};
use fan_out::WorkerCount;
use std::alloc::Global;
use std::thread::Threads;
use tile_system::{NoMemory, System};

/// The canonical sequence of a producible grid, as `replay` finds it.
pub fn replay_producible(alloc: Global, sys: &System, grid: &Grid) -> Result<Sequence, NoMemory>
    requires area { grid.now.area ≡ sys.now.area }
    requires fits { Fits sys.now grid.now.tiles }
    requires producible { IsProducible sys.now grid.now.tiles }
    ensures { IfOk result (IsWholeOrder sys.now grid.now.tiles) }
{
    whole_order(replay(alloc, sys, grid))
}

/// The same by so many workers, as `replay_by` finds it.
pub fn replay_producible_by<R: Threads + Sync>(
    rt: &R,
    alloc: Global,
    sys: &System,
    grid: &Grid,
    workers: WorkerCount,
) -> Result<Sequence, NoMemory>
    requires area { grid.now.area ≡ sys.now.area }
    requires fits { Fits sys.now grid.now.tiles }
    requires producible { IsProducible sys.now grid.now.tiles }
    ensures { IfOk result (IsWholeOrder sys.now grid.now.tiles) }
{
    whole_order(replay_by(rt, alloc, sys, grid, workers))
}

// What was replayed of a producible grid.
fn whole_order(replayed: Result<Sequence, ReplayStop>) -> Result<Sequence, NoMemory>
    requires { IfErr replayed (λ stop. stop ≡ ReplayStop.NoMemory) }
    ensures order { IfOk replayed (λ order. result ≡ Ok order) }
    ensures none { IfErr replayed (λ _. IsErr result) }
{
    match replayed {
        Ok(order) => Ok(order),
        Err(ReplayStop::NoMemory) => Err(NoMemory),
        Err(ReplayStop::NoSeedThere) => unreachable!(),
        Err(ReplayStop::Stuck { .. }) => unreachable!(),
    }
}
