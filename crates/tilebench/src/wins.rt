// What each worker of a growth won.
ghost use Rattle.std.specs.Prelude.{◌≡◌, ◌<◌, ◌≤◌, sum_by, IfOk, slice_index};
ghost use Rattle.tilebench.specs.Inner.Races.{AreWins, won_together};
ghost use Rattle.grow_workers.specs.Workers.{worker_number};

use fan_out::WorkerCount;
use grow_workers::worker_number;
use site_table::Grown;
use std::alloc::Global;
use tile_system::NoMemory;

/// How many tiles a worker won.
#[derive(Clone, Copy, Debug, PartialEq, Eq)]
pub struct Win {
    pub worker: u32,
    pub count: u32,
}

/// The wins of all workers in turn.
pub fn wins_of(alloc: Global, workers: WorkerCount, grown: &Grown) -> Result<Vec<Win>, NoMemory>
    ensures wins { IfOk result (λ wins. AreWins workers.count grown.now.won wins.items) }
    ensures together { IfOk result (λ wins.
        sum_by (λ win. win.count) wins.items ≡ won_together grown.now.won workers.count) }
{
    let workers = workers.get();
    let mut wins = Vec::with_capacity(alloc, workers as usize)?;
    for worker in 0..workers {
        let count = won_by(grown, worker);
        wins.push(Win { worker, count })?;
    }
    Ok(wins)
}

// How many tiles a worker won, under its number.
fn won_by(grown: &Grown, worker: u32) -> u32
    requires { worker < 64 }
    ensures { result ≡ slice_index grown.now.won (worker_number worker) }
{
    grown.won(worker_number(worker))
}
