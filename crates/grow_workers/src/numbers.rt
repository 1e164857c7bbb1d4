// The numbers of workers.
ghost use Rattle.std.specs.Prelude.{◌≡◌, ◌<◌};
ghost use Rattle.grow_workers.specs.Workers.{worker_number};

/// The number under which a worker of a whole growth places its tiles.
pub fn worker_number(worker: u32) -> u32
    requires { worker < 64 }
    ensures number { result ≡ worker_number worker }
    ensures below { result < 64 }
{
    if worker == 0 { 0 } else { 64 - worker }
}
