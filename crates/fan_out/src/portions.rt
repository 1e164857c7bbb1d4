// The numbers below an end, shared out among workers.
ghost use Rattle.std.specs.Prelude.{◌≡◌, IfOk, length};
ghost use Rattle.fan_out.specs.Portions.{InARow, AcceptsPortions, GivesPortion};
ghost use Rattle.fan_out.specs.Inner.Portions.{IsPortion};

use crate::{WorkerCount, share_out};
use std::alloc::{AllocError, Global};
use std::thread::Threads;

/// The numbers that are a worker's: those from the start to before the end.
#[derive(Clone, Copy, Debug, PartialEq, Eq)]
pub struct Portion {
    pub worker: u32,
    pub start: usize,
    pub end: usize,
}

/// Does the work for each portion of the numbers below an end, which so many workers have in turn,
/// in about equal portions, and answers what was done in the order of the workers. The workers run
/// as those of `share_out` do.
pub fn share_numbers<R: Threads + Sync, D: Send + Drop, F: Fn(Portion) -> D + Sync>(
    rt: &R,
    alloc: Global,
    end: usize,
    workers: WorkerCount,
    work: &F,
) -> Result<Vec<D>, AllocError>
    requires accepts { AcceptsPortions F.Fn work.now end }
    ensures count { IfOk result (λ done. length done.items ≡ workers.count) }
    ensures each { IfOk result (λ done.
        InARow (GivesPortion F.Fn work.now) 0 0 end done.items) }
{
    let portions = portions_of(alloc, end, workers)?;
    let done = share_out(rt, portions, work)?;
    Ok(done)
}

// A portion for each of so many workers.
fn portions_of(alloc: Global, end: usize, workers: WorkerCount) -> Result<Vec<Portion>, AllocError>
    ensures count { IfOk result (λ portions. length portions.items ≡ workers.count) }
    ensures each { IfOk result (λ portions. InARow IsPortion 0 0 end portions.items) }
{
    let workers = workers.get();
    let mut portions = Vec::new(alloc);
    let mut start = 0;
    for worker in 0..workers {
        let next = start + (end - start) / (workers - worker) as usize;
        portions.push(Portion {
            worker,
            start,
            end: next,
        })?;
        start = next;
    }
    Ok(portions)
}
