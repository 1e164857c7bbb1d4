// Parts of some work, each done by a worker of its own.
ghost use Rattle.std.specs.Prelude.{◌≡◌, IfOk, length};
ghost use Rattle.std.specs.Thread.{IsSync};
ghost use denote.Param.Send.{IsSend};
ghost use Rattle.std.specs.Fork.{AcceptsJobs, GivesJobs};

use std::alloc::{AllocError, Global};
use std::thread::{self, Threads};

/// Does each part, all but one of several in threads of their own, and answers what was done of each
/// in the order of the parts. A thread that has nothing to do is started first: the first one may be
/// put on the processor of the one that starts it, and the two would share it for a while. One part
/// alone is done with no thread. Where no thread can be made the parts are done one after another.
pub fn share_out<R: Threads + Sync, P: Send + Drop, D: Send + Drop, F: Fn(P) -> D + Sync>(
    rt: &R,
    parts: Vec<P>,
    work: &F,
) -> Result<Vec<D>, AllocError>
    requires { AcceptsJobs F.Fn work.now parts.items }
    ensures count { IfOk result (λ done. length done.items ≡ length parts.items) }
    ensures each { IfOk result (λ done. GivesJobs F.Fn work.now parts.items done.items) }
{
    if parts.len() < 2 {
        return thread::map_vec(rt, parts, work);
    }
    let (_nothing, done) = thread::join(
        rt,
        move || {},
        move || -> Result<Vec<D>, AllocError>
            requires { IsSync R.row × IsSync F.row × IsSend P.row × IsSend D.row
                × AcceptsJobs F.Fn work.now parts.items }
            ensures { IfOk result (λ done. (length done.items ≡ length parts.items)
                × GivesJobs F.Fn work.entry.now parts.items done.items) }
        { thread::map_vec(rt, parts, work) },
    );
    done
}
