// A board whose jobs are known by a name that each run picks, so that no ticket's job is compared.
ghost use Rattle.std.specs.Prelude.{◌≡◌, List, [], slice_get, Some, IfSome};
ghost use Rattle.job_board.specs.Answers.{Answers};
ghost use Rattle.job_board.specs.declared.job.Job.{Job as JobValue};

use crate::board::Board;
use crate::leavings::Leavings;
use crate::outcome::Outcome;
use crate::ticket::Ticket;
use std::marker::{Brand, PhantomData};

/// Whose jobs they are. Each run picks them.
pub(crate) trait JobList {
    ghost jobs: { List JobValue };
}

impl JobList for Brand {
    ghost jobs = { [] };
}

// A board of these jobs.
#[derive(Drop)]
pub(crate) struct Tied<'a, J: JobList> {
    board: Board<'a>,
    of: PhantomData<J>,
    ghost own: { board.jobs ≡ J.jobs },
}

impl<'a, J: JobList> Tied<'a, J> {
    pub(crate) fn new(board: Board<'a>) -> Tied<'a, J>
        requires { board.jobs ≡ J.jobs }
    {
        Tied {
            board,
            of: PhantomData,
        }
    }

    // The least waiting job goes out to a worker.
    pub(crate) fn take(&mut self, worker: u32) -> Option<Ticket<'a>>
        ensures { IfSome result (λ t. slice_get J.jobs t.job ≡ Some t.given) }
    {
        self.board.take(worker)
    }

    // An outcome comes back, if its job is out to its worker.
    pub(crate) fn put(&mut self, ticket: Ticket<'a>, outcome: Outcome)
        requires own { slice_get J.jobs ticket.job ≡ Some ticket.given }
        requires answers { Answers ticket.given.sys outcome }
    {
        let _ = self.board.put_own(ticket, outcome);
    }

    // What the board leaves.
    pub(crate) fn end(self) -> Leavings<'a>
        ensures { result.0 ≡ J.jobs }
    {
        let Tied { board, of: _ } = self;
        board.end()
    }
}
