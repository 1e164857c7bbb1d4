// What a board leaves behind.
ghost use Rattle.std.specs.Prelude.{◌≡◌, Some, IfSome, slice_get};
ghost use Rattle.job_board.specs.Answers.{Answers};

use crate::job::Job;
use crate::outcome::Outcome;
use crate::state::State;
use std::marker::Model;
use std::mem;

// The jobs of a board, and what became of them. An outcome can be taken out once.
#[derive(Drop)]
pub(crate) struct Leavings<'a> {
    jobs: &'a [Job],
    states: Vec<State>,
}

impl<'a> Model for Leavings<'a> {
    ghost use Rattle.std.specs.Prelude.{List};
    ghost use Rattle.job_board.specs.Boards.{EachAnswers};
    ghost use Rattle.job_board.specs.declared.job.Job.{Job};
    ghost use Rattle.job_board.specs.declared.state.State.{State};

    ghost Value = { List Job × List State };

    ghost view = { λ l. (l.jobs.now, l.states.items) };

    ghost invariant = { λ l. EachAnswers l.jobs.now l.states.items };
}

impl<'a> Leavings<'a> {
    ghost use Rattle.job_board.specs.Boards.{EachAnswers};
    ghost use Rattle.job_board.specs.declared.job.Job.{Job as JobValue};

    pub(crate) fn new(jobs: &'a [Job], states: Vec<State>) -> Leavings<'a>
        requires { EachAnswers jobs.now states.items }
        ensures { result ≡ (jobs.now, states.items) }
    {
        Leavings { jobs, states }
    }

    // The outcome under this number, if it is there. Nothing is said of when it is.
    pub(crate) fn outcome_at(&mut self, number: usize) -> Option<Outcome>
        ensures answers { IfSome result (λ outcome. (job : JobValue) →
            slice_get self.old.0 number ≡ Some job → Answers job.sys outcome) }
        ensures jobs { self.new.0 ≡ self.old.0 }
    {
        if number >= self.states.len() {
            return None;
        }
        match mem::replace(&mut self.states[number], State::Waiting) {
            State::Done(outcome) => Some(outcome),
            _ => None,
        }
    }
}
