// A board of jobs, which go out to workers and come back with an outcome.
ghost use Rattle.std.specs.Prelude.{◌≡◌, ◌↔◌, ◌≤◌, [], length, replicate, slice_get, IsTrue, Some};
ghost use Rattle.std.specs.Prelude.{IfOk, IfSome, IfNone, IsNone, OnOk, OnErr, IfErr};
ghost use Rattle.job_board.specs.Answers.{Answers};
ghost use Rattle.job_board.specs.Boards.{IsKept, IsLeastWaiting, IsOutBy, IsOfBoard, NoneWaits};
ghost use Rattle.job_board.specs.Boards.{given_back, sent_out, stages};

use crate::job::{Job, same_job};
use crate::journal::Move;
use crate::leavings::Leavings;
use crate::outcome::Outcome;
use crate::state::State;
use crate::ticket::Ticket;
use std::alloc::Global;
use std::marker::Model;
use tile_system::NoMemory;

/// Jobs, the state of each, and the moves that led there.
pub struct Board<'a> {
    jobs: &'a [Job],
    states: Vec<State>,
    journal: Vec<Move>,
    next: u32,
}

impl<'a> Drop for Board<'a> {
    fn drop(self) {
        let Board {
            jobs: _jobs,
            states: _states,
            journal: _journal,
            next: _next,
        } = self;
    }
}

impl<'a> Model for Board<'a> {
    ghost use Rattle.std.specs.Vec.{vec_capacity};
    ghost use Rattle.job_board.specs.Boards.{BoardValue, IsBoard};

    ghost Value = { BoardValue };

    ghost view = { λ b. record {
      jobs = b.jobs.now;
      states = b.states.items;
      journal = b.journal.items;
    } };

    ghost invariant = { λ b. IsBoard (record {
      jobs = b.jobs.now;
      states = b.states.items;
      journal = b.journal.items;
    }) b.next (vec_capacity b.journal) };
}

/// Why an outcome is not taken.
#[derive(Clone, Copy, Debug, PartialEq, Eq)]
pub enum PutStop {
    NotOut = 1,
    OtherJob = 2,
}

impl<'a> Board<'a> {
    ghost use Rattle.job_board.specs.declared.job.Job.{Job as JobValue};

    /// A board on which all jobs wait. It takes all the memory that it will need.
    pub fn make(alloc: Global, jobs: &'a [Job]) -> Result<Board<'a>, NoMemory>
        requires some { 1 ≤ length jobs.now }
        requires few { length jobs.now ≤ 1024 }
        ensures { IfOk result (λ b. b ≡ record {
          jobs = jobs.now;
          states = replicate (length jobs.now) State.Waiting;
          journal = [];
        }) }
    {
        let count = jobs.len();
        let mut states = Vec::with_capacity(alloc, count)?;
        for _ in 0..count {
            states.push_reserved(State::Waiting);
        }
        let journal = Vec::with_capacity(alloc, 2 * count)?;
        Ok(Board {
            jobs,
            states,
            journal,
            next: 0,
        })
    }

    // What it leaves.
    pub(crate) fn end(self) -> Leavings<'a>
        ensures { result ≡ (self.entry.jobs, self.entry.states) }
    {
        let Board {
            jobs,
            states,
            journal: _,
            next: _,
        } = self;
        Leavings::new(jobs, states)
    }

    /// The moves so far.
    pub fn journal(&self) -> &[Move]
        ensures journal { result.now ≡ self.now.journal }
        ensures kept { IsKept self.now }
    {
        self.journal.as_slice()
    }

    /// Gives the least waiting job to a worker. It takes no memory.
    pub fn take(&mut self, worker: u32) -> Option<Ticket<'a>>
        ensures least { IfSome result (λ t. IsLeastWaiting (stages self.old) t.job) }
        ensures ticket { IfSome result (λ t. (t.worker ≡ worker) × IsOfBoard self.old t) }
        ensures board { IfSome result (λ t. self.new ≡ sent_out self.old t.job worker) }

        ensures none { IsNone result ↔ NoneWaits self.old }
        ensures stays { IfNone result (self.new ≡ self.old) }
    {
        let jobs = self.jobs;
        let job = self.next;
        if job as usize >= jobs.len() {
            return None;
        }
        self.next = job + 1;
        self.states[job as usize] = State::Out(worker);
        self.journal.push_reserved(Move {
            worker,
            job,
            gave: false,
        });
        Some(Ticket::new(job, worker, &jobs[job as usize]))
    }

    /// Takes the outcome of a ticket's job from its worker. It takes no memory.
    pub fn put(
        &mut self,
        ticket: Ticket<'a>,
        outcome: Outcome,
    ) -> Result<(), (PutStop, Ticket<'a>, Outcome)>
        requires { Answers ticket.given.sys outcome }
        ensures ok { OnOk result
            (self.new ≡ given_back self.old ticket.entry.job ticket.entry.worker outcome) }
        ensures was_out { OnOk result
            (IsOutBy self.old ticket.entry × IsOfBoard self.old ticket.entry) }

        ensures not_out { IfErr result (λ e.
            e.0 ≡ PutStop.NotOut → ¬ IsOutBy self.old ticket.entry) }
        ensures other_job { IfErr result (λ e. e.0 ≡ PutStop.OtherJob →
            IsOutBy self.old ticket.entry × ¬ IsOfBoard self.old ticket.entry) }
        ensures returned { IfErr result (λ e. (e.1 ≡ ticket.entry) × (e.2 ≡ outcome)) }
        ensures stays { OnErr result (self.new ≡ self.old) }
    {
        let job = ticket.job();
        let worker = ticket.worker();
        if !is_out_to(self.states.as_slice(), job, worker) {
            return Err((PutStop::NotOut, ticket, outcome));
        }
        if !same_job(ticket.given(), &self.jobs[job as usize]) {
            return Err((PutStop::OtherJob, ticket, outcome));
        }
        self.give(job, worker, outcome);
        Ok(())
    }

    // The same for a ticket whose job is known to be the board's, which isn't compared. Whether it
    // was taken.
    pub(crate) fn put_own(&mut self, ticket: Ticket<'a>, outcome: Outcome) -> bool
        requires own { IsOfBoard self.old ticket }
        requires answers { Answers ticket.given.sys outcome }
        ensures jobs { self.new.jobs ≡ self.old.jobs }
    {
        let job = ticket.job();
        let worker = ticket.worker();
        if !is_out_to(self.states.as_slice(), job, worker) {
            return false;
        }
        self.give(job, worker, outcome);
        true
    }

    // A job that is out to the worker is done with this outcome.
    fn give(&mut self, job: u32, worker: u32, outcome: Outcome)
        requires out { slice_get self.old.states job ≡ Some (State.Out worker) }
        requires answers { (own : JobValue) →
            slice_get self.old.jobs job ≡ Some own → Answers own.sys outcome }
        ensures { self.new ≡ given_back self.old job worker outcome }
    {
        self.states[job as usize] = State::Done(outcome);
        self.journal.push_reserved(Move {
            worker,
            job,
            gave: true,
        });
    }
}

// Whether the job of this number is out to the worker.
fn is_out_to(states: &[State], job: u32, worker: u32) -> bool
    ensures { IsTrue result ↔ (slice_get states.now job ≡ Some (State.Out worker)) }
{
    match states.get(job as usize) {
        Some(State::Out(to)) => *to == worker,
        _ => false,
    }
}
