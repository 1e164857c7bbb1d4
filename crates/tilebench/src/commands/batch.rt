// `batch`: what many systems grow into, each within its own box.
ghost use Rattle.std.specs.Prelude.{◌≡◌, ◌≤◌, length};
ghost use Rattle.std.specs.List.{list_all};
ghost use Rattle.tile_io.specs.declared.limits.TheConstants.{MOST_INPUT};
ghost use Rattle.job_board.specs.AnswerText.{batch_text, is_unique};
ghost use Rattle.job_board.specs.Answers.{AnswerEach};
ghost use Rattle.tilebench.specs.Inner.BatchReadings.{taken_or_faulty_batch};
ghost use Rattle.std.specs.Thread.{IsSync};
ghost use Rattle.tilebench.specs.Inner.Gives.{GivesAnswer};
ghost use Rattle.tilebench.specs.Inner.Runs.{EndsCommand};
ghost use Rattle.tilebench.specs.Inner.CommandRows.{batch_row};

use crate::input::read_jobs;
use crate::resources::Resources;
use crate::room::{Reply, Room};
use crate::run::run_by;
use crate::status::Ran;
use crate::stop::Stop;
use fan_out::WorkerCount;
use job_board::{Job, Outcome, is_unique, print_batch, run_board};
use site_table::Grown;
use std::sync::Wait;
use std::thread::Threads;
use tile_io::{Failed, Gate, Sink, Source};

/// The command.
#[derive(Clone, Copy)]
pub struct Batch {
    pub workers: WorkerCount,
}

impl Room for Batch {
    type Answer = Batched;

    ghost room_row = { λ room. batch_row room.workers };

    fn reads_input(&self) -> bool {
        true
    }

    ghost one_of_two = { λ room. taken_or_faulty_batch };
}

impl Batch {
    /// Runs the command. It may wait at the lock of the board.
    pub fn run<R: Threads + Wait + Sync, G: Gate, S: Source, K: Sink, E: Sink>(
        &self,
        resources: &Resources<'_, R, G>,
        source: &mut S,
        out: &mut K,
        err: &mut E,
    ) -> Ran
        ensures { EndsCommand S.left S.faults K.written K.faults E.written E.faults
            (batch_row self.now.workers)
            source.old source.new out.old out.new err.old err.new result }
    {
        let answer = |input: Vec<u8>|
            requires { IsSync R.row × IsSync G.row × (length input.items ≤ MOST_INPUT) }
        { self.answer(resources, input) };
        run_by(resources.alloc, self, answer, source, out, err)
    }

    // Its answer to an input. No growth is handed out.
    fn answer<R: Threads + Wait + Sync, G: Gate>(
        &self,
        resources: &Resources<'_, R, G>,
        input: Vec<u8>,
    ) -> Result<(Batched, Option<Grown>), Stop>
        requires { length input.items ≤ MOST_INPUT }
        ensures { GivesAnswer
            ⟦<Batched as Reply>⟧.yes ⟦<Batched as Reply>⟧.text ⟦<Batched as Reply>⟧.printable
            (batch_row self.now.workers) input.items result }
    {
        let jobs = read_jobs(resources.alloc, &input)?;
        let outcomes = run_board(
            resources.rt,
            resources.alloc,
            jobs.as_slice(),
            self.workers.get(),
            resources.gate,
        )?;
        Ok((Batched { jobs, outcomes }, None))
    }
}

/// Jobs, and what answers each.
pub struct Batched {
    pub jobs: Vec<Job>,
    pub outcomes: Vec<Outcome>,
}

impl Drop for Batched {
    fn drop(self) {
        let Batched {
            jobs: _jobs,
            outcomes: _outcomes,
        } = self;
    }
}

impl Reply for Batched {
    ghost text = { λ batched. batch_text batched.jobs.items batched.outcomes.items };

    ghost yes = { λ batched.
        list_all (λ outcome. is_unique outcome.verdict) batched.outcomes.items };

    ghost printable = { λ batched. AnswerEach batched.jobs.items batched.outcomes.items };

    fn is_yes(&self) -> bool {
        self.outcomes
            .iter()
            .all(|outcome| is_unique(*outcome.verdict()))
    }

    fn print<K: Sink>(&self, out: &mut K) -> Result<(), Failed> {
        print_batch(self.jobs.as_slice(), self.outcomes.as_slice(), out)
    }
}
