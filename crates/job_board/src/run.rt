// Workers at a board.
ghost use Rattle.std.specs.Prelude.{◌≡◌, ◌≤◌, [], length, slice_get, Some, IfOk};
ghost use Rattle.std.specs.Vec.{vec_capacity};
ghost use Rattle.job_board.specs.Answers.{AnswerEach, Answers};

use crate::board::Board;
use crate::job::Job;
use crate::leavings::Leavings;
use crate::outcome::Outcome;
use crate::tied::{JobList, Tied};
use fan_out::share_out;
use std::alloc::{AllocError, Global};
use std::marker::Brand;
use std::sync::{Mutex, Wait};
use std::thread::Threads;
use tile_io::Gate;
use tile_system::NoMemory;

/// Works the jobs with so many workers, each in a thread of its own but one, who share a board
/// under a lock. Each calls the gate once before its first take, and has the lock only to take a
/// job and to put its outcome; no job is compared. A worker who finds no memory ends, and a job
/// that has no outcome then is worked once more when all have ended.
pub fn run_board<R: Threads + Wait + Sync, G: Gate>(
    rt: &R,
    alloc: Global,
    jobs: &[Job],
    workers: u32,
    gate: &G,
) -> Result<Vec<Outcome>, NoMemory>
    requires some_jobs { 1 ≤ length jobs.now }
    requires few_jobs { length jobs.now ≤ 1024 }
    requires some { 1 ≤ workers }
    requires few { workers ≤ 16 }
    ensures { IfOk result (λ outcomes. AnswerEach jobs.now outcomes.items) }
{
    run_in::<Brand, R, G>(rt, alloc, jobs, workers, gate)
}

// The same over a board that is known to be of these jobs.
fn run_in<J: JobList + Send + Sync, R: Threads + Wait + Sync, G: Gate>(
    rt: &R,
    alloc: Global,
    jobs: &[Job],
    workers: u32,
    gate: &G,
) -> Result<Vec<Outcome>, NoMemory>
    requires own { jobs.now ≡ J.jobs }
    requires some_jobs { 1 ≤ length jobs.now }
    requires few_jobs { length jobs.now ≤ 1024 }
    ensures { IfOk result (λ outcomes. AnswerEach jobs.now outcomes.items) }
{
    let count = jobs.len();
    let outcomes = Vec::with_capacity(alloc, count)?;
    let numbers = numbers_below(alloc, workers)?;
    let board = Mutex::new(Tied::<J>::new(Board::make(alloc, jobs)?));
    let shared = &board;
    // At an `Err` there was no memory for a list of what the workers answered, which is nothing.
    let _ended = share_out(
        rt,
        numbers,
        &move |worker: u32| { work_through(rt, alloc, shared, count, worker, gate) },
    );
    finish(rt, alloc, jobs, board.into_inner().end(), outcomes)
}

// The numbers of so many workers.
fn numbers_below(alloc: Global, workers: u32) -> Result<Vec<u32>, AllocError> {
    let mut numbers = Vec::new(alloc);
    for worker in 0..workers {
        numbers.push(worker)?;
    }
    Ok(numbers)
}

// One worker: at most so many jobs, each from its take to its put.
fn work_through<J: JobList, R: Threads + Wait + Sync, G: Gate>(
    rt: &R,
    alloc: Global,
    board: &Mutex<Tied<'_, J>>,
    count: usize,
    worker: u32,
    gate: &G,
) {
    gate.arrive(worker);
    for _ in 0..count {
        let ticket = board.lock(rt).take(worker);
        let Some(ticket) = ticket else {
            return;
        };
        let Ok(outcome) = Outcome::work(rt, alloc, ticket.given()) else {
            return;
        };
        board.lock(rt).put(ticket, outcome);
    }
}

// An outcome for each job: the one that is left, or else a new one.
fn finish<R: Threads + Sync>(
    rt: &R,
    alloc: Global,
    jobs: &[Job],
    mut leavings: Leavings<'_>,
    mut outcomes: Vec<Outcome>,
) -> Result<Vec<Outcome>, NoMemory>
    requires own { leavings.0 ≡ jobs.now }
    requires empty { outcomes.items ≡ [] }
    requires room { length jobs.now ≤ vec_capacity outcomes }
    ensures { IfOk result (λ outcomes. AnswerEach jobs.now outcomes.items) }
{
    for (number, job) in jobs.iter().enumerate() {
        let outcome = outcome_at(rt, alloc, number, job, &mut leavings)?;
        outcomes.push_reserved(outcome);
    }
    Ok(outcomes)
}

// The outcome of one job: the one that is left, or else a new one.
fn outcome_at<R: Threads + Sync>(
    rt: &R,
    alloc: Global,
    number: usize,
    job: &Job,
    leavings: &mut Leavings<'_>,
) -> Result<Outcome, NoMemory>
    requires { slice_get leavings.old.0 number ≡ Some job.now }
    ensures answers { IfOk result (λ outcome. Answers job.now.sys outcome) }
    ensures jobs { leavings.new.0 ≡ leavings.old.0 }
{
    match leavings.outcome_at(number) {
        Some(outcome) => Ok(outcome),
        None => Outcome::work(rt, alloc, job),
    }
}
