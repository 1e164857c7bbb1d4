// The lines of the answers to a batch.
ghost use Rattle.std.specs.Prelude.{◌≡◌, All, IfSome, length, ◌∷◌, [], codes, decimal, filter, flat_map, zip};
ghost use Rattle.std.specs.List.{enumerate_from};
ghost use Rattle.atam.specs.TileSystem.{IsType};
ghost use Rattle.tile_io.specs.Chunks.{PassesOn};
ghost use Rattle.tile_io.specs.Prints.{Prints};
ghost use Rattle.atam.specs.Verdicts.{NamesTypes};
ghost use Rattle.job_board.specs.Answers.{AnswerEach, Answers};
ghost use Rattle.job_board.specs.AnswerText.{answer_text, batch_text, is_unique};
ghost use Rattle.job_board.specs.AnswerText.{growth_text};
ghost use Rattle.tile_io.specs.Lines.{line_of};

use crate::job::Job;
use crate::outcome::{Outcome, is_unique};
use itoa::Buffer;
use seq_text::{PlacePieces, put_closed, put_places, put_verdict};
use tile_io::{Chunk, Failed, Sink};
use tile_system::System;

/// Writes for each job its number and the text of its outcome, and then how many jobs there are and
/// how many of the verdicts are a yes. It takes no memory.
pub fn print_batch<K: Sink>(jobs: &[Job], outcomes: &[Outcome], sink: &mut K) -> Result<(), Failed>
    requires { AnswerEach jobs.now outcomes.now }
    ensures { Prints K.written K.faults sink.old sink.new result
        (batch_text jobs.now outcomes.now) }
{
    let mut chunk = Chunk::new();
    put_answers(jobs, outcomes, &mut chunk, sink)?;
    put_done(jobs.len(), count_yes(outcomes), &mut chunk, sink)?;
    chunk.flush(sink)
}

// Adds what answers each job to what is held. The pieces are made once, and turned to one system
// after another.
fn put_answers<K: Sink>(
    jobs: &[Job],
    outcomes: &[Outcome],
    chunk: &mut Chunk,
    sink: &mut K,
) -> Result<(), Failed>
    requires { AnswerEach jobs.now outcomes.now }
    ensures { PassesOn K.written K.faults sink.old sink.new chunk.old chunk.new result
        (flat_map answer_text (enumerate_from 0 (zip jobs.now outcomes.now))) }
{
    let Some(first) = jobs.first() else {
        return Ok(());
    };
    let mut pieces = PlacePieces::new(&first.sys);
    for number in 0..jobs.len() {
        put_answer(
            number,
            &jobs[number],
            &outcomes[number],
            &mut pieces,
            chunk,
            sink,
        )?;
    }
    Ok(())
}

// Adds the number of a job, and what answers it.
fn put_answer<'a, K: Sink>(
    number: usize,
    job: &'a Job,
    outcome: &Outcome,
    pieces: &mut PlacePieces<'a>,
    chunk: &mut Chunk,
    sink: &mut K,
) -> Result<(), Failed>
    requires { Answers job.now.sys outcome.now }
    ensures { PassesOn K.written K.faults sink.old sink.new chunk.old chunk.new result
        (answer_text (number, (job.now, outcome.now))) }
{
    let mut text = Buffer::new();
    chunk.put_line(sink, b"job", &[text.format(number).as_bytes()])?;
    job.sys.recall_valid();
    pieces.turn_to(&job.sys);
    put_outcome(&job.sys, outcome, pieces, chunk, sink)
}

// Adds the places, what is open outside the box, and the verdict.
fn put_outcome<K: Sink>(
    sys: &System,
    outcome: &Outcome,
    pieces: &mut PlacePieces,
    chunk: &mut Chunk,
    sink: &mut K,
) -> Result<(), Failed>
    requires pieces { pieces.old ≡ sys.now }
    requires order { All (λ p. IsType sys.now p.tile) outcome.now.order }
    requires outside { IfSome outcome.now.outside (λ found. IsType sys.now found.1) }
    requires verdict { NamesTypes sys.now outcome.now.verdict }
    ensures { PassesOn K.written K.faults sink.old sink.new chunk.old chunk.new result
        (growth_text sys.now outcome.now) }
{
    put_places(outcome.sequence(), pieces, chunk, sink)?;
    put_closed(sys, outcome.outside(), chunk, sink)?;
    put_verdict(sys, outcome.verdict(), chunk, sink)
}

// Adds the last line.
fn put_done<K: Sink>(jobs: usize, yes: usize, chunk: &mut Chunk, sink: &mut K) -> Result<(), Failed>
    ensures { PassesOn K.written K.faults sink.old sink.new chunk.old chunk.new result
        (line_of (codes "done" ∷ decimal jobs ∷ codes "yes" ∷ decimal yes ∷ [])) }
{
    let mut first = Buffer::new();
    let mut second = Buffer::new();
    let jobs = first.format(jobs).as_bytes();
    let yes = second.format(yes).as_bytes();
    chunk.put_line(sink, b"done", &[jobs, b"yes", yes])
}

// How many of the verdicts are a yes.
fn count_yes(outcomes: &[Outcome]) -> usize
    ensures { result ≡ length (filter (λ outcome. is_unique outcome.verdict) outcomes.now) }
{
    let mut count = 0;
    for outcome in outcomes {
        if is_unique(*outcome.verdict()) {
            count += 1;
        }
    }
    count
}
