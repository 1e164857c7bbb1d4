// `race`: how many tiles each worker won.
ghost use Rattle.std.specs.Thread.{IsSync};
ghost use Rattle.tilebench.specs.Inner.Gives.{GivesAnswer};
ghost use Rattle.tilebench.specs.Inner.Runs.{EndsCommand};
ghost use Rattle.tile_io.specs.declared.limits.TheConstants.{MOST_INPUT};
ghost use Rattle.std.specs.Prelude.{◌≡◌, ◌≤◌, length, true, flat_map, IfOk};
ghost use Rattle.tile_io.specs.Chunks.{PassesOn};
ghost use Rattle.grow_workers.specs.Workers.{IsGrownBy};
ghost use Rattle.tilebench.specs.Commands.Race.{IsRaceText};
ghost use Rattle.tilebench.specs.Inner.Races.{race_text, win_line};
ghost use Rattle.tilebench.specs.Inner.Readings.{taken_or_faulty};
ghost use Rattle.tilebench.specs.Inputs.{alone};
ghost use Rattle.tilebench.specs.Inner.CommandRows.{race_row};

use crate::input::read_alone;
use crate::order::grow_by_crew;
use crate::resources::Resources;
use crate::room::{Reply, Room};
use crate::run::run_by;
use crate::status::Ran;
use crate::stop::Stop;
use crate::wins::{Win, wins_of};
use command_line::Crew;
use fan_out::WorkerCount;
use itoa::Buffer;
use site_table::Grown;
use std::alloc::Global;
use std::thread::Threads;
use tile_io::{Chunk, Failed, Gate, Sink, Source};
use tile_system::{NoMemory, System};

/// The command.
#[derive(Clone, Copy)]
pub struct Race(pub Crew);

impl Room for Race {
    type Answer = Raced;

    ghost room_row = { λ room. race_row room.0.workers };

    fn reads_input(&self) -> bool {
        true
    }

    ghost one_of_two = { λ room. taken_or_faulty alone };
}

impl Race {
    /// Runs the command.
    pub fn run<R: Threads + Sync, G: Gate, S: Source, K: Sink, E: Sink>(
        &self,
        resources: &Resources<'_, R, G>,
        source: &mut S,
        out: &mut K,
        err: &mut E,
    ) -> Ran
        ensures { EndsCommand S.left S.faults K.written K.faults E.written E.faults
            (race_row self.now.0.workers)
            source.old source.new out.old out.new err.old err.new result }
    {
        let answer = |input: Vec<u8>|
            requires { IsSync R.row × IsSync G.row × (length input.items ≤ MOST_INPUT) }
        { self.answer(resources, input) };
        run_by(resources.alloc, self, answer, source, out, err)
    }

    // Its answer to an input, with the growth that is to be handed out.
    fn answer<R: Threads + Sync, G: Gate>(
        &self,
        resources: &Resources<'_, R, G>,
        input: Vec<u8>,
    ) -> Result<(Raced, Option<Grown>), Stop>
        requires { length input.items ≤ MOST_INPUT }
        ensures { GivesAnswer
            ⟦<Raced as Reply>⟧.yes ⟦<Raced as Reply>⟧.text ⟦<Raced as Reply>⟧.printable
            (race_row self.now.0.workers) input.items result }
    {
        let sys = read_alone(resources.alloc, &input)?;
        let grown = grow_by_crew(resources, &sys, self.0)?;
        let raced = raced_of(resources.alloc, &sys, self.0.workers, &grown)?;
        Ok((raced, Some(grown)))
    }
}

// What each worker won of a growth.
fn raced_of(
    alloc: Global,
    sys: &System,
    workers: WorkerCount,
    grown: &Grown,
) -> Result<Raced, NoMemory>
    requires { IsGrownBy sys.now workers.count grown.now }
    ensures { IfOk result (λ raced.
        IsRaceText workers.count sys.now grown.now true (race_text raced.wins.items raced.total)) }
{
    sys.recall_valid();
    let seeds = sys.seeds().len() as u32;
    let wins = wins_of(alloc, workers, grown)?;
    Ok(Raced {
        wins,
        total: grown.grid().count() - seeds,
    })
}

/// What each worker won, worker 0 first, and all tiles but the seeds.
#[derive(Drop)]
pub struct Raced {
    pub wins: Vec<Win>,
    pub total: u32,
}

impl Reply for Raced {
    ghost text = { λ raced. race_text raced.wins.items raced.total };

    ghost yes = { λ raced. true };

    ghost printable = { λ raced. Unit {0} };

    fn is_yes(&self) -> bool {
        true
    }

    fn print<K: Sink>(&self, out: &mut K) -> Result<(), Failed> {
        let mut chunk = Chunk::new();
        put_race(&self.wins, self.total, &mut chunk, out)?;
        chunk.flush(out)
    }
}

// Adds all lines to what is held.
fn put_race<K: Sink>(
    wins: &[Win],
    total: u32,
    chunk: &mut Chunk,
    sink: &mut K,
) -> Result<(), Failed>
    ensures { PassesOn K.written K.faults sink.old sink.new chunk.old chunk.new result
        (race_text wins.now total) }
{
    put_wins(wins, chunk, sink)?;
    let mut number = Buffer::new();
    chunk.put_line(sink, b"total", &[number.format(total).as_bytes()])
}

// Adds the line of each worker to what is held.
fn put_wins<K: Sink>(wins: &[Win], chunk: &mut Chunk, sink: &mut K) -> Result<(), Failed>
    ensures { PassesOn K.written K.faults sink.old sink.new chunk.old chunk.new result
        (flat_map win_line wins.now) }
{
    for win in wins {
        put_win(*win, chunk, sink)?;
    }
    Ok(())
}

// Adds the line of one worker.
fn put_win<K: Sink>(win: Win, chunk: &mut Chunk, sink: &mut K) -> Result<(), Failed>
    ensures { PassesOn K.written K.faults sink.old sink.new chunk.old chunk.new result
        (win_line win) }
{
    let mut worker = Buffer::new();
    let mut count = Buffer::new();
    let worker = worker.format(win.worker).as_bytes();
    let count = count.format(win.count).as_bytes();
    chunk.put_line(sink, b"won", &[worker, count])
}
