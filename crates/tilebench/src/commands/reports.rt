// `report`: what is to be told of a growth, as one line of JSON.
ghost use Rattle.std.specs.Thread.{IsSync};
ghost use Rattle.tilebench.specs.Inner.Gives.{GivesAnswer};
ghost use Rattle.tilebench.specs.Inner.Runs.{EndsCommand};
ghost use Rattle.tile_io.specs.declared.limits.TheConstants.{MOST_INPUT};
ghost use Rattle.std.specs.Prelude.{◌≡◌, ◌≤◌, length, [], ◌∷◌, map, string_bytes, IfOk};
ghost use Rattle.tile_io.specs.Lines.{line_of};
ghost use Rattle.tilebench.specs.Inner.Readings.{taken_or_faulty};
ghost use Rattle.tilebench.specs.Inner.Rooms.{Reports};
ghost use Rattle.tilebench.specs.Inputs.{alone};
ghost use Rattle.tilebench.specs.Inner.CommandRows.{report_row};

use crate::growth::{Growth, growth_of};
use crate::input::read_alone;
use crate::judged::grow_judged;
use crate::resources::Resources;
use crate::room::{Reply, Room};
use crate::run::run_by;
use crate::status::Ran;
use crate::stop::Stop;
use crate::wins::{Win, wins_of};
use command_line::Crew;
use job_board::is_unique;
use report::report_text;
use site_table::Grown;
use std::alloc::Global;
use std::thread::Threads;
use tile_io::{Failed, Gate, Sink, Source, print_line};
use tile_system::NoMemory;

/// The command.
#[derive(Clone, Copy)]
pub struct Report(pub Crew);

impl Room for Report {
    type Answer = Reported;

    ghost room_row = { λ room. report_row room.0.workers };

    fn reads_input(&self) -> bool {
        true
    }

    ghost one_of_two = { λ room. taken_or_faulty alone };
}

impl Report {
    /// Runs the command.
    pub fn run<R: Threads + Sync, G: Gate, S: Source, K: Sink, E: Sink>(
        &self,
        resources: &Resources<'_, R, G>,
        source: &mut S,
        out: &mut K,
        err: &mut E,
    ) -> Ran
        ensures { EndsCommand S.left S.faults K.written K.faults E.written E.faults
            (report_row self.now.0.workers)
            source.old source.new out.old out.new err.old err.new result }
    {
        let answer = |input: Vec<u8>|
            requires { IsSync R.row × IsSync G.row × (length input.items ≤ MOST_INPUT) }
        { self.answer(resources, input) };
        run_by(resources.alloc, self, answer, source, out, err)
    }

    // Its answer to an input, with the growth that is to be handed out.
    fn answer<R: Threads + Sync, G: Gate>(
        &self,
        resources: &Resources<'_, R, G>,
        input: Vec<u8>,
    ) -> Result<(Reported, Option<Grown>), Stop>
        requires { length input.items ≤ MOST_INPUT }
        ensures { GivesAnswer
            ⟦<Reported as Reply>⟧.yes ⟦<Reported as Reply>⟧.text ⟦<Reported as Reply>⟧.printable
            (report_row self.now.0.workers) input.items result }
    {
        let sys = read_alone(resources.alloc, &input)?;
        let (grown, judged) = grow_judged(resources, &sys, self.0)?;
        let wins = wins_of(resources.alloc, self.0.workers, &grown)?;
        let growth = growth_of(sys, grown.grid(), judged);
        let reported = report_of(resources.alloc, &growth, grown.grid().count(), &wins)?;
        Ok((reported, Some(grown)))
    }
}

/// The line of a report, and whether the verdict is a yes.
#[derive(Drop)]
pub struct Reported {
    pub line: String,
    pub unique: bool,
}

impl Reply for Reported {
    ghost text = { λ reported. line_of (string_bytes reported.line ∷ []) };

    ghost yes = { λ reported. reported.unique };

    ghost printable = { λ reported. Unit {0} };

    fn is_yes(&self) -> bool {
        self.unique
    }

    fn print<K: Sink>(&self, out: &mut K) -> Result<(), Failed> {
        print_line(out, self.line.as_bytes(), &[])
    }
}

// The report of a growth of so many tiles.
fn report_of(alloc: Global, growth: &Growth, tiles: u32, wins: &[Win]) -> Result<Reported, NoMemory>
    ensures { IfOk result (Reports growth.now tiles wins.now) }
{
    let won = counts(alloc, wins)?;
    let clipped = growth.outside.is_some();
    let unique = is_unique(growth.verdict);
    let line = report_text(alloc, &growth.sys, tiles, &won, clipped, unique)?;
    Ok(Reported { line, unique })
}

// What each worker won.
fn counts(alloc: Global, wins: &[Win]) -> Result<Vec<u32>, NoMemory>
    ensures { IfOk result (λ counts. counts.items ≡ map (λ win. win.count) wins.now) }
{
    Ok(wins.iter().map(|win| win.count).collect(alloc)?)
}
