// `grow`: what a system grows into within its box.
ghost use Rattle.std.specs.Prelude.{◌≤◌, length};
ghost use Rattle.std.specs.Thread.{IsSync};
ghost use Rattle.tilebench.specs.Inner.Gives.{GivesAnswer};
ghost use Rattle.tilebench.specs.Inner.Runs.{EndsCommand};
ghost use Rattle.tile_io.specs.declared.limits.TheConstants.{MOST_INPUT};
ghost use Rattle.tilebench.specs.Inner.Readings.{taken_or_faulty};
ghost use Rattle.tilebench.specs.Inputs.{alone};
ghost use Rattle.tilebench.specs.Inner.CommandRows.{grow_row};

use crate::growth::{Growth, growth_of};
use crate::input::read_alone;
use crate::judged::grow_judged;
use crate::resources::Resources;
use crate::room::{Reply, Room};
use crate::run::run_by;
use crate::status::Ran;
use crate::stop::Stop;
use command_line::Crew;
use site_table::Grown;
use std::thread::Threads;
use tile_io::{Gate, Sink, Source};

/// The command.
#[derive(Clone, Copy)]
pub struct Grow(pub Crew);

impl Room for Grow {
    type Answer = Growth;

    ghost room_row = { λ room. grow_row room.0.workers };

    fn reads_input(&self) -> bool {
        true
    }

    ghost one_of_two = { λ room. taken_or_faulty alone };
}

impl Grow {
    /// Runs the command.
    pub fn run<R: Threads + Sync, G: Gate, S: Source, K: Sink, E: Sink>(
        &self,
        resources: &Resources<'_, R, G>,
        source: &mut S,
        out: &mut K,
        err: &mut E,
    ) -> Ran
        ensures { EndsCommand S.left S.faults K.written K.faults E.written E.faults
            (grow_row self.now.0.workers)
            source.old source.new out.old out.new err.old err.new result }
    {
        let answer = |input: Vec<u8>|
            requires { IsSync R.row × IsSync G.row × (length input.items ≤ MOST_INPUT) }
        { self.answer(resources, input) };
        run_by(resources.alloc, self, answer, source, out, err)
    }

    // Its answer to an input, with the growth that is to be handed out.
    fn answer<R: Threads + Sync, G: Gate>(
        &self,
        resources: &Resources<'_, R, G>,
        input: Vec<u8>,
    ) -> Result<(Growth, Option<Grown>), Stop>
        requires { length input.items ≤ MOST_INPUT }
        ensures { GivesAnswer
            ⟦<Growth as Reply>⟧.yes ⟦<Growth as Reply>⟧.text ⟦<Growth as Reply>⟧.printable
            (grow_row self.now.0.workers) input.items result }
    {
        let sys = read_alone(resources.alloc, &input)?;
        let (grown, judged) = grow_judged(resources, &sys, self.0)?;
        let growth = growth_of(sys, grown.grid(), judged);
        Ok((growth, Some(grown)))
    }
}
