// `watch`: frames of a growth that are taken while it runs, and then what the system grew into.
ghost use Rattle.std.specs.Prelude.{◌≡◌, ◌≤◌, ◌++◌, All, IfOk, length};
ghost use Rattle.atam.specs.Growth.{IsFullGrowth};
ghost use Rattle.atam.specs.TileSystem.{IsType};
ghost use Rattle.tile_io.specs.declared.limits.TheConstants.{MOST_INPUT};
ghost use Rattle.type_index.specs.Indexes.{IsIndexOf};
ghost use Rattle.watch_frames.specs.FrameText.{frames_text};
ghost use Rattle.watch_frames.specs.Watched.{IsWatchedGrowth};
ghost use Rattle.job_board.specs.AnswerText.{growth_text, is_unique};
ghost use Rattle.std.specs.Thread.{IsSync};
ghost use Rattle.tilebench.specs.Inner.Gives.{GivesAnswer};
ghost use Rattle.tilebench.specs.Inner.Runs.{EndsCommand};
ghost use Rattle.tilebench.specs.Inner.Readings.{taken_or_faulty};
ghost use Rattle.tilebench.specs.Inner.Rooms.{HasTypes, IsJudgedGrowth, outcome_of};
ghost use Rattle.tilebench.specs.Inputs.{alone};
ghost use Rattle.tilebench.specs.Inner.CommandRows.{watch_row};

use crate::growth::{Growth, growth_of};
use crate::input::read_alone;
use crate::judged::{JudgedGrowth, judge_grid};
use crate::resources::Resources;
use crate::room::{Reply, Room};
use crate::run::run_by;
use crate::status::Ran;
use crate::stop::Stop;
use command_line::{Crew, FrameCount};
use fan_out::WorkerCount;
use grow_workers::Lent;
use job_board::is_unique;
use site_table::Grown;
use std::thread::Threads;
use tile_io::{Failed, Gate, Sink, Source};
use tile_system::{NoMemory, System};
use type_index::TypeIndex;
use watch_frames::{Frames, print_frames, watch_by_index};

/// The command.
#[derive(Clone, Copy)]
pub struct Watch {
    pub crew: Crew,
    pub frames: FrameCount,
}

impl Room for Watch {
    type Answer = Watched;

    ghost room_row = { λ room. watch_row room.crew.workers room.frames };

    fn reads_input(&self) -> bool {
        true
    }

    ghost one_of_two = { λ room. taken_or_faulty alone };
}

impl Watch {
    /// Runs the command.
    pub fn run<R: Threads + Sync, G: Gate, S: Source, K: Sink, E: Sink>(
        &self,
        resources: &Resources<'_, R, G>,
        source: &mut S,
        out: &mut K,
        err: &mut E,
    ) -> Ran
        ensures { EndsCommand S.left S.faults K.written K.faults E.written E.faults
            (watch_row self.now.crew.workers self.now.frames)
            source.old source.new out.old out.new err.old err.new result }
    {
        let answer = |input: Vec<u8>|
            requires { IsSync R.row × IsSync G.row × (length input.items ≤ MOST_INPUT) }
        { self.answer(resources, input) };
        run_by(resources.alloc, self, answer, source, out, err)
    }

    // Its answer to an input, with the growth that is to be handed out.
    fn answer<R: Threads + Sync, G: Gate>(
        &self,
        resources: &Resources<'_, R, G>,
        input: Vec<u8>,
    ) -> Result<(Watched, Option<Grown>), Stop>
        requires { length input.items ≤ MOST_INPUT }
        ensures { GivesAnswer
            ⟦<Watched as Reply>⟧.yes ⟦<Watched as Reply>⟧.text ⟦<Watched as Reply>⟧.printable
            (watch_row self.now.crew.workers self.now.frames) input.items result }
    {
        let sys = read_alone(resources.alloc, &input)?;
        let types = TypeIndex::build(resources.alloc, &sys)?;
        let (frames, grown) = grow_watched(resources, &sys, &types, self.crew, self.frames)?;
        let judged = judge_watched(resources, &sys, &types, &grown, self.crew.workers)?;
        let growth = growth_of(sys, grown.grid(), judged);
        Ok((Watched { frames, growth }, Some(grown)))
    }
}

// Grows a system while so many frames of it are taken. The index of the types is lent.
fn grow_watched<R: Threads + Sync, G: Gate>(
    resources: &Resources<'_, R, G>,
    sys: &System,
    types: &TypeIndex,
    crew: Crew,
    frames: FrameCount,
) -> Result<(Frames, Grown), NoMemory>
    requires { IsIndexOf sys.now types.now }
    ensures { IfOk result (λ r. IsWatchedGrowth sys.now crew.workers.count frames.count r.0 r.1) }
{
    let Crew { workers, choice } = crew;
    let lent = Lent {
        sys,
        types,
        gate: resources.gate,
    };
    watch_by_index(
        resources.rt,
        resources.alloc,
        &lent,
        workers,
        choice,
        frames.get(),
    )
}

// The verdict on what has grown, by so many workers.
fn judge_watched<R: Threads + Sync, G: Gate>(
    resources: &Resources<'_, R, G>,
    sys: &System,
    types: &TypeIndex,
    grown: &Grown,
    workers: WorkerCount,
) -> Result<JudgedGrowth, NoMemory>
    requires index { IsIndexOf sys.now types.now }
    requires area { grown.now.grid.area ≡ sys.now.area }
    requires full { IsFullGrowth sys.now grown.now.grid.tiles }
    ensures { IfOk result (IsJudgedGrowth sys.now grown.now.grid.tiles) }
{
    judge_grid(resources, sys, types, grown.grid(), None, workers)
}

/// Frames of a growth, and what the system grew into.
pub struct Watched {
    pub frames: Frames,
    pub growth: Growth,
}

impl Drop for Watched {
    fn drop(self) {
        let Watched {
            frames: _frames,
            growth: _growth,
        } = self;
    }
}

impl Reply for Watched {
    ghost text = { λ watched.
        frames_text watched.growth.sys watched.frames.places watched.frames.counts
        ++ growth_text watched.growth.sys (outcome_of watched.growth) };

    ghost yes = { λ watched. is_unique watched.growth.verdict };

    ghost printable = { λ watched. All (λ p. IsType watched.growth.sys p.tile) watched.frames.places
        × HasTypes watched.growth.sys (outcome_of watched.growth) };

    fn is_yes(&self) -> bool {
        is_unique(self.growth.verdict)
    }

    fn print<K: Sink>(&self, out: &mut K) -> Result<(), Failed> {
        print_frames(&self.growth.sys, &self.frames, out)?;
        self.growth.print(out)
    }
}
