// What answers a job.
ghost use Rattle.std.specs.Prelude.{◌≡◌, true, IfOk};
ghost use Rattle.atam.specs.Canonical.{IsCanonical};
ghost use Rattle.atam.specs.Growth.{IsFullGrowth};
ghost use Rattle.type_cache.specs.Clean.{CameExact};
ghost use Rattle.type_index.specs.Indexes.{IsIndexOf};
ghost use Rattle.job_board.specs.Answers.{Answers};
ghost use Rattle.job_board.specs.AnswerText.{is_unique};

use crate::job::Job;
use assembly::Sequence;
use atam::Verdict;
use fan_out::WorkerCount;
use frontier_seat::{FilledInOrder, fill_least_first_seeing};
use grow_workers::{Lent, grow_by_index, picks_in_order};
use local_check::{LaidOut, judge_grown};
use replay_order::replay_producible;
use std::alloc::Global;
use std::marker::Model;
use std::thread::Threads;
use tile_io::OpenGate;
use tile_system::{NoMemory, Site, System, TypeId};
use type_index::TypeIndex;

/// The canonical sequence of what grew, the least open site outside the box with the least type
/// that attaches there, and the verdict on the sequence: eight bytes a place.
pub struct Outcome {
    sequence: Sequence,
    outside: Option<(Site, TypeId)>,
    verdict: Verdict,
}

impl Drop for Outcome {
    fn drop(self) {
        let Outcome {
            sequence: _sequence,
            outside: _outside,
            verdict: _verdict,
        } = self;
    }
}

impl Model for Outcome {
    ghost use Rattle.unique_law.specs.Outcomes.{Outcome as Told};

    ghost Value = { Told };

    ghost view = { λ o. record { order = o.sequence; outside = o.outside; verdict = o.verdict } };
}

impl Outcome {
    /// Grows with one worker, to what one worker of `grow` comes to with the job's choice: always at
    /// the least open site of the box, on a grid of its own, and where the choice is not 0 and a tile
    /// came otherwise than clean, so that it may matter, anew by the choice, on a table. No clause
    /// says more of it. The time grows with the number of sites of the box; the memory, of some
    /// eleven bytes a site, is given back but for the sequence.
    pub fn work<R: Threads + Sync>(rt: &R, alloc: Global, job: &Job) -> Result<Outcome, NoMemory>
        ensures { IfOk result (Answers job.now.sys) }
    {
        let types = TypeIndex::build(alloc, &job.sys)?;
        Outcome::by_index(rt, alloc, &job.sys, &types, job.choice)
    }

    // The same where an index of the types is lent.
    fn by_index<R: Threads + Sync>(
        rt: &R,
        alloc: Global,
        sys: &System,
        types: &TypeIndex,
        choice: u64,
    ) -> Result<Outcome, NoMemory>
        requires { IsIndexOf sys.now types.now }
        ensures { IfOk result (Answers sys.now) }
    {
        let grown = filled(rt, alloc, sys, types, choice)?;
        let mut outcome = Outcome::of(rt, alloc, sys, types, grown)?;
        // It has room for the whole box.
        outcome.sequence.shrink_to_fit();
        Ok(outcome)
    }

    // What a full growth in its order comes to, judged by one worker. The grid is dropped then.
    fn of<R: Threads + Sync>(
        rt: &R,
        alloc: Global,
        sys: &System,
        types: &TypeIndex,
        grown: FilledInOrder,
    ) -> Result<Outcome, NoMemory>
        requires area { grown.grid.area ≡ sys.now.area }
        requires index { IsIndexOf sys.now types.now }
        requires full { IsFullGrowth sys.now grown.grid.tiles }
        requires order { IsCanonical sys.now grown.grid.tiles grown.order }
        requires clean { grown.clean ≡ true → CameExact sys.now grown.order }
        ensures { IfOk result (Answers sys.now) }
    {
        sys.recall_valid();
        let FilledInOrder { grid, order, clean } = grown;
        let outside = types.least_open_outside(sys, &grid);
        let laid = LaidOut {
            sys,
            seq: &order,
            grid: &grid,
            types,
        };
        let verdict = judge_grown(rt, alloc, &laid, clean, outside, WorkerCount::new(1))?;
        Ok(Outcome {
            sequence: order,
            outside,
            verdict,
        })
    }

    pub fn sequence(&self) -> &Sequence
        ensures { result.now ≡ self.now.order }
    {
        &self.sequence
    }

    pub fn outside(&self) -> Option<(Site, TypeId)>
        ensures { result ≡ self.now.outside }
    {
        self.outside
    }

    pub fn verdict(&self) -> &Verdict
        ensures { result.now ≡ self.now.verdict }
    {
        &self.verdict
    }
}

/// Whether a verdict is a yes.
pub fn is_unique(verdict: Verdict) -> bool
    ensures { result ≡ is_unique verdict }
{
    matches!(verdict, Verdict::Yes)
}

// What grows by this choice, and its canonical sequence. Where each tile comes clean, each choice has
// this growth.
fn filled<R: Threads + Sync>(
    rt: &R,
    alloc: Global,
    sys: &System,
    types: &TypeIndex,
    choice: u64,
) -> Result<FilledInOrder, NoMemory>
    requires { IsIndexOf sys.now types.now }
    ensures area { IfOk result (λ r. r.grid.area ≡ sys.now.area) }
    ensures full { IfOk result (λ r. IsFullGrowth sys.now r.grid.tiles) }
    ensures order { IfOk result (λ r. IsCanonical sys.now r.grid.tiles r.order) }
    ensures clean { IfOk result (λ r. r.clean ≡ true → CameExact sys.now r.order) }
{
    let least_first = fill_least_first_seeing(alloc, sys, types, &mut picks_in_order())?;
    if least_first.clean || choice == 0 {
        return Ok(least_first);
    }
    drop(least_first);
    let lent = Lent {
        sys,
        types,
        gate: &OpenGate,
    };
    let grown = grow_by_index(rt, alloc, &lent, WorkerCount::new(1), choice)?;
    let grid = grown.into_grid();
    grid.recall_sites();
    let order = replay_producible(alloc, sys, &grid)?;
    Ok(FilledInOrder {
        grid,
        order,
        clean: false,
    })
}
