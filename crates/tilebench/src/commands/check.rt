// `check`: whether a sequence is legal, and the verdict on it.
ghost use Rattle.std.specs.Prelude.{refl, ◌<◌, ◌^◌, length, IfOk};
ghost use Rattle.atam.specs.Assembly.{Fits};
ghost use Rattle.local_check.specs.Judged.{IsJudged};
ghost use Rattle.tile_io.specs.Prints.{Prints};
ghost use Rattle.seq_text.specs.GrowthText.{sequence_format};
ghost use Rattle.atam.specs.Verdicts.{NamesTypes};
ghost use Rattle.tilebench.specs.Commands.Check.{is_judged_unique, judgement_text};
ghost use Rattle.tilebench.specs.Inner.CommandRows.{check_row};
ghost use Rattle.tilebench.specs.Inner.Rooms.{NamesItsTypes};
ghost use Rattle.tilebench.specs.Inner.Readings.{taken_or_faulty};

use crate::input::system_and_sequence;
use crate::room::{Reply, Room, SourceRoom};
use crate::stop::Stop;
use assembly::Sequence;
use atam::{Legality, Verdict};
use job_board::is_unique;
use local_check::{Judged, judge_once};
use seq_text::{print_legality, print_verdict};
use site_table::Grown;
use std::alloc::Global;
use tile_io::{Failed, Sink, Source};
use tile_system::{NoMemory, System};

/// The command.
#[derive(Clone, Copy)]
pub struct Check;

impl Room for Check {
    type Answer = Checked;

    ghost room_row = { λ room. check_row };

    fn reads_input(&self) -> bool {
        true
    }

    ghost one_of_two = { λ room. taken_or_faulty sequence_format };
}

impl SourceRoom for Check {
    ghost reads_source = { λ room. refl };

    fn answer_from<S: Source>(
        &self,
        alloc: Global,
        source: &mut S,
    ) -> Result<(Checked, Option<Grown>), Stop> {
        let (sys, sequence) = system_and_sequence(alloc, source)?;
        let judgement = judgement_of(alloc, &sys, &sequence)?;
        Ok((Checked { sys, judgement }, None))
    }
}

/// The judgement on a sequence of a system.
pub struct Checked {
    pub sys: System,
    pub judgement: Judged,
}

impl Drop for Checked {
    fn drop(self) {
        let Checked {
            sys: _sys,
            judgement: _judgement,
        } = self;
    }
}

impl Reply for Checked {
    ghost text = { λ checked. judgement_text checked.sys checked.judgement };

    ghost yes = { λ checked. is_judged_unique checked.judgement };

    ghost printable = { λ checked. NamesItsTypes checked.sys checked.judgement };

    fn is_yes(&self) -> bool {
        match self.judgement {
            Judged::Legal(verdict) => is_unique(verdict),
            Judged::Breach(_) => false,
        }
    }

    fn print<K: Sink>(&self, out: &mut K) -> Result<(), Failed> {
        match &self.judgement {
            Judged::Legal(verdict) => print_legal(&self.sys, verdict, out),
            Judged::Breach(breach) => print_legality(breach, out),
        }
    }
}

// Writes that a sequence is legal, and the verdict on it.
fn print_legal<K: Sink>(sys: &System, verdict: &Verdict, out: &mut K) -> Result<(), Failed>
    requires { NamesTypes sys.now verdict.now }
    ensures { Prints K.written K.faults out.old out.new result
        (judgement_text sys.now (Judged.Legal verdict.now)) }
{
    print_legality(&Legality::Legal, out)?;
    print_verdict(sys, verdict, out)
}

// Whether a sequence is legal, and the verdict on it then, which names types of the system.
fn judgement_of(alloc: Global, sys: &System, sequence: &Sequence) -> Result<Judged, NoMemory>
    requires fits { Fits sys.now sequence.now }
    requires short { length sequence.now < 2 ^ 32 }
    ensures judged { IfOk result (IsJudged sys.now sequence.now) }
    ensures types { IfOk result (NamesItsTypes sys.now) }
{
    judge_once(alloc, sys, sequence)
}
