// One look at each place of a sequence: its sides, whether it is held exactly, and its rivals.
ghost use Rattle.std.specs.Prelude.{◌≡◌, ◌≤◌, ◌<◌, ℕ, List, length, IfOk, OnOk};
ghost use Rattle.atam.specs.declared.place.Place.{Place};
ghost use Rattle.atam.specs.TileSystem.{TileSystem};
ghost use Rattle.fan_out.specs.Portions.{InARow};
ghost use Rattle.local_check.specs.Inner.Surveys.{CanSurvey, IsSurvey};
ghost use Rattle.local_check.specs.Inner.Portions.{SurveysPortion};

use crate::breaches::Breaches;
use crate::findings::Findings;
use crate::laid_out::LaidOut;
use crate::place_sides::PlaceSides;
use crate::stood_sites::StoodSites;
use assembly::site_index;
use fan_out::{Portion, WorkerCount, share_numbers};
use std::alloc::Global;
use std::thread::Threads;
use tile_system::NoMemory;

// The sides of each place of a range, and where a condition is broken first.
#[derive(Drop)]
pub(crate) struct Survey {
    pub(crate) sides: Vec<PlaceSides>,
    pub(crate) breaches: Breaches,
}

// All places, by one worker.
pub(crate) fn survey_whole(alloc: Global, laid: &LaidOut<'_>) -> Result<Survey, NoMemory>
    requires can { CanSurvey laid.now }
    ensures { IfOk result (IsSurvey laid.now.sys.now laid.now.seq.now 0
        (length laid.now.seq.now)) }
{
    let places = Portion {
        worker: 0,
        start: 0,
        end: laid.seq.len(),
    };
    survey_portion(alloc, laid, places)
}

// All places, by so many workers, each with a portion of them.
pub(crate) fn survey_all<R: Threads + Sync>(
    rt: &R,
    alloc: Global,
    laid: &LaidOut<'_>,
    workers: WorkerCount,
) -> Result<Survey, NoMemory>
    requires can { CanSurvey laid.now }
    ensures { IfOk result (IsSurvey laid.now.sys.now laid.now.seq.now 0
        (length laid.now.seq.now)) }
{
    let surveys = share_numbers(
        rt,
        alloc,
        laid.seq.len(),
        workers,
        &move |places: Portion| -> Result<Survey, NoMemory>
            requires { CanSurvey laid.now
                × (places.start ≤ places.end) × (places.end ≤ length laid.now.seq.now) }
            ensures { IfOk result (IsSurvey laid.entry.now.sys.now laid.entry.now.seq.now
                places.start places.end) }
        { survey_portion(alloc, laid, places) },
    )?;
    one_survey(surveys)
}

// What was found in portions that follow each other.
fn one_survey(mut surveys: Vec<Result<Survey, NoMemory>>) -> Result<Survey, NoMemory>
    requires { 0 < length surveys.items }
    ensures { IfOk result (λ survey. (sys : TileSystem) (s : List Place) (end : ℕ) →
        InARow (SurveysPortion sys s) 0 0 end surveys.items → IsSurvey sys s 0 end survey) }
{
    let mut whole = surveys.remove(0)?;
    for survey in surveys {
        whole.append(survey?)?;
    }
    Ok(whole)
}

impl Survey {
    // What was found in the range behind this one.
    fn append(&mut self, behind: Survey) -> Result<(), NoMemory>
        ensures { OnOk result ((sys : TileSystem) (s : List Place) (start middle end : ℕ) →
            IsSurvey sys s start middle self.old → IsSurvey sys s middle end behind →
            IsSurvey sys s start end self.new) }
    {
        self.sides.extend_from_slice(behind.sides.as_slice())?;
        self.breaches = self.breaches.or(behind.breaches);
        Ok(())
    }
}

// The places of a portion: it looks at what stands beside each in the grid of all of them. The sides
// beside which a tile stood before it come from the sites of the places before it, the seeds among
// them.
#[inline(never)]
fn survey_portion(alloc: Global, laid: &LaidOut<'_>, places: Portion) -> Result<Survey, NoMemory>
    requires can { CanSurvey laid.now }
    requires range { (places.start ≤ places.end) × (places.end ≤ length laid.now.seq.now) }
    ensures { IfOk result (IsSurvey laid.now.sys.now laid.now.seq.now places.start places.end) }
{
    let LaidOut {
        sys,
        seq,
        grid,
        types,
    } = *laid;
    let mut sides = Vec::with_capacity(alloc, places.end - places.start)?;
    let mut breaches = Breaches::NONE;
    let mut findings = Findings::make(alloc, sys)?;
    let area = sys.area();
    let mut stood = StoodSites::make(alloc, area, sys.seeds())?;
    let seed_count = sys.seeds().len();
    stood.insert_range(seq, seed_count, places.start);
    for index in places.start..places.end {
        let place = seq.get(index);
        let number = site_index(&area, place.site);
        let before = stood.beside(place.site, number);
        let finding = findings.at(sys, types, grid, place, number, &before);
        sides.push_reserved(PlaceSides::of(finding.earlier, finding.outputs));
        if index >= seed_count {
            stood.insert(place, number);
            breaches.see(sys, seq, index, finding.sum, finding.rival);
            findings.stop_after(finding.rival);
        }
    }
    Ok(Survey { sides, breaches })
}
