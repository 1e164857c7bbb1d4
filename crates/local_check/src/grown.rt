// The verdict on a full growth.
ghost use Rattle.std.specs.Prelude.{◌≡◌, true, IfOk};
ghost use Rattle.type_cache.specs.Clean.{CameExact};
ghost use Rattle.local_check.specs.Growths.{IsLaidGrowth};
ghost use Rattle.local_check.specs.Judgement.{IsVerdict};
ghost use Rattle.local_check.specs.Inner.Surveys.{CanSurvey};
ghost use Rattle.local_check.specs.Inner.Verdicts.{FindsBreach};

use crate::judgement::{first_breach, verdict_by};
use crate::laid_out::LaidOut;
use crate::passage::{Passed, pass};
use crate::side_table::{inputs_lent, table_lent};
use crate::survey::survey_all;
use assembly::grid_of_seeds;
use atam::Verdict;
use fan_out::WorkerCount;
use std::alloc::Global;
use std::thread::Threads;
use tile_system::{NoMemory, Site, TypeId};

// So few places are looked at by one worker, in fewer steps than several take to share them.
const FEW_PLACES: usize = 65_536;

/// The verdict on a full growth in its order, by the least open site outside the box. One worker
/// looks at each place as it comes, up to the first that is held by more than the temperature;
/// several look at ranges of many places; and none looks where it is known that each came clean.
/// One takes as much memory as `judge_once` does, and several as much as `inputs`, each with some
/// of its own, but for what is lent.
pub fn judge_grown<R: Threads + Sync>(
    rt: &R,
    alloc: Global,
    laid: &LaidOut<'_>,
    clean: bool,
    outside: Option<(Site, TypeId)>,
    workers: WorkerCount,
) -> Result<Verdict, NoMemory>
    requires grown { IsLaidGrowth laid.now outside }
    requires clean { clean ≡ true → CameExact laid.now.sys.now laid.now.seq.now }
    ensures { IfOk result (IsVerdict laid.now.sys.now laid.now.seq.now) }
{
    laid.sys.recall_valid();
    match breach_by(rt, alloc, laid, clean, workers)? {
        Some(breach) => Ok(breach),
        None => Ok(verdict_by(outside)),
    }
}

// The verdict that a condition on places fails, if one does, by so many workers.
fn breach_by<R: Threads + Sync>(
    rt: &R,
    alloc: Global,
    laid: &LaidOut<'_>,
    clean: bool,
    workers: WorkerCount,
) -> Result<Option<Verdict>, NoMemory>
    requires can { CanSurvey laid.now }
    requires clean { clean ≡ true → CameExact laid.now.sys.now laid.now.seq.now }
    ensures { IfOk result (FindsBreach laid.now.sys.now laid.now.seq.now) }
{
    if clean {
        return Ok(None);
    }
    if workers.get() == 1 || laid.seq.len() <= FEW_PLACES {
        return breach_by_one(alloc, laid);
    }
    let survey = survey_all(rt, alloc, laid, workers)?;
    Ok(first_breach(&table_lent(laid, survey)))
}

// The same by one worker. Where a tile that is held exactly doesn't come clean, it looks at all
// places again.
fn breach_by_one(alloc: Global, laid: &LaidOut<'_>) -> Result<Option<Verdict>, NoMemory>
    requires can { CanSurvey laid.now }
    ensures { IfOk result (FindsBreach laid.now.sys.now laid.now.seq.now) }
{
    let LaidOut {
        sys,
        seq,
        types,
        ..
    } = *laid;
    let mut grid = grid_of_seeds(alloc, sys)?;
    match pass::<true>(alloc, sys, seq, types, &mut grid)? {
        Passed::Breach(_) => unreachable!(),
        Passed::NotExact { site, sum } => Ok(Some(Verdict::NotExact { site, sum })),
        Passed::Exact { clean: true } => Ok(None),
        Passed::Exact { clean: false } => {
            let sides = inputs_lent(alloc, laid)?;
            Ok(first_breach(&sides))
        }
    }
}
