// Legality and the verdict, in one pass over a sequence.
ghost use Rattle.std.specs.Prelude.{◌≡◌, ◌<◌, ◌^◌, true, length, take, IfOk};
ghost use Rattle.atam.specs.Assembly.{Fits};
ghost use Rattle.atam.specs.Determinism.{HasExactInputs};
ghost use Rattle.type_cache.specs.Clean.{HasCleanPlaces};
ghost use Rattle.local_check.specs.Judgement.{IsVerdict};
ghost use Rattle.local_check.specs.Judged.{IsJudged};
ghost use Rattle.local_check.specs.Inner.Surveys.{CanSurvey};

use crate::judge;
use crate::judgement::last_verdict;
use crate::laid_out::LaidOut;
use crate::passage::{Passed, pass};
use crate::side_table::inputs_lent;
use assembly::{Sequence, grid_of_seeds};
use atam::{Legality, Verdict};
use std::alloc::Global;
use tile_system::{NoMemory, System};
use type_index::TypeIndex;

/// The verdict on a legal sequence, or what breaks legality first.
#[derive(Clone, Copy, Debug, PartialEq, Eq)]
pub enum Judged {
    Legal(Verdict),
    Breach(Legality),
}

/// What `check_legal` answers, and for a legal sequence what `judge` does. It looks at each place
/// once, as it comes; where a tile that is held exactly doesn't come clean, it looks at all of them
/// again, as `inputs` does. It takes memory for a grid, an index of the types and sixteen bytes a
/// type, and then for what `inputs` takes beside these.
pub fn judge_once(alloc: Global, sys: &System, seq: &Sequence) -> Result<Judged, NoMemory>
    requires fits { Fits sys.now seq.now }
    requires short { length seq.now < 2 ^ 32 }
    ensures { IfOk result (IsJudged sys.now seq.now) }
{
    if seq.starts_with(sys.seeds()) {
        return judge_begun(alloc, sys, seq);
    }
    Ok(Judged::Breach(Legality::WrongSeed))
}

// What `judge_once` does with a sequence that begins with the seeds.
fn judge_begun(alloc: Global, sys: &System, seq: &Sequence) -> Result<Judged, NoMemory>
    requires begun { take (length sys.now.seeds) seq.now ≡ sys.now.seeds }
    requires fits { Fits sys.now seq.now }
    requires short { length seq.now < 2 ^ 32 }
    ensures { IfOk result (IsJudged sys.now seq.now) }
{
    sys.recall_valid();
    let mut grid = grid_of_seeds(alloc, sys)?;
    let types = TypeIndex::build(alloc, sys)?;
    match pass::<false>(alloc, sys, seq, &types, &mut grid)? {
        Passed::Breach(breach) => Ok(Judged::Breach(breach)),
        Passed::NotExact { site, sum } => Ok(Judged::Legal(Verdict::NotExact { site, sum })),
        Passed::Exact { clean } => {
            let laid = LaidOut {
                sys,
                seq,
                grid: &grid,
                types: &types,
            };
            let verdict = judge_exact(alloc, &laid, clean)?;
            Ok(Judged::Legal(verdict))
        }
    }
}

// The verdict where each place is held exactly. Where it isn't clear that none has a rival, rivals
// are sought.
fn judge_exact(alloc: Global, laid: &LaidOut<'_>, clean: bool) -> Result<Verdict, NoMemory>
    requires can { CanSurvey laid.now }
    requires exact { HasExactInputs laid.now.sys.now laid.now.seq.now }
    requires clean { clean ≡ true → HasCleanPlaces laid.now.sys.now laid.now.seq.now }
    ensures { IfOk result (IsVerdict laid.now.sys.now laid.now.seq.now) }
{
    if clean {
        return Ok(last_verdict(laid.sys, laid.seq, laid.types, laid.grid));
    }
    let sides = inputs_lent(alloc, laid)?;
    Ok(judge(laid.sys, laid.seq, &sides))
}
