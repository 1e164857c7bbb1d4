// The verdict on a legal sequence.
ghost use Rattle.std.specs.Prelude.{List};
ghost use Rattle.atam.specs.declared.place.Place.{Place};
ghost use Rattle.atam.specs.TileSystem.{TileSystem};
ghost use Rattle.atam.specs.Placements.{SamePlacements};
ghost use Rattle.atam.specs.Assembly.{Fits};
ghost use Rattle.atam.specs.Growth.{IsLeastOpen, IsLegal};
ghost use Rattle.atam.specs.Determinism.{HasExactInputs, HasNoRivals};
ghost use Rattle.type_index.specs.Indexes.{IsIndexOf};
ghost use Rattle.local_check.specs.SideSets.{AreSidesOf};
ghost use Rattle.local_check.specs.Judgement.{IsVerdict};
ghost use Rattle.local_check.specs.Inner.Verdicts.{FindsBreach};

use crate::SideSets;
use assembly::Sequence;
use atam::Verdict;
use tile_system::{Placed, Site, System, TypeId};
use type_index::TypeIndex;

/// The verdict on a legal sequence with its sides: the first condition that fails, at the first
/// place of the sequence where it fails, or at the least open site. It takes no memory. What fails
/// at a place was found with the sides, so its time grows with the number of sites of the box, and
/// with those beside the box alone where it is full.
pub fn judge(sys: &System, seq: &Sequence, sides: &SideSets) -> Verdict
    requires legal { IsLegal sys.now seq.now }
    requires fits { Fits sys.now seq.now }
    requires sides { AreSidesOf sys.now seq.now sides.now }
    ensures { IsVerdict sys.now seq.now result }
{
    sys.recall_valid();
    match first_breach(sides) {
        Some(breach) => breach,
        None => last_verdict(sys, seq, sides.index(), sides),
    }
}

// The verdict that a condition on places fails, if one does.
pub(crate) fn first_breach(sides: &SideSets<'_>) -> Option<Verdict>
    ensures { (sys : TileSystem) (s : List Place) → AreSidesOf sys s sides.now →
        FindsBreach sys s result }
{
    if let Some((site, sum)) = sides.inexact() {
        return Some(Verdict::NotExact { site, sum });
    }
    if let Some((site, tile)) = sides.rival() {
        return Some(Verdict::Rival { site, tile });
    }
    None
}

// The verdict where the conditions on places hold: whether the third one does.
pub(crate) fn last_verdict<P: Placed>(
    sys: &System,
    seq: &Sequence,
    types: &TypeIndex,
    placed: &P,
) -> Verdict
    requires legal { IsLegal sys.now seq.now }
    requires fits { Fits sys.now seq.now }
    requires index { IsIndexOf sys.now types.now }
    requires placements { SamePlacements seq.now (P.placements placed.now) }
    requires exact { HasExactInputs sys.now seq.now }
    requires rivals { HasNoRivals sys.now seq.now }
    ensures { IsVerdict sys.now seq.now result }
{
    verdict_by(least_open(sys, seq, types, placed))
}

// The verdict on each sequence for which the conditions on places hold, and of which this is the
// least open site.
pub(crate) fn verdict_by(least: Option<(Site, TypeId)>) -> Verdict
    ensures { (sys : TileSystem) (s : List Place) → IsLegal sys s → HasExactInputs sys s →
        HasNoRivals sys s → IsLeastOpen sys s least → IsVerdict sys s result }
{
    match least {
        Some((site, tile)) => Verdict::NotTerminal { site, tile },
        None => Verdict::Yes,
    }
}

// The least open site of the plane. In a box that is full none is looked for.
fn least_open<P: Placed>(
    sys: &System,
    seq: &Sequence,
    types: &TypeIndex,
    placed: &P,
) -> Option<(Site, TypeId)>
    requires legal { IsLegal sys.now seq.now }
    requires fits { Fits sys.now seq.now }
    requires index { IsIndexOf sys.now types.now }
    requires placements { SamePlacements seq.now (P.placements placed.now) }
    ensures { IsLeastOpen sys.now seq.now result }
{
    let area = sys.area();
    sys.recall_valid();
    if seq.len() == area.width() as usize * area.height() as usize {
        return types.least_open_outside(sys, placed);
    }
    types.least_open(sys, placed)
}
