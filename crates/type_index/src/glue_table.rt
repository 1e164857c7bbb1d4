// What is known of each glue of a system.
ghost use Rattle.std.specs.Prelude.{◌≡◌, ◌≢◌, ◌<◌, ◌≤◌, length, max, slice_get, slice_index, slice_set, IfOk, Some};
ghost use Rattle.atam.specs.declared.limits.TheConstants.{MOST_STRENGTH};
ghost use Rattle.atam.specs.TileSystem.{strength_between, strength_of};
ghost use Rattle.type_index.specs.Indexes.{AreGlueFacts, AreKindsOf, AreMostsOf, AreStrengthsOf, IsLone};
ghost use Rattle.type_index.specs.PairLinks.{ArePaired};

use crate::reach::reach_of;
use std::alloc::Global;
use std::marker::Model;
use tile_system::{GlueId, NoMemory, System};

// What the lists of all glues may have in them, on all sides together.
const MOST_MEETINGS: u32 = 2_097_152;

// Whether other glues interact with a glue, and it has lists of the types that interact with it.
#[derive(Clone, Copy, Debug, PartialEq, Eq)]
pub(crate) enum GlueKind {
    Alone,
    Listed,
    Unlisted,
}

// The strength of each glue, the greatest with which any glue interacts with it, and its kind.
pub(crate) struct GlueTable {
    strengths: Vec<u8>,
    mosts: Vec<u8>,
    kinds: Vec<GlueKind>,
}

impl Drop for GlueTable {
    fn drop(self) {
        let GlueTable {
            strengths: _strengths,
            mosts: _mosts,
            kinds: _kinds,
        } = self;
    }
}

impl Model for GlueTable {
    ghost use Rattle.type_index.specs.Indexes.{GlueFacts};

    ghost Value = { GlueFacts };

    ghost view = { λ t. record {
      strengths = t.strengths.items;
      mosts = t.mosts.items;
      kinds = t.kinds.items;
    } };
}

impl GlueTable {
    pub(crate) fn build(alloc: Global, sys: &System) -> Result<GlueTable, NoMemory>
        ensures { IfOk result (AreGlueFacts sys.now) }
    {
        let strengths = strengths_of(alloc, sys)?;
        let mosts = mosts_of(alloc, sys, strengths.as_slice())?;
        Ok(GlueTable {
            strengths,
            mosts,
            kinds: kinds_of(alloc, sys)?,
        })
    }

    // The strength of a glue.
    #[inline(always)]
    pub(crate) fn strength(&self, sys: &System, glue: GlueId) -> u32
        requires facts { AreGlueFacts sys.now self.now }
        requires known { glue.0 < length sys.now.glues }
        ensures value { result ≡ strength_of sys.now glue }
        ensures bound { result ≤ MOST_STRENGTH }
    {
        sys.recall_valid();
        u32::from(self.strengths[glue.0 as usize])
    }

    // The greatest strength with which any glue interacts with a glue.
    #[inline(always)]
    pub(crate) fn most(&self, sys: &System, glue: GlueId) -> u32
        requires facts { AreGlueFacts sys.now self.now }
        requires known { glue.0 < length sys.now.glues }
        ensures each { (other : GlueId) → strength_between sys.now other glue ≤ result }
        ensures bound { result ≤ MOST_STRENGTH }
    {
        sys.recall_valid();
        u32::from(self.mosts[glue.0 as usize])
    }

    // The kind of each glue.
    #[inline(always)]
    pub(crate) fn kinds(&self) -> &[GlueKind]
        ensures { result.now ≡ self.now.kinds }
    {
        self.kinds.as_slice()
    }

    #[inline(always)]
    pub(crate) fn kind(&self, sys: &System, glue: GlueId) -> GlueKind
        requires facts { AreGlueFacts sys.now self.now }
        requires known { glue.0 < length sys.now.glues }
        ensures { slice_get self.now.kinds glue.0 ≡ Some result }
    {
        sys.recall_valid();
        self.kinds[glue.0 as usize]
    }
}

// The strength of each glue.
fn strengths_of(alloc: Global, sys: &System) -> Result<Vec<u8>, NoMemory>
    ensures { IfOk result (λ strengths. AreStrengthsOf sys.now strengths.items) }
{
    let count = sys.glue_count();
    let mut strengths = Vec::from_elem(alloc, 0, count as usize)?;
    for number in 0..count {
        strengths[number as usize] = sys.strength(GlueId(number)) as u8;
    }
    Ok(strengths)
}

// The greatest strength with which any glue interacts with each: its own, or that of a pair.
fn mosts_of(alloc: Global, sys: &System, strengths: &[u8]) -> Result<Vec<u8>, NoMemory>
    requires { AreStrengthsOf sys.now strengths.now }
    ensures { IfOk result (λ mosts. AreMostsOf sys.now mosts.items) }
{
    sys.recall_valid();
    let mut mosts = strengths.to_vec(alloc)?;
    for pair in sys.pairs() {
        raise(&mut mosts, pair.first, pair.strength);
        raise(&mut mosts, pair.second, pair.strength);
    }
    Ok(mosts)
}

// Makes the number of a glue at least this one.
fn raise(mosts: &mut Vec<u8>, glue: GlueId, strength: u32)
    requires known { glue.0 < length mosts.old.items }
    requires small { strength ≤ MOST_STRENGTH }
    ensures { mosts.new.items ≡ slice_set mosts.old.items glue.0 (max (slice_index mosts.old.items glue.0) strength) }
{
    mosts[glue.0 as usize] = mosts[glue.0 as usize].max(strength as u8);
}

// The kind of each glue. A glue for whose lists there is no room has none.
fn kinds_of(alloc: Global, sys: &System) -> Result<Vec<GlueKind>, NoMemory>
    ensures { IfOk result (λ kinds. AreKindsOf sys.now kinds.items) }
{
    let count = sys.glue_count();
    if sys.pair_count() == 0 {
        return Ok(Vec::from_elem(alloc, GlueKind::Alone, count as usize)?);
    }
    let paired = paired_of(alloc, sys)?;
    let reach = reach_of(alloc, sys)?;
    let mut room = MOST_MEETINGS;
    let mut kinds = Vec::with_capacity(alloc, count as usize)?;
    for number in 0..count {
        let kind = kind_of(sys, &paired, GlueId(number), reach[number as usize], room);
        if kind == GlueKind::Listed {
            room -= reach[number as usize];
        }
        kinds.push(kind)?;
    }
    Ok(kinds)
}

// Whether each glue is one of a pair.
fn paired_of(alloc: Global, sys: &System) -> Result<Vec<bool>, NoMemory>
    ensures { IfOk result (λ paired. ArePaired sys.now paired.items) }
{
    sys.recall_valid();
    let mut paired = Vec::from_elem(alloc, false, sys.glue_count() as usize)?;
    for pair in sys.pairs() {
        paired[pair.first.0 as usize] = true;
        paired[pair.second.0 as usize] = true;
    }
    Ok(paired)
}

// The kind of a glue whose lists have so many types in all, where there is so much room.
fn kind_of(sys: &System, paired: &[bool], glue: GlueId, reach: u32, room: u32) -> GlueKind
    requires paired { ArePaired sys.now paired.now }
    requires known { glue.0 < length sys.now.glues }
    ensures lone { result ≡ GlueKind.Alone → IsLone sys.now glue }
    ensures room { result ≡ GlueKind.Listed → reach ≤ room }
{
    sys.recall_valid();
    if !paired[glue.0 as usize] {
        GlueKind::Alone
    } else if reach <= room {
        GlueKind::Listed
    } else {
        GlueKind::Unlisted
    }
}
