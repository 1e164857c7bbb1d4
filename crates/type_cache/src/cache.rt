// What was found for glues that came before.
ghost use Rattle.std.specs.Prelude.{◌≡◌, None, IfOk, IfSome, IsTrue};
ghost use Rattle.atam.specs.Sites.{IsNearSite};
ghost use Rattle.atam.specs.Placements.{tile_at};
ghost use Rattle.tile_system.specs.Neighbors.{StandBeside};
ghost use Rattle.atam.specs.Assembly.{Fits};
ghost use Rattle.attach_rule.specs.Candidates.{AreCandidates};
ghost use Rattle.attach_rule.specs.declared.facing.FacingGlues.{FacingGlues};
ghost use Rattle.type_index.specs.Indexes.{IsIndexOf};
ghost use Rattle.type_index.specs.Codes.{IsKeyOf};
ghost use Rattle.type_index.specs.Sums.{SumsUpHeld, SumsUpCandidates};
ghost use Rattle.type_cache.specs.Clean.{OpensExact};
ghost use Rattle.type_cache.specs.Findings.{AreFindings, IsHeldList, IsKnownOf};

use crate::finding::Finding;
use crate::known::Known;
use crate::settled::settled_alone;
use crate::slots::{slot_of, slots_for};
use crate::{HeldList, SideSet, Sighting};
use attach_rule::FacingGlues;
use std::alloc::Global;
use std::marker::Model;
use std::mem::swap;
use tile_system::{Beside, NoMemory, Placed, Site, System};
use type_index::{Found, TypeIndex, glues_of_key, key_beside, key_of};

/// What was found for glues that faced sites before, so that it need not be looked up again. Each
/// has one of at most 8192 slots, where what is found next for that slot replaces it. A system of
/// few types or with a small box has fewer slots, since all of them are written when the cache is made.
///
/// What was not found before is found by listing all types that attach. The last such list is kept,
/// since one of them may be picked by its place next.
pub struct FacingCache {
    findings: Vec<Finding>,
    last_slot: usize,
    list: HeldList,
}

impl Drop for FacingCache {
    fn drop(self) {
        let FacingCache {
            findings: _findings,
            last_slot: _last_slot,
            list: _list,
        } = self;
    }
}

impl Model for FacingCache {
    ghost use Rattle.std.specs.Prelude.{◌<◌, length};
    ghost use Rattle.type_cache.specs.Findings.{FoundBefore};

    ghost Value = { FoundBefore };

    ghost view = { λ m. record { findings = m.findings.items; list = m.list } };

    ghost invariant = { λ m. m.last_slot < length m.findings.items };
}

impl FacingCache {
    /// It knows that no type attaches where no glue faces a site.
    pub fn make(alloc: Global, sys: &System) -> Result<FacingCache, NoMemory>
        ensures { IfOk result (AreFindings sys.now) }
    {
        sys.recall_valid();
        let known = Known::NONE;
        let area = sys.area();
        let slots = slots_for(sys.type_count(), area.width() * area.height());
        Ok(FacingCache {
            findings: Vec::from_elem(alloc, Finding { key: 0, known }, slots)?,
            last_slot: slots - 1,
            list: HeldList::make(alloc, sys)?,
        })
    }

    /// Of the types that attach at an empty site, how many there are, the first and the second. The
    /// tiles beside it were looked up before.
    #[inline(always)]
    pub fn found_beside<P: Placed>(
        &mut self,
        sys: &System,
        index: &TypeIndex,
        placed: &P,
        site: Site,
        beside: &Beside,
    ) -> Found
        requires known { AreFindings sys.now self.old }
        requires index { IsIndexOf sys.now index.now }
        requires near { IsNearSite site }
        requires fits { Fits sys.now (P.placements placed.now) }
        requires empty { tile_at (P.placements placed.now) site ≡ None }
        requires beside { StandBeside (P.placements placed.now) site beside.now }
        ensures found { SumsUpCandidates sys.now (P.placements placed.now) site result }
        ensures known { AreFindings sys.now self.new }
    {
        let key = key_beside(sys, index, placed, site, beside);
        self.known(sys, index, key).found()
    }

    /// The same, and whether it is clear that what attaches there comes clean.
    #[inline(always)]
    pub fn sight_beside<P: Placed>(
        &mut self,
        sys: &System,
        index: &TypeIndex,
        placed: &P,
        site: Site,
        beside: &Beside,
    ) -> Sighting
        requires known { AreFindings sys.now self.old }
        requires index { IsIndexOf sys.now index.now }
        requires near { IsNearSite site }
        requires fits { Fits sys.now (P.placements placed.now) }
        requires empty { tile_at (P.placements placed.now) site ≡ None }
        requires beside { StandBeside (P.placements placed.now) site beside.now }
        ensures found { SumsUpCandidates sys.now (P.placements placed.now) site result.found }
        ensures clean { IsTrue result.clean → OpensExact sys.now (P.placements placed.now) site }
        ensures known { AreFindings sys.now self.new }
    {
        sys.recall_valid();
        let key = key_beside(sys, index, placed, site, beside);
        let known = self.known(sys, index, key);
        Sighting {
            found: known.found(),
            clean: SideSet::beside(beside).is_within(known.settled),
        }
    }

    /// The same of the types that these glues hold.
    #[inline(always)]
    pub fn found(&mut self, sys: &System, index: &TypeIndex, glues: &FacingGlues) -> Found
        requires known { AreFindings sys.now self.old }
        requires index { IsIndexOf sys.now index.now }
        ensures found { SumsUpHeld sys.now glues.now result }
        ensures known { AreFindings sys.now self.new }
    {
        let Some(key) = key_of(glues) else {
            return sum_up_apart(sys, index, *glues);
        };
        self.known(sys, index, key).found()
    }

    /// Lists all types that attach at an empty site. The tiles beside it were looked up before. A list
    /// that the cache made when it looked the site up is taken over, in exchange for the old one.
    pub fn list_beside<P: Placed>(
        &mut self,
        sys: &System,
        index: &TypeIndex,
        placed: &P,
        site: Site,
        beside: &Beside,
        list: &mut HeldList,
    )
        requires known { AreFindings sys.now self.old }
        requires index { IsIndexOf sys.now index.now }
        requires near { IsNearSite site }
        requires fits { Fits sys.now (P.placements placed.now) }
        requires empty { tile_at (P.placements placed.now) site ≡ None }
        requires beside { StandBeside (P.placements placed.now) site beside.now }
        requires list { IsHeldList sys.now list.old }
        ensures types { AreCandidates sys.now (P.placements placed.now) site
            list.new.listed.types }
        ensures known { AreFindings sys.now self.new }
        ensures list { IsHeldList sys.now list.new }
    {
        let key = key_beside(sys, index, placed, site, beside);
        self.exchange(sys, key, list);
        list.list(sys, index, placed, site, beside);
    }

    // Exchanges a list for the one that was made last, if that has this key.
    #[inline(always)]
    fn exchange(&mut self, sys: &System, key: u64, list: &mut HeldList)
        requires known { AreFindings sys.now self.old }
        requires list { IsHeldList sys.now list.old }
        ensures known { AreFindings sys.now self.new }
        ensures list { IsHeldList sys.now list.new }
    {
        let _known_of = sys;
        if self.list.is_of(key) {
            swap(&mut self.list, list);
        }
    }

    // What is known of glues with this key.
    #[inline(always)]
    fn known(&mut self, sys: &System, index: &TypeIndex, key: u64) -> Known
        requires known { AreFindings sys.now self.old }
        requires index { IsIndexOf sys.now index.now }
        ensures found { (glues : FacingGlues) → IsKeyOf glues key
            → IsKnownOf sys.now glues result }
        ensures known { AreFindings sys.now self.new }
    {
        if let Some(known) = self.recall(sys, key) {
            return known;
        }
        self.find_anew(sys, index, key)
    }

    // What was found for glues with this key, if it is still kept.
    #[inline(always)]
    fn recall(&self, sys: &System, key: u64) -> Option<Known>
        requires { AreFindings sys.now self.now }
        ensures { IfSome result (λ known. (glues : FacingGlues) → IsKeyOf glues key
            → IsKnownOf sys.now glues known) }
    {
        let _known_of = sys;
        let finding = &self.findings[slot_of(key, self.last_slot)];
        if finding.key == key {
            return Some(finding.known);
        }
        None
    }

    // Looks up what was not found before, and keeps it. It takes no more than the key, so that the
    // caller can let go of all else.
    #[inline(never)]
    fn find_anew(&mut self, sys: &System, index: &TypeIndex, key: u64) -> Known
        requires known { AreFindings sys.now self.old }
        requires index { IsIndexOf sys.now index.now }
        ensures found { (glues : FacingGlues) → IsKeyOf glues key
            → IsKnownOf sys.now glues result }
        ensures known { AreFindings sys.now self.new }
    {
        sys.recall_valid();
        self.list.list_anew(sys, index, key);
        let found = Found::of(self.list.types());
        let glues = glues_of_key(key);
        let settled = settled_alone(sys, index, &glues, &found);
        self.findings[slot_of(key, self.last_slot)] = Finding {
            key,
            known: Known::of(&found, settled),
        };
        Known::of(&found, settled)
    }
}

// What is found for glues without a key, by value for the same reason.
#[inline(never)]
fn sum_up_apart(sys: &System, index: &TypeIndex, glues: FacingGlues) -> Found
    requires index { IsIndexOf sys.now index.now }
    ensures { SumsUpHeld sys.now glues result }
{
    index.sum_up(sys, &glues)
}
