// The list of the types that attach at a site, which is kept for sites with the same glues.
ghost use Rattle.std.specs.Prelude.{◌≡◌, ◌≤◌, None, length, IfOk, IsTrue};
ghost use Rattle.atam.specs.Sites.{IsNearSite};
ghost use Rattle.atam.specs.Placements.{tile_at};
ghost use Rattle.atam.specs.Assembly.{Fits};
ghost use Rattle.tile_system.specs.Neighbors.{StandBeside};
ghost use Rattle.attach_rule.specs.Candidates.{AreCandidates};
ghost use Rattle.attach_rule.specs.declared.facing.FacingGlues.{FacingGlues};
ghost use Rattle.type_index.specs.Indexes.{IsIndexOf};
ghost use Rattle.type_index.specs.HeldTypes.{AreHeld};
ghost use Rattle.type_index.specs.Codes.{IsKeyOf};
ghost use Rattle.type_cache.specs.Findings.{IsHeldList};

use attach_rule::TypeList;
use std::alloc::Global;
use std::marker::Model;
use tile_system::{Beside, NoMemory, Placed, Site, System};
use type_index::{TypeIndex, glues_of_key, key_beside};

/// The types that some glues hold, with the key of these glues. Where the next site has the same
/// glues, nothing is listed anew. It has room for all types of its system.
pub struct HeldList {
    key: u64,
    types: TypeList,
}

impl Drop for HeldList {
    fn drop(self) {
        let HeldList {
            key: _key,
            types: _types,
        } = self;
    }
}

impl Model for HeldList {
    ghost use Rattle.type_cache.specs.Findings.{KeyedTypes};

    ghost Value = { KeyedTypes };

    ghost view = { λ l. record { key = l.key; listed = l.types } };
}

impl HeldList {
    /// That of no glue, which holds no type.
    pub fn make(alloc: Global, sys: &System) -> Result<HeldList, NoMemory>
        ensures { IfOk result (IsHeldList sys.now) }
    {
        sys.recall_valid();
        Ok(HeldList {
            key: 0,
            types: TypeList::make(alloc, sys)?,
        })
    }

    /// Lists all types that attach at an empty site. The tiles beside it were looked up before.
    pub fn list<P: Placed>(
        &mut self,
        sys: &System,
        index: &TypeIndex,
        placed: &P,
        site: Site,
        beside: &Beside,
    )
        requires list { IsHeldList sys.now self.old }
        requires index { IsIndexOf sys.now index.now }
        requires near { IsNearSite site }
        requires fits { Fits sys.now (P.placements placed.now) }
        requires empty { tile_at (P.placements placed.now) site ≡ None }
        requires beside { StandBeside (P.placements placed.now) site beside.now }
        ensures types { AreCandidates sys.now (P.placements placed.now) site
            self.new.listed.types }
        ensures list { IsHeldList sys.now self.new }
    {
        let key = key_beside(sys, index, placed, site, beside);
        if key != self.key {
            self.list_anew(sys, index, key);
        }
    }

    // Whether the list is that of glues with this key.
    #[inline(always)]
    pub(crate) fn is_of(&self, key: u64) -> bool
        ensures { IsTrue result → self.now.key ≡ key }
    {
        self.key == key
    }

    // Lists the types that the glues with a key hold.
    #[inline(never)]
    pub(crate) fn list_anew(&mut self, sys: &System, index: &TypeIndex, key: u64)
        requires list { IsHeldList sys.now self.old }
        requires index { IsIndexOf sys.now index.now }
        ensures key { self.new.key ≡ key }
        ensures few { length self.new.listed.types ≤ length sys.now.types }
        ensures list { IsHeldList sys.now self.new }
    {
        self.types.clear();
        index.list_held(sys, &glues_of_key(key), &mut self.types);
        self.key = key;
    }

    /// The types that are listed.
    #[inline(always)]
    pub fn types(&self) -> &TypeList
        ensures { result.now ≡ self.now.listed }
    {
        &self.types
    }
}
