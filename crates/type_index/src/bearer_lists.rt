// The types by the glue that they bear on one of their sides.
ghost use Rattle.std.specs.Prelude.{◌≡◌, ◌<◌, ◌≤◌, ◌+◌, ◌-◌, length, slice_index, slice_set, IfOk, IfSome, Some, Option, option_and_then};
ghost use Rattle.atam.specs.declared.site.Side.{Side};
ghost use Rattle.atam.specs.declared.place.GlueId.{GlueId};
ghost use Rattle.atam.specs.TileSystem.{TileSystem, IsType, side_glue};
ghost use Rattle.type_index.specs.Codes.{code_of};
ghost use Rattle.type_index.specs.Indexes.{AreListsOf, AreListsFrom, Bears, IsNextBearer};
ghost use Rattle.type_index.specs.Inner.Linking.{PutsFirst};

use std::alloc::Global;
use std::marker::Model;
use tile_system::{GlueId, NoMemory, Side, System, TypeId};

// For each glue the first type with the glue on the side, and behind each type the next one with
// its glue; past the last one the number of types. And the codes of the glues on the side: first
// that of no tile, then that of each type.
pub(crate) struct BearerLists {
    first: Vec<u16>,
    next: Vec<u16>,
    codes: Vec<u16>,
}

impl Drop for BearerLists {
    fn drop(self) {
        let BearerLists {
            first: _first,
            next: _next,
            codes: _codes,
        } = self;
    }
}

impl Model for BearerLists {
    ghost use Rattle.type_index.specs.Indexes.{BearerLinks};

    ghost Value = { BearerLinks };

    ghost view = { λ s. record {
      first = s.first.items;
      next = s.next.items;
      codes = s.codes.items;
    } };
}

impl BearerLists {
    // The lists of all types.
    pub(crate) fn build(alloc: Global, sys: &System, side: Side) -> Result<BearerLists, NoMemory>
        ensures { IfOk result (AreListsOf sys.now side) }
    {
        sys.recall_valid();
        let count = sys.type_count();
        let mut lists = BearerLists {
            first: Vec::from_elem(alloc, count as u16, sys.glue_count() as usize)?,
            next: Vec::from_elem(alloc, 0, count as usize)?,
            codes: Vec::from_elem(alloc, 0, count as usize + 1)?,
        };
        for passed in 0..count {
            let tile = TypeId(count - 1 - passed);
            lists.put(tile, sys.side(tile, side));
        }
        Ok(lists)
    }

    // Puts a type first in the list of its glue, and notes the glue's code.
    #[inline(always)]
    fn put(&mut self, tile: TypeId, glue: Option<GlueId>)
        requires tile { tile.0 < length self.old.next }
        requires small { tile.0 < 65536 }
        requires known { IfSome glue (λ g. g.0 < length self.old.first) }
        requires codes { tile.0 + 1 < length self.old.codes }
        requires short { IfSome glue (λ g. g.0 < 65535) }
        ensures { PutsFirst tile glue self.old self.new }
    {
        if let Some(GlueId(glue)) = glue {
            self.next[tile.0 as usize] = self.first[glue as usize];
            self.first[glue as usize] = tile.0 as u16;
            self.codes[tile.0 as usize + 1] = glue as u16 + 1;
        }
    }

    // The code of the glue on the side of a tile, if there is a tile.
    #[inline(always)]
    pub(crate) fn code(&self, tile: Option<TypeId>) -> u32
        requires some { 0 < length self.now.codes }
        requires known { IfSome tile (λ t. t.0 + 1 < length self.now.codes) }
        requires small { IfSome tile (λ t. t.0 < 65536) }
        ensures code { (sys : TileSystem) (d : Side) → AreListsOf sys d self.now
            → IfSome tile (IsType sys)
            → result ≡ code_of (option_and_then (λ t. side_glue sys t d) tile) }
        ensures small { result < 65536 }
    {
        let number = match tile {
            Some(tile) => tile.0 + 1,
            None => 0,
        };
        u32::from(self.codes[number as usize])
    }

    // The first type that bears a glue.
    #[inline(always)]
    pub(crate) fn first(&self, sys: &System, side: Side, glue: GlueId) -> usize
        requires lists { AreListsOf sys.now side self.now }
        requires known { glue.0 < length sys.now.glues }
        ensures { IsNextBearer sys.now side glue 0 result }
    {
        sys.recall_valid();
        self.first[glue.0 as usize] as usize
    }

    // The next type that bears the glue of this one.
    #[inline(always)]
    pub(crate) fn next(&self, sys: &System, side: Side, glue: GlueId, tile: usize) -> usize
        requires lists { AreListsOf sys.now side self.now }
        requires within { tile < length sys.now.types }
        requires bears { Bears sys.now side glue (record { 0 = tile }) }
        ensures { IsNextBearer sys.now side glue (tile + 1) result }
    {
        sys.recall_valid();
        self.next[tile] as usize
    }

    // The next type from a bound on that bears the glue of this one.
    #[inline(always)]
    pub(crate) fn next_from(
        &self,
        sys: &System,
        side: Side,
        glue: GlueId,
        tile: usize,
        bound: usize,
    ) -> usize
        requires lists { AreListsOf sys.now side self.now }
        requires within { bound ≤ length sys.now.types }
        requires before { tile < bound }
        requires bears { Bears sys.now side glue (record { 0 = tile }) }
        ensures { IsNextBearer sys.now side glue bound result }
    {
        let mut at = self.next(sys, side, glue, tile);
        while at < bound {
            at = self.next(sys, side, glue, at);
        }
        at
    }
}
