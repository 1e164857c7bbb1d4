// The pairs of a system by the glues that they have.
ghost use Rattle.std.specs.Prelude.{◌≡◌, ◌<◌, ◌+◌, List, length, slice_get, IfOk, Some};
ghost use Rattle.atam.specs.TileSystem.{IsPair};
ghost use Rattle.type_index.specs.declared.glue_table.GlueKind.{GlueKind};
ghost use Rattle.type_index.specs.PairLinks.{ArePairLinks, HasGlue, HasRoomFor};
ghost use Rattle.type_index.specs.PairLinks.{IsNextPair, is_listed};
ghost use Rattle.type_index.specs.Inner.Linking.{PutsPair, linked};

use crate::glue_table::GlueKind;
use std::alloc::Global;
use std::marker::Model;
use tile_system::{GlueId, GluePair, NoMemory, System};

// Of the pairs of a glue with one that has lists, for each glue the first, and behind each pair the
// next one of its first glue and the next one of its second; past the last the number of pairs.
pub(crate) struct PairLinks {
    first: Vec<u32>,
    behind_first: Vec<u32>,
    behind_second: Vec<u32>,
}

impl Drop for PairLinks {
    fn drop(self) {
        let PairLinks {
            first: _first,
            behind_first: _behind_first,
            behind_second: _behind_second,
        } = self;
    }
}

impl Model for PairLinks {
    ghost use Rattle.type_index.specs.PairLinks.{PairOrder};

    ghost Value = { PairOrder };

    ghost view = { λ l. record {
      first = l.first.items;
      behind_first = l.behind_first.items;
      behind_second = l.behind_second.items;
    } };
}

impl PairLinks {
    // The links of the pairs with a glue that has lists.
    pub(crate) fn build(
        alloc: Global,
        sys: &System,
        kinds: &[GlueKind],
    ) -> Result<PairLinks, NoMemory>
        requires { length kinds.now ≡ length sys.now.glues }
        ensures { IfOk result (ArePairLinks sys.now kinds.now 0) }
    {
        sys.recall_valid();
        let pairs = sys.pairs();
        let count = sys.pair_count();
        let mut links = PairLinks {
            first: Vec::from_elem(alloc, count, sys.glue_count() as usize)?,
            behind_first: Vec::from_elem(alloc, 0, count as usize)?,
            behind_second: Vec::from_elem(alloc, 0, count as usize)?,
        };
        for passed in 0..count {
            let number = count - 1 - passed;
            links.put(kinds, number, pairs[number as usize]);
        }
        Ok(links)
    }

    // Puts a pair first among those of its glues.
    #[inline(always)]
    fn put(&mut self, kinds: &[GlueKind], number: u32, pair: GluePair)
        requires first { pair.first.0 < length self.old.first }
        requires second { pair.second.0 < length self.old.first }
        requires first_kind { pair.first.0 < length kinds.now }
        requires second_kind { pair.second.0 < length kinds.now }
        requires behind_first { number < length self.old.behind_first }
        requires behind_second { number < length self.old.behind_second }
        ensures { PutsPair kinds.now number pair self.old self.new }
    {
        let behind_first = self.first[pair.first.0 as usize];
        let behind_second = self.first[pair.second.0 as usize];
        self.behind_first[number as usize] = behind_first;
        self.behind_second[number as usize] = behind_second;
        self.link(kinds, number, pair.first, pair.second);
        self.link(kinds, number, pair.second, pair.first);
    }

    // Puts a pair first among those of one of its glues, if the other one has lists.
    #[inline(always)]
    fn link(&mut self, kinds: &[GlueKind], number: u32, glue: GlueId, other: GlueId)
        requires known { glue.0 < length self.old.first }
        requires kind { other.0 < length kinds.now }
        ensures { self.new ≡ record self.old {
          first = linked kinds.now glue other number self.old.first;
        } }
    {
        if has_lists(kinds, other) {
            self.first[glue.0 as usize] = number;
        }
    }

    // The number of the first pair of a glue.
    #[inline(always)]
    pub(crate) fn first(&self, sys: &System, glue: GlueId) -> u32
        requires room { HasRoomFor sys.now self.now }
        requires known { glue.0 < length sys.now.glues }
        ensures { (kinds : List GlueKind) → ArePairLinks sys.now kinds 0 self.now
            → IsNextPair sys.now.pairs kinds glue 0 result }
    {
        sys.recall_valid();
        self.first[glue.0 as usize]
    }

    // The number of the next pair behind this one of one of its glues.
    #[inline(always)]
    pub(crate) fn behind(&self, sys: &System, number: u32, pair: GluePair, glue: GlueId) -> u32
        requires room { HasRoomFor sys.now self.now }
        requires pair { slice_get sys.now.pairs number ≡ Some pair }
        requires glue { HasGlue glue pair }
        ensures { (kinds : List GlueKind) → ArePairLinks sys.now kinds 0 self.now
            → IsNextPair sys.now.pairs kinds glue (number + 1) result }
    {
        sys.recall_valid();
        if pair.first == glue {
            self.behind_first[number as usize]
        } else {
            self.behind_second[number as usize]
        }
    }
}

// Whether a glue has lists.
#[inline(always)]
fn has_lists(kinds: &[GlueKind], glue: GlueId) -> bool
    requires { glue.0 < length kinds.now }
    ensures { result ≡ is_listed kinds.now glue }
{
    kinds[glue.0 as usize] == GlueKind::Listed
}
