// The glues with which each glue is paired.
ghost use Rattle.std.specs.Prelude.{◌≡◌, ◌<◌, ◌≤◌, ◌+◌, ◌++◌, ◌^◌, List, length, IfOk, OnOk};
ghost use Rattle.type_index.specs.declared.glue_table.GlueKind.{GlueKind};
ghost use Rattle.type_index.specs.PairLinks.{ArePairLinks};
ghost use Rattle.type_index.specs.Partners.{ArePartners, AreRanges, partner_in, partners_of};

use crate::glue_table::GlueKind;
use crate::pair_links::PairLinks;
use std::alloc::Global;
use std::marker::Model;
use tile_system::{GlueId, GluePair, NoMemory, System};

// The glue that a pair has besides another one, and the strength of the pair.
#[derive(Clone, Copy)]
pub(crate) struct Partner {
    pub(crate) glue: GlueId,
    pub(crate) strength: u32,
}

// The partners of each glue that have lists, in one piece, in the order of the pairs: where those
// of each glue begin and, last, where those of the last one end; and all of them, glue by glue.
pub(crate) struct Partners {
    starts: Vec<u32>,
    partners: Vec<Partner>,
}

impl Drop for Partners {
    fn drop(self) {
        let Partners {
            starts: _starts,
            partners: _partners,
        } = self;
    }
}

impl Model for Partners {
    ghost use Rattle.type_index.specs.Partners.{PartnerOrder};

    ghost Value = { PartnerOrder };

    ghost view = { λ l. record {
      starts = l.starts.items;
      partners = l.partners.items;
    } };
}

impl Partners {
    // The partners of all glues.
    pub(crate) fn build(
        alloc: Global,
        sys: &System,
        kinds: &[GlueKind],
    ) -> Result<Partners, NoMemory>
        requires { length kinds.now ≡ length sys.now.glues }
        ensures { IfOk result (ArePartners sys.now kinds.now (length sys.now.glues)) }
    {
        sys.recall_valid();
        if sys.pair_count() > 0 {
            let links = PairLinks::build(alloc, sys, kinds)?;
            return Partners::gathered(alloc, sys, kinds, &links);
        }
        Ok(Partners {
            starts: Vec::from_elem(alloc, 0, sys.glue_count() as usize + 1)?,
            partners: Vec::new(alloc),
        })
    }

    // The same, gathered along the links of the pairs.
    fn gathered(
        alloc: Global,
        sys: &System,
        kinds: &[GlueKind],
        links: &PairLinks,
    ) -> Result<Partners, NoMemory>
        requires { ArePairLinks sys.now kinds.now 0 links.now }
        ensures { IfOk result (ArePartners sys.now kinds.now (length sys.now.glues)) }
    {
        sys.recall_valid();
        let count = sys.glue_count();
        let mut starts = Vec::with_capacity(alloc, count as usize + 1)?;
        let mut partners = Vec::with_capacity(alloc, 2 * sys.pair_count() as usize)?;
        starts.push(0)?;
        for number in 0..count {
            gather(&mut partners, sys, kinds, links, GlueId(number))?;
            starts.push(partners.len() as u32)?;
        }
        Ok(Partners { starts, partners })
    }

    // The partners of a glue.
    #[inline(always)]
    pub(crate) fn of(&self, sys: &System, glue: GlueId) -> &[Partner]
        requires ranges { AreRanges (length sys.now.glues) self.now }
        requires known { glue.0 < length sys.now.glues }
        ensures { (kinds : List GlueKind)
            → ArePartners sys.now kinds (length sys.now.glues) self.now
            → result.now ≡ partners_of kinds glue sys.now.pairs }
    {
        let start = self.starts[glue.0 as usize] as usize;
        let end = self.starts[glue.0 as usize + 1] as usize;
        &self.partners[start..end]
    }
}

// Puts the partners of a glue behind those that are there.
fn gather(
    partners: &mut Vec<Partner>,
    sys: &System,
    kinds: &[GlueKind],
    links: &PairLinks,
    glue: GlueId,
) -> Result<(), NoMemory>
    requires links { ArePairLinks sys.now kinds.now 0 links.now }
    requires known { glue.0 < length sys.now.glues }
    ensures { OnOk result (partners.new.items
        ≡ partners.old.items ++ partners_of kinds.now glue sys.now.pairs) }
{
    sys.recall_valid();
    let pairs = sys.pairs();
    let count = sys.pair_count();
    let mut number = links.first(sys, glue);
    while number < count {
        let pair = pairs[number as usize];
        partners.push(partner_of(pair, glue))?;
        number = links.behind(sys, number, pair, glue);
    }
    Ok(())
}

// The partner that a pair gives one of its glues.
#[inline(always)]
fn partner_of(pair: GluePair, glue: GlueId) -> Partner
    ensures { result ≡ partner_in glue pair }
{
    let other = if pair.first == glue {
        pair.second
    } else {
        pair.first
    };
    Partner {
        glue: other,
        strength: pair.strength,
    }
}
