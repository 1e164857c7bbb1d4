// A quadrant in the making.
ghost use Rattle.std.specs.Prelude.{◌≡◌, ◌+◌, [], length, nat_le, IfOk};

use crate::rule_list::RuleList;
use machine_text::NameList;
use std::alloc::Global;
use tile_system::NoMemory;

/// The parts of a quadrant. The width and the height are 0 until they are read.
#[derive(Drop)]
pub(crate) struct QuadrantParts {
    pub(crate) symbols: NameList,
    pub(crate) rules: RuleList,
    pub(crate) width: u32,
    pub(crate) height: u32,
    pub(crate) bottom: Vec<u32>,
    pub(crate) left: Vec<u32>,
}

impl QuadrantParts {
    ghost use Rattle.quadrant_compile.specs.QuadrantText.{quadrant_of};
    ghost use Rattle.quadrant_compile.specs.Inner.SoFar.{quadrant_in};

    pub(crate) fn new(alloc: Global) -> Result<QuadrantParts, NoMemory>
        ensures { IfOk result (λ parts. quadrant_in parts ≡ quadrant_of []) }
    {
        Ok(QuadrantParts {
            symbols: NameList::new(alloc),
            rules: RuleList::new(alloc)?,
            width: 0,
            height: 0,
            bottom: Vec::new(alloc),
            left: Vec::new(alloc),
        })
    }

    /// Whether there are columns for so many more symbols at the bottom.
    pub(crate) fn has_columns(&self, more: usize) -> bool
        ensures { result ≡ nat_le (length self.now.bottom.items + more) self.now.width }
    {
        has_room(self.bottom.len(), more, self.width)
    }

    /// Whether there are rows for so many more symbols at the left.
    pub(crate) fn has_rows(&self, more: usize) -> bool
        ensures { result ≡ nat_le (length self.now.left.items + more) self.now.height }
    {
        has_room(self.left.len(), more, self.height)
    }
}

// Whether so many more than there are stay within the limit.
fn has_room(count: usize, more: usize, limit: u32) -> bool
    ensures { result ≡ nat_le (count + more) limit }
{
    let limit = limit as usize;
    count <= limit && more <= limit - count
}
