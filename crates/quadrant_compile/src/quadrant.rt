// A quadrant.
ghost use Rattle.std.specs.Prelude.{◌≡◌, ◌<◌, ◌≤◌, length, slice_get, Some, IfOk, IfSome};
ghost use Rattle.quadrant_compile.specs.Quadrants.{IsQuadrant, answer_among, border_symbol, ruled_pairs};

use crate::parts::QuadrantParts;
use crate::rule::Answer;
use crate::rule_list::RuleList;
use crate::ruled::ruled_pairs;
use machine_text::NameList;
use std::alloc::Global;
use std::marker::Model;
use tile_system::NoMemory;

/// Rules from two symbols to two over columns and rows, which are counted from 1, with symbols at
/// the borders. Symbols go by their numbers, from 0 in the order in which the text declares them.
pub struct Quadrant {
    symbols: NameList,
    rules: RuleList,
    ruled: Vec<(u32, u32)>,
    width: u32,
    height: u32,
    bottom: Vec<u32>,
    left: Vec<u32>,
}

impl Drop for Quadrant {
    fn drop(self) {
        let Quadrant {
            symbols: _symbols,
            rules: _rules,
            ruled: _ruled,
            width: _width,
            height: _height,
            bottom: _bottom,
            left: _left,
        } = self;
    }
}

impl Model for Quadrant {
    ghost use Rattle.std.specs.Prelude.{◌≡◌};
    ghost use Rattle.quadrant_compile.specs.Quadrants.{RuleQuadrant, IsQuadrant, ruled_pairs};
    ghost use Rattle.quadrant_compile.specs.Inner.Held.{IsHeld};

    ghost Value = { RuleQuadrant };

    ghost view = { λ q. record {
      symbols = q.symbols;
      rules = q.rules;
      width = q.width;
      height = q.height;
      bottom = q.bottom.items;
      left = q.left.items;
    } };

    ghost invariant = { λ q. IsHeld (record {
      symbols = q.symbols;
      rules = q.rules;
      width = q.width;
      height = q.height;
      bottom = q.bottom.items;
      left = q.left.items;
    }) q.ruled.items };
}

impl Quadrant {
    ghost use Rattle.quadrant_compile.specs.Inner.SoFar.{quadrant_in};

    /// The quadrant of these parts.
    pub(crate) fn new(alloc: Global, parts: QuadrantParts) -> Result<Quadrant, NoMemory>
        requires { IsQuadrant (quadrant_in parts) }
        ensures { IfOk result (λ quadrant. quadrant ≡ quadrant_in parts) }
    {
        let ruled = ruled_pairs(alloc, &parts)?;
        Ok(Quadrant {
            symbols: parts.symbols,
            rules: parts.rules,
            ruled,
            width: parts.width,
            height: parts.height,
            bottom: parts.bottom,
            left: parts.left,
        })
    }

    /// The number of symbols.
    pub fn symbols(&self) -> u32
        ensures count { result ≡ length self.now.symbols }
        ensures valid { IsQuadrant self.now }
    {
        self.symbols.len()
    }

    pub fn symbol_name(&self, symbol: u32) -> &[u8]
        requires { symbol < length self.now.symbols }
        ensures { slice_get self.now.symbols symbol ≡ Some result.now }
    {
        self.symbols.name(symbol)
    }

    /// What the rule for these symbols from the west and from the south gives, if there is one.
    pub fn answer(&self, west: u32, south: u32) -> Option<Answer>
        requires west { west < length self.now.symbols }
        requires south { south < length self.now.symbols }
        ensures answer { result ≡ answer_among self.now.rules west south }
        ensures east { IfSome result (λ answer. answer.east < length self.now.symbols) }
        ensures north { IfSome result (λ answer. answer.north < length self.now.symbols) }
    {
        self.rules.find(west, south)
    }

    /// The number of columns.
    pub fn width(&self) -> u32
        ensures { result ≡ self.now.width }
    {
        self.width
    }

    /// The number of rows.
    pub fn height(&self) -> u32
        ensures { result ≡ self.now.height }
    {
        self.height
    }

    /// The symbol that comes from below into a column.
    pub fn bottom_symbol(&self, column: u32) -> u32
        requires { 1 ≤ column }
        ensures symbol { result ≡ border_symbol self.now.bottom column }
        ensures known { result < length self.now.symbols }
    {
        self.bottom.get(column as usize - 1).copied().unwrap_or(0)
    }

    /// The symbol that comes from the west into a row.
    pub fn left_symbol(&self, row: u32) -> u32
        requires { 1 ≤ row }
        ensures symbol { result ≡ border_symbol self.now.left row }
        ensures known { result < length self.now.symbols }
    {
        self.left.get(row as usize - 1).copied().unwrap_or(0)
    }

    /// The pairs of symbols that have a rule, by the one from the west and then by the one from the
    /// south.
    pub(crate) fn ruled(&self) -> &[(u32, u32)]
        ensures { result.now ≡ ruled_pairs self.now }
    {
        self.ruled.as_slice()
    }
}
