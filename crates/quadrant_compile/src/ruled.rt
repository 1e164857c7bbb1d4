// The pairs of symbols that have a rule.
ghost use Rattle.std.specs.Prelude.{◌≡◌, List, ℕ, length, map, IfOk};
ghost use Rattle.std.specs.List.{range_with_len};
ghost use Rattle.quadrant_compile.specs.Quadrants.{IsQuadrant, pairs_below, ruled_pairs};
ghost use Rattle.quadrant_compile.specs.Inner.SoFar.{quadrant_in};

use crate::parts::QuadrantParts;
use std::alloc::Global;
use tile_system::NoMemory;

/// The pairs that have a rule, by the symbol from the west and then by the one from the south.
pub(crate) fn ruled_pairs(alloc: Global, parts: &QuadrantParts) -> Result<Vec<(u32, u32)>, NoMemory>
    requires { IsQuadrant (quadrant_in parts.now) }
    ensures { IfOk result (λ found. found.items ≡ ruled_pairs (quadrant_in parts.now)) }
{
    let all = pairs(alloc, parts.symbols.len())?;
    let mut ruled = Vec::new(alloc);
    for (west, south) in all.as_slice() {
        if parts.rules.find(*west, *south).is_some() {
            ruled.push((*west, *south))?;
        }
    }
    Ok(ruled)
}

// The pairs of numbers below this one.
fn pairs(alloc: Global, symbols: u32) -> Result<Vec<(u32, u32)>, NoMemory>
    ensures { IfOk result (λ found. found.items ≡ pairs_below symbols) }
{
    let mut pairs = Vec::new(alloc);
    for west in 0..symbols {
        pairs.append(&mut pairs_with(alloc, symbols, west)?)?;
    }
    Ok(pairs)
}

fn pairs_with(alloc: Global, symbols: u32, west: u32) -> Result<Vec<(u32, u32)>, NoMemory>
    ensures { IfOk result (λ found. found.items
        ≡ map (λ south. (west, south)) (range_with_len 0 symbols)) }
{
    Ok((0..symbols).map(|south| (west, south)).collect(alloc)?)
}
