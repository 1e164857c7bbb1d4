//! The growth core: events of up to 64 scouts on one assembly.
//!
//! The **core** is one assembly that grows, and the scouts that grow it. A **scout** is who looks
//! and claims. It knows what it has **seen**, which is a part of the assembly, and claims a tile
//! only where that part holds it. It owns some of the **numbers** from 0 to 63, as the bits of one
//! word, and its name is the least of them. Each tile is marked with a number of the scout that
//! won it, its **placer**. A scout's own tiles, **mine**, are those that it, or a scout joined into
//! it, has won; those of each number are listed in the order in which they were won. A split gives
//! the greatest number, with the tiles that it has placed, to a new scout; a join unites the
//! numbers, the seen and the own tiles of two.
#![tactic(auto)]

mod laws;
mod machine;
mod placed_tile;
mod placed_tiles;
mod scout;
mod scouts;

pub use laws::{
    law_answered, law_kept, law_left_out, law_listed, law_listed_events, law_numbers, law_one_run,
    law_quiet, law_refused, law_scouts,
};
pub use machine::Core;
pub use placed_tile::PlacedTile;
use placed_tiles::PlacedTiles;
use scout::CoreScout;
use scouts::Scouts;
