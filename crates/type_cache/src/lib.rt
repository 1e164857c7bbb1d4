//! What was found for the glues that face a site, kept for sites with the same, and when a tile
//! comes clean.
#![tactic(auto)]

mod cache;
mod finding;
mod held_list;
mod known;
mod settled;
mod side_set;
mod sighting;
mod slots;

pub use cache::FacingCache;
pub use held_list::HeldList;
pub use settled::settled_sides;
pub use side_set::SideSet;
pub use sighting::Sighting;
