//! Assemblies in memory: a grid over a box, and a sequence of places.
#![tactic(auto)]

mod cell;
mod grid;
mod laws;
mod packed_place;
mod packed_places;
mod place_log;
mod row;
mod seeding;
mod sequence;

pub use cell::{number_beside, site_index, site_of_index};
pub use grid::Grid;
pub use laws::law_numbers;
pub use place_log::PlaceLog;
pub use row::Row;
pub use seeding::{grid_of_seeds, put_seeds};
pub use sequence::Sequence;
