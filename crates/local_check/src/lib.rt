//! Whether a legal sequence is locally deterministic.
#![tactic(auto)]

mod breaches;
mod findings;
mod glances;
mod grid_of;
mod grown;
mod judgement;
mod laid_out;
mod laws;
mod once;
mod passage;
mod place_sides;
mod side_table;
mod stood_sites;
mod survey;

pub use grown::judge_grown;
pub use judgement::judge;
pub use laid_out::LaidOut;
pub use laws::{law_clean, law_one_verdict, law_yes};
pub use once::{Judged, judge_once};
pub use side_table::{SideSets, inputs, inputs_of_grid};
