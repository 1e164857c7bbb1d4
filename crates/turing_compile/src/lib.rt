//! The tile system of a Turing machine, whose rows show the machine's run; and what a row shows.
#![tactic(auto)]

mod compiler;
mod kind;
mod laws;
mod listing;
mod names;
mod reading;
mod shown;
mod table;

pub use compiler::{MachineTiles, compile, machine_tiles};
pub use laws::{law_run, law_valid};
pub use reading::row_config;
