//! tilebench: a workbench for the abstract Tile Assembly Model.
//!
//! The top call [`tilebench`] reads words and a source, and writes to two sinks. Each command has a
//! room under `commands`: what it reads, what it answers, and the text of that.
#![tactic(auto)]

mod commands;
mod growth;
mod input;
mod judged;
mod laws;
mod order;
mod reordering;
mod resources;
mod room;
mod run;
mod spelled;
mod status;
mod stop;
mod telling;
mod top;
mod wins;

pub use laws::law_watch;
pub use status::{Ran, Status};
pub use top::tilebench;
