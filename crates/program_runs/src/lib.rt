//! Runs of the top call over memory, for the tests of the program.
#![tactic(auto)]

mod cases;
mod running;

pub use cases::{Case, Change, behind, first_unlike, first_unlike_change};
pub use running::{EndedRun, Failures, answered, run, run_at};
