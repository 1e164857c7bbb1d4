//! Many jobs on a board that workers share under a lock, and their texts.
#![tactic(auto)]

mod batch_line;
mod board;
mod job;
mod journal;
mod laws;
mod leavings;
mod limits;
mod outcome;
mod position;
mod printing;
mod reader;
mod run;
mod state;
mod ticket;
mod tied;

pub use board::{Board, PutStop};
pub use job::{Job, same_job};
pub use journal::Move;
pub use laws::law_batch_text;
pub use limits::{GREATEST_CHOICE, MOST_JOBS, MOST_SITES, law_limits};
pub use outcome::{Outcome, is_unique};
pub use printing::print_batch;
pub use reader::read_batch;
pub use run::run_board;
pub use state::State;
pub use ticket::Ticket;
