//! Work that is shared out among workers, each with a part of its own, and joined again.
#![tactic(auto)]

mod portions;
mod shared_out;
mod worker_count;

pub use portions::{Portion, share_numbers};
pub use shared_out::share_out;
pub use worker_count::WorkerCount;
