//! A scout that claims at its frontier until its grid is closed, and how it chooses the next site
//! and among the types that attach there.
#![tactic(auto)]

mod beside_seeds;
mod bursting;
mod catching;
mod chooser;
mod claim_log;
mod fill_log;
mod grower;
mod growing;
mod in_order;
mod inside;
mod picking;
mod scout;
mod share;
mod sweeping;
mod types;
mod work_list;

pub use bursting::Burst;
pub use chooser::{Chooser, First, RngChooser};
pub use claim_log::ClaimLog;
pub use growing::Growing;
pub use in_order::{FilledInOrder, fill_least_first_seeing};
pub use scout::Scout;
