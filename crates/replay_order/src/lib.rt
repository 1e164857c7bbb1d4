//! The canonical order of an assembly, and the legality of a given order.
#![tactic(auto)]

mod bonds;
mod by_rows;
mod canonical;
mod in_turn;
mod legal;
mod producible;
mod ready;
mod rest;
mod stop;
mod waiting;

pub use by_rows::replay_by;
pub use canonical::replay;
pub use legal::check_legal;
pub use producible::{replay_producible, replay_producible_by};
pub use stop::ReplayStop;
