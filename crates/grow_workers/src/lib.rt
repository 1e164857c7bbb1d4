//! Growth by workers, each with a seat of one table.
#![tactic(auto)]

mod ending;
mod goes;
mod growth;
mod in_order;
mod joining;
mod leavings;
mod member;
mod numbers;
mod ordered;
mod picks;
mod prepared;
mod rounds;
mod shared;
mod starts;
mod team;

pub use growth::{grow, grow_by_index};
pub use numbers::worker_number;
pub use ordered::{SeenOrder, grow_seeing_order};
pub use picks::picks_in_order;
pub use rounds::{grow_on, grow_on_by_index};
pub use shared::Lent;
