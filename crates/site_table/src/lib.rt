//! The table of site words, and the seats that claim and look.
//!
//! Each site of the box is one word, which several threads read and change in single atomic steps.
//! A **seat** is a scout of the growth core whose assembly is that of the words: the numbers that
//! it owns, what it has seen, and its own tiles. Between any two steps of whatever threads the
//! words and the views of the seats spell a state of the core, and each step is one event of it.
#![tactic(auto)]

mod grown;
mod laws;
mod rule;
mod seat;
mod table;
mod tally;
mod view;

pub use grown::Grown;
pub use laws::{law_quiet, law_steps};
pub use seat::SiteSeat;
pub use table::{Claimed, SiteTable};
pub use view::SeatView;
