//! What a locally deterministic sequence says of every other sequence of its system.
#![tactic(auto)]

mod extension;
mod laws;
mod pairs;

pub use extension::law_extends;
pub use laws::{law_confluence, law_one_outcome, law_verdict, law_within};
pub use pairs::{law_part, law_same_verdict};
