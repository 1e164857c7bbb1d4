//! A binary counter as tiles: the rows that grow show the numbers from the start to the last one of
//! so many bits, and then 0.
#![tactic(auto)]

mod compile;
mod counter;
mod kind;
mod label;
mod laws;
mod rows;
mod stop;

pub use compile::{CounterTiles, compile_counter, counter_tiles};
pub use laws::law_counter;
pub use rows::row_value;
pub use stop::CounterStop;
