//! Tests of Turing machines, and of the counter.
#![tactic(auto)]

#[cfg(test)]
mod counting;
#[cfg(test)]
mod machines;
#[cfg(test)]
mod runs;
#[cfg(test)]
mod texts;
#[cfg(test)]
mod tiles;
