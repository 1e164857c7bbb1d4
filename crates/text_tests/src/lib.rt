//! Tests of the crates that read words and texts, and print them.
#![tactic(auto)]

#[cfg(test)]
mod input;
#[cfg(test)]
mod sequences;
#[cfg(test)]
mod showing;
#[cfg(test)]
mod systems;
#[cfg(test)]
mod words;
