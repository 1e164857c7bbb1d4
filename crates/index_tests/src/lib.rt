//! Tests of attachment and of the index of types, also on random systems.
#![tactic(auto)]

#[cfg(test)]
mod attachment;
#[cfg(test)]
mod index;
#[cfg(test)]
mod pairs;
#[cfg(test)]
mod random;
