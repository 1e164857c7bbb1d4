//! Tests of the core of growth, event by event, of the table of claims, by its seats and by scouts,
//! of a watcher beside them, and of when workers come to their gate.
#![tactic(auto)]

#[cfg(test)]
mod claims;
#[cfg(test)]
mod edges;
#[cfg(test)]
mod gates;
#[cfg(test)]
mod scouts;
#[cfg(test)]
mod watchers;
