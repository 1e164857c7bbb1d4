//! Tests of the program over memory: sources, sinks and allocators that fail, and batches.
#![tactic(auto)]

#[cfg(test)]
mod batches;
#[cfg(test)]
mod faults;
#[cfg(test)]
mod hostile;
