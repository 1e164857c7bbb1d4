//! Tests of the builder, of containers, of orders and of verdicts, on the worked systems.
#![tactic(auto)]

#[cfg(test)]
mod builder;
#[cfg(test)]
mod containers;
#[cfg(test)]
mod orders;
#[cfg(test)]
mod stops;
#[cfg(test)]
mod verdicts;
