//! Tests of scouts' bursts, of choices, of whole growths by several workers, and of the canonical
//! order of what grew.
#![tactic(auto)]

#[cfg(test)]
mod bursts;
#[cfg(test)]
mod choosing;
#[cfg(test)]
mod orders;
#[cfg(test)]
mod workers;
