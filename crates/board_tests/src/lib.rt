//! Tests of batches: their texts, boards, and workers at a board.
#![tactic(auto)]

#[cfg(test)]
mod batches;
#[cfg(test)]
mod boards;
#[cfg(test)]
mod gates;
#[cfg(test)]
mod texts;
