//! Tests of two commands, each by the calls of its library and by the program: `quadrant` and
//! `watch`.
#![tactic(auto)]

#[cfg(test)]
mod frames;
#[cfg(test)]
mod rules;
