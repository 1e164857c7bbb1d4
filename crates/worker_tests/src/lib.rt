//! Tests of the program over memory: growths by one worker and by several, at any choice.
#![tactic(auto)]

#[cfg(test)]
mod choices;
#[cfg(test)]
mod compiled;
#[cfg(test)]
mod growths;
#[cfg(test)]
mod workers;
