//! Tests of the program over memory: from words and a text to a status and bytes.
#![tactic(auto)]

#[cfg(test)]
mod block_ends;
#[cfg(test)]
mod blocks;
#[cfg(test)]
mod cases;
#[cfg(test)]
mod certificates;
#[cfg(test)]
mod changed_lines;
#[cfg(test)]
mod limits;
#[cfg(test)]
mod second_version;
