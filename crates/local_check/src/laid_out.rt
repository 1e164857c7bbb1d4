// A sequence, with what a look at its places reads.
use assembly::{Grid, Sequence};
use tile_system::System;
use type_index::TypeIndex;

/// A sequence of a system that is laid out: with the grid of all its places, and an index of the
/// system's types.
#[derive(Clone, Copy)]
pub struct LaidOut<'a> {
    pub sys: &'a System,
    pub seq: &'a Sequence,
    pub grid: &'a Grid,
    pub types: &'a TypeIndex,
}
