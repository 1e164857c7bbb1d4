// What a seat of the table knows.
use grow_core::PlacedTile;
use std::collections::LinkedList;
use tile_system::{Place, System};

/// The numbers, what was seen and the own tiles of a scout, and its system. No value of it is made:
/// it is what contracts and the table's rule see of a seat.
pub struct SeatView {
    pub sys: System,
    pub owned: u64,
    pub seen: LinkedList<Place>,
    pub mine: LinkedList<PlacedTile>,
}
