// A tile of the core.
use tile_system::Place;

/// A tile, and the number that placed it: 65535 for a seed, and else one from 0 to 63.
#[derive(Clone, Copy, Debug, PartialEq, Eq)]
pub struct PlacedTile {
    pub place: Place,
    pub placer: u32,
}
