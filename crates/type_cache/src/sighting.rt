// What is seen at an empty site.
use type_index::Found;

/// What is found at an empty site, and whether it is clear that a tile of whichever type attaches
/// there comes clean, held by exactly the temperature.
#[derive(Clone, Copy, Debug, PartialEq, Eq)]
pub struct Sighting {
    pub found: Found,
    pub clean: bool,
}
