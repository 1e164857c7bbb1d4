// An entry of a certificate.
ghost use Rattle.std.specs.Prelude.{◌≡◌};
ghost use Rattle.cert_check.specs.Certificates.{bit_of, states};

use tile_system::{Place, Side};

/// A place, the sides that are stated to hold it (bits 1, 2, 4 and 8 for north, east, south and
/// west), and its rank.
#[derive(Clone, Copy, Debug, PartialEq, Eq)]
pub struct Entry {
    pub place: Place,
    pub sides: u8,
    pub rank: u32,
}

impl Entry {
    /// Whether the side is one of those that are stated.
    #[inline(always)]
    #[tactic(auto, unfolding(crate::specs::Certificates::states))]
    pub fn states(&self, side: Side) -> bool
        ensures { result ≡ states self.now side }
    {
        self.sides & bit_of(side) != 0
    }
}

// The bit of a side.
#[inline(always)]
fn bit_of(side: Side) -> u8
    ensures { result ≡ bit_of side }
{
    match side {
        Side::North => 1,
        Side::East => 2,
        Side::South => 4,
        Side::West => 8,
    }
}
