// Both sets of sides of a place.
ghost use Rattle.std.specs.Prelude.{◌≡◌};

use std::marker::Model;
use type_cache::SideSet;

// The sides of a place that interact with the seeds or with an earlier place, and its output sides.
// They are one byte, a half for each set, since there is one for each place of a sequence.
#[derive(Clone, Copy)]
pub(crate) struct PlaceSides {
    bits: u8,
}

impl Model for PlaceSides {
    ghost use Rattle.std.specs.Prelude.{◌<◌};
    ghost use Rattle.local_check.specs.Inner.PlaceSides.{PlaceSides, both_of, both_bits, both_back};

    ghost Value = { PlaceSides };

    ghost view = { λ s. both_of s.bits };

    ghost invariant = { λ s. s.bits < 256 };

    ghost inverse = { λ sides. record { bits = both_bits sides } };

    ghost inverse_ok = { λ s small. λ i. record { bits = both_back s.bits small i } };
}

impl PlaceSides {
    #[inline(always)]
    pub(crate) fn of(earlier: SideSet, outputs: SideSet) -> PlaceSides
        ensures { result ≡ record { earlier = earlier; outputs = outputs } }
    {
        PlaceSides {
            bits: earlier.bits() + 16 * outputs.bits(),
        }
    }

    #[inline(always)]
    pub(crate) fn earlier(self) -> SideSet
        ensures { result ≡ self.earlier }
    {
        SideSet::from_bits(self.bits % 16)
    }

    #[inline(always)]
    pub(crate) fn outputs(self) -> SideSet
        ensures { result ≡ self.outputs }
    {
        SideSet::from_bits(self.bits / 16)
    }
}
