// A set of sides.
ghost use Rattle.std.specs.Prelude.{◌≡◌, ◌↔◌, ◌≤◌, ◌<◌, List, IsTrue};
ghost use Rattle.atam.specs.declared.limits.TheConstants.{MOST_STRENGTH};
ghost use Rattle.atam.specs.declared.place.Place.{Place};
ghost use Rattle.atam.specs.declared.site.Site.{Site};
ghost use Rattle.attach_rule.specs.Bonds.{AreStrengths};
ghost use Rattle.tile_system.specs.Neighbors.{StandBeside};
ghost use Rattle.type_cache.specs.SideSets.{has, is_within, bound_by, sides_beside, intersection, difference, complement, bond_if, sum_on, glues_on};
ghost use Rattle.type_cache.specs.SideBits.{set_of};

use attach_rule::{FacingGlues, Strengths};
use std::marker::Model;
use tile_system::{Beside, Side};

/// The sides of a tile that something holds of, with a bit for each side.
#[derive(Clone, Copy)]
pub struct SideSet {
    bits: u8,
}

impl Model for SideSet {
    ghost use Rattle.std.specs.Prelude.{◌<◌};
    ghost use Rattle.type_cache.specs.SideSets.{SideSet};
    ghost use Rattle.type_cache.specs.SideBits.{set_of, bits_of, bits_back};

    ghost Value = { SideSet };

    ghost view = { λ s. set_of s.bits };

    ghost invariant = { λ s. s.bits < 16 };

    ghost inverse = { λ sides. record { bits = bits_of sides } };

    ghost inverse_ok = { λ s small. λ i. record { bits = bits_back s.bits small i } };
}

impl SideSet {
    /// The set of no sides.
    pub const NONE: SideSet = SideSet { bits: 0 };

    /// That of all four.
    pub const ALL: SideSet = SideSet { bits: 15 };

    /// The set as a number.
    #[inline(always)]
    pub fn bits(self) -> u8
        ensures back { set_of result ≡ self }
        ensures small { result < 16 }
    {
        self.bits
    }

    /// The set with this number.
    #[inline(always)]
    pub fn from_bits(bits: u8) -> SideSet
        requires { bits < 16 }
        ensures { result ≡ set_of bits }
    {
        SideSet { bits }
    }

    /// The sides for which it holds.
    #[inline(always)]
    pub fn of(north: bool, east: bool, south: bool, west: bool) -> SideSet
        ensures { result ≡ record { north = north; east = east; south = south; west = west } }
    {
        SideSet {
            bits: u8::from(north) + 2 * u8::from(east) + 4 * u8::from(south) + 8 * u8::from(west),
        }
    }

    /// The sides beside which there is a tile.
    #[inline(always)]
    pub fn beside(beside: &Beside) -> SideSet
        ensures { (tiles : List Place) (site : Site) → StandBeside tiles site beside.now
            → result ≡ sides_beside tiles site }
    {
        SideSet::of(
            beside.north.is_some(),
            beside.east.is_some(),
            beside.south.is_some(),
            beside.west.is_some(),
        )
    }

    /// The sides with a strength above 0.
    #[inline(always)]
    pub fn bound_by(bonds: &Strengths) -> SideSet
        ensures { result ≡ bound_by bonds.now }
    {
        SideSet::of(
            bonds.north > 0,
            bonds.east > 0,
            bonds.south > 0,
            bonds.west > 0,
        )
    }

    /// Whether a side is in the set.
    #[inline(always)]
    pub fn has(self, side: Side) -> bool
        ensures { result ≡ has self side }
    {
        match side {
            Side::North => self.bits % 2 == 1,
            Side::East => self.bits / 2 % 2 == 1,
            Side::South => self.bits / 4 % 2 == 1,
            Side::West => self.bits / 8 % 2 == 1,
        }
    }

    /// Whether the other set has the same sides.
    #[inline(always)]
    pub fn is_same(&self, other: &SideSet) -> bool
        ensures { IsTrue result ↔ (self.now ≡ other.now) }
    {
        self.bits == other.bits
    }

    /// Whether the other set has each side of this one.
    #[inline(always)]
    pub fn is_within(self, other: SideSet) -> bool
        ensures { result ≡ is_within self other }
    {
        self.bits & other.bits == self.bits
    }

    /// The sides that aren't in the set.
    #[inline(always)]
    pub fn complement(self) -> SideSet
        ensures { result ≡ complement self }
    {
        SideSet::of(
            !self.has(Side::North),
            !self.has(Side::East),
            !self.has(Side::South),
            !self.has(Side::West),
        )
    }

    /// The sides that the other set has too.
    #[inline(always)]
    pub fn within(self, other: SideSet) -> SideSet
        ensures { result ≡ intersection self other }
    {
        SideSet::of(
            self.has(Side::North) && other.has(Side::North),
            self.has(Side::East) && other.has(Side::East),
            self.has(Side::South) && other.has(Side::South),
            self.has(Side::West) && other.has(Side::West),
        )
    }

    /// The sides that the other set doesn't have.
    #[inline(always)]
    pub fn without(self, other: SideSet) -> SideSet
        ensures { result ≡ difference self other }
    {
        SideSet::of(
            self.has(Side::North) && !other.has(Side::North),
            self.has(Side::East) && !other.has(Side::East),
            self.has(Side::South) && !other.has(Side::South),
            self.has(Side::West) && !other.has(Side::West),
        )
    }

    /// The sum of the strengths of these sides alone.
    pub fn sum_on(self, bonds: &Strengths) -> u32
        requires { AreStrengths bonds.now }
        ensures { result ≡ sum_on self bonds.now }
    {
        bond_if(self.has(Side::North), bonds.north)
            + bond_if(self.has(Side::East), bonds.east)
            + bond_if(self.has(Side::South), bonds.south)
            + bond_if(self.has(Side::West), bonds.west)
    }

    /// The glues that face these sides alone.
    #[inline(always)]
    pub fn glues_on(self, glues: &FacingGlues) -> FacingGlues
        ensures { result ≡ glues_on self glues.now }
    {
        FacingGlues {
            north: if self.has(Side::North) {
                glues.north
            } else {
                None
            },
            east: if self.has(Side::East) {
                glues.east
            } else {
                None
            },
            south: if self.has(Side::South) {
                glues.south
            } else {
                None
            },
            west: if self.has(Side::West) {
                glues.west
            } else {
                None
            },
        }
    }
}

// The strength, if the side counts.
fn bond_if(counts: bool, strength: u32) -> u32
    requires { strength ≤ MOST_STRENGTH }
    ensures value { result ≡ bond_if counts strength }
    ensures bound { result ≤ MOST_STRENGTH }
{
    if counts { strength } else { 0 }
}
