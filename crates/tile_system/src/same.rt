// Equality of what a system keeps, which can't be derived where a model forgets a list's capacity.
ghost use Rattle.std.specs.Prelude.{◌≡◌, ◌↔◌, IsTrue};

use crate::entries::{GlueEntry, TypeEntry};
use crate::name::is_same_name;
use crate::named::Named;
use atam::{BoxArea, GluePair, Place, Side};

// An equality that takes no memory.
pub trait Same {
    fn is_same(&self, other: &Self) -> bool
        ensures { IsTrue result ↔ (self.now ≡ other.now) };
}

impl Same for GlueEntry {
    fn is_same(&self, other: &GlueEntry) -> bool {
        self.strength() == other.strength() && is_same_name(self.name(), other.name())
    }
}

impl Same for TypeEntry {
    fn is_same(&self, other: &TypeEntry) -> bool {
        self.side(Side::North) == other.side(Side::North)
            && self.side(Side::East) == other.side(Side::East)
            && self.side(Side::South) == other.side(Side::South)
            && self.side(Side::West) == other.side(Side::West)
            && is_same_name(self.name(), other.name())
    }
}

impl Same for GluePair {
    fn is_same(&self, other: &GluePair) -> bool {
        *self == *other
    }
}

impl Same for Place {
    fn is_same(&self, other: &Place) -> bool {
        *self == *other
    }
}

impl Same for BoxArea {
    fn is_same(&self, other: &BoxArea) -> bool {
        self.x0 == other.x0 && self.y0 == other.y0 && self.x1 == other.x1 && self.y1 == other.y1
    }
}

// Whether two lists are the same.
pub fn same_items<T: Same>(a: &[T], b: &[T]) -> bool
    ensures { IsTrue result ↔ (a.now ≡ b.now) }
{
    if a.len() != b.len() {
        return false;
    }
    for i in 0..a.len() {
        if !a[i].is_same(&b[i]) {
            return false;
        }
    }
    true
}
