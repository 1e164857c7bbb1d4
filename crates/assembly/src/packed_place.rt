// A place in eight bytes.
ghost use Rattle.std.specs.Prelude.{◌≡◌, ◌↔◌, ◌+◌, ◌<◌, ◌≤ℤ◌, ◌<ℤ◌, ◌-ℤ◌, pos, IsTrue, length};
ghost use Rattle.assembly.specs.Inner.Packing.{IsNear, IsPackedIn, near_place, place_in};
ghost use Rattle.assembly.specs.declared.packed_place.TheConstants.{SPAN, MIDDLE, FAR};

use tile_system::{Place, Site, TypeId};

// How many columns, rows and types there are near the middle of the plane: 21 bits each.
const SPAN: u64 = 2_097_152;

// The middle column is this far from the first of them, and the middle row likewise.
const MIDDLE: i32 = 1_048_576;

// What the index of a far place is raised by.
const FAR: u64 = 9_223_372_036_854_775_808;

// A place near the middle of the plane by its numbers, or else its index among far places.
#[derive(Clone, Copy)]
pub(crate) struct PackedPlace(u64);

impl PackedPlace {
    #[inline(always)]
    pub(crate) fn near(place: Place) -> PackedPlace
        requires { IsNear place }
        ensures near { result.0 < FAR }
        ensures place { near_place result.0 ≡ place }
    {
        let column = (place.site.x + MIDDLE) as u64;
        let row = (place.site.y + MIDDLE) as u64;
        PackedPlace((row * SPAN + column) * SPAN + place.tile.0 as u64)
    }

    pub(crate) fn far(index: usize) -> PackedPlace
        requires { index < FAR }
        ensures { result.0 ≡ FAR + index }
    {
        PackedPlace(FAR + index as u64)
    }

    // The place, where these are the far ones.
    #[inline(always)]
    pub(crate) fn place(self, far: &[Place]) -> Place
        requires { IsPackedIn far.now self }
        ensures { result ≡ place_in far.now self }
    {
        if self.0 < FAR {
            return near_place(self.0);
        }
        far[(self.0 - FAR) as usize]
    }
}

// Whether a place can be told by three numbers of 21 bits.
#[inline(always)]
pub(crate) fn is_near(place: Place) -> bool
    ensures { IsTrue result ↔ IsNear place }
{
    is_near_coordinate(place.site.x)
        && is_near_coordinate(place.site.y)
        && (place.tile.0 as u64) < SPAN
}

#[inline(always)]
fn is_near_coordinate(coordinate: i32) -> bool
    ensures { IsTrue result ↔ (((pos 0 -ℤ MIDDLE) ≤ℤ coordinate) × (coordinate <ℤ MIDDLE)) }
{
    -MIDDLE <= coordinate && coordinate < MIDDLE
}

#[inline(always)]
fn near_place(number: u64) -> Place
    requires { number < FAR }
    ensures { result ≡ near_place number }
{
    let column = (number / SPAN % SPAN) as i32;
    let row = (number / SPAN / SPAN) as i32;
    Place {
        site: Site {
            x: column - MIDDLE,
            y: row - MIDDLE,
        },
        tile: TypeId((number % SPAN) as u32),
    }
}
