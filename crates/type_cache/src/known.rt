// What is known of a site by the glues that face it.
ghost use Rattle.std.specs.Prelude.{◌≡◌, ◌<◌, IfSome};
ghost use Rattle.type_cache.specs.Findings.{IsSmall, found_in, type_of};

use crate::SideSet;
use tile_system::TypeId;
use type_index::Found;

// What glues hold, and the sides of a site that they face on which it is clear that a tile comes
// clean, held by exactly the temperature: where tiles stand beside these sides alone, it does. It is
// kept in eight bytes, as is a key, and handed over in a register: how many types there are, and the
// codes of the first and the second.
#[derive(Clone, Copy)]
pub(crate) struct Known {
    count: u16,
    first: u16,
    second: u16,
    pub(crate) settled: SideSet,
}

impl Known {
    // Of no types.
    pub(crate) const NONE: Known = Known {
        count: 0,
        first: 0,
        second: 0,
        settled: SideSet::NONE,
    };

    pub(crate) fn of(found: &Found, settled: SideSet) -> Known
        requires small { IsSmall found.now }
        ensures found { found_in result ≡ found.now }
        ensures settled { result.settled ≡ settled }
    {
        Known {
            count: found.count as u16,
            first: code_of_type(found.first),
            second: code_of_type(found.second),
            settled,
        }
    }

    #[inline(always)]
    pub(crate) fn found(&self) -> Found
        ensures { result ≡ found_in self.now }
    {
        Found {
            count: u32::from(self.count),
            first: type_of_code(self.first),
            second: type_of_code(self.second),
        }
    }
}

// A number for a type, and one for none.
fn code_of_type(tile: Option<TypeId>) -> u16
    requires { IfSome tile (λ t. t.0 < 65535) }
    ensures { type_of result ≡ tile }
{
    match tile {
        Some(tile) => tile.0 as u16 + 1,
        None => 0,
    }
}

#[inline(always)]
fn type_of_code(code: u16) -> Option<TypeId>
    ensures { result ≡ type_of code }
{
    match code {
        0 => None,
        code => Some(TypeId(u32::from(code) - 1)),
    }
}
