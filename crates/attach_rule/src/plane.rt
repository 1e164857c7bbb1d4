// The least open site of the plane.
ghost use Rattle.std.specs.Prelude.{◌↔◌, IsTrue};
ghost use Rattle.atam.specs.Assembly.{Fits};
ghost use Rattle.atam.specs.Growth.{IsLeastOpen};
ghost use Rattle.attach_rule.specs.Inner.OpenSites.{Precedes};

use crate::{EachType, TypeFinder, least_open_inside_by, least_open_outside_by};
use tile_system::{Placed, Site, System, TypeId};

/// The same as `least_open`, by this finder. Its time grows with the number of sites of the box.
pub fn least_open_by<F: TypeFinder, P: Placed>(
    finder: &F,
    sys: &System,
    placed: &P,
) -> Option<(Site, TypeId)>
    requires system { F.serves finder.now sys.now }
    requires fits { Fits sys.now (P.placements placed.now) }
    ensures { IsLeastOpen sys.now (P.placements placed.now) result }
{
    let inside = least_open_inside_by(finder, sys, placed);
    let outside = least_open_outside_by(finder, sys, placed);
    if precedes(outside, inside) {
        outside
    } else {
        inside
    }
}

/// The least site of the plane where a type attaches, with the first such type. Its time grows with
/// the number of sites of the box, and with that of types at the sites beside tiles.
pub fn least_open<P: Placed>(sys: &System, placed: &P) -> Option<(Site, TypeId)>
    requires { Fits sys.now (P.placements placed.now) }
    ensures { IsLeastOpen sys.now (P.placements placed.now) result }
{
    least_open_by(&EachType, sys, placed)
}

// Whether a site was found, and no other or a later one.
fn precedes(found: Option<(Site, TypeId)>, other: Option<(Site, TypeId)>) -> bool
    ensures { IsTrue result ↔ Precedes found other }
{
    match found {
        None => false,
        Some((site, _)) => match other {
            None => true,
            Some((later, _)) => site < later,
        },
    }
}
