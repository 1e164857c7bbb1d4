// Who finds the type that attaches at a site.
ghost use Rattle.atam.specs.TileSystem.{TileSystem};
ghost use Rattle.atam.specs.Sites.{IsNearSite};
ghost use Rattle.atam.specs.Assembly.{Fits};
ghost use Rattle.attach_rule.specs.Searches.{IsFirstType};

use crate::first_type;
use tile_system::{Placed, Site, System, TypeId};

/// Finds the first type that attaches at a site, in the systems that it serves.
pub trait TypeFinder {
    /// It serves the system.
    ghost serves: { Self → TileSystem → Type 0 };

    /// The first type, by index, that attaches at the site.
    fn first_type<P: Placed>(&self, sys: &System, placed: &P, site: Site) -> Option<TypeId>
        requires system { serves self.now sys.now }
        requires near { IsNearSite site }
        requires fits { Fits sys.now (P.placements placed.now) }
        ensures { IsFirstType sys.now (P.placements placed.now) site result };
}

/// Tries each type of the system, by `first_type`.
#[derive(Clone, Copy, Debug)]
pub struct EachType;

impl TypeFinder for EachType {
    ghost serves = { λ _ _. Unit {0} };

    fn first_type<P: Placed>(&self, sys: &System, placed: &P, site: Site) -> Option<TypeId> {
        first_type(sys, placed, site)
    }
}
