// All types that attach at a site.
ghost use Rattle.std.specs.Prelude.{◌≡◌, ◌≤◌, length};
ghost use Rattle.atam.specs.Sites.{IsNearSite};
ghost use Rattle.atam.specs.Assembly.{Fits};
ghost use Rattle.attach_rule.specs.Candidates.{AreCandidates};

use crate::TypeList;
use crate::facing::{facing_pull, glues_facing};
use tile_system::{Placed, Site, System, TypeId};

/// Lists all types that attach at the site. It takes no memory, and tries no type where no glue
/// faces the site.
pub fn candidates<P: Placed>(sys: &System, placed: &P, site: Site, into: &mut TypeList)
    requires near { IsNearSite site }
    requires fits { Fits sys.now (P.placements placed.now) }
    requires room { length sys.now.types ≤ into.old.room }
    ensures types { AreCandidates sys.now (P.placements placed.now) site into.new.types }
    ensures room { into.new.room ≡ into.old.room }
{
    into.clear();
    if placed.at(site).is_some() {
        return;
    }
    let tau = sys.tau();
    let glues = glues_facing(sys, placed, site);
    if glues.are_none() {
        return;
    }
    for index in 0..sys.type_count() {
        if facing_pull(sys, &glues, TypeId(index)) >= tau {
            into.push(TypeId(index));
        }
    }
}
