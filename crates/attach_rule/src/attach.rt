// Pull and attachment over any assembly.
ghost use Rattle.std.specs.Prelude.{◌≡◌, ◌≤◌, ◌*◌, ◌↔◌, ◌<◌, IsTrue, IfSome, List, length};
ghost use Rattle.atam.specs.declared.limits.TheConstants.{MOST_STRENGTH};
ghost use Rattle.atam.specs.TileSystem.{IsType};
ghost use Rattle.atam.specs.declared.place.Place.{Place};
ghost use Rattle.atam.specs.declared.site.Site.{Site};
ghost use Rattle.atam.specs.Placements.{tile_at};
ghost use Rattle.atam.specs.Sites.{IsNearSite, neighbor};
ghost use Rattle.atam.specs.Assembly.{Attaches, Fits};
ghost use Rattle.atam.specs.Assembly as model;
ghost use Rattle.attach_rule.specs.Searches.{IsFirstType};

use crate::bonds;
use crate::facing::{facing_pull, glue_of, glues_facing};
use tile_system::{GlueId, Placed, Side, Site, System, TypeId};

/// The strength with which two abutting sides interact, by the glues on them.
#[inline(always)]
pub fn interaction(sys: &System, own: Option<GlueId>, other: Option<GlueId>) -> u32
    requires { IfSome own (λ g. g.0 < length sys.now.glues) }
    ensures value { result ≡ model.interaction sys.now own other }
    ensures bound { result ≤ MOST_STRENGTH }
{
    match (own, other) {
        (Some(glue), Some(beside)) => sys.between(glue, beside),
        _ => 0,
    }
}

/// The strength that a tile of this type has on a side with the tile that is beside it there, if
/// one is.
#[inline(always)]
pub fn bond_with(sys: &System, tile: TypeId, side: Side, beside: Option<TypeId>) -> u32
    requires kind { IsType sys.now tile }
    requires beside { IfSome beside (IsType sys.now) }
    ensures value { (tiles : List Place) (site : Site) →
        beside ≡ tile_at tiles (neighbor site side) →
        result ≡ model.bond sys.now tiles site tile side }
    ensures bound { result ≤ MOST_STRENGTH }
{
    let own = sys.side(tile, side);
    let other = glue_of(sys, beside, side.opposite());
    interaction(sys, own, other)
}

/// The strength that a tile of this type at the site has with the tile beside it.
#[inline(always)]
#[tactic(auto, using(crate::proofs::Held::kind_beside))]
pub fn bond<P: Placed>(sys: &System, placed: &P, site: Site, tile: TypeId, side: Side) -> u32
    requires kind { IsType sys.now tile }
    requires near { IsNearSite site }
    requires fits { Fits sys.now (P.placements placed.now) }
    ensures value { result ≡ model.bond sys.now (P.placements placed.now) site tile side }
    ensures bound { result ≤ MOST_STRENGTH }
{
    bond_with(sys, tile, side, placed.at(site.step(side)))
}

/// The pull on a type at a site, whether or not the site is empty.
pub fn pull<P: Placed>(sys: &System, placed: &P, site: Site, tile: TypeId) -> u32
    requires kind { IsType sys.now tile }
    requires near { IsNearSite site }
    requires fits { Fits sys.now (P.placements placed.now) }
    ensures value { result ≡ model.pull sys.now (P.placements placed.now) site tile }
    ensures bound { result ≤ 4 * MOST_STRENGTH }
{
    bonds(sys, placed, site, tile).sum()
}

/// Whether a tile of this type attaches at the site.
pub fn can_attach<P: Placed>(sys: &System, placed: &P, site: Site, tile: TypeId) -> bool
    requires kind { IsType sys.now tile }
    requires near { IsNearSite site }
    requires fits { Fits sys.now (P.placements placed.now) }
    ensures { IsTrue result ↔ Attaches sys.now (P.placements placed.now) site tile }
{
    placed.at(site).is_none() && pull(sys, placed, site, tile) >= sys.tau()
}

/// The first type, by index, that attaches at the site. It tries no type where no glue faces the
/// site.
pub fn first_type<P: Placed>(sys: &System, placed: &P, site: Site) -> Option<TypeId>
    requires near { IsNearSite site }
    requires fits { Fits sys.now (P.placements placed.now) }
    ensures { IsFirstType sys.now (P.placements placed.now) site result }
{
    if placed.at(site).is_some() {
        return None;
    }
    let tau = sys.tau();
    let glues = glues_facing(sys, placed, site);
    if glues.are_none() {
        return None;
    }
    for index in 0..sys.type_count() {
        if facing_pull(sys, &glues, TypeId(index)) >= tau {
            return Some(TypeId(index));
        }
    }
    None
}
