// The glues that face a site, looked up once for all types.
ghost use Rattle.std.specs.Prelude.{◌≡◌, ◌≤◌, ◌*◌, ◌↔◌, IsTrue, IfSome, option_and_then};
ghost use Rattle.atam.specs.declared.limits.TheConstants.{MOST_STRENGTH};
ghost use Rattle.atam.specs.declared.place.TypeId.{TypeId};
ghost use Rattle.atam.specs.Sites.{IsNearSite};
ghost use Rattle.atam.specs.TileSystem.{IsType, side_glue};
ghost use Rattle.atam.specs.Assembly.{Fits};
ghost use Rattle.atam.specs.Assembly as model;
ghost use Rattle.tile_system.specs.Neighbors.{StandBeside};
ghost use Rattle.attach_rule.specs.Facing.{AreNone, FacesSite, facing_pull};

use crate::attach::interaction;
use tile_system::{Beside, GlueId, Placed, Side, Site, System, TypeId};

/// The glues that a tile at a site would meet: in each direction the one on the near side of the
/// tile there.
#[derive(Clone, Copy, Debug, PartialEq, Eq, Hash)]
pub struct FacingGlues {
    pub north: Option<GlueId>,
    pub east: Option<GlueId>,
    pub south: Option<GlueId>,
    pub west: Option<GlueId>,
}

impl FacingGlues {
    /// Whether no glue faces the site.
    #[inline(always)]
    pub fn are_none(&self) -> bool
        ensures { IsTrue result ↔ AreNone self.now }
    {
        self.north.is_none() && self.east.is_none() && self.south.is_none() && self.west.is_none()
    }
}

/// The glues that face the site.
#[inline(always)]
pub fn glues_facing<P: Placed>(sys: &System, placed: &P, site: Site) -> FacingGlues
    requires near { IsNearSite site }
    requires fits { Fits sys.now (P.placements placed.now) }
    ensures faces { FacesSite sys.now (P.placements placed.now) site result }
    ensures pulls { (t : TypeId) →
        facing_pull sys.now result t ≡ model.pull sys.now (P.placements placed.now) site t }
{
    let beside = placed.beside(site);
    glues_beside(sys, placed, site, &beside)
}

/// The glues that face the site, where the tiles beside it were looked up before.
#[inline(always)]
#[tactic(auto, using(crate::proofs::Held::kind_beside))]
pub fn glues_beside<P: Placed>(sys: &System, placed: &P, site: Site, beside: &Beside) -> FacingGlues
    requires near { IsNearSite site }
    requires fits { Fits sys.now (P.placements placed.now) }
    requires beside { StandBeside (P.placements placed.now) site beside.now }
    ensures faces { FacesSite sys.now (P.placements placed.now) site result }
    ensures pulls { (t : TypeId) →
        facing_pull sys.now result t ≡ model.pull sys.now (P.placements placed.now) site t }
{
    FacingGlues {
        north: glue_of(sys, beside.north, Side::South),
        east: glue_of(sys, beside.east, Side::West),
        south: glue_of(sys, beside.south, Side::North),
        west: glue_of(sys, beside.west, Side::East),
    }
}

// The glue on a side of a tile, if there is a tile.
#[inline(always)]
pub(crate) fn glue_of(sys: &System, tile: Option<TypeId>, side: Side) -> Option<GlueId>
    requires { IfSome tile (IsType sys.now) }
    ensures { result ≡ option_and_then (λ t. side_glue sys.now t side) tile }
{
    sys.side(tile?, side)
}

/// The pull on a type at a site that these glues face.
#[inline(always)]
pub fn facing_pull(sys: &System, glues: &FacingGlues, tile: TypeId) -> u32
    requires { IsType sys.now tile }
    ensures value { result ≡ facing_pull sys.now glues.now tile }
    ensures bound { result ≤ 4 * MOST_STRENGTH }
{
    interaction(sys, sys.side(tile, Side::North), glues.north)
        + interaction(sys, sys.side(tile, Side::East), glues.east)
        + interaction(sys, sys.side(tile, Side::South), glues.south)
        + interaction(sys, sys.side(tile, Side::West), glues.west)
}
