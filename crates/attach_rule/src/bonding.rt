// The strengths of a tile with all tiles beside it, by one look at these.
ghost use Rattle.std.specs.Prelude.{◌≡◌, ◌≤◌, ◌*◌, List};
ghost use Rattle.atam.specs.declared.limits.TheConstants.{MOST_STRENGTH};
ghost use Rattle.atam.specs.TileSystem.{IsType};
ghost use Rattle.atam.specs.declared.place.Place.{Place};
ghost use Rattle.atam.specs.declared.site.Site.{Site};
ghost use Rattle.atam.specs.Sites.{IsNearSite};
ghost use Rattle.atam.specs.Assembly.{Fits};
ghost use Rattle.atam.specs.Assembly as model;
ghost use Rattle.attach_rule.specs.Bonds.{AreBonds, AreStrengths, sum_of};
ghost use Rattle.attach_rule.specs.Facing.{FacesSite};

use crate::attach::interaction;
use crate::{FacingGlues, glues_facing};
use tile_system::{Placed, Side, Site, System, TypeId};

/// The strengths that a tile has with the tiles beside it; 0 where there is no tile.
#[derive(Clone, Copy, Debug, PartialEq, Eq)]
pub struct Strengths {
    pub north: u32,
    pub east: u32,
    pub south: u32,
    pub west: u32,
}

impl Strengths {
    /// Their sum.
    #[inline(always)]
    pub fn sum(&self) -> u32
        requires { AreStrengths self.now }
        ensures sum { result ≡ sum_of self.now }
        ensures bound { result ≤ 4 * MOST_STRENGTH }
    {
        self.north + self.east + self.south + self.west
    }
}

/// The strengths that a tile of this type has where these glues face it.
#[inline(always)]
pub fn facing_bonds(sys: &System, glues: &FacingGlues, tile: TypeId) -> Strengths
    requires { IsType sys.now tile }
    ensures bonds { (tiles : List Place) (site : Site) → FacesSite sys.now tiles site glues.now →
        AreBonds sys.now tiles site tile result }
    ensures bound { AreStrengths result }
{
    Strengths {
        north: interaction(sys, sys.side(tile, Side::North), glues.north),
        east: interaction(sys, sys.side(tile, Side::East), glues.east),
        south: interaction(sys, sys.side(tile, Side::South), glues.south),
        west: interaction(sys, sys.side(tile, Side::West), glues.west),
    }
}

/// The strengths that a tile of this type at the site has with the tiles beside it.
#[inline(always)]
pub fn bonds<P: Placed>(sys: &System, placed: &P, site: Site, tile: TypeId) -> Strengths
    requires kind { IsType sys.now tile }
    requires near { IsNearSite site }
    requires fits { Fits sys.now (P.placements placed.now) }
    ensures bonds { AreBonds sys.now (P.placements placed.now) site tile result }
    ensures bound { AreStrengths result }
    ensures pull { sum_of result ≡ model.pull sys.now (P.placements placed.now) site tile }
{
    let glues = glues_facing(sys, placed, site);
    facing_bonds(sys, &glues, tile)
}
