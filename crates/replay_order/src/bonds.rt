// The strengths that the types of a system have with one another.
ghost use Rattle.std.specs.Prelude.{◌≡◌, Some, List, IfOk};
ghost use Rattle.atam.specs.declared.place.Place.{Place};
ghost use Rattle.atam.specs.declared.site.Site.{Site};
ghost use Rattle.atam.specs.Assembly as model;
ghost use Rattle.atam.specs.Placements.{tile_at};
ghost use Rattle.atam.specs.Sites.{neighbor};
ghost use Rattle.atam.specs.TileSystem.{IsType, side_glue};
ghost use Rattle.replay_order.specs.Inner.SideGlues.{AreGluesOf, IsGlueOn, glue_on};

use attach_rule::bond_with;
use std::alloc::Global;
use std::marker::Model;
use tile_system::{NoMemory, Side, System, TypeId};

// The glue on a side of a type: one more than its number, and the strength that it has with
// itself; twice 0 where there is none.
#[derive(Clone, Copy)]
struct SideGlue {
    code: u16,
    strength: u16,
}

impl SideGlue {
    fn of(sys: &System, tile: TypeId, side: Side) -> SideGlue
        requires { IsType sys.now tile }
        ensures { IsGlueOn sys.now (side_glue sys.now tile side) result }
    {
        sys.recall_valid();
        match sys.side(tile, side) {
            None => SideGlue {
                code: 0,
                strength: 0,
            },
            Some(glue) => SideGlue {
                code: glue.0 as u16 + 1,
                strength: sys.strength(glue) as u16,
            },
        }
    }
}

// The glues on the sides of a type.
#[derive(Clone, Copy)]
struct SideGlues {
    north: SideGlue,
    east: SideGlue,
    south: SideGlue,
    west: SideGlue,
}

impl SideGlues {
    fn of(sys: &System, tile: TypeId) -> SideGlues
        requires { IsType sys.now tile }
        ensures { AreGluesOf sys.now tile result }
    {
        SideGlues {
            north: SideGlue::of(sys, tile, Side::North),
            east: SideGlue::of(sys, tile, Side::East),
            south: SideGlue::of(sys, tile, Side::South),
            west: SideGlue::of(sys, tile, Side::West),
        }
    }

    #[inline(always)]
    fn on(&self, side: Side) -> SideGlue
        ensures { result ≡ glue_on self.now side }
    {
        match side {
            Side::North => self.north,
            Side::East => self.east,
            Side::South => self.south,
            Side::West => self.west,
        }
    }
}

// A system with the glues on the sides of its types, sixteen bytes a type.
#[derive(Drop)]
pub(crate) struct Bonds<'a> {
    sys: &'a System,
    glues: Vec<SideGlues>,
}

impl<'a> Model for Bonds<'a> {
    ghost use Rattle.atam.specs.TileSystem.{TileSystem};
    ghost use Rattle.replay_order.specs.Inner.SideGlues.{AreGluesOfAll};

    ghost Value = { TileSystem };

    ghost view = { λ b. b.sys.now };

    ghost invariant = { λ b. AreGluesOfAll b.sys.now b.glues.items };
}

impl<'a> Bonds<'a> {
    pub(crate) fn make(alloc: Global, sys: &'a System) -> Result<Bonds<'a>, NoMemory>
        ensures { IfOk result (λ b. b ≡ sys.now) }
    {
        let mut glues = Vec::with_capacity(alloc, sys.type_count() as usize)?;
        for index in 0..sys.type_count() {
            glues.push(SideGlues::of(sys, TypeId(index)))?;
        }
        Ok(Bonds { sys, glues })
    }

    pub(crate) fn system(&self) -> &System
        ensures { result.now ≡ self.now }
    {
        self.sys
    }

    // The strength that a tile has on a side with the one that is beside it there. Two sides with
    // one glue, or with none, take one look at each.
    #[inline(always)]
    pub(crate) fn between(&self, tile: TypeId, side: Side, beside: TypeId) -> u16
        requires kind { IsType self.now tile }
        requires beside { IsType self.now beside }
        ensures { (tiles : List Place) (site : Site) →
            Some beside ≡ tile_at tiles (neighbor site side) →
            result ≡ model.bond self.now tiles site tile side }
    {
        let own = self.glues[tile.0 as usize].on(side);
        let other = self.glues[beside.0 as usize].on(side.opposite());
        if own.code == other.code {
            return own.strength;
        }
        self.between_unlike(tile, side, beside)
    }

    // The same where the glues may be a pair.
    #[inline(never)]
    fn between_unlike(&self, tile: TypeId, side: Side, beside: TypeId) -> u16
        requires kind { IsType self.now tile }
        requires beside { IsType self.now beside }
        ensures { (tiles : List Place) (site : Site) →
            Some beside ≡ tile_at tiles (neighbor site side) →
            result ≡ model.bond self.now tiles site tile side }
    {
        bond_with(self.sys, tile, side, Some(beside)) as u16
    }
}
