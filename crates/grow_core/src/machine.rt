// The machine of the core.
ghost use Rattle.std.specs.Prelude.{◌≡◌, option_map, IfSome, IfOk};
ghost use Rattle.atam.specs.Sites.{IsNearSite};
ghost use Rattle.atam.specs.TileSystem.{IsValid};
ghost use Rattle.atam.specs.Placements.{SamePlacements, HasDistinctSites};
ghost use Rattle.atam.specs.Assembly.{Fits};
ghost use Rattle.atam.specs.Assembly as model;
ghost use Rattle.grow_core.specs.Core.{CoreInvariant, scout_at, places};
ghost use Rattle.grow_core.specs.Steps.{CoreStep, IsStart};
ghost use Rattle.grow_core.specs.Machine.{placer_at};
ghost use Rattle.atam.specs.declared.event.Event.TheVariants.{Look, Claim, Split, Join};

use crate::{CoreScout, PlacedTile, PlacedTiles, Scouts};
use assembly::Grid;
use atam::{CoreStop, Event, Seen};
use attach_rule::pull;
use std::alloc::Global;
use std::marker::Model;
use tile_system::{NoMemory, Place, Site, System, TypeId};

/// The growth core of one system: its tiles, and its scouts.
///
/// It takes two bytes a site for each of the grid and the placers, and room for a tile at each
/// site; so does each scout for what it has seen and for its own tiles. A look and a claim take
/// steady time; a split and a join look at each site of the box.
pub struct Core {
    alloc: Global,
    tiles: PlacedTiles,
    scouts: Scouts,
}

impl Drop for Core {
    fn drop(self) {
        let Core {
            alloc: _alloc,
            tiles: _tiles,
            scouts: _scouts,
        } = self;
    }
}

impl Model for Core {
    ghost use Rattle.std.specs.Prelude.{◌≡◌};
    ghost use Rattle.grow_core.specs.Machine.{BoxedCore};

    ghost Value = { BoxedCore };

    ghost view = { λ c. record {
      area = c.tiles.area;
      state = record { tiles = c.tiles.tiles; scouts = c.scouts.scouts };
    } };

    ghost invariant = { λ c. c.scouts.area ≡ c.tiles.area };
}

impl Core {
    /// The seeds, and scout 0, which owns all numbers. All room but that of new scouts is made here.
    pub fn make(alloc: Global, sys: &System) -> Result<Core, NoMemory>
        ensures area { IfOk result (λ core. core.area ≡ sys.now.area) }
        ensures start { IfOk result (λ core. IsStart sys.now core.state) }
        ensures invariant { IfOk result (λ core. CoreInvariant sys.now core.state) }
    {
        let tiles = PlacedTiles::make(alloc, sys)?;
        let first = CoreScout::make(alloc, u64::MAX, tiles.grid().copy()?)?;
        let scouts = Scouts::make(alloc, first)?;
        Ok(Core {
            alloc,
            tiles,
            scouts,
        })
    }

    /// One event. The core is one of this system, as `make` gives it and each step leaves it. Only
    /// a split takes memory; where there is none, nothing changes.
    pub fn step(&mut self, sys: &System, event: Event) -> Result<Seen, CoreStop>
        requires area { self.old.area ≡ sys.now.area }
        requires invariant { CoreInvariant sys.now self.old.state }
        ensures area { self.new.area ≡ self.old.area }
        ensures step { CoreStep sys.now self.old.state event result self.new.state }
        ensures invariant { CoreInvariant sys.now self.new.state }
    {
        match event {
            Event::Look { who, site } => self.look(sys, who, site),
            Event::Claim { who, site, tile } => self.claim(sys, who, site, tile),
            Event::Split { who } => self.scouts.split(self.alloc, who),
            Event::Join { into, from } => self.scouts.join(into, from),
        }
    }

    fn look(&mut self, sys: &System, who: u32, site: Site) -> Result<Seen, CoreStop>
        requires area { self.old.area ≡ sys.now.area }
        requires invariant { CoreInvariant sys.now self.old.state }
        ensures area { self.new.area ≡ self.old.area }
        ensures step { CoreStep sys.now self.old.state (Look who site) result self.new.state }
    {
        if self.scouts.get(who).is_none() {
            return Err(CoreStop::NoSuchScout);
        }
        if !sys.area().holds(site) {
            return Err(CoreStop::OutsideBox);
        }
        let there = self.tiles.at(site);
        if let Some(tile) = there {
            self.scouts.see(who, Place { site, tile });
        }
        Ok(Seen::Saw(there))
    }

    fn claim(&mut self, sys: &System, who: u32, site: Site, tile: TypeId) -> Result<Seen, CoreStop>
        requires area { self.old.area ≡ sys.now.area }
        requires invariant { CoreInvariant sys.now self.old.state }
        ensures valid { IsValid sys.now }
        ensures area { self.new.area ≡ self.old.area }
        ensures step { CoreStep sys.now self.old.state (Claim who site tile) result self.new.state }
    {
        let area = sys.area();
        let Some(scout) = self.scouts.get(who) else {
            return Err(CoreStop::NoSuchScout);
        };
        if !area.holds(site) {
            return Err(CoreStop::OutsideBox);
        }
        let pull = pull_of(sys, scout.seen(), site, tile);
        if pull < sys.tau() {
            return Err(CoreStop::NotSupported { pull });
        }
        if let Some(there) = self.tiles.at(site) {
            self.scouts.see(who, Place { site, tile: there });
            return Ok(Seen::Held(there));
        }
        let place = Place { site, tile };
        self.tiles.put(PlacedTile { place, placer: who });
        self.scouts.win(who, place);
        Ok(Seen::Won)
    }

    /// The tiles of the core.
    pub fn grid(&self) -> &Grid
        ensures area { result.now.area ≡ self.now.area }
        ensures tiles { SamePlacements (places self.now.state.tiles) result.now.tiles }
        ensures distinct { HasDistinctSites result.now.tiles }
    {
        self.tiles.grid()
    }

    /// What the scout of a name has seen.
    pub fn seen_by(&self, who: u32) -> Option<&Grid>
        ensures scout { option_map (λ seen. seen.now.tiles) result
            ≡ option_map (λ v. v.seen) (scout_at self.now.state.scouts who) }
        ensures area { IfSome result (λ seen. seen.now.area ≡ self.now.area) }
    {
        self.scouts.get(who).map(|scout| scout.seen())
    }

    /// The numbers of the scout of a name: bit i is set for number i.
    pub fn owned_by(&self, who: u32) -> Option<u64>
        ensures { result ≡ option_map (λ v. v.owned) (scout_at self.now.state.scouts who) }
    {
        self.scouts.get(who).map(|scout| scout.owned())
    }

    /// The number that placed the tile at a site; 65535 for a seed.
    pub fn placer_at(&self, site: Site) -> Option<u32>
        ensures { result ≡ placer_at self.now.state.tiles site }
    {
        self.tiles.placer_at(site)
    }
}

// The pull on a type at a site, which is 0 past the last type.
fn pull_of(sys: &System, seen: &Grid, site: Site, tile: TypeId) -> u32
    requires near { IsNearSite site }
    requires fits { Fits sys.now seen.now.tiles }
    ensures { result ≡ model.pull sys.now seen.now.tiles site tile }
{
    if tile.0 >= sys.type_count() {
        return 0;
    }
    pull(sys, seen, site, tile)
}
