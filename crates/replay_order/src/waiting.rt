// The sites of a box that wait for their turn, by their numbers.
ghost use Rattle.std.specs.Prelude.{ℕ, ◌≡◌, ◌↔◌, ◌<◌, ◌≤◌, slice_index, All, IsTrue, IfSome, IfNone, IfOk};
ghost use Rattle.atam.specs.declared.limits.TheConstants.{MOST_TAU};
ghost use Rattle.atam.specs.Sites.{InBox, IsBox};
ghost use Rattle.atam.specs.Placements.{HasDistinctSites};
ghost use Rattle.assembly.specs.Cells.{cell_count, site_at};
ghost use Rattle.atam.specs.TileSystem.{IsType};
ghost use Rattle.atam.specs.Assembly.{Fits};
ghost use Rattle.replay_order.specs.Inner.ReadyNumbers.{IsAmong};
ghost use Rattle.replay_order.specs.Inner.Replays.{due_at, given_to, given_beside, IsInSpan, Lowers, TakesLeast};

use crate::bonds::Bonds;
use crate::ready::ReadyNumbers;
use assembly::{Grid, number_beside, site_index};
use std::alloc::Global;
use std::marker::Model;
use tile_system::{BoxArea, NoMemory, Place, Side};

// How much pull the tile at each site of a span lacks to be held, and which of these sites are ready.
// A site is ready once, when its tile lacks nothing any more. Any other site counts as one that
// lacks nothing from the beginning. Each call but `make` takes no memory.
pub(crate) struct WaitingSites {
    area: BoxArea,
    first: usize,
    end: usize,
    lacks: Vec<u16>,
    ready: ReadyNumbers,
}

impl Drop for WaitingSites {
    fn drop(self) {
        let WaitingSites {
            area: _area,
            first: _first,
            end: _end,
            lacks: _lacks,
            ready: _ready,
        } = self;
    }
}

impl Model for WaitingSites {
    ghost use Rattle.replay_order.specs.Inner.Replays.{Waiting, HasEachSite};

    ghost Value = { Waiting };

    ghost view = { λ w. record {
      area = w.area;
      first = w.first;
      end = w.end;
      lacks = w.lacks.items;
      ready = w.ready;
    } };

    ghost invariant = { λ w. HasEachSite (record {
      area = w.area;
      first = w.first;
      end = w.end;
      lacks = w.lacks.items;
      ready = w.ready;
    }) };
}

impl WaitingSites {
    // The sites with numbers from the first one to before the end wait. None is ready: a seed lacks
    // nothing from the beginning, and each other tile all.
    pub(crate) fn make(
        alloc: Global,
        area: BoxArea,
        tau: u32,
        seeds: &[Place],
        first: usize,
        end: usize,
    ) -> Result<WaitingSites, NoMemory>
        requires limits { IsBox area }
        requires small { tau ≤ MOST_TAU }
        requires inside { All (λ p. InBox area p.site) seeds.now }
        requires distinct { HasDistinctSites seeds.now }
        requires span { (first ≤ end) × (end ≤ cell_count area) }
        ensures area { IfOk result (λ w. w.area ≡ area) }
        ensures span { IfOk result (λ w. (w.first ≡ first) × (w.end ≡ end)) }
        ensures lacks { IfOk result (λ w. (i : ℕ) → IsInSpan w i →
            slice_index w.lacks i ≡ due_at seeds.now tau (site_at area i)) }
        ensures others { IfOk result (λ w. (i : ℕ) → i < cell_count area → ¬ IsInSpan w i →
            slice_index w.lacks i ≡ 0) }
        ensures empty { IfOk result (λ w. (i : ℕ) → ¬ IsAmong w.ready i) }
    {
        let sites = area.width() * area.height();
        let ready = ReadyNumbers::make(alloc, sites)?;
        let mut lacks = Vec::with_capacity(alloc, sites as usize)?;
        lacks.resize(first, 0)?;
        lacks.resize(end, tau as u16)?;
        lacks.resize(sites as usize, 0)?;
        for seed in seeds {
            lacks[site_index(&area, seed.site)] = 0;
        }
        Ok(WaitingSites {
            area,
            first,
            end,
            lacks,
            ready,
        })
    }

    // Gives each tile beside a listed one the strength that it has with this.
    #[inline(always)]
    pub(crate) fn lower_beside(&mut self, bonds: &Bonds, grid: &Grid, place: Place, number: usize)
        requires area { grid.now.area ≡ self.old.area }
        requires inside { InBox self.old.area place.site }
        requires within { number < cell_count self.old.area }
        requires number { site_at self.old.area number ≡ place.site }
        requires kind { IsType bonds.now place.tile }
        requires fits { Fits bonds.now grid.now.tiles }
        ensures { Lowers self.old.area (given_beside bonds.now grid.now.tiles place)
            self.old self.new }
    {
        self.lower(bonds, grid, place, number, Side::North);
        self.lower(bonds, grid, place, number, Side::East);
        self.lower(bonds, grid, place, number, Side::South);
        self.lower(bonds, grid, place, number, Side::West);
    }

    // The same for the tile on one side of it, by the number of its site.
    #[inline(always)]
    fn lower(&mut self, bonds: &Bonds, grid: &Grid, place: Place, number: usize, side: Side)
        requires area { grid.now.area ≡ self.old.area }
        requires inside { InBox self.old.area place.site }
        requires within { number < cell_count self.old.area }
        requires number { site_at self.old.area number ≡ place.site }
        requires kind { IsType bonds.now place.tile }
        requires fits { Fits bonds.now grid.now.tiles }
        ensures { Lowers self.old.area (given_to bonds.now grid.now.tiles place side)
            self.old self.new }
    {
        let Some(beside) = number_beside(&self.area, place.site, number, side) else {
            return;
        };
        let lack = self.lacks[beside];
        if lack == 0 {
            return;
        }
        let Some(tile) = grid.tile(beside) else {
            return;
        };
        let strength = bonds.between(place.tile, side, tile);
        if strength < lack {
            self.lacks[beside] = lack - strength;
            return;
        }
        self.lacks[beside] = 0;
        self.ready.insert(beside);
    }

    // Takes the least ready site out.
    #[inline(always)]
    pub(crate) fn take_least(&mut self) -> Option<usize>
        ensures area { self.new.area ≡ self.old.area }
        ensures span { (self.new.first ≡ self.old.first) × (self.new.end ≡ self.old.end) }
        ensures lacks { self.new.lacks ≡ self.old.lacks }
        ensures least { IfSome result (TakesLeast self.old self.new) }
        ensures none { IfNone result ((i : ℕ) → ¬ IsAmong self.old.ready i) }
    {
        self.ready.take_least()
    }

    // Whether the tile at the site with this number lacks something.
    pub(crate) fn is_lacking(&self, number: usize) -> bool
        requires { number < cell_count self.now.area }
        ensures { IsTrue result ↔ (0 < slice_index self.now.lacks number) }
    {
        self.lacks[number] > 0
    }
}
