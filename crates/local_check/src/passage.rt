// The places of a sequence, put into a grid one by one, with what is seen of each as it comes.
ghost use Rattle.std.specs.Prelude.{◌≡◌, ◌≢◌, ◌<◌, true, false, is_some, None, IfOk, IsTrue};
ghost use Rattle.atam.specs.Placements.{tile_at};
ghost use Rattle.atam.specs.Growth.{IsLegal};
ghost use Rattle.assembly.specs.Cells.{cell_count, site_at};
ghost use Rattle.local_check.specs.Inner.Passages.{CanJudge, IsPassed};

use crate::breaches::Breaches;
use crate::glances::Glances;
use assembly::{Grid, Sequence, site_index};
use atam::Legality;
use std::alloc::Global;
use tile_system::{NoMemory, Site, System};
use type_index::TypeIndex;

// What is found of a sequence: what breaks legality first, or of a legal one the first place that
// isn't held by exactly the temperature, with what holds it, or else whether all places came clean.
#[derive(Clone, Copy)]
pub(crate) enum Passed {
    Breach(Legality),
    NotExact { site: Site, sum: u32 },
    Exact { clean: bool },
}

// Puts the places behind the seeds into a grid of these, as long as they are legal. Where it is
// known that all are, it ends at the first that isn't held by exactly the temperature: whatever
// stands behind that, the verdict is known there.
#[inline(never)]
pub(crate) fn pass<const KNOWN: bool>(
    alloc: Global,
    sys: &System,
    seq: &Sequence,
    types: &TypeIndex,
    grid: &mut Grid,
) -> Result<Passed, NoMemory>
    requires can { CanJudge sys.now seq.now types.now grid.old }
    requires known { KNOWN ≡ true → IsLegal sys.now seq.now }
    ensures area { grid.new.area ≡ grid.old.area }
    ensures passed { IfOk result (IsPassed sys.now seq.now grid.new.tiles) }
{
    let known = KNOWN;
    let tau = sys.tau();
    let mut glances = Glances::make(alloc, sys)?;
    let mut breaches = Breaches::NONE;
    let mut clean = true;
    for index in sys.seeds().len() as u32..seq.len() as u32 {
        let place = seq.get(index as usize);
        let number = site_index(&grid.area(), place.site);
        if is_taken(grid, number, known) {
            return Ok(Passed::Breach(Legality::SiteTaken { index }));
        }
        let glance = glances.at(sys, types, grid, place, number, clean);
        let pull = glance.sum;
        if pull < tau {
            return Ok(Passed::Breach(Legality::TooWeak { index, pull }));
        }
        breaches.see(sys, seq, index as usize, pull, None);
        if is_last(pull, tau, known) {
            let site = place.site;
            return Ok(Passed::NotExact { site, sum: pull });
        }
        clean = glance.is_clean_after(clean);
        grid.put_at(place, number);
    }
    match breaches.inexact {
        Some((site, sum)) => Ok(Passed::NotExact { site, sum }),
        None => Ok(Passed::Exact { clean }),
    }
}

// Whether a tile stands at the site of this number. Where it is known that none does, it is not
// looked at.
#[inline(always)]
fn is_taken(grid: &Grid, number: usize, known: bool) -> bool
    requires within { number < cell_count grid.now.area }
    requires known { known ≡ true → tile_at grid.now.tiles (site_at grid.now.area number) ≡ None }
    ensures { result ≡ is_some (tile_at grid.now.tiles (site_at grid.now.area number)) }
{
    !known && grid.tile(number).is_some()
}

// Whether a place of a sequence that is known to be legal is held by another sum than the
// temperature.
#[inline(always)]
fn is_last(pull: u32, tau: u32, known: bool) -> bool
    ensures last { IsTrue result → (known ≡ true) × (pull ≢ tau) }
    ensures further { result ≡ false → known ≡ true → pull ≡ tau }
{
    known && pull != tau
}
