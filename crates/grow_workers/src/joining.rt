// What several workers leave, joined.
ghost use Rattle.std.specs.Prelude.{All, ◌≡◌, ◌<◌, ◌+◌, ◌++◌, ℕ, List, [], length, Some, IfOk, IsTrue};
ghost use Rattle.atam.specs.declared.site.Site.{Site};
ghost use Rattle.atam.specs.declared.place.TypeId.{TypeId};
ghost use Rattle.atam.specs.Placements.{SamePlacements, tile_at};
ghost use Rattle.assembly.specs.Grids.{TileGrid};
ghost use Rattle.site_table.specs.Seats.{IsSeatOf, SeatValue};
ghost use Rattle.grow_workers.specs.Inner.Rounds.{IsFar};
ghost use Rattle.grow_workers.specs.Inner.Sharing.{AreStartsOf, AreWorksOf, HasSeen, IsSeenPart, IsShared, TeamGrew};
ghost use Rattle.grow_workers.specs.Inner.Wins.{IsParted, PartedGrowth};
ghost use Rattle.grow_workers.specs.declared.starts.Start.{Start};

use crate::leavings::{Harvest, Part};
use crate::shared::Shared;
use assembly::Grid;
use std::alloc::Global;
use tile_io::Gate;
use tile_system::NoMemory;

// What all workers leave, each of whose parts is there if there was memory for it: worker 0's comes
// last. They are joined in the other order than the seats were parted in.
pub(crate) fn join<G: Gate>(
    alloc: Global,
    shared: &Shared<'_, G>,
    done: Vec<Result<Part, NoMemory>>,
) -> Result<Harvest, NoMemory>
    requires shared { IsShared shared.now }
    requires some { 0 < length done.items }
    requires each { All (λ d. IfOk d (λ part. IsSeenPart shared.now part)) done.items }
    ensures grew { IfOk result (λ h. (old : SeatValue) (grid : TileGrid) (starts : List Start) →
        IsSeatOf shared.now.table.now old → AreStartsOf shared.now.sys.now old grid starts →
        AreWorksOf shared.now starts done.items →
        TeamGrew shared.now.sys.now old grid h) }
    ensures part { IfOk result (λ h. IsSeenPart shared.now h.part) }
    ensures count { IfOk result (λ h. length h.others.items + 1 ≡ length done.items) }
    ensures far { IfOk result (λ h. (n : ℕ) →
        All (λ d. IfOk d (λ part. IsFar shared.now.sys.now n part.grid)) done.items →
        IsFar shared.now.sys.now n h.part.grid) }
{
    let mut left = done;
    let first = left.pop().unwrap()?;
    let mut team = Harvest {
        part: first,
        others: Vec::new(alloc),
    };
    while let Some(part) = left.pop() {
        team = join_part(shared, team, part?)?;
    }
    Ok(team)
}

// What several workers leave, and one that was parted off from them.
fn join_part<G: Gate>(
    shared: &Shared<'_, G>,
    rest: Harvest,
    part: Part,
) -> Result<Harvest, NoMemory>
    requires shared { IsShared shared.now }
    requires first { IsSeenPart shared.now rest.part }
    requires second { HasSeen shared.now part.seat part.grid }
    ensures grew { IfOk result (λ h. (old kept given : SeatValue) (start : TileGrid) →
        IsSeatOf shared.now.table.now old → IsParted old kept given →
        TeamGrew shared.now.sys.now kept start rest →
        PartedGrowth shared.now.sys.now given start part.seat part.grid part.won [] →
        TeamGrew shared.now.sys.now old start h) }
    ensures part { IfOk result (λ h. IsSeenPart shared.now h.part) }
    ensures count { IfOk result (λ h.
        length h.others.items ≡ length rest.others.items + 1) }
    ensures far { IfOk result (λ h. (n : ℕ) →
        IsFar shared.now.sys.now n rest.part.grid → IsFar shared.now.sys.now n h.part.grid) }
{
    let Harvest {
        part: first,
        mut others,
    } = rest;
    let Part {
        seat: kept,
        mut grid,
        won,
        log,
    } = first;
    others.insert(0, part.won)?;
    kept.recall_possible();
    part.seat.recall_possible();
    grid.recall_sites();
    part.grid.recall_sites();
    let seat = shared.table.join(kept, part.seat);
    take_over(&mut grid, &part.grid, log.is_some());
    grid.recall_sites();
    let first = Part {
        seat,
        grid,
        won,
        log,
    };
    Ok(Harvest {
        part: first,
        others,
    })
}

// What another has seen comes to a grid, which has it already where it is whole.
fn take_over(grid: &mut Grid, more: &Grid, is_whole: bool)
    requires area { more.now.area ≡ grid.old.area }
    requires agree { (m : Site) (t u : TypeId) → tile_at grid.old.tiles m ≡ Some t →
        tile_at more.now.tiles m ≡ Some u → t ≡ u }
    requires whole { IsTrue is_whole →
        SamePlacements (grid.old.tiles ++ more.now.tiles) grid.old.tiles }
    ensures area { grid.new.area ≡ grid.old.area }
    ensures placements { SamePlacements (grid.old.tiles ++ more.now.tiles) grid.new.tiles }
    ensures whole { IsTrue is_whole → grid.new ≡ grid.old }
{
    if is_whole {
        return;
    }
    grid.merge(more);
}
