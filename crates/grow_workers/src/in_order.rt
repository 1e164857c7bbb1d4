// Growth by one worker in canonical order.
ghost use Rattle.std.specs.Prelude.{◌≡◌, ◌<◌, ◌-◌, ◌^◌, [], IfOk, IsTrue};
ghost use Rattle.atam.specs.Placements.{SamePlacements};
ghost use Rattle.type_index.specs.Indexes.{IsIndexOf};
ghost use Rattle.grow_workers.specs.Workers.{IsGrownBy, IsSeenOrder};
ghost use Rattle.grow_workers.specs.Inner.Sharing.{BeginsLog, HasSeen, IsLogOf, IsOrderLog, IsShared};
ghost use Rattle.grow_workers.specs.Inner.Wins.{PartedGrowth};

use crate::goes::Goes;
use crate::leavings::{Part, part_of, scout_of};
use crate::ordered::SeenOrder;
use crate::picks::picks_in_order;
use crate::prepared::{Prepared, close, prepare};
use crate::shared::{Lent, Shared};
use assembly::Grid;
use fan_out::WorkerCount;
use frontier_seat::ClaimLog;
use site_table::{Grown, SiteSeat};
use std::alloc::Global;
use std::marker::Brand;
use std::sync::ledger::{Blank, Ledger};
use tile_io::{Gate, Steps};
use tile_system::NoMemory;

// What `grow` leaves with one worker and the choice 0, and its canonical sequence, which is the order
// of its claims: no pass has to find it. With it comes whether it is clear that each tile came clean,
// which was seen as it was claimed. It calls the gate once, before its first claim.
pub(crate) fn grow_in_order_seeing<G: Gate>(
    alloc: Global,
    lent: &Lent<'_, G>,
) -> Result<(Grown, SeenOrder), NoMemory>
    requires { IsIndexOf lent.now.sys.now lent.now.types.now }
    ensures growth { IfOk result (λ r. IsGrownBy lent.now.sys.now 1 r.0) }
    ensures order { IfOk result (λ r. IsSeenOrder lent.now.sys.now r.0.grid.tiles r.1) }
{
    let (grown, log) = claim_in_order(alloc, lent)?;
    let order = log.sequence_of(alloc, lent.sys, grown.grid())?;
    let clean = log.is_clean();
    Ok((grown, SeenOrder { order, clean }))
}

// The same with the log of the claims in place of their sequence.
pub(crate) fn claim_in_order<G: Gate>(
    alloc: Global,
    lent: &Lent<'_, G>,
) -> Result<(Grown, ClaimLog), NoMemory>
    requires { IsIndexOf lent.now.sys.now lent.now.types.now }
    ensures growth { IfOk result (λ r. IsGrownBy lent.now.sys.now 1 r.0) }
    ensures log { IfOk result (λ r. IsOrderLog lent.now.sys.now r.0.grid.tiles r.1) }
    ensures sole { IfOk result (λ r. IsTrue r.1.in_order) }
{
    let Prepared { table, seat, seen } = prepare(alloc, lent.sys)?;
    let workers = WorkerCount::new(1);
    let shared = Shared::of(
        lent.sys,
        &table,
        lent.types,
        lent.gate,
        workers,
        Goes::InOrder,
    );
    lent.gate.arrive(0);
    let (part, log) = sweep_logged(alloc, &shared, seat, seen)?;
    drop(shared);
    Ok((close(table, part.seat, part.grid), log))
}

// One sweep from the seeds on, always at the least open site, and a log of its claims. It picks the
// ledger.
pub(crate) fn sweep_logged<G: Gate>(
    alloc: Global,
    shared: &Shared<'_, G>,
    seat: SiteSeat,
    seen: Grid,
) -> Result<(Part, ClaimLog), NoMemory>
    requires shared { IsShared shared.now }
    requires seen { HasSeen shared.now seat seen }
    requires seeds { SamePlacements shared.now.sys.now.seeds seen.tiles }
    ensures seen { IfOk result (λ r. HasSeen shared.now r.0.seat r.0.grid) }
    ensures grew { IfOk result (λ r.
        PartedGrowth shared.now.sys.now seat seen r.0.seat r.0.grid r.0.won []) }
    ensures log { IfOk result (λ r. IsLogOf shared.now.sys.now r.0.grid r.1) }
    ensures sole { seat.scout.owned ≡ 2 ^ 64 - 1 → IfOk result (λ r. IsTrue r.1.in_order) }
{
    shared.sys.recall_valid();
    let mut log = ClaimLog::make(alloc, shared.sys.area())?;
    let part = sweep_counted::<Brand, G>(alloc, shared, seat, seen, &mut log, Blank::new(1))?;
    Ok((part, log))
}

fn sweep_counted<L: Ledger, G: Gate>(
    alloc: Global,
    shared: &Shared<'_, G>,
    seat: SiteSeat,
    seen: Grid,
    log: &mut ClaimLog,
    blank: Blank,
) -> Result<Part, NoMemory>
    requires blank { (blank.name ≡ L.name) × (blank.parts ≡ L.parts) × (0 < blank.parts) }
    requires shared { IsShared shared.now }
    requires seen { HasSeen shared.now seat seen }
    requires begins { BeginsLog shared.now.sys.now seen log.old }
    ensures seen { IfOk result (λ r. HasSeen shared.now r.seat r.grid) }
    ensures grew { IfOk result (λ r.
        PartedGrowth shared.now.sys.now seat seen r.seat r.grid r.won []) }
    ensures log { IfOk result (λ r. IsLogOf shared.now.sys.now r.grid log.new) }
    ensures sole { seat.scout.owned ≡ 2 ^ 64 - 1 → IfOk result (λ _. IsTrue log.new.in_order) }
{
    let mut scout = scout_of(alloc, shared, seat, seen)?;
    let mut chooser = picks_in_order();
    let mut steps: Steps<L> = Steps::open(blank);
    scout.sweep_in_order(shared.sys, shared.table, &mut chooser, &mut steps, log);
    Ok(part_of(scout))
}
