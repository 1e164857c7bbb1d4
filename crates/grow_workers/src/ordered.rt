// Growth by several workers, of whom worker 0 goes through the whole box in canonical order.
ghost use Rattle.std.specs.Prelude.{◌≡◌, true, IfOk, IfSome, IsSome};
ghost use Rattle.type_index.specs.Indexes.{IsIndexOf};
ghost use Rattle.grow_workers.specs.Workers.{IsGrownBy, IsSeenOrder};
ghost use Rattle.grow_workers.specs.Inner.Sharing.{IsOrderLog};

use crate::goes::Goes;
use crate::growth::grow_whole;
use crate::in_order::grow_in_order_seeing;
use crate::shared::Lent;
use assembly::{Grid, Sequence};
use fan_out::WorkerCount;
use frontier_seat::ClaimLog;
use site_table::Grown;
use std::alloc::Global;
use std::thread::Threads;
use tile_io::Gate;
use tile_system::{NoMemory, System};

/// The canonical order of what has grown, and whether it is clear that each tile but the seeds came
/// clean, held by exactly the temperature.
#[derive(Drop)]
pub struct SeenOrder {
    pub order: Sequence,
    pub clean: bool,
}

/// What `grow_by_index` leaves with the choice 0, and its canonical order where that is seen on the
/// way: worker 0 goes through the whole box, always at the least site that is open to what it has
/// seen, and takes over what others have placed there; each of the others claims a few tiles in its
/// bands, or none where the types are more than 4096, and ends. So it takes about as long as one
/// worker alone, however the sites hang together. One worker always sees the order. Several don't
/// where another has placed a type that worker 0 did not pick, as where several attach; no clause
/// says more of it.
pub fn grow_seeing_order<R: Threads + Sync, G: Gate>(
    rt: &R,
    alloc: Global,
    lent: &Lent<'_, G>,
    workers: WorkerCount,
) -> Result<(Grown, Option<SeenOrder>), NoMemory>
    requires { IsIndexOf lent.now.sys.now lent.now.types.now }
    ensures growth { IfOk result (λ r. IsGrownBy lent.now.sys.now workers.count r.0) }
    ensures order { IfOk result (λ r. IfSome r.1 (IsSeenOrder lent.now.sys.now r.0.grid.tiles)) }
    ensures sole { workers.count ≡ 1 → IfOk result (λ r. IsSome r.1) }
{
    if workers.get() == 1 {
        let (grown, seen) = grow_in_order_seeing(alloc, lent)?;
        return Ok((grown, Some(seen)));
    }
    let (grown, log) = grow_whole(rt, alloc, lent, workers, Goes::InOrder)?;
    let order = order_of(alloc, lent.sys, grown.grid(), log)?;
    Ok((grown, order))
}

// The canonical order of what has grown, if the log has it.
fn order_of(
    alloc: Global,
    sys: &System,
    grid: &Grid,
    log: Option<ClaimLog>,
) -> Result<Option<SeenOrder>, NoMemory>
    requires area { grid.now.area ≡ sys.now.area }
    requires log { IfSome log (IsOrderLog sys.now grid.now.tiles) }
    ensures { IfOk result (λ r. IfSome r (IsSeenOrder sys.now grid.now.tiles)) }
{
    let Some(log) = log else {
        return Ok(None);
    };
    if !log.is_in_order() {
        return Ok(None);
    }
    let clean = log.is_clean();
    let order = log.sequence_of(alloc, sys, grid)?;
    Ok(Some(SeenOrder { order, clean }))
}
