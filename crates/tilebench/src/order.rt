// The canonical order of a producible assembly, and growth that goes in it.
ghost use Rattle.std.specs.Prelude.{◌≡◌, true, IfOk, IfSome};
ghost use Rattle.atam.specs.Assembly.{Fits};
ghost use Rattle.atam.specs.Growth.{IsProducible};
ghost use Rattle.type_cache.specs.Clean.{CameExact};
ghost use Rattle.type_index.specs.Indexes.{IsIndexOf};
ghost use Rattle.grow_workers.specs.Workers.{IsGrownBy, IsSeenOrder};
ghost use Rattle.replay_order.specs.ReplayAnswers.{IsWholeOrder};

use crate::resources::Resources;
use assembly::Grid;
use command_line::Crew;
use fan_out::WorkerCount;
use grow_workers::{Lent, SeenOrder, grow_by_index, grow_seeing_order};
use replay_order::replay_producible_by;
use site_table::Grown;
use std::alloc::Global;
use std::thread::Threads;
use tile_io::Gate;
use tile_system::{NoMemory, System};
use type_index::TypeIndex;

/// Grows a system, and tells its canonical order too where growth went in it, as with the choice 0
/// one of the workers does. The index of the types is lent.
pub fn grow_ordered<R: Threads + Sync, G: Gate>(
    resources: &Resources<'_, R, G>,
    sys: &System,
    types: &TypeIndex,
    crew: Crew,
) -> Result<(Grown, Option<SeenOrder>), NoMemory>
    requires { IsIndexOf sys.now types.now }
    ensures grew { IfOk result (λ r. IsGrownBy sys.now crew.workers.count r.0) }
    ensures order { IfOk result (λ r. IfSome r.1 (IsSeenOrder sys.now r.0.grid.tiles)) }
{
    let lent = Lent {
        sys,
        types,
        gate: resources.gate,
    };
    let Crew { workers, choice } = crew;
    if choice == 0 {
        return grow_seeing_order(resources.rt, resources.alloc, &lent, workers);
    }
    let grown = grow_by_index(resources.rt, resources.alloc, &lent, workers, choice)?;
    Ok((grown, None))
}

/// Grows a system, with an index of the types of its own.
pub fn grow_by_crew<R: Threads + Sync, G: Gate>(
    resources: &Resources<'_, R, G>,
    sys: &System,
    crew: Crew,
) -> Result<Grown, NoMemory>
    ensures { IfOk result (IsGrownBy sys.now crew.workers.count) }
{
    let types = TypeIndex::build(resources.alloc, sys)?;
    let lent = Lent {
        sys,
        types: &types,
        gate: resources.gate,
    };
    let Crew { workers, choice } = crew;
    grow_by_index(resources.rt, resources.alloc, &lent, workers, choice)
}

/// The canonical sequence of a producible grid, which may be known, by so many workers.
pub fn known_or_found_order<R: Threads + Sync, G: Gate>(
    resources: &Resources<'_, R, G>,
    sys: &System,
    grid: &Grid,
    known: Option<SeenOrder>,
    workers: WorkerCount,
) -> Result<SeenOrder, NoMemory>
    requires area { grid.now.area ≡ sys.now.area }
    requires fits { Fits sys.now grid.now.tiles }
    requires producible { IsProducible sys.now grid.now.tiles }
    requires known { IfSome known (IsSeenOrder sys.now grid.now.tiles) }
    ensures order { IfOk result (λ seen. IsWholeOrder sys.now grid.now.tiles seen.order) }
    ensures clean { IfOk result (λ seen. seen.clean ≡ true → CameExact sys.now seen.order) }
{
    sys.recall_valid();
    grid.recall_sites();
    match known {
        Some(seen) => Ok(seen),
        None => {
            let order = replay_producible_by(resources.rt, resources.alloc, sys, grid, workers)?;
            Ok(SeenOrder {
                order,
                clean: false,
            })
        }
    }
}
