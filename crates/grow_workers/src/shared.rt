// What all workers of a growth share.
ghost use Rattle.std.specs.Prelude.{◌≡◌};
ghost use Rattle.type_index.specs.Indexes.{IsIndexOf};
ghost use Rattle.grow_workers.specs.Inner.Sharing.{IsShared};

use crate::goes::Goes;
use crate::team::Team;
use fan_out::WorkerCount;
use site_table::SiteTable;
use tile_io::Gate;
use tile_system::System;
use type_index::TypeIndex;

/// What a growth is lent: a system, an index of the system's types, and the gate that each worker
/// passes.
#[derive(Drop)]
pub struct Lent<'a, G: Gate> {
    pub sys: &'a System,
    pub types: &'a TypeIndex,
    pub gate: &'a G,
}

// The same with a table of the system, of how many workers each is one, which way they go, and what
// they tell each other.
#[derive(Drop)]
pub(crate) struct Shared<'a, G: Gate> {
    pub sys: &'a System,
    pub table: &'a SiteTable,
    pub types: &'a TypeIndex,
    pub gate: &'a G,
    pub workers: WorkerCount,
    pub goes: Goes,
    pub team: Team,
}

impl<'a, G: Gate> Shared<'a, G> {
    // What so many workers share before they begin.
    pub(crate) fn of(
        sys: &'a System,
        table: &'a SiteTable,
        types: &'a TypeIndex,
        gate: &'a G,
        workers: WorkerCount,
        goes: Goes,
    ) -> Shared<'a, G>
        requires index { IsIndexOf sys.now types.now }
        requires system { table.now.sys ≡ sys.now }
        ensures shared { IsShared result }
        ensures system { result.sys.now ≡ sys.now }
        ensures table { result.table.now ≡ table.now }
        ensures workers { result.workers ≡ workers }
        ensures goes { result.goes ≡ goes }
    {
        Shared {
            sys,
            table,
            types,
            gate,
            workers,
            goes,
            team: Team::of(workers),
        }
    }
}
