// `counter`: the system of a binary counter.
ghost use Rattle.tilebench.specs.Inner.CommandRows.{counter_row};

use crate::resources::Resources;
use crate::room::{PlainRoom, Room};
use crate::spelled::CompiledTiles;
use crate::stop::Stop;
use counter_compile::counter_tiles;
use site_table::Grown;
use std::thread::Threads;
use tile_io::Gate;

/// The command.
#[derive(Clone, Copy)]
pub struct Counter {
    pub bits: u32,
    pub start: u64,
}

impl Room for Counter {
    type Answer = CompiledTiles;

    ghost room_row = { λ room. counter_row room.bits room.start };

    fn reads_input(&self) -> bool {
        false
    }

    ghost one_of_two = { λ room input fault takes fails. fails };
}

impl PlainRoom for Counter {
    fn answer<R: Threads + Sync, G: Gate>(
        &self,
        resources: &Resources<'_, R, G>,
        _input: Vec<u8>,
    ) -> Result<(CompiledTiles, Option<Grown>), Stop> {
        let tiles = counter_tiles(resources.alloc, self.bits, self.start)?;
        Ok((CompiledTiles::Counter(tiles), None))
    }
}
