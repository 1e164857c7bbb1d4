// `turing`: the system of a machine.
ghost use Rattle.tilebench.specs.Inputs.{alone};
ghost use Rattle.tilebench.specs.Inner.CommandRows.{turing_row};
ghost use Rattle.tilebench.specs.Inner.Readings.{taken_or_faulty_machine};

use crate::input::read_machine_alone;
use crate::resources::Resources;
use crate::room::{PlainRoom, Room};
use crate::spelled::CompiledTiles;
use crate::stop::Stop;
use site_table::Grown;
use std::thread::Threads;
use tile_io::Gate;
use turing_compile::machine_tiles;

/// The command.
#[derive(Clone, Copy)]
pub struct Turing;

impl Room for Turing {
    type Answer = CompiledTiles;

    ghost room_row = { λ room. turing_row };

    fn reads_input(&self) -> bool {
        true
    }

    ghost one_of_two = { λ room. taken_or_faulty_machine alone };
}

impl PlainRoom for Turing {
    fn answer<R: Threads + Sync, G: Gate>(
        &self,
        resources: &Resources<'_, R, G>,
        input: Vec<u8>,
    ) -> Result<(CompiledTiles, Option<Grown>), Stop> {
        let machine = read_machine_alone(resources.alloc, &input)?;
        let tiles = machine_tiles(resources.alloc, machine)?;
        Ok((CompiledTiles::Machine(tiles), None))
    }
}
