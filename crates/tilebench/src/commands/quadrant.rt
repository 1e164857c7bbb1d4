// `quadrant`: the system of a two-input rule.
ghost use Rattle.tilebench.specs.Inputs.{alone};
ghost use Rattle.tilebench.specs.Inner.CommandRows.{quadrant_row};
ghost use Rattle.tilebench.specs.Inner.Readings.{taken_or_faulty_quadrant};

use crate::input::read_quadrant_alone;
use crate::resources::Resources;
use crate::room::{PlainRoom, Room};
use crate::spelled::CompiledTiles;
use crate::stop::Stop;
use quadrant_compile::quadrant_tiles;
use site_table::Grown;
use std::thread::Threads;
use tile_io::Gate;

/// The command.
#[derive(Clone, Copy)]
pub struct Quadrant;

impl Room for Quadrant {
    type Answer = CompiledTiles;

    ghost room_row = { λ room. quadrant_row };

    fn reads_input(&self) -> bool {
        true
    }

    ghost one_of_two = { λ room. taken_or_faulty_quadrant alone };
}

impl PlainRoom for Quadrant {
    fn answer<R: Threads + Sync, G: Gate>(
        &self,
        resources: &Resources<'_, R, G>,
        input: Vec<u8>,
    ) -> Result<(CompiledTiles, Option<Grown>), Stop> {
        let quadrant = read_quadrant_alone(resources.alloc, &input)?;
        let tiles = quadrant_tiles(resources.alloc, quadrant)?;
        Ok((CompiledTiles::Quadrant(tiles), None))
    }
}
