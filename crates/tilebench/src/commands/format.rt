// `format`: the one spelling of a system.
ghost use Rattle.tilebench.specs.Inputs.{alone};
ghost use Rattle.tilebench.specs.Inner.CommandRows.{format_row};
ghost use Rattle.tilebench.specs.Inner.Readings.{taken_or_faulty};

use crate::input::read_alone;
use crate::resources::Resources;
use crate::room::{PlainRoom, Room};
use crate::spelled::Spelled;
use crate::stop::Stop;
use site_table::Grown;
use std::thread::Threads;
use tile_io::Gate;

/// The command.
#[derive(Clone, Copy)]
pub struct Format;

impl Room for Format {
    type Answer = Spelled;

    ghost room_row = { λ room. format_row };

    fn reads_input(&self) -> bool {
        true
    }

    ghost one_of_two = { λ room. taken_or_faulty alone };
}

impl PlainRoom for Format {
    fn answer<R: Threads + Sync, G: Gate>(
        &self,
        resources: &Resources<'_, R, G>,
        input: Vec<u8>,
    ) -> Result<(Spelled, Option<Grown>), Stop> {
        let sys = read_alone(resources.alloc, &input)?;
        Ok((Spelled { sys }, None))
    }
}
