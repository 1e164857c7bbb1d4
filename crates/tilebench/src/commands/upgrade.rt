// `upgrade`: the text of a system in the newest version.
ghost use Rattle.std.specs.Prelude.{◌≡◌, true};
ghost use Rattle.tile_text.specs.Spelling.{newest_spelling};
ghost use Rattle.tilebench.specs.Inputs.{alone};
ghost use Rattle.tilebench.specs.Inner.CommandRows.{upgrade_row};
ghost use Rattle.tilebench.specs.Inner.Readings.{taken_or_faulty};

use crate::input::read_alone;
use crate::resources::Resources;
use crate::room::{PlainRoom, Reply, Room};
use crate::stop::Stop;
use site_table::Grown;
use std::thread::Threads;
use tile_io::{Failed, Gate, Sink};
use tile_system::System;
use tile_text::print_newest;

/// The command.
#[derive(Clone, Copy)]
pub struct Upgrade;

impl Room for Upgrade {
    type Answer = Upgraded;

    ghost room_row = { λ room. upgrade_row };

    fn reads_input(&self) -> bool {
        true
    }

    ghost one_of_two = { λ room. taken_or_faulty alone };
}

impl PlainRoom for Upgrade {
    fn answer<R: Threads + Sync, G: Gate>(
        &self,
        resources: &Resources<'_, R, G>,
        input: Vec<u8>,
    ) -> Result<(Upgraded, Option<Grown>), Stop> {
        let sys = read_alone(resources.alloc, &input)?;
        Ok((Upgraded { sys }, None))
    }
}

/// A system, to be spelled in the newest version.
#[derive(Drop)]
pub struct Upgraded {
    pub sys: System,
}

impl Reply for Upgraded {
    ghost text = { λ upgraded. newest_spelling upgraded.sys };

    ghost yes = { λ upgraded. true };

    ghost printable = { λ upgraded. Unit {0} };

    fn is_yes(&self) -> bool {
        true
    }

    fn print<K: Sink>(&self, out: &mut K) -> Result<(), Failed> {
        print_newest(&self.sys, out)
    }
}
