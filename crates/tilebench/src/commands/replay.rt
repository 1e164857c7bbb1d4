// `replay`: an assembly in canonical order.
ghost use Rattle.std.specs.Prelude.{refl};
ghost use Rattle.seq_text.specs.GrowthText.{grid_format};
ghost use Rattle.tilebench.specs.Inner.Reorderings.{is_whole, reordering_text};
ghost use Rattle.tilebench.specs.Inner.CommandRows.{replay_row};
ghost use Rattle.tilebench.specs.Inner.Rooms.{OrdersTypes};
ghost use Rattle.tilebench.specs.Inner.Readings.{taken_or_faulty};

use crate::input::system_and_grid;
use crate::reordering::{Reordering, print_reordering, reordering_of};
use crate::room::{Reply, Room, SourceRoom};
use crate::stop::Stop;
use site_table::Grown;
use std::alloc::Global;
use tile_io::{Failed, Sink, Source};
use tile_system::System;

/// The command.
#[derive(Clone, Copy)]
pub struct Replay;

impl Room for Replay {
    type Answer = Replayed;

    ghost room_row = { λ room. replay_row };

    fn reads_input(&self) -> bool {
        true
    }

    ghost one_of_two = { λ room. taken_or_faulty grid_format };
}

impl SourceRoom for Replay {
    ghost reads_source = { λ room. refl };

    fn answer_from<S: Source>(
        &self,
        alloc: Global,
        source: &mut S,
    ) -> Result<(Replayed, Option<Grown>), Stop> {
        let (sys, grid) = system_and_grid(alloc, source)?;
        let reordering = reordering_of(alloc, &sys, &grid)?;
        Ok((Replayed { sys, reordering }, None))
    }
}

/// The canonical order of an assembly of a system, or what keeps it from having one.
pub struct Replayed {
    pub sys: System,
    pub reordering: Reordering,
}

impl Drop for Replayed {
    fn drop(self) {
        let Replayed {
            sys: _sys,
            reordering: _reordering,
        } = self;
    }
}

impl Reply for Replayed {
    ghost text = { λ replayed. reordering_text replayed.sys replayed.reordering };

    ghost yes = { λ replayed. is_whole replayed.reordering };

    ghost printable = { λ replayed. OrdersTypes replayed.sys replayed.reordering };

    fn is_yes(&self) -> bool {
        matches!(self.reordering, Reordering::Whole(_))
    }

    fn print<K: Sink>(&self, out: &mut K) -> Result<(), Failed> {
        print_reordering(&self.sys, &self.reordering, out)
    }
}
