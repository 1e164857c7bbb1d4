// `picture`: an assembly as text, a character for each site.
ghost use Rattle.std.specs.Prelude.{◌≡◌, true, refl, All};
ghost use Rattle.atam.specs.TileSystem.{IsType};
ghost use Rattle.seq_text.specs.GrowthText.{grid_format};
ghost use Rattle.picture.specs.Pictures.{picture_text};
ghost use Rattle.tilebench.specs.Inner.CommandRows.{picture_row};
ghost use Rattle.tilebench.specs.Inner.Readings.{taken_or_faulty};

use crate::input::system_and_grid;
use crate::room::{Reply, Room, SourceRoom};
use crate::stop::Stop;
use assembly::Grid;
use picture::print_picture;
use site_table::Grown;
use std::alloc::Global;
use tile_io::{Failed, Sink, Source};
use tile_system::System;

/// The command.
#[derive(Clone, Copy)]
pub struct Picture;

impl Room for Picture {
    type Answer = Pictured;

    ghost room_row = { λ room. picture_row };

    fn reads_input(&self) -> bool {
        true
    }

    ghost one_of_two = { λ room. taken_or_faulty grid_format };
}

impl SourceRoom for Picture {
    ghost reads_source = { λ room. refl };

    fn answer_from<S: Source>(
        &self,
        alloc: Global,
        source: &mut S,
    ) -> Result<(Pictured, Option<Grown>), Stop> {
        let (sys, grid) = system_and_grid(alloc, source)?;
        Ok((Pictured { sys, grid }, None))
    }
}

/// An assembly of a system, to be pictured.
pub struct Pictured {
    pub sys: System,
    pub grid: Grid,
}

impl Drop for Pictured {
    fn drop(self) {
        let Pictured {
            sys: _sys,
            grid: _grid,
        } = self;
    }
}

impl Reply for Pictured {
    ghost text = { λ pictured. picture_text pictured.sys pictured.grid };

    ghost yes = { λ pictured. true };

    ghost printable = { λ pictured. All (λ p. IsType pictured.sys p.tile) pictured.grid.tiles };

    fn is_yes(&self) -> bool {
        true
    }

    fn print<K: Sink>(&self, out: &mut K) -> Result<(), Failed> {
        print_picture(&self.sys, &self.grid, out)
    }
}
