// Systems as answers: their one spelling, printed from the system or from a table of its tiles.
ghost use Rattle.std.specs.Prelude.{◌≡◌, true};
ghost use Rattle.tile_text.specs.Spelling.{spelling};
ghost use Rattle.tilebench.specs.Inner.CompiledTiles.{compiled_system};

use crate::room::Reply;
use counter_compile::CounterTiles;
use quadrant_compile::QuadrantTiles;
use tile_io::{Failed, Sink};
use tile_system::System;
use tile_text::print_system;
use turing_compile::MachineTiles;

/// A system, to be spelled.
#[derive(Drop)]
pub struct Spelled {
    pub sys: System,
}

impl Reply for Spelled {
    ghost text = { λ spelled. spelling spelled.sys };

    ghost yes = { λ spelled. true };

    ghost printable = { λ spelled. Unit {0} };

    fn is_yes(&self) -> bool {
        true
    }

    fn print<K: Sink>(&self, out: &mut K) -> Result<(), Failed> {
        print_system(&self.sys, out)
    }
}

/// The tiles of a machine, a quadrant or a counter, listed and not made into a system, to be
/// spelled. One type, since an associated type that is a generic one at a machine gets no proof.
#[derive(Drop)]
pub enum CompiledTiles {
    Machine(MachineTiles),
    Quadrant(QuadrantTiles),
    Counter(CounterTiles),
}

impl Reply for CompiledTiles {
    ghost text = { λ tiles. spelling (compiled_system tiles) };

    ghost yes = { λ tiles. true };

    ghost printable = { λ tiles. Unit {0} };

    fn is_yes(&self) -> bool {
        true
    }

    fn print<K: Sink>(&self, out: &mut K) -> Result<(), Failed> {
        match self {
            CompiledTiles::Machine(tiles) => tiles.print_tiles(out),
            CompiledTiles::Quadrant(tiles) => tiles.print_tiles(out),
            CompiledTiles::Counter(tiles) => tiles.print_tiles(out),
        }
    }
}
