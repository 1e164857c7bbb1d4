// A tile set whose kinds and labels are listed, to be printed.
ghost use Rattle.std.specs.Prelude.{◌≡◌, Contains};
ghost use Rattle.tile_io.specs.Prints.{Prints};
ghost use Rattle.tile_text.specs.Spelling.{spelling};
ghost use Rattle.design.specs.TileSets.{IsTileSet, IsWithinLimits, system_of};

use crate::{Table, print_table};
use atam::BoxArea;
use std::marker::Model;
use tile_io::{Failed, Sink};

/// The tile set of a table with the lists of its labels and kinds, seen as the system that
/// `build_system` gives.
#[derive(Drop)]
pub struct ListedTiles<K, G, T: Table<K, G>> {
    table: T,
    labels: Vec<G>,
    kinds: Vec<K>,
    seed: K,
    area: BoxArea,
}

impl<K, G, T: Table<K, G>> Model for ListedTiles<K, G, T> {
    ghost use Rattle.std.specs.Prelude.{◌≡◌, Contains};
    ghost use Rattle.atam.specs.TileSystem.{TileSystem};
    ghost use Rattle.design.specs.TileSets.{IsTileSet, IsWithinLimits, system_of};

    ghost Value = { TileSystem };

    ghost view = { λ l. system_of (T.tiles l.table) l.seed l.area };

    ghost invariant = { λ l. (l.labels.items ≡ (T.tiles l.table).labels)
        × (l.kinds.items ≡ (T.tiles l.table).kinds)
        × IsTileSet (T.tiles l.table)
        × IsWithinLimits (T.tiles l.table)
        × Contains l.kinds.items l.seed };
}

impl<K: Copy, G: Copy, T: Table<K, G>> ListedTiles<K, G, T> {
    /// A table with its labels and its kinds in their order, and the kind of the seed at (0, 0).
    pub fn new(
        table: T,
        labels: Vec<G>,
        kinds: Vec<K>,
        seed: K,
        area: BoxArea,
    ) -> ListedTiles<K, G, T>
        requires labels { labels.items ≡ (T.tiles table).labels }
        requires kinds { kinds.items ≡ (T.tiles table).kinds }
        requires numbered { IsTileSet (T.tiles table) }
        requires limits { IsWithinLimits (T.tiles table) }
        requires seed { Contains kinds.items seed }
        ensures { result ≡ system_of (T.tiles table) seed area }
    {
        ListedTiles {
            table,
            labels,
            kinds,
            seed,
            area,
        }
    }

    /// Prints the text of the system, which is not made. It takes no memory.
    pub fn print_tiles<S: Sink>(&self, sink: &mut S) -> Result<(), Failed>
        ensures { Prints S.written S.faults sink.old sink.new result (spelling self.now) }
    {
        print_table(
            &self.table,
            self.labels.as_slice(),
            self.kinds.as_slice(),
            self.seed,
            self.area,
            sink,
        )
    }
}
