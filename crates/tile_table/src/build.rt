// The system of a table.
ghost use Rattle.std.specs.Prelude.{◌≡◌, ◌<◌, [], ◌∷◌, Contains, OnOk, IfOk, option_map};
ghost use Rattle.atam.specs.Sites.{InBox, IsBox};
ghost use Rattle.design.specs.TileSets.{TileSet, IsTileSet, IsWithinLimits, cell_site, glue_id, system_of, type_id};
ghost use Rattle.tile_table.specs.Drafts.{HasKinds, HasLabels, draft_of, sides_of};

use crate::{ShortText, Table};
use atam::{BoxArea, GlueId, Place, Side, Site, TypeId};
use std::alloc::Global;
use tile_system::{NoMemory, System, SystemBuilder};

// The temperature of a table's system.
const TAU: u32 = 2;

/// The system of a table, in time that grows with the number of kinds and of labels.
pub fn build_system<K: Copy, G: Copy, T: Table<K, G>>(
    alloc: Global,
    table: &T,
    labels: &[G],
    kinds: &[K],
    seed: K,
    area: BoxArea,
) -> Result<System, NoMemory>
    requires labels { labels.now ≡ (T.tiles table.now).labels }
    requires kinds { kinds.now ≡ (T.tiles table.now).kinds }
    requires numbered { IsTileSet (T.tiles table.now) }
    requires limits { IsWithinLimits (T.tiles table.now) }
    requires seed { Contains kinds.now seed }
    requires area { IsBox area }
    requires start { InBox area (cell_site 0 0) }
    ensures { IfOk result (λ system. system ≡ system_of (T.tiles table.now) seed area) }
{
    let mut builder = SystemBuilder::make(alloc, TAU).map_err(|_| NoMemory)?;
    push_labels(&mut builder, table, labels)?;
    push_kinds(&mut builder, table, kinds)?;
    let tile = type_of_kind(&builder, table, seed);
    builder.set_area(area);
    builder.set_seed(Place {
        site: Site { x: 0, y: 0 },
        tile,
    });
    Ok(builder.build())
}

fn push_labels<K, G: Copy, T: Table<K, G>>(
    builder: &mut SystemBuilder,
    table: &T,
    labels: &[G],
) -> Result<(), NoMemory>
    requires empty { builder.old ≡ draft_of (T.tiles table.now) [] [] }
    requires labels { labels.now ≡ (T.tiles table.now).labels }
    requires numbered { IsTileSet (T.tiles table.now) }
    requires limits { IsWithinLimits (T.tiles table.now) }
    ensures { OnOk result (builder.new ≡ draft_of (T.tiles table.now) labels.now []) }
{
    for label in labels {
        let mut name = ShortText::new();
        table.add_label_name(&mut name, *label);
        builder.push_glue(name.as_slice(), table.strength(*label))?;
    }
    Ok(())
}

fn push_kinds<K: Copy, G: Copy, T: Table<K, G>>(
    builder: &mut SystemBuilder,
    table: &T,
    kinds: &[K],
) -> Result<(), NoMemory>
    requires labels { builder.old ≡ draft_of (T.tiles table.now) (T.tiles table.now).labels [] }
    requires kinds { kinds.now ≡ (T.tiles table.now).kinds }
    requires numbered { IsTileSet (T.tiles table.now) }
    requires limits { IsWithinLimits (T.tiles table.now) }
    ensures { OnOk result (builder.new
        ≡ draft_of (T.tiles table.now) (T.tiles table.now).labels kinds.now) }
{
    for kind in kinds {
        let mut name = ShortText::new();
        table.add_kind_name(&mut name, *kind);
        let sides = glues_of_kind(builder, table, *kind);
        builder.push_type(name.as_slice(), sides)?;
    }
    Ok(())
}

// The glues on the sides of a kind, in the order north, east, south, west.
fn glues_of_kind<K: Copy, G: Copy, T: Table<K, G>>(
    builder: &SystemBuilder,
    table: &T,
    kind: K,
) -> [Option<GlueId>; 4]
    requires labels { HasLabels (T.tiles table.now) builder.now }
    requires numbered { IsTileSet (T.tiles table.now) }
    requires limits { IsWithinLimits (T.tiles table.now) }
    requires kind { Contains (T.tiles table.now).kinds kind }
    ensures { result ≡ sides_of (T.tiles table.now) kind }
{
    let north = glue_on_side(builder, table, kind, Side::North);
    let east = glue_on_side(builder, table, kind, Side::East);
    let south = glue_on_side(builder, table, kind, Side::South);
    let west = glue_on_side(builder, table, kind, Side::West);
    [north, east, south, west]
}

fn glue_on_side<K: Copy, G: Copy, T: Table<K, G>>(
    builder: &SystemBuilder,
    table: &T,
    kind: K,
    side: Side,
) -> Option<GlueId>
    requires labels { HasLabels (T.tiles table.now) builder.now }
    requires numbered { IsTileSet (T.tiles table.now) }
    requires limits { IsWithinLimits (T.tiles table.now) }
    requires kind { Contains (T.tiles table.now).kinds kind }
    ensures { result ≡ option_map (glue_id (T.tiles table.now)) ((T.tiles table.now).side kind side) }
{
    let label = table.side(kind, side)?;
    let mut name = ShortText::new();
    table.add_label_name(&mut name, label);
    builder.find_glue(name.as_slice())
}

fn type_of_kind<K: Copy, G: Copy, T: Table<K, G>>(
    builder: &SystemBuilder,
    table: &T,
    kind: K,
) -> TypeId
    requires kinds { HasKinds (T.tiles table.now) builder.now }
    requires numbered { IsTileSet (T.tiles table.now) }
    requires limits { IsWithinLimits (T.tiles table.now) }
    requires kind { Contains (T.tiles table.now).kinds kind }
    ensures { result ≡ type_id (T.tiles table.now) kind }
{
    let mut name = ShortText::new();
    table.add_kind_name(&mut name, kind);
    builder.find_type(name.as_slice()).unwrap()
}
