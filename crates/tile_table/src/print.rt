// A table is printed as the text of its system.
ghost use Rattle.std.specs.Prelude.{◌≡◌, ◌≤◌, ◌+◌, ◌++◌, ◌∷◌, [], length, flat_map, codes, Contains};
ghost use Rattle.tile_io.specs.Chunks.{PassesOn};
ghost use Rattle.tile_io.specs.Lines.{line_of};
ghost use Rattle.tile_io.specs.Prints.{Prints};
ghost use Rattle.tile_text.specs.declared.version.Version.TheVariants.{One};
ghost use Rattle.tile_text.specs.Spelling.{spelling};
ghost use Rattle.tile_text.specs.Inner.Words.{head_words, box_words};
ghost use Rattle.design.specs.TileSets.{IsTileSet, IsWithinLimits, system_of};
ghost use Rattle.tile_table.specs.declared.short_text.TheConstants.{SHORT_ROOM};
ghost use Rattle.tile_table.specs.Inner.TableLines.{label_words, kind_words, label_word, seed_words};

use crate::{ShortText, Table};
use atam::{BoxArea, Side};
use itoa::Buffer;
use tile_io::{Chunk, Failed, Sink};

// The labels and the kinds of a table, in their order.
#[derive(Drop)]
struct Lists<'a, K, G> {
    labels: &'a [G],
    kinds: &'a [K],
}

/// Prints the text of a table's system, which is not made. It takes no memory, and time that grows
/// with the number of kinds and of labels.
pub fn print_table<K: Copy, G: Copy, T: Table<K, G>, S: Sink>(
    table: &T,
    labels: &[G],
    kinds: &[K],
    seed: K,
    area: BoxArea,
    sink: &mut S,
) -> Result<(), Failed>
    requires labels { labels.now ≡ (T.tiles table.now).labels }
    requires kinds { kinds.now ≡ (T.tiles table.now).kinds }
    requires numbered { IsTileSet (T.tiles table.now) }
    requires limits { IsWithinLimits (T.tiles table.now) }
    requires seed { Contains kinds.now seed }
    ensures { Prints S.written S.faults sink.old sink.new result
        (spelling (system_of (T.tiles table.now) seed area)) }
{
    let mut chunk = Chunk::new();
    let lists = Lists { labels, kinds };
    put_table(&mut chunk, sink, table, &lists, seed, area)?;
    chunk.flush(sink)
}

fn put_table<K: Copy, G: Copy, T: Table<K, G>, S: Sink>(
    chunk: &mut Chunk,
    sink: &mut S,
    table: &T,
    lists: &Lists<'_, K, G>,
    seed: K,
    area: BoxArea,
) -> Result<(), Failed>
    requires labels { lists.now.labels.now ≡ (T.tiles table.now).labels }
    requires kinds { lists.now.kinds.now ≡ (T.tiles table.now).kinds }
    requires numbered { IsTileSet (T.tiles table.now) }
    requires limits { IsWithinLimits (T.tiles table.now) }
    requires seed { Contains lists.now.kinds.now seed }
    ensures { PassesOn S.written S.faults sink.old sink.new chunk.old chunk.new result
        (spelling (system_of (T.tiles table.now) seed area)) }
{
    let mut text = ShortText::new();
    put_head(chunk, sink)?;
    put_labels(chunk, sink, table, lists.labels, &mut text)?;
    put_kinds(chunk, sink, table, lists.kinds, &mut text)?;
    put_box(chunk, sink, area)?;
    set_seed_line(&mut text, table, seed);
    chunk.put(sink, text.as_slice())?;
    chunk.put_line(sink, b"end", &[])
}

// The header and the `tau` line.
fn put_head<S: Sink>(chunk: &mut Chunk, sink: &mut S) -> Result<(), Failed>
    ensures { PassesOn S.written S.faults sink.old sink.new chunk.old chunk.new result
        (flat_map line_of (head_words One 2)) }
{
    chunk.put(sink, b"tiles 1\ntau 2\n")
}

fn put_labels<K, G: Copy, T: Table<K, G>, S: Sink>(
    chunk: &mut Chunk,
    sink: &mut S,
    table: &T,
    labels: &[G],
    text: &mut ShortText,
) -> Result<(), Failed>
    requires labels { labels.now ≡ (T.tiles table.now).labels }
    requires limits { IsWithinLimits (T.tiles table.now) }
    ensures { PassesOn S.written S.faults sink.old sink.new chunk.old chunk.new result
        (flat_map (λ label. line_of (label_words (T.tiles table.now) label)) labels.now) }
{
    for label in labels {
        set_label_line(text, table, *label);
        chunk.put(sink, text.as_slice())?;
    }
    Ok(())
}

// Makes a text the line of a label.
fn set_label_line<K, G: Copy, T: Table<K, G>>(text: &mut ShortText, table: &T, label: G)
    requires listed { Contains (T.tiles table.now).labels label }
    requires limits { IsWithinLimits (T.tiles table.now) }
    ensures { text.new ≡ line_of (label_words (T.tiles table.now) label) }
{
    text.clear();
    text.add(b"glue ");
    table.add_label_name(text, label);
    text.add(b" ");
    text.add_number(table.strength(label));
    text.add(b"\n");
}

fn put_kinds<K: Copy, G: Copy, T: Table<K, G>, S: Sink>(
    chunk: &mut Chunk,
    sink: &mut S,
    table: &T,
    kinds: &[K],
    text: &mut ShortText,
) -> Result<(), Failed>
    requires kinds { kinds.now ≡ (T.tiles table.now).kinds }
    requires numbered { IsTileSet (T.tiles table.now) }
    requires limits { IsWithinLimits (T.tiles table.now) }
    ensures { PassesOn S.written S.faults sink.old sink.new chunk.old chunk.new result
        (flat_map (λ kind. line_of (kind_words (T.tiles table.now) kind)) kinds.now) }
{
    for kind in kinds {
        set_kind_line(text, table, *kind);
        chunk.put(sink, text.as_slice())?;
    }
    Ok(())
}

// Makes a text the line of a kind.
fn set_kind_line<K: Copy, G: Copy, T: Table<K, G>>(text: &mut ShortText, table: &T, kind: K)
    requires listed { Contains (T.tiles table.now).kinds kind }
    requires numbered { IsTileSet (T.tiles table.now) }
    requires limits { IsWithinLimits (T.tiles table.now) }
    ensures { text.new ≡ line_of (kind_words (T.tiles table.now) kind) }
{
    text.clear();
    text.add(b"tile ");
    table.add_kind_name(text, kind);
    add_side(text, table, kind, Side::North);
    add_side(text, table, kind, Side::East);
    add_side(text, table, kind, Side::South);
    add_side(text, table, kind, Side::West);
    text.add(b"\n");
}

// Adds the name of the label on a side, or `-`, behind a space.
#[inline(always)]
fn add_side<K: Copy, G: Copy, T: Table<K, G>>(text: &mut ShortText, table: &T, kind: K, side: Side)
    requires listed { Contains (T.tiles table.now).kinds kind }
    requires numbered { IsTileSet (T.tiles table.now) }
    requires limits { IsWithinLimits (T.tiles table.now) }
    requires room { length text.old + 41 ≤ SHORT_ROOM }
    ensures word { text.new ≡ text.old
        ++ (32 ∷ label_word (T.tiles table.now) ((T.tiles table.now).side kind side)) }
    ensures short { length text.new ≤ length text.old + 41 }
{
    match table.side(kind, side) {
        Some(label) => {
            text.add(b" ");
            table.add_label_name(text, label);
        }
        None => text.add(b" -"),
    }
}

fn put_box<S: Sink>(chunk: &mut Chunk, sink: &mut S, area: BoxArea) -> Result<(), Failed>
    ensures { PassesOn S.written S.faults sink.old sink.new chunk.old chunk.new result
        (line_of (box_words area)) }
{
    let (mut left, mut bottom) = (Buffer::new(), Buffer::new());
    let (mut right, mut top) = (Buffer::new(), Buffer::new());
    let corners = [
        left.format(area.x0).as_bytes(),
        bottom.format(area.y0).as_bytes(),
        right.format(area.x1).as_bytes(),
        top.format(area.y1).as_bytes(),
    ];
    chunk.put_line(sink, b"box", &corners)
}

// Makes a text the line of the seed, which is of this kind.
fn set_seed_line<K: Copy, G: Copy, T: Table<K, G>>(text: &mut ShortText, table: &T, kind: K)
    requires listed { Contains (T.tiles table.now).kinds kind }
    requires limits { IsWithinLimits (T.tiles table.now) }
    ensures { text.new ≡ line_of (seed_words (T.tiles table.now) kind) }
{
    text.clear();
    text.add(b"seed 0 0 ");
    table.add_kind_name(text, kind);
    text.add(b"\n");
}
