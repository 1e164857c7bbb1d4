// A system is printed as its text.
ghost use Rattle.std.specs.Prelude.{◌<◌, ◌≡◌, ◌++◌, ℕ, List, drop, length, flat_map};
ghost use Rattle.std.specs.List.{slice_index_or};
ghost use Rattle.atam.specs.TileSystem.{Glue, TileType, IsPair, IsType, IsValid, side_glue};
ghost use Rattle.tile_io.specs.declared.mark.Mark.{Mark};
ghost use Rattle.tile_io.specs.Chunks.{PassesOn};
ghost use Rattle.tile_io.specs.Lines.{line_of};
ghost use Rattle.tile_io.specs.Prints.{Prints};
ghost use Rattle.tile_text.specs.Spelling.{spelling, spelling_by, newest_spelling, version_of, end_of_print, side_word};
ghost use Rattle.tile_text.specs.Inner.Words.{head_words, glue_words, pair_words, tile_words, box_words, seed_words};
ghost use Rattle.tile_text.specs.declared.version.Version.TheVariants.{Two};
ghost use Rattle.tile_text.specs.SystemText.{ReadsAny, ReadsVersion};

use crate::version::Version;
use atam::{BoxArea, GlueId, GluePair, Place, Side, TypeId};
use itoa::Buffer;
use tile_io::{Chunk, Failed, Sink};
use tile_system::System;

/// Prints the one text of a system, in the oldest version that has it. It takes no memory.
pub fn print_system<K: Sink>(sys: &System, sink: &mut K) -> Result<(), Failed>
    ensures printed { Prints K.written K.faults sink.old sink.new result (spelling sys.now) }

    // What is printed reads as this system again, up to its end, whatever follows.
    ensures reads_back { (text rest : List ℕ) (from : Mark) →
        drop from.at text ≡ spelling sys.now ++ rest
        → ReadsAny text from sys.now (end_of_print (version_of sys.now) sys.now from) }
{
    print_version(sys, version_of(sys), sink)
}

/// Prints the text of a system in the newest version. It takes no memory.
pub fn print_newest<K: Sink>(sys: &System, sink: &mut K) -> Result<(), Failed>
    ensures printed { Prints K.written K.faults sink.old sink.new result
        (newest_spelling sys.now) }

    // What is printed reads as this system again, up to its end, whatever follows.
    ensures reads_back { (text rest : List ℕ) (from : Mark) →
        drop from.at text ≡ newest_spelling sys.now ++ rest
        → ReadsAny text from sys.now (end_of_print Two sys.now from) }
    ensures reads_newest { (text rest : List ℕ) (from : Mark) →
        drop from.at text ≡ newest_spelling sys.now ++ rest
        → ReadsVersion Two text from sys.now (end_of_print Two sys.now from) }
{
    print_version(sys, Version::Two, sink)
}

// The oldest version that has a system.
fn version_of(sys: &System) -> Version
    ensures { result ≡ version_of sys.now }
{
    if sys.seed_count() == 1 && sys.pair_count() == 0 {
        Version::One
    } else {
        Version::Two
    }
}

fn print_version<K: Sink>(sys: &System, version: Version, sink: &mut K) -> Result<(), Failed>
    ensures valid { IsValid sys.now }
    ensures printed { Prints K.written K.faults sink.old sink.new result
        (spelling_by version sys.now) }
{
    let mut chunk = Chunk::new();
    put_system(&mut chunk, sink, sys, version)?;
    chunk.flush(sink)
}

fn put_system<K: Sink>(
    chunk: &mut Chunk,
    sink: &mut K,
    sys: &System,
    version: Version,
) -> Result<(), Failed>
    ensures valid { IsValid sys.now }
    ensures passed { PassesOn K.written K.faults sink.old sink.new chunk.old chunk.new result
        (spelling_by version sys.now) }
{
    put_head(chunk, sink, version, sys.tau())?;
    put_glues(chunk, sink, sys)?;
    put_pairs(chunk, sink, sys)?;
    put_types(chunk, sink, sys)?;
    put_box(chunk, sink, sys.area())?;
    put_seeds(chunk, sink, sys)?;
    chunk.put_line(sink, b"end", &[])
}

// The header and the `tau` line.
fn put_head<K: Sink>(
    chunk: &mut Chunk,
    sink: &mut K,
    version: Version,
    tau: u32,
) -> Result<(), Failed>
    ensures { PassesOn K.written K.faults sink.old sink.new chunk.old chunk.new result
        (flat_map line_of (head_words version tau)) }
{
    let mut buffer = Buffer::new();
    chunk.put_line(sink, b"tiles", &[version.word()])?;
    chunk.put_line(sink, b"tau", &[buffer.format(tau).as_bytes()])
}

fn put_glues<K: Sink>(chunk: &mut Chunk, sink: &mut K, sys: &System) -> Result<(), Failed>
    ensures { PassesOn K.written K.faults sink.old sink.new chunk.old chunk.new result
        (flat_map (λ glue. line_of (glue_words glue)) sys.now.glues) }
{
    for index in 0..sys.glue_count() {
        put_glue(chunk, sink, sys, GlueId(index))?;
    }
    Ok(())
}

fn put_glue<K: Sink>(
    chunk: &mut Chunk,
    sink: &mut K,
    sys: &System,
    glue: GlueId,
) -> Result<(), Failed>
    requires { glue.0 < length sys.now.glues }
    ensures { (d : Glue) → PassesOn K.written K.faults sink.old sink.new chunk.old chunk.new result
        (line_of (glue_words (slice_index_or sys.now.glues glue.0 d))) }
{
    let mut buffer = Buffer::new();
    let strength = buffer.format(sys.strength(glue));
    chunk.put_line(sink, b"glue", &[sys.glue_name(glue), strength.as_bytes()])
}

fn put_pairs<K: Sink>(chunk: &mut Chunk, sink: &mut K, sys: &System) -> Result<(), Failed>
    ensures { PassesOn K.written K.faults sink.old sink.new chunk.old chunk.new result
        (flat_map (λ pair. line_of (pair_words sys.now pair)) sys.now.pairs) }
{
    for pair in sys.pairs() {
        put_pair(chunk, sink, sys, *pair)?;
    }
    Ok(())
}

fn put_pair<K: Sink>(
    chunk: &mut Chunk,
    sink: &mut K,
    sys: &System,
    pair: GluePair,
) -> Result<(), Failed>
    requires { IsPair sys.now.glues pair }
    ensures { PassesOn K.written K.faults sink.old sink.new chunk.old chunk.new result
        (line_of (pair_words sys.now pair)) }
{
    let mut buffer = Buffer::new();
    let strength = buffer.format(pair.strength);
    let first = sys.glue_name(pair.first);
    let second = sys.glue_name(pair.second);
    chunk.put_line(sink, b"pair", &[first, second, strength.as_bytes()])
}

fn put_types<K: Sink>(chunk: &mut Chunk, sink: &mut K, sys: &System) -> Result<(), Failed>
    ensures { PassesOn K.written K.faults sink.old sink.new chunk.old chunk.new result
        (flat_map (λ tile. line_of (tile_words sys.now tile)) sys.now.types) }
{
    for index in 0..sys.type_count() {
        put_type(chunk, sink, sys, TypeId(index))?;
    }
    Ok(())
}

fn put_type<K: Sink>(
    chunk: &mut Chunk,
    sink: &mut K,
    sys: &System,
    tile: TypeId,
) -> Result<(), Failed>
    requires { IsType sys.now tile }
    ensures { (d : TileType) → PassesOn K.written K.faults sink.old sink.new
        chunk.old chunk.new result
        (line_of (tile_words sys.now (slice_index_or sys.now.types tile.0 d))) }
{
    let north = side_name(sys, tile, Side::North);
    let east = side_name(sys, tile, Side::East);
    let south = side_name(sys, tile, Side::South);
    let west = side_name(sys, tile, Side::West);
    chunk.put_line(
        sink,
        b"tile",
        &[sys.type_name(tile), north, east, south, west],
    )
}

// The name of the glue of a side, or `-`.
#[tactic(auto, unfolding(crate::specs::Spelling::side_word))]
fn side_name<'a>(sys: &'a System, tile: TypeId, side: Side) -> &'a [u8]
    requires { IsType sys.now tile }
    ensures { result.now ≡ side_word sys.now (side_glue sys.now tile side) }
{
    match sys.side(tile, side) {
        Some(glue) => sys.glue_name(glue),
        None => b"-",
    }
}

fn put_box<K: Sink>(chunk: &mut Chunk, sink: &mut K, area: BoxArea) -> Result<(), Failed>
    ensures { PassesOn K.written K.faults sink.old sink.new chunk.old chunk.new result
        (line_of (box_words area)) }
{
    let (mut left, mut bottom) = (Buffer::new(), Buffer::new());
    let (mut right, mut top) = (Buffer::new(), Buffer::new());
    let corners = [
        left.format(area.x0).as_bytes(),
        bottom.format(area.y0).as_bytes(),
        right.format(area.x1).as_bytes(),
        top.format(area.y1).as_bytes(),
    ];
    chunk.put_line(sink, b"box", &corners)
}

fn put_seeds<K: Sink>(chunk: &mut Chunk, sink: &mut K, sys: &System) -> Result<(), Failed>
    ensures { PassesOn K.written K.faults sink.old sink.new chunk.old chunk.new result
        (flat_map (λ seed. line_of (seed_words sys.now seed)) sys.now.seeds) }
{
    for seed in sys.seeds() {
        put_seed(chunk, sink, sys, *seed)?;
    }
    Ok(())
}

fn put_seed<K: Sink>(
    chunk: &mut Chunk,
    sink: &mut K,
    sys: &System,
    seed: Place,
) -> Result<(), Failed>
    requires { IsType sys.now seed.tile }
    ensures { PassesOn K.written K.faults sink.old sink.new chunk.old chunk.new result
        (line_of (seed_words sys.now seed)) }
{
    let (mut column, mut row) = (Buffer::new(), Buffer::new());
    let column = column.format(seed.site.x).as_bytes();
    let row = row.format(seed.site.y).as_bytes();
    chunk.put_line(sink, b"seed", &[column, row, sys.type_name(seed.tile)])
}
