// The lines of a sequence, in large pieces.
ghost use Rattle.std.specs.Prelude.{All, ◌≡◌, ◌≤◌, ◌+◌, ◌++◌, ◌∷◌, [], length};
ghost use Rattle.atam.specs.TileSystem.{IsType, type_name};
ghost use Rattle.tile_io.specs.Prints.{Prints};
ghost use Rattle.tile_io.specs.Chunks.{PassesOn};
ghost use Rattle.tile_io.specs.declared.chunk.TheConstants.{CHUNK_ROOM};
ghost use Rattle.seq_text.specs.declared.places.TheConstants.{LONGEST_PLACE_LINE};
ghost use Rattle.seq_text.specs.GrowthLines.{place_line, place_lines};

use crate::number_texts::NumberTexts;
use crate::type_name::hold_type_name;
use assembly::Sequence;
use std::marker::Model;
use tile_io::{Chunk, Failed, Sink};
use tile_system::{Place, System, TypeId};

// The most bytes that a line may have: a keyword, two numbers of 32 bits and a name, behind each a
// space or the newline.
const LONGEST_PLACE_LINE: usize = 5 + 1 + 11 + 1 + 11 + 1 + 40 + 1;

/// The pieces of `place` lines: a system's names, and numbers as they were last written, kept ready
/// on the stack.
#[derive(Drop)]
pub struct PlacePieces<'a> {
    sys: &'a System,
    numbers: NumberTexts,
}

impl<'a> Model for PlacePieces<'a> {
    ghost use Rattle.atam.specs.TileSystem.{TileSystem};

    ghost Value = { TileSystem };

    ghost view = { λ pieces. pieces.sys.now };
}

impl<'a> PlacePieces<'a> {
    #[inline(always)]
    pub fn new(sys: &'a System) -> PlacePieces<'a>
        ensures { result ≡ sys.now }
    {
        PlacePieces {
            sys,
            numbers: NumberTexts::new(),
        }
    }

    /// Turns to another system, and keeps the numbers.
    pub fn turn_to(&mut self, sys: &'a System)
        ensures { self.new ≡ sys.now }
    {
        self.sys = sys;
    }

    /// Adds the `place` line of one tile to what is held.
    #[inline(always)]
    pub fn put<K: Sink>(
        &mut self,
        place: Place,
        chunk: &mut Chunk,
        sink: &mut K,
    ) -> Result<(), Failed>
        requires { IsType self.old place.tile }
        ensures same { self.new ≡ self.old }
        ensures passes { PassesOn K.written K.faults sink.old sink.new chunk.old chunk.new result
            (place_line self.old place) }
    {
        chunk.make_room(sink, LONGEST_PLACE_LINE)?;
        self.hold(place, chunk);
        Ok(())
    }

    // The same where there is room.
    #[inline(always)]
    fn hold(&mut self, place: Place, chunk: &mut Chunk)
        requires known { IsType self.old place.tile }
        requires room { length chunk.old + LONGEST_PLACE_LINE ≤ CHUNK_ROOM }
        ensures same { self.new ≡ self.old }
        ensures line { chunk.new ≡ chunk.old ++ place_line self.old place }
    {
        match self.numbers.known(place.site) {
            Some(column) => {
                column.hold(chunk);
                self.numbers.hold_row(chunk);
                self.hold_end(place.tile, chunk);
            }
            None => self.hold_anew(place.site.x, place.site.y, place.tile, chunk),
        }
    }

    // A type's name and the newline.
    #[inline(always)]
    fn hold_end(&self, tile: TypeId, chunk: &mut Chunk)
        requires known { IsType self.now tile }
        requires room { length chunk.old + 41 ≤ CHUNK_ROOM }
        ensures { chunk.new ≡ chunk.old ++ type_name self.now tile ++ 10 ∷ [] }
    {
        hold_type_name(self.sys, tile, chunk);
        chunk.hold_front(b"\n", 1);
    }

    // The line where its numbers are not ready.
    #[inline(never)]
    fn hold_anew(&mut self, column: i32, row: i32, tile: TypeId, chunk: &mut Chunk)
        requires known { IsType self.old tile }
        requires room { length chunk.old + LONGEST_PLACE_LINE ≤ CHUNK_ROOM }
        ensures same { self.new ≡ self.old }
        ensures line { chunk.new ≡ chunk.old ++ place_line self.old
            (record { site = record { x = column; y = row }; tile = tile }) }
    {
        self.numbers.turn_to_row(row);
        self.numbers.hold_column(column, chunk);
        self.numbers.hold_row(chunk);
        self.hold_end(tile, chunk);
    }
}

/// Writes the `place` line of each tile, in order. It takes no memory.
pub fn print_places<K: Sink>(sys: &System, places: &Sequence, sink: &mut K) -> Result<(), Failed>
    requires { All (λ p. IsType sys.now p.tile) places.now }
    ensures { Prints K.written K.faults sink.old sink.new result (place_lines sys.now places.now) }
{
    let mut chunk = Chunk::new();
    let mut pieces = PlacePieces::new(sys);
    put_places(places, &mut pieces, &mut chunk, sink)?;
    chunk.flush(sink)
}

/// Adds the `place` line of each tile, in order, to what is held. It takes no memory.
pub fn put_places<K: Sink>(
    places: &Sequence,
    pieces: &mut PlacePieces,
    chunk: &mut Chunk,
    sink: &mut K,
) -> Result<(), Failed>
    requires { All (λ p. IsType pieces.old p.tile) places.now }
    ensures same { pieces.new ≡ pieces.old }
    ensures passes { PassesOn K.written K.faults sink.old sink.new chunk.old chunk.new result
        (place_lines pieces.old places.now) }
{
    for index in 0..places.len() {
        pieces.put(places.get(index), chunk, sink)?;
    }
    Ok(())
}
