// A growth is read from its text.
ghost use Rattle.std.specs.Prelude.{◌≡◌, ◌≤◌, ◌<◌, ◌^◌, ◌++◌, ◌∷◌, [], ℕ, List, true, false, Some, length, is_some, IfOk, IfErr, IfSome, OnOk, OnErr};
ghost use Rattle.atam.specs.declared.place.Place.{Place};
ghost use Rattle.atam.specs.Sites.{InBox};
ghost use Rattle.atam.specs.Assembly.{Fits};
ghost use Rattle.atam.specs.Placements.{HasDistinctSites};
ghost use Rattle.std.specs.Io.KnownBytes.{IsAtEnd};
ghost use Rattle.tile_io.specs.Blocks.{ReadsInBlocks};
ghost use Rattle.tile_io.specs.NextLine.{IsMark};
ghost use Rattle.tile_io.specs.Formats.{ReadsOrStops};
ghost use Rattle.tile_io.specs.LineReader.{TakesItem};
ghost use Rattle.atam.specs.TileSystem.{IsType};
ghost use Rattle.tile_text.specs.Fields.{place_field};
ghost use Rattle.seq_text.specs.GrowthText.{GrowthItem, sequence_format, grid_format, ReadsPlaces, ReadsGrid, names_of, place_in};
ghost use Rattle.seq_text.specs.Inner.Kinds.{row_of, may_stand_after};
ghost use Rattle.seq_text.specs.Inner.Plain.{BeginsPlain};
ghost use Rattle.seq_text.specs.Inner.SoFar.{HoldsPlaces, IsOverBox, is_free_in};

use crate::kind::LineKind;
use crate::plain::{PlainPlace, plain_place};
use assembly::{Grid, Sequence};
use atam::MOST_TYPES;
use std::alloc::Global;
use tile_io::{
    Begun, Cause, Front, InputStop, LineReader, LineStop, LineWords, MOST_INPUT, Mark, Source,
    TextStop, read_text, read_text_in_blocks,
};
use tile_system::{NoMemory, Place, Placed, Site, System};
use tile_text::{FoundTypes, read_place, read_site};

/// Reads a growth text to the end of the input, as the sequence of its places, in time that grows
/// with its length, where types are found by a few comparisons of names each (`FoundTypes::find`).
pub fn read_sequence(
    alloc: Global,
    sys: &System,
    text: &[u8],
    from: Mark,
) -> Result<Sequence, TextStop>
    requires short { length text.now ≤ MOST_INPUT }
    requires mark { IsMark text.now from }
    ensures read { ReadsOrStops (sequence_format sys.now) text.now from
        (ReadsPlaces false sys.now text.now from) result }
    ensures fits { IfOk result (Fits sys.now) }
    ensures count { IfOk result (λ sequence. length sequence < 2 ^ 32) }
{
    let mut reader = GrowthReader::of_sequence(alloc, sys);
    read_text(&mut reader, text, from)?;
    Ok(reader.sequence)
}

/// The same for a text that was begun, and goes on with all that is left of a source
/// (`read_text_in_blocks`).
pub fn read_sequence_in_blocks<S: Source>(
    alloc: Global,
    sys: &System,
    source: &mut S,
    begun: Begun,
    from: Mark,
) -> Result<Sequence, InputStop>
    requires short { length begun.text.items ≤ MOST_INPUT }
    requires whole { begun.is_whole ≡ true → IsAtEnd (S.left source.old) }
    requires mark { (rest : List ℕ) → IsMark (begun.text.items ++ rest) from }
    ensures read { ReadsInBlocks S.left S.faults (sequence_format sys.now) begun.text.items from
        (λ whole. ReadsPlaces false sys.now whole from) source.old source.new result }
    ensures unread { begun.is_whole ≡ true → source.new ≡ source.old }
    ensures later { S.faults source.old ≤ S.faults source.new }
    ensures fits { IfOk result (Fits sys.now) }
    ensures count { IfOk result (λ sequence. length sequence < 2 ^ 32) }
{
    let mut reader = GrowthReader::of_sequence(alloc, sys);
    read_text_in_blocks(source, &mut reader, begun, from)?;
    Ok(reader.sequence)
}

/// Reads a growth text to the end of the input, as a grid over the system's box. The places have to
/// differ in their sites. It takes the grid's memory alone.
pub fn read_grid(alloc: Global, sys: &System, text: &[u8], from: Mark) -> Result<Grid, TextStop>
    requires short { length text.now ≤ MOST_INPUT }
    requires mark { IsMark text.now from }
    ensures read { ReadsOrStops (grid_format sys.now) text.now from
        (ReadsGrid sys.now text.now from) result }
    ensures fits { IfOk result (λ grid. Fits sys.now grid.tiles) }
    ensures distinct { IfOk result (λ grid. HasDistinctSites grid.tiles) }
{
    let mut reader = GrowthReader::of_grid(alloc, sys)?;
    read_text(&mut reader, text, from)?;
    let grid = reader.grid.unwrap();
    prove!(grid.area() == sys.area());
    Ok(grid)
}

/// The same for a text that was begun, and goes on with all that is left of a source
/// (`read_text_in_blocks`).
pub fn read_grid_in_blocks<S: Source>(
    alloc: Global,
    sys: &System,
    source: &mut S,
    begun: Begun,
    from: Mark,
) -> Result<Grid, InputStop>
    requires short { length begun.text.items ≤ MOST_INPUT }
    requires whole { begun.is_whole ≡ true → IsAtEnd (S.left source.old) }
    requires mark { (rest : List ℕ) → IsMark (begun.text.items ++ rest) from }
    ensures read { ReadsInBlocks S.left S.faults (grid_format sys.now) begun.text.items from
        (λ whole. ReadsGrid sys.now whole from) source.old source.new result }
    ensures unread { begun.is_whole ≡ true → source.new ≡ source.old }
    ensures later { S.faults source.old ≤ S.faults source.new }
    ensures fits { IfOk result (λ grid. Fits sys.now grid.tiles) }
    ensures distinct { IfOk result (λ grid. HasDistinctSites grid.tiles) }
{
    let mut reader = GrowthReader::of_grid(alloc, sys)?;
    read_text_in_blocks(source, &mut reader, begun, from)?;
    let grid = reader.grid.unwrap();
    prove!(grid.area() == sys.area());
    Ok(grid)
}

// What was read so far: the places, in a grid where sites have to differ and else in a sequence,
// and the keyword of the last line. Beside it the types that the lines named last.
#[derive(Drop)]
struct GrowthReader<'a> {
    system: &'a System,
    found: FoundTypes,
    sequence: Sequence,
    grid: Option<Grid>,
    last: Option<LineKind>,
}

#[tactic(auto, unfolding(crate::specs::GrowthText::growth_table))]
impl<'a> LineReader for GrowthReader<'a> {
    ghost use Rattle.std.specs.Prelude.{Bool, is_some};
    ghost use Rattle.atam.specs.TileSystem.{TileSystem};
    ghost use Rattle.seq_text.specs.GrowthText.{GrowthItem, growth_table};
    ghost use Rattle.seq_text.specs.Inner.Kinds.{row_of};
    ghost use Rattle.seq_text.specs.Inner.SoFar.{HoldsLines};

    type Kind = LineKind;

    ghost Item = { GrowthItem };

    ghost Context = { Bool × TileSystem };

    ghost context = { λ r. (is_some r.grid, r.system.now) };

    ghost table = { λ context. growth_table context.0 context.1 };

    ghost row = { λ context. row_of context.0 context.1 };

    ghost holds = { λ r. HoldsLines r.system.now r.sequence r.grid r.last };

    fn has_header(&self) -> bool {
        false
    }

    fn kind_of(&self, word: &[u8]) -> Option<LineKind> {
        LineKind::of(word)
    }

    fn has_words(&self, kind: LineKind, count: usize) -> bool {
        kind.has_words(count)
    }

    fn may_stand(&self, kind: LineKind) -> bool {
        kind.may_stand(self.last)
    }

    fn has_room(&self, kind: LineKind, _words: &LineWords) -> bool {
        match kind {
            LineKind::Place | LineKind::Closed | LineKind::Unique => true,
        }
    }

    fn take_fields(&mut self, kind: LineKind, words: &LineWords) -> Result<bool, LineStop> {
        match kind {
            LineKind::Place => self.take_place(words),
            LineKind::Closed | LineKind::Unique => {
                self.last = Some(kind);
                Ok(false)
            }
        }
    }

    // A `place` line in its plain form that passes its checks. Each other line is left.
    #[inline(always)]
    fn take_front(&mut self, rest: &[u8]) -> Option<Front> {
        // a system is valid
        self.system.recall_valid();
        let PlainPlace { site, name, length } = self.read_front(rest)?;
        let tile = self.found.find(self.system, name)?;
        match self.hold(Place { site, tile }) {
            Ok(()) => Some(Front {
                length,
                done: Ok(false),
            }),
            Err(NoMemory) => Some(Front {
                length,
                done: Err(LineStop::NoMemory),
            }),
        }
    }

    fn is_complete(&self) -> bool {
        true
    }
}

impl<'a> GrowthReader<'a> {
    ghost use Rattle.seq_text.specs.Inner.SoFar.{HoldsLines};

    // A reader of a sequence, before the first line.
    fn of_sequence(alloc: Global, system: &'a System) -> GrowthReader<'a>
        ensures distinct { is_some result.grid ≡ false }
        ensures system { result.system.now ≡ system.now }
        ensures nothing { HoldsLines result.system.now result.sequence
            result.grid result.last [] }
    {
        GrowthReader {
            system,
            found: FoundTypes::new(),
            sequence: Sequence::make(alloc),
            grid: None,
            last: None,
        }
    }

    // A reader of a grid, before the first line.
    fn of_grid(alloc: Global, system: &'a System) -> Result<GrowthReader<'a>, TextStop>
        ensures memory { IfErr result (λ stop. stop ≡ TextStop.NoMemory) }
        ensures distinct { IfOk result (λ reader. is_some reader.grid ≡ true) }
        ensures system { IfOk result (λ reader. reader.system.now ≡ system.now) }
        ensures nothing { IfOk result (λ reader.
            HoldsLines reader.system.now reader.sequence reader.grid reader.last []) }
    {
        let Ok(grid) = Grid::make(alloc, system.area()) else {
            return Err(TextStop::NoMemory);
        };
        Ok(GrowthReader {
            system,
            found: FoundTypes::new(),
            sequence: Sequence::make(alloc),
            grid: Some(grid),
            last: None,
        })
    }

    // Takes the fields of a `place` line.
    fn take_place(&mut self, words: &LineWords) -> Result<bool, LineStop>
        requires words { length words.now ≡ 4 }
        requires box_area { IsOverBox self.old.system.now self.old.grid }
        ensures taken { (items : List GrowthItem) →
            HoldsLines self.old.system.now self.old.sequence self.old.grid self.old.last items →
            TakesItem (λ item. false)
            (HoldsLines self.new.system.now self.new.sequence self.new.grid self.new.last)
            items
            ((row_of (is_some self.old.grid) self.old.system.now LineKind.Place).fields items
            words.now) result }
        ensures distinct { is_some self.new.grid ≡ is_some self.old.grid }
        ensures system { self.new.system.now ≡ self.old.system.now }
    {
        let place = self.read_fields(words)?;
        match self.hold(place) {
            Ok(()) => Ok(false),
            Err(NoMemory) => Err(LineStop::NoMemory),
        }
    }

    // The fields of a `place` line, and the checks of the whole line.
    fn read_fields(&self, words: &LineWords) -> Result<Place, Cause>
        requires words { length words.now ≡ 4 }
        ensures place { (places : List Place) →
            HoldsPlaces self.now.system.now self.now.sequence self.now.grid places →
            result ≡ place_in (is_some self.now.grid) self.now.system.now places words.now }
        ensures inside { IfOk result (λ p. InBox self.now.system.now.area p.site) }
        ensures small { IfOk result (λ p. p.tile.0 < MOST_TYPES) }
        ensures free { IfOk result (λ p. is_free_in self.now.grid p.site ≡ true) }
    {
        let place = read_tile(self.system, words.word(1), words.word(2), words.word(3))?;
        if !self.system.area().holds(place.site) {
            return Err(Cause::OutsideBox);
        }
        if !self.is_free(place.site) {
            return Err(Cause::DoubleSite);
        }
        Ok(place)
    }

    // The `place` line at the front, where it is in its plain form, may stand here, and has a site
    // where a tile may be placed.
    #[inline(always)]
    fn read_front<'t>(&self, text: &'t [u8]) -> Option<PlainPlace<'t>>
        ensures follows { IfSome result (λ _.
            may_stand_after LineKind.Place self.now.last ≡ true) }
        ensures plain { IfSome result (λ place.
            BeginsPlain text.now place.site place.name.now place.length) }
        ensures inside { IfSome result (λ place. InBox self.now.system.now.area place.site) }
        ensures free { IfSome result (λ place. is_free_in self.now.grid place.site ≡ true) }
    {
        if !LineKind::Place.may_stand(self.last) {
            return None;
        }
        let place = plain_place(text)?;
        let site = place.site;
        if !self.system.area().holds(site) {
            return None;
        }
        if !self.is_free(site) {
            return None;
        }
        Some(place)
    }

    // Whether a tile may be placed at a site after those that were read.
    fn is_free(&self, site: Site) -> bool
        ensures { result ≡ is_free_in self.now.grid site }
    {
        match &self.grid {
            Some(grid) => grid.at(site).is_none(),
            None => true,
        }
    }

    // Adds a place that may stand here.
    #[inline(always)]
    fn hold(&mut self, place: Place) -> Result<(), NoMemory>
        requires box_area { IsOverBox self.old.system.now self.old.grid }
        requires inside { InBox self.old.system.now.area place.site }
        requires small { place.tile.0 < MOST_TYPES }
        requires free { is_free_in self.old.grid place.site ≡ true }
        ensures added { OnOk result ((places : List Place) →
            HoldsPlaces self.old.system.now self.old.sequence self.old.grid places →
            HoldsPlaces self.old.system.now self.new.sequence self.new.grid
            (places ++ place ∷ [])) }
        ensures last { OnOk result (self.new.last ≡ Some LineKind.Place) }
        ensures box_area { IsOverBox self.old.system.now self.new.grid }
        ensures distinct { is_some self.new.grid ≡ is_some self.old.grid }
        ensures system { self.new.system.now ≡ self.old.system.now }
        ensures unchanged { OnErr result (self.new ≡ self.old) }
    {
        // a system is valid
        self.system.recall_valid();
        match &mut self.grid {
            Some(grid) => grid.put(place),
            None => self.sequence.push_near(place)?,
        }
        self.last = Some(LineKind::Place);
        Ok(())
    }
}

// Reads a tile of a system: its site, and the name of its type. A name that is found is one.
fn read_tile(sys: &System, column: &[u8], row: &[u8], name: &[u8]) -> Result<Place, Cause>
    ensures place { result ≡ place_field (names_of sys.now) column.now row.now name.now }
    ensures known { IfOk result (λ p. IsType sys.now p.tile) }
{
    // a system is valid
    sys.recall_valid();
    match sys.find_type(name) {
        Some(tile) => {
            let site = read_site(column, row)?;
            Ok(Place { site, tile })
        }
        None => read_place(column, row, name, None),
    }
}
