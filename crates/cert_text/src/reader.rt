// A certificate is read from its text.
ghost use Rattle.std.specs.Prelude.{◌≡◌, ◌≤◌, ◌<◌, ◌++◌, ◌∷◌, [], ℕ, List, IfOk, IfSome, IsTrue, OnOk, OnErr, length, is_none, true};
ghost use Rattle.atam.specs.declared.limits.TheConstants.{MOST_TYPES};
ghost use Rattle.atam.specs.Sites.{InBox};
ghost use Rattle.atam.specs.Assembly.{Fits};
ghost use Rattle.atam.specs.Placements.{tile_at};
ghost use Rattle.atam.specs.TileSystem.{IsType};
ghost use Rattle.std.specs.Io.KnownBytes.{IsAtEnd};
ghost use Rattle.tile_io.specs.Blocks.{ReadsInBlocks};
ghost use Rattle.tile_io.specs.NextLine.{IsMark};
ghost use Rattle.tile_io.specs.Formats.{ReadsOrStops};
ghost use Rattle.cert_check.specs.Certificates.{places_of};
ghost use Rattle.cert_text.specs.CertificateText.{ReadsCertificate, certificate_format, mark_row};
ghost use Rattle.cert_text.specs.Inner.Plain.{BeginsPlain};
ghost use Rattle.cert_text.specs.Inner.SoFar.{AreKept};
ghost use Rattle.tile_io.specs.Checks.{count_in};

use crate::keyword::LineKind;
use crate::plain::{PlainMark, plain_mark};
use crate::sides::read_sides;
use assembly::Grid;
use cert_check::{Certificate, Entry};
use std::alloc::Global;
use tile_io::{
    Begun, Cause, Front, InputStop, LineReader, LineStop, LineWords, MOST_INPUT, Mark, Source,
    TextStop, read_count, read_text, read_text_in_blocks,
};
use tile_system::{NoMemory, Place, Placed, Site, System};
use tile_text::{FoundTypes, read_place};

/// Reads a certificate text to the end of the input, in time that grows with its length, where
/// types are found by a few comparisons of names each (`FoundTypes::find`). It takes twenty bytes
/// an entry, and two a site of the box until the end.
pub fn read_certificate(
    alloc: Global,
    sys: &System,
    text: &[u8],
    from: Mark,
) -> Result<Certificate, TextStop>
    requires short { length text.now ≤ MOST_INPUT }
    requires mark { IsMark text.now from }
    ensures read { ReadsOrStops (certificate_format sys.now) text.now from
        (ReadsCertificate sys.now text.now from) result }
    ensures fits { IfOk result (λ c. Fits sys.now (places_of c)) }
{
    let mut reader = CertificateReader::new(alloc, sys)?;
    read_text(&mut reader, text, from)?;
    Ok(Certificate::of(reader.entries))
}

/// The same for a text that was begun, and goes on with all that is left of a source
/// (`read_text_in_blocks`).
pub fn read_certificate_in_blocks<S: Source>(
    alloc: Global,
    sys: &System,
    source: &mut S,
    begun: Begun,
    from: Mark,
) -> Result<Certificate, InputStop>
    requires short { length begun.text.items ≤ MOST_INPUT }
    requires whole { begun.is_whole ≡ true → IsAtEnd (S.left source.old) }
    requires mark { (rest : List ℕ) → IsMark (begun.text.items ++ rest) from }
    ensures read { ReadsInBlocks S.left S.faults (certificate_format sys.now) begun.text.items from
        (λ whole. ReadsCertificate sys.now whole from) source.old source.new result }
    ensures unread { begun.is_whole ≡ true → source.new ≡ source.old }
    ensures later { S.faults source.old ≤ S.faults source.new }
    ensures fits { IfOk result (λ c. Fits sys.now (places_of c)) }
{
    let mut reader = CertificateReader::new(alloc, sys)?;
    read_text_in_blocks(source, &mut reader, begun, from)?;
    Ok(Certificate::of(reader.entries))
}

// The entries that were read so far, and their tiles. Beside them the types that the lines named
// last.
#[derive(Drop)]
struct CertificateReader<'a> {
    system: &'a System,
    entries: Vec<Entry>,
    grid: Grid,
    found: FoundTypes,
}

#[tactic(auto, unfolding(crate::specs::CertificateText::certificate_table))]
impl<'a> LineReader for CertificateReader<'a> {
    ghost use Rattle.atam.specs.TileSystem.{TileSystem};
    ghost use Rattle.cert_check.specs.declared.entry.Entry.{Entry};
    ghost use Rattle.cert_text.specs.CertificateText.{certificate_table};
    ghost use Rattle.cert_text.specs.Inner.SoFar.{HoldsEntries, row_of};

    type Kind = LineKind;

    ghost Item = { Entry };

    ghost Context = { TileSystem };

    ghost context = { λ r. r.system.now };

    ghost table = { certificate_table };

    ghost row = { row_of };

    ghost holds = { λ r. HoldsEntries r.system.now r.entries.items r.grid };

    fn has_header(&self) -> bool {
        false
    }

    fn kind_of(&self, word: &[u8]) -> Option<LineKind> {
        LineKind::of(word)
    }

    fn has_words(&self, kind: LineKind, count: usize) -> bool {
        match kind {
            LineKind::Mark => count == 6,
        }
    }

    fn may_stand(&self, kind: LineKind) -> bool {
        match kind {
            LineKind::Mark => true,
        }
    }

    fn has_room(&self, kind: LineKind, _words: &LineWords) -> bool {
        match kind {
            LineKind::Mark => true,
        }
    }

    fn take_fields(&mut self, kind: LineKind, words: &LineWords) -> Result<bool, LineStop> {
        let entry = match kind {
            LineKind::Mark => self.next_entry(words)?,
        };
        match self.hold(entry) {
            Ok(()) => Ok(false),
            Err(NoMemory) => Err(LineStop::NoMemory),
        }
    }

    // A `mark` line in its plain form that passes its checks. Each other line is left.
    #[inline(always)]
    fn take_front(&mut self, rest: &[u8]) -> Option<Front> {
        // a system is valid
        self.system.recall_valid();
        let mark = self.read_front(rest)?;
        let tile = self.found.find(self.system, mark.name)?;
        let Ok(sides) = read_sides(mark.sides) else {
            return None;
        };
        let place = Place {
            site: mark.site,
            tile,
        };
        let rank = mark.rank;
        match self.hold(Entry { place, sides, rank }) {
            Ok(()) => Some(Front {
                length: mark.length,
                done: Ok(false),
            }),
            Err(NoMemory) => Some(Front {
                length: mark.length,
                done: Err(LineStop::NoMemory),
            }),
        }
    }

    fn is_complete(&self) -> bool {
        true
    }
}

impl<'a> CertificateReader<'a> {
    // A reader before the first line.
    fn new(alloc: Global, system: &'a System) -> Result<CertificateReader<'a>, TextStop>
        ensures memory { OnErr result (result ≡ Err TextStop.NoMemory) }
        ensures system { IfOk result (λ reader. reader.system.now ≡ system.now) }
        ensures nothing { IfOk result (λ reader. reader.entries.items ≡ []) }
        ensures kept { IfOk result (λ reader.
            AreKept reader.system.now reader.entries.items reader.grid) }
    {
        let Ok(grid) = Grid::make(alloc, system.area()) else {
            return Err(TextStop::NoMemory);
        };
        Ok(CertificateReader {
            system,
            entries: Vec::new(alloc),
            grid,
            found: FoundTypes::new(),
        })
    }

    // The entry of a line, behind those that were read.
    fn next_entry(&self, words: &LineWords) -> Result<Entry, Cause>
        requires words { length words.now ≡ 6 }
        requires kept { AreKept self.now.system.now self.now.entries.items self.now.grid }
        ensures entry { result ≡ (mark_row self.now.system.now).fields self.now.entries.items words.now }
        ensures inside { IfOk result (λ e. InBox self.now.system.now.area e.place.site) }
        ensures known { IfOk result (λ e. IsType self.now.system.now e.place.tile) }
        ensures sides { IfOk result (λ e. e.sides < 16) }
        ensures free { IfOk result (λ e. tile_at self.now.grid.tiles e.place.site ≡ None) }
    {
        let name = words.word(3);
        let found = self.system.find_type(name);
        let place = read_place(words.word(1), words.word(2), name, found)?;
        let sides = read_sides(words.word(4))?;
        let rank = read_rank(words.word(5))?;
        if !self.system.area().holds(place.site) {
            return Err(Cause::OutsideBox);
        }
        if !self.is_free(place.site) {
            return Err(Cause::DoubleSite);
        }
        Ok(Entry { place, sides, rank })
    }

    // The `mark` line at the front, where it is in its plain form and no entry has its site.
    #[inline(always)]
    fn read_front<'t>(&self, text: &'t [u8]) -> Option<PlainMark<'t>>
        requires { AreKept self.now.system.now self.now.entries.items self.now.grid }
        ensures plain { IfSome result (λ mark. BeginsPlain text.now mark.site mark.name.now
            mark.sides.now mark.rank mark.length) }
        ensures inside { IfSome result (λ mark. InBox self.now.system.now.area mark.site) }
        ensures entries { IfSome result (λ mark.
            is_none (tile_at (places_of self.now.entries.items) mark.site) ≡ true) }
        ensures free { IfSome result (λ mark. tile_at self.now.grid.tiles mark.site ≡ None) }
    {
        let mark = plain_mark(text)?;
        if !self.system.area().holds(mark.site) {
            return None;
        }
        if !self.is_free(mark.site) {
            return None;
        }
        Some(mark)
    }

    // Whether no entry has the site.
    fn is_free(&self, site: Site) -> bool
        requires { AreKept self.now.system.now self.now.entries.items self.now.grid }
        ensures entries { result ≡ is_none (tile_at (places_of self.now.entries.items) site) }
        ensures grid { IsTrue result → tile_at self.now.grid.tiles site ≡ None }
    {
        self.grid.at(site).is_none()
    }

    // Adds an entry that may stand here.
    fn hold(&mut self, entry: Entry) -> Result<(), NoMemory>
        requires kept { AreKept self.old.system.now self.old.entries.items self.old.grid }
        requires inside { InBox self.old.system.now.area entry.place.site }
        requires known { IsType self.old.system.now entry.place.tile }
        requires sides { entry.sides < 16 }
        requires free { tile_at self.old.grid.tiles entry.place.site ≡ None }
        ensures added { OnOk result
            (self.new.entries.items ≡ self.old.entries.items ++ entry ∷ []) }
        ensures left { OnErr result (self.new.entries.items ≡ self.old.entries.items) }
        ensures kept { AreKept self.new.system.now self.new.entries.items self.new.grid }
        ensures system { self.new.system.now ≡ self.old.system.now }
    {
        // a system is valid
        self.system.recall_valid();
        self.entries.push(entry)?;
        self.grid.put(entry.place);
        Ok(())
    }
}

// The rank of an entry.
fn read_rank(word: &[u8]) -> Result<u32, Cause>
    ensures { result ≡ count_in 0 4294967295 word.now }
{
    read_count(word, 0, u32::MAX)
}
