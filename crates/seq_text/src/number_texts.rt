// Numbers as they stand in a `place` line, kept for the next time that they are written.
ghost use Rattle.std.specs.Prelude.{◌≡◌, ◌≢◌, ◌<◌, ◌≤◌, ◌+◌, pos, [], ◌∷◌, ◌++◌, length, take, codes, IfSome};
ghost use Rattle.std.specs.Fmt.{signed_decimal};
ghost use Rattle.tile_io.specs.declared.chunk.TheConstants.{CHUNK_ROOM};

use itoa::Buffer;
use std::marker::Model;
use tile_io::Chunk;
use tile_system::Site;

// As many as a box has columns or rows: then no two of either have the same place.
const KEPT_NUMBERS: i32 = 1024;

// The most bytes of a number and a space that are kept.
const LONGEST_COLUMN: usize = 8;

// A number and the space behind it, at the front of a text.
#[derive(Clone, Copy)]
struct NumberText {
    text: [u8; 16],
    number: i32,
    len: usize,
    ghost short: { len ≤ 12 },
    ghost spelled: { take len text ≡ signed_decimal number ++ 32 ∷ [] },
}

impl NumberText {
    // It is made once for most numbers, so its code stands apart.
    #[inline(never)]
    fn new(number: i32) -> NumberText
        ensures number { result.number ≡ number }
        ensures len { result.len ≡ length (signed_decimal number) + 1 }
    {
        let mut text = [b' '; 16];
        let mut buffer = Buffer::new();
        let digits = buffer.format(number).as_bytes();
        text[..digits.len()].copy_from_slice(digits);
        NumberText {
            text,
            number,
            len: digits.len() + 1,
        }
    }

    // Adds the number and the space to what is held.
    #[inline(always)]
    fn hold(&self, chunk: &mut Chunk)
        requires { length chunk.old + 16 ≤ CHUNK_ROOM }
        ensures bytes { chunk.new ≡ chunk.old ++ signed_decimal self.now.number ++ 32 ∷ [] }
        ensures len { length chunk.new ≤ length chunk.old + 12 }
    {
        chunk.hold_front(&self.text, self.len);
    }
}

// A number and the space behind it, at the front of a short text, or nothing yet.
#[derive(Clone, Copy)]
pub struct ColumnText {
    text: [u8; 8],
    number: i32,
    len: u32,
    ghost made: { number ≢ pos 0 → 0 < len },
    ghost short: { len ≤ 8 },
    ghost spelled: { 0 < len → take len text ≡ signed_decimal number ++ 32 ∷ [] },
}

impl ColumnText {
    // All bytes are zero, and the text fits a word, so that a table of them is cleared in place.
    #[inline(always)]
    fn none() -> ColumnText {
        ColumnText {
            text: [0; 8],
            number: 0,
            len: 0,
        }
    }

    #[inline(always)]
    fn of(number: &NumberText) -> ColumnText
        requires { number.now.len ≤ LONGEST_COLUMN }
        ensures number { result.number ≡ number.now.number }
        ensures made { 0 < result.len }
    {
        let mut text = [b' '; 8];
        text.copy_from_slice(&number.text[..8]);
        ColumnText {
            text,
            number: number.number,
            len: number.len as u32,
        }
    }

    // The same in a longer text.
    #[inline(always)]
    fn number_text(&self) -> NumberText
        requires { 0 < self.now.len }
        ensures { result.number ≡ self.now.number }
    {
        let mut text = [b' '; 16];
        text[..8].copy_from_slice(&self.text);
        NumberText {
            text,
            number: self.number,
            len: self.len as usize,
        }
    }

    // Adds the number and the space to what is held.
    #[inline(always)]
    fn hold_number(&self, chunk: &mut Chunk)
        requires made { 0 < self.now.len }
        requires room { length chunk.old + 8 ≤ CHUNK_ROOM }
        ensures bytes { chunk.new ≡ chunk.old ++ signed_decimal self.now.number ++ 32 ∷ [] }
        ensures len { length chunk.new ≤ length chunk.old + 8 }
    {
        chunk.hold_front(&self.text, self.len as usize);
    }

    // Adds the keyword, the number, and the space behind each to what is held.
    #[inline(always)]
    pub fn hold(&self, chunk: &mut Chunk)
        requires made { 0 < self.now.len }
        requires room { length chunk.old + 16 ≤ CHUNK_ROOM }
        ensures bytes { chunk.new
            ≡ chunk.old ++ codes "place " ++ signed_decimal self.now.number ++ 32 ∷ [] }
        ensures len { length chunk.new ≤ length chunk.old + 16 }
    {
        chunk.hold_front(b"place   ", 6);
        self.hold_number(chunk);
    }
}

/// Numbers as they were last written, each at the place of its remainder by 1024, so that those of a
/// box's columns all find a place of their own, and the row that was written last.
// The place of 0 has a text from the start on.
#[derive(Drop)]
pub struct NumberTexts {
    row: NumberText,
    kept: [ColumnText; 1024],
}

// It is seen as the row that was written last.
impl Model for NumberTexts {
    ghost use Rattle.std.specs.Prelude.{ℤ};
    ghost use Rattle.seq_text.specs.Inner.NumberTexts.{IsBegun};

    ghost Value = { ℤ };

    ghost view = { λ texts. texts.row.number };

    ghost invariant = { λ texts. IsBegun texts.kept };
}

impl NumberTexts {
    #[inline(always)]
    pub fn new() -> NumberTexts {
        let row = NumberText::new(0);
        let mut kept = [ColumnText::none(); 1024];
        kept[0] = ColumnText::of(&row);
        NumberTexts { row, kept }
    }

    // The text of a column, where it is kept and the row is the one that was written last.
    #[inline(always)]
    pub fn known(&self, site: Site) -> Option<&ColumnText>
        ensures { IfSome result (λ text.
            (text.now.number ≡ site.x) × (0 < text.now.len) × (self.now ≡ site.y)) }
    {
        let kept = &self.kept[place_of(site.x)];
        if self.row.number == site.y && kept.number == site.x {
            return Some(kept);
        }
        None
    }

    // Adds the row that was written last, and a space, to what is held.
    #[inline(always)]
    pub fn hold_row(&self, chunk: &mut Chunk)
        requires { length chunk.old + 16 ≤ CHUNK_ROOM }
        ensures bytes { chunk.new ≡ chunk.old ++ signed_decimal self.now ++ 32 ∷ [] }
        ensures len { length chunk.new ≤ length chunk.old + 12 }
    {
        self.row.hold(chunk);
    }

    // Adds the keyword, a column, and the space behind each to what is held.
    pub fn hold_column(&mut self, column: i32, chunk: &mut Chunk)
        requires { length chunk.old + 22 ≤ CHUNK_ROOM }
        ensures same { self.new ≡ self.old }
        ensures bytes { chunk.new
            ≡ chunk.old ++ codes "place " ++ signed_decimal column ++ 32 ∷ [] }
        ensures len { length chunk.new ≤ length chunk.old + 18 }
    {
        let number = self.number(column);
        chunk.hold(b"place ");
        number.hold(chunk);
    }

    /// Adds a number and a space to what is held.
    #[inline(always)]
    pub fn hold(&mut self, number: i32, chunk: &mut Chunk)
        requires { length chunk.old + 16 ≤ CHUNK_ROOM }
        ensures same { self.new ≡ self.old }
        ensures bytes { chunk.new ≡ chunk.old ++ signed_decimal number ++ 32 ∷ [] }
        ensures len { length chunk.new ≤ length chunk.old + 12 }
    {
        let kept = &self.kept[place_of(number)];
        if kept.number == number && kept.len > 0 {
            return kept.hold_number(chunk);
        }
        self.hold_anew(number, chunk);
    }

    // The same where it isn't kept.
    #[inline(never)]
    fn hold_anew(&mut self, number: i32, chunk: &mut Chunk)
        requires { length chunk.old + 16 ≤ CHUNK_ROOM }
        ensures same { self.new ≡ self.old }
        ensures bytes { chunk.new ≡ chunk.old ++ signed_decimal number ++ 32 ∷ [] }
        ensures len { length chunk.new ≤ length chunk.old + 12 }
    {
        self.number(number).hold(chunk);
    }

    // Turns to another row.
    pub fn turn_to_row(&mut self, row: i32)
        ensures { self.new ≡ row }
    {
        let number = self.number(row);
        self.row = number;
    }

    // A number, which is kept from then on where it is short enough.
    fn number(&mut self, number: i32) -> NumberText
        ensures same { self.new ≡ self.old }
        ensures number { result.number ≡ number }
    {
        let place = place_of(number);
        let kept = &self.kept[place];
        if kept.number == number && kept.len > 0 {
            return kept.number_text();
        }
        let made = NumberText::new(number);
        if made.len <= LONGEST_COLUMN {
            self.kept[place] = ColumnText::of(&made);
        }
        made
    }
}

// The place of a number among those that are kept.
#[inline(always)]
fn place_of(number: i32) -> usize
    ensures within { result < 1024 }
    ensures zero { number ≡ pos 0 → result ≡ 0 }
{
    number.rem_euclid(KEPT_NUMBERS) as usize
}
