// Bytes held back in front of a sink, so that they go out in large pieces.
ghost use Rattle.std.specs.Prelude.{◌≡◌, ◌≤◌, ◌+◌, [], ◌∷◌, ◌++◌, List, ℕ, length, take, map, flat_map, OnOk};
ghost use Rattle.tile_io.specs.Chunks.{PassesOn};
ghost use Rattle.tile_io.specs.Lines.{line_of};
ghost use Rattle.tile_io.specs.Prints.{Prints};

use crate::{Failed, Sink, write_all};
use std::marker::Model;

/// How many bytes are held back at most.
pub const CHUNK_ROOM: usize = 65536;

/// The bytes that are held back, on the stack. After a failure nothing is held, since it may be out
/// already.
#[derive(Drop)]
pub struct Chunk {
    bytes: [u8; 65536],
    len: usize,
}

impl Model for Chunk {
    ghost Value = { List ℕ };

    ghost view = { λ chunk. take chunk.len chunk.bytes };

    ghost invariant = { λ chunk. chunk.len ≤ 65536 };
}

impl Chunk {
    pub fn new() -> Chunk
        ensures { result ≡ [] }
    {
        Chunk {
            bytes: [0; 65536],
            len: 0,
        }
    }

    /// Adds a piece. What is held goes out first where the piece finds no room behind it.
    #[inline(always)]
    pub fn put<K: Sink>(&mut self, sink: &mut K, piece: &[u8]) -> Result<(), Failed>
        ensures { PassesOn K.written K.faults sink.old sink.new self.old self.new result piece.now }
    {
        if piece.len() <= CHUNK_ROOM - self.len {
            self.hold(piece);
            return Ok(());
        }
        self.put_past(sink, piece)
    }

    // Sends out what is held, and adds a piece then.
    fn put_past<K: Sink>(&mut self, sink: &mut K, piece: &[u8]) -> Result<(), Failed>
        ensures { PassesOn K.written K.faults sink.old sink.new self.old self.new result piece.now }
    {
        self.flush(sink)?;
        if piece.len() <= CHUNK_ROOM {
            self.hold(piece);
            return Ok(());
        }
        write_all(sink, piece)
    }

    /// Makes room for so many bytes: what is held goes out first where fewer are free.
    #[inline(always)]
    pub fn make_room<K: Sink>(&mut self, sink: &mut K, count: usize) -> Result<(), Failed>
        requires { count ≤ CHUNK_ROOM }
        ensures passed { PassesOn K.written K.faults sink.old sink.new self.old self.new result [] }
        ensures room { OnOk result (length self.new + count ≤ CHUNK_ROOM) }
    {
        if count <= CHUNK_ROOM - self.len {
            return Ok(());
        }
        self.flush(sink)
    }

    /// Adds a piece for which there is room.
    #[inline(always)]
    pub fn hold(&mut self, piece: &[u8])
        requires { length self.old + length piece.now ≤ CHUNK_ROOM }
        ensures bytes { self.new ≡ self.old ++ piece.now }
        ensures len { length self.new ≡ length self.old + length piece.now }
    {
        let end = self.len + piece.len();
        self.bytes[self.len..end].copy_from_slice(piece);
        self.len = end;
    }

    /// Adds the front of a text. All of the text is copied, which takes no call.
    #[inline(always)]
    pub fn hold_front<const N: usize>(&mut self, text: &[u8; N], len: usize)
        requires within { len ≤ N }
        requires room { length self.old + N ≤ CHUNK_ROOM }
        ensures bytes { self.new ≡ self.old ++ take len text.now }
        ensures len { length self.new ≡ length self.old + len }
    {
        // what stands in no other memory is copied by moves of words alone
        let copied = *text;
        let start = self.len;
        self.bytes[start..start + N].copy_from_slice(&copied);
        self.len = start + len;
    }

    /// Writes what is held, and holds nothing then, also where a write fails.
    pub fn flush<K: Sink>(&mut self, sink: &mut K) -> Result<(), Failed>
        ensures bytes { Prints K.written K.faults sink.old sink.new result self.old }
        ensures empty { self.new ≡ [] }
    {
        let done = write_all(sink, &self.bytes[..self.len]);
        self.len = 0;
        done
    }

    /// Adds a line: words with single spaces between them, and a newline.
    pub fn put_line<K: Sink>(
        &mut self,
        sink: &mut K,
        first: &[u8],
        rest: &[&[u8]],
    ) -> Result<(), Failed>
        ensures { PassesOn K.written K.faults sink.old sink.new self.old self.new result
            (line_of (first.now ∷ map (λ word. word.now) rest.now)) }
    {
        self.put(sink, first)?;
        self.put_words(sink, rest)?;
        self.put(sink, b"\n")
    }

    // Adds each word behind a space.
    fn put_words<K: Sink>(&mut self, sink: &mut K, words: &[&[u8]]) -> Result<(), Failed>
        ensures { PassesOn K.written K.faults sink.old sink.new self.old self.new result
            (flat_map (λ word. 32 ∷ word.now) words.now) }
    {
        for word in words {
            self.put_word(sink, word)?;
        }
        Ok(())
    }

    // Adds a word behind a space, with one test for room where both find it.
    #[inline(always)]
    fn put_word<K: Sink>(&mut self, sink: &mut K, word: &[u8]) -> Result<(), Failed>
        ensures { PassesOn K.written K.faults sink.old sink.new self.old self.new result
            (32 ∷ word.now) }
    {
        if word.len() < CHUNK_ROOM - self.len {
            self.hold(b" ");
            self.hold(word);
            return Ok(());
        }
        self.put(sink, b" ")?;
        self.put(sink, word)
    }
}

/// Prints a line: words with single spaces between them, and a newline.
pub fn print_line<K: Sink>(sink: &mut K, first: &[u8], rest: &[&[u8]]) -> Result<(), Failed>
    ensures { Prints K.written K.faults sink.old sink.new result
        (line_of (first.now ∷ map (λ word. word.now) rest.now)) }
{
    let mut chunk = Chunk::new();
    chunk.put_line(sink, first, rest)?;
    chunk.flush(sink)
}
