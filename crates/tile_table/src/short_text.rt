// A text on the stack.
ghost use Rattle.std.specs.Prelude.{◌≡◌, ◌≤◌, ◌+◌, [], ◌++◌, length, decimal};
ghost use Rattle.tile_table.specs.declared.short_text.TheConstants.{SHORT_ROOM};

use itoa::Buffer;
use std::marker::Model;

/// How many bytes a short text has at most.
pub const SHORT_ROOM: usize = 256;

/// A text of a line or of a part of one, on the stack.
#[derive(Drop)]
pub struct ShortText {
    bytes: [u8; 256],
    len: usize,
}

impl Model for ShortText {
    ghost use Rattle.std.specs.Prelude.{◌≤◌, List, ℕ, take};

    ghost Value = { List ℕ };

    ghost view = { λ text. take text.len text.bytes };

    ghost invariant = { λ text. text.len ≤ 256 };
}

impl ShortText {
    pub fn new() -> ShortText
        ensures { result ≡ [] }
    {
        ShortText {
            bytes: [0; 256],
            len: 0,
        }
    }

    /// Forgets what was added.
    #[inline(always)]
    pub fn clear(&mut self)
        ensures { self.new ≡ [] }
    {
        self.len = 0;
    }

    /// Adds a piece.
    #[inline(always)]
    pub fn add(&mut self, piece: &[u8])
        requires { length self.old + length piece.now ≤ SHORT_ROOM }
        ensures { self.new ≡ self.old ++ piece.now }
    {
        let end = self.len + piece.len();
        self.bytes[self.len..end].copy_from_slice(piece);
        self.len = end;
    }

    /// Adds the digits of a number.
    pub fn add_number(&mut self, number: u32)
        requires { length self.old + length (decimal number) ≤ SHORT_ROOM }
        ensures { self.new ≡ self.old ++ decimal number }
    {
        let mut buffer = Buffer::new();
        self.add(buffer.format(number).as_bytes());
    }

    #[inline(always)]
    pub fn as_slice(&self) -> &[u8]
        ensures { result.now ≡ self.now }
    {
        &self.bytes[..self.len]
    }
}

/// The room of a short text, as a number.
pub fn law_short_text()
    ensures { SHORT_ROOM ≡ 256 }
{}
