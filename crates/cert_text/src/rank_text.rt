// Ranks as they are written, one after the other.
ghost use Rattle.std.specs.Prelude.{◌≡◌, ◌≤◌, ◌<◌, ◌+◌, ◌*◌, ℕ, ◌^◌, [], ◌∷◌, ◌++◌, length, take, decimal};
ghost use Rattle.tile_io.specs.declared.chunk.TheConstants.{CHUNK_ROOM};

use itoa::Buffer;
use tile_io::Chunk;

/// The digits of a rank but the last one, which most ranks have in common with the one that was
/// written before.
#[derive(Clone, Copy)]
pub(crate) struct RankText {
    text: [u8; 16],
    tens: u32,
    len: usize,
    ghost short: { len ≤ 10 },
    ghost spelled: { (digit : ℕ) → digit < 10 →
        take len text ++ (48 + digit) ∷ [] ≡ decimal (10 * tens + digit) },
}

impl RankText {
    // It is made once for ten ranks, so its code stands apart.
    #[inline(never)]
    pub(crate) fn new(tens: u32) -> RankText
        requires { tens < 2 ^ 29 }
        ensures { result.tens ≡ tens }
    {
        let mut text = [b' '; 16];
        if tens == 0 {
            return RankText { text, tens, len: 0 };
        }
        let mut buffer = Buffer::new();
        let digits = buffer.format(tens).as_bytes();
        text[..digits.len()].copy_from_slice(digits);
        RankText {
            text,
            tens,
            len: digits.len(),
        }
    }

    // Turns to the ranks with these digits but the last one.
    #[inline(always)]
    fn turn_to(&mut self, tens: u32)
        requires { tens < 2 ^ 29 }
        ensures { self.new.tens ≡ tens }
    {
        if self.tens != tens {
            *self = RankText::new(tens);
        }
    }

    /// Adds a rank and a newline to what is held.
    #[inline(always)]
    pub(crate) fn hold(&mut self, rank: u32, chunk: &mut Chunk)
        requires { length chunk.old + 16 ≤ CHUNK_ROOM }
        ensures { chunk.new ≡ chunk.old ++ decimal rank ++ 10 ∷ [] }
    {
        self.turn_to(rank / 10);
        chunk.hold_front(&self.text, self.len);
        chunk.hold_front(&[b'0' + (rank % 10) as u8, b'\n'], 2);
    }
}
