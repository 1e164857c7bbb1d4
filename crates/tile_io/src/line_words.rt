// The words of a line, by index, and what a word is.
ghost use Rattle.std.specs.Prelude.{◌≡◌, ◌≢◌, ◌<◌, ◌≤◌, ◌+◌, ◌^◌, ◌∷◌, ◌++◌, All, Some, length, take, slice_get, bytes_eq, IfNone, IfSome};
ghost use Rattle.tile_io.specs.Lines.{words_of};

use crate::words;

// Most words are shorter.
const SHORT_WORD: usize = 8;

/// A word of a line, in time that grows with the length of the line.
pub fn word_at(line: &[u8], index: usize) -> &[u8]
    requires { index < length (words_of line.now) }
    ensures { slice_get (words_of line.now) index ≡ Some result.now }
{
    match words(line).nth(index) {
        Some(word) => word,
        None => unreachable!(),
    }
}

/// Whether these bytes are the same.
pub fn is_word(word: &[u8], other: &[u8]) -> bool
    ensures { result ≡ bytes_eq word.now other.now }
{
    word == other
}

/// What stands in front of the first such byte, and what stands behind it, where at most so many
/// bytes are in front of it.
#[inline(always)]
pub fn leading_word(bytes: &[u8], end: u8, most: usize) -> Option<(&[u8], &[u8])>
    requires { most < 2 ^ 32 }
    ensures cut { IfSome result (λ found. bytes.now ≡ found.0.now ++ end ∷ found.1.now) }
    ensures first { IfSome result (λ found. All (λ byte. byte ≢ end) found.0.now) }
    ensures few { IfSome result (λ found. length found.0.now ≤ most) }
    ensures none { IfNone result (All (λ byte. byte ≢ end) (take (most + 1) bytes.now)) }
{
    // a loop whose count is a constant takes fewer steps
    if bytes.len() > SHORT_WORD && most >= SHORT_WORD {
        return match word_among(bytes, end, 0, SHORT_WORD) {
            Some(found) => Some(found),
            None => word_among(bytes, end, SHORT_WORD, bytes.len().min(most + 1)),
        };
    }
    word_among(bytes, end, 0, bytes.len().min(most + 1))
}

// The same where the first such byte is one of these, if any of them is one.
#[inline(always)]
fn word_among(bytes: &[u8], end: u8, from: usize, to: usize) -> Option<(&[u8], &[u8])>
    requires order { from ≤ to }
    requires within { to ≤ length bytes.now }
    requires before { All (λ byte. byte ≢ end) (take from bytes.now) }
    ensures cut { IfSome result (λ found. bytes.now ≡ found.0.now ++ end ∷ found.1.now) }
    ensures first { IfSome result (λ found. All (λ byte. byte ≢ end) found.0.now) }
    ensures few { IfSome result (λ found. length found.0.now < to) }
    ensures none { IfNone result (All (λ byte. byte ≢ end) (take to bytes.now)) }
{
    for index in from..to {
        if bytes[index] == end {
            return Some((&bytes[..index], &bytes[index + 1..]));
        }
    }
    None
}
