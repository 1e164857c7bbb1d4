// A `place` line in its plain form, which is read from the front of a text without being cut into
// words.
ghost use Rattle.std.specs.Prelude.{◌≡◌, ◌≢◌, ◌≤◌, ◌+◌, ◌∷◌, ◌++◌, ◌==◌, ℕ, ℤ, List, All, false, length, slice_index, take, codes, IfNone, IfSome};
ghost use Rattle.seq_text.specs.PlainCoordinates.{StartsWithCoordinate};
ghost use Rattle.seq_text.specs.Inner.Plain.{BeginsPlain, IsPlainPlace};

use atam::LONGEST_NAME;
use tile_io::{leading_digits, leading_word};
use tile_system::Site;

// How many digits a number may have in this form: each such number is a coordinate.
const MOST_PLAIN_DIGITS: usize = 6;

/// The site and the name of a line, and how many bytes it has with its newline.
#[derive(Drop)]
pub(crate) struct PlainPlace<'a> {
    pub(crate) site: Site,
    pub(crate) name: &'a [u8],
    pub(crate) length: usize,
}

/// What a text has at its front, if it begins with a `place` line and the name is one.
#[inline(always)]
pub(crate) fn plain_place(text: &[u8]) -> Option<PlainPlace<'_>>
    ensures { IfSome result (λ place.
        BeginsPlain text.now place.site place.name.now place.length) }
{
    let (site, fields) = plain_site(text)?;
    let (name, behind) = plain_end(fields)?;
    let length = text.len() - behind.len();
    Some(PlainPlace { site, name, length })
}

// The site at the front, and what stands behind it.
#[inline(always)]
fn plain_site(text: &[u8]) -> Option<(Site, &[u8])>
    ensures { IfSome result (λ found. IsPlainPlace text.now found.0 found.1.now) }
{
    let fields = behind_keyword(text)?;
    let (x, fields) = plain_coordinate(fields)?;
    let (y, fields) = plain_coordinate(fields)?;
    Some((Site { x, y }, fields))
}

// What stands behind the keyword and its space, which are compared as two words.
#[inline(always)]
fn behind_keyword(text: &[u8]) -> Option<&[u8]>
    ensures { IfSome result (λ fields. text.now ≡ codes "place" ++ 32 ∷ fields.now) }
{
    let (front, rest) = text.split_first_chunk::<4>()?;
    let (back, fields) = rest.split_first_chunk::<2>()?;
    if u32::from_le_bytes(*front) != u32::from_le_bytes(*b"plac") {
        return None;
    }
    if u16::from_le_bytes(*back) != u16::from_le_bytes(*b"e ") {
        return None;
    }
    Some(fields)
}

/// What stands in front of the first newline, and what stands behind it, if no more bytes are in
/// front of it than a name has.
#[inline(always)]
pub fn plain_end(bytes: &[u8]) -> Option<(&[u8], &[u8])>
    ensures cut { IfSome result (λ found. bytes.now ≡ found.0.now ++ 10 ∷ found.1.now) }
    ensures first { IfSome result (λ found. All (λ byte. byte ≢ 10) found.0.now) }
    ensures few { IfSome result (λ found. length found.0.now ≤ LONGEST_NAME) }
    ensures none { IfNone result (All (λ byte. byte ≢ 10) (take (LONGEST_NAME + 1) bytes.now)) }
{
    leading_word(bytes, b'\n', LONGEST_NAME)
}

/// The coordinate in its plain form at the front, and what stands behind the space after it.
#[inline(always)]
pub fn plain_coordinate(bytes: &[u8]) -> Option<(i32, &[u8])>
    ensures starts { IfSome result (λ found.
        StartsWithCoordinate bytes.now found.0 found.1.now) }
    ensures none { IfNone result ((z : ℤ) (rest : List ℕ) →
        StartsWithCoordinate bytes.now z rest → ⊥) }
{
    match after_minus(bytes) {
        Some(digits) => {
            let (size, rest) = leading_digits(digits, b' ', MOST_PLAIN_DIGITS)?;
            Some((-(size as i32), rest))
        }
        None => {
            let (size, rest) = leading_digits(bytes, b' ', MOST_PLAIN_DIGITS)?;
            Some((size as i32, rest))
        }
    }
}

// What stands behind a minus at the front.
#[inline(always)]
fn after_minus(bytes: &[u8]) -> Option<&[u8]>
    ensures rest { IfSome result (λ rest. bytes.now ≡ 45 ∷ rest.now) }
    ensures none { IfNone result ((slice_index bytes.now 0 == 45) ≡ false) }
{
    match bytes.split_first() {
        Some((first, rest)) if *first == b'-' => Some(rest),
        _ => None,
    }
}
