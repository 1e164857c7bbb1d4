// A `mark` line in its plain form, which is read from the front of a text without being cut into
// words.
ghost use Rattle.std.specs.Prelude.{◌≡◌, ◌++◌, ◌∷◌, IfSome};
ghost use Rattle.cert_text.specs.Inner.Plain.{BeginsPlain, IsPlainMark};

use atam::LONGEST_NAME;
use seq_text::plain_coordinate;
use tile_io::{leading_digits, leading_word};
use tile_system::Site;

// How many digits a rank may have in this form: each such number is a rank.
const MOST_PLAIN_DIGITS: usize = 8;

/// The site of a line in its plain form, the words behind it, the rank, and how many bytes the line
/// has with its newline.
#[derive(Drop)]
pub(crate) struct PlainMark<'a> {
    pub(crate) site: Site,
    pub(crate) name: &'a [u8],
    pub(crate) sides: &'a [u8],
    pub(crate) rank: u32,
    pub(crate) length: usize,
}

/// What a text has at its front, if it begins with a `mark` line and the words are those of an
/// entry.
// Its loops stand apart, since the loop over the lines leaves them too few registers.
#[inline(never)]
pub(crate) fn plain_mark(text: &[u8]) -> Option<PlainMark<'_>>
    ensures { IfSome result (λ mark. BeginsPlain text.now mark.site mark.name.now mark.sides.now
        mark.rank mark.length) }
{
    let (site, name, sides, fields) = plain_fields(text)?;
    let (rank, behind) = leading_digits(fields, b'\n', MOST_PLAIN_DIGITS)?;
    let length = text.len() - behind.len();
    Some(PlainMark {
        site,
        name,
        sides,
        rank,
        length,
    })
}

// The site at the front, the name and the sides, and what stands behind them.
#[inline(always)]
fn plain_fields(text: &[u8]) -> Option<(Site, &[u8], &[u8], &[u8])>
    ensures { IfSome result (λ found.
        IsPlainMark text.now found.0 found.1.now found.2.now found.3.now) }
{
    let [b'm', b'a', b'r', b'k', b' ', fields @ ..] = text else {
        return None;
    };
    let (x, fields) = plain_coordinate(fields)?;
    let (y, fields) = plain_coordinate(fields)?;
    let (name, fields) = plain_word(fields)?;
    let (sides, fields) = plain_word(fields)?;
    Some((Site { x, y }, name, sides, fields))
}

// The bytes in front of the first space, no more than a name has, and those behind it.
#[inline(always)]
fn plain_word(bytes: &[u8]) -> Option<(&[u8], &[u8])>
    ensures { IfSome result (λ found. bytes.now ≡ found.0.now ++ 32 ∷ found.1.now) }
{
    leading_word(bytes, b' ', LONGEST_NAME)
}
