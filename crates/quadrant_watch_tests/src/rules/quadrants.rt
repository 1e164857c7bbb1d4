// Worked rules, as texts, with their tiles and the places that grow, in canonical order.
use quadrant_compile::{Quadrant, read_quadrant};
use std::alloc::Global;
use tile_io::{MOST_INPUT, Mark, TextStop};
use worked_systems::Spot;

/// Exclusive or over two columns and two rows, with ones at the borders.
pub const EXCLUSIVE_OR: &str =
    "quadrant 1\nsymbol 0\nsymbol 1\nrule 0 0 0 0\nrule 0 1 1 1\nrule 1 0 1 1\n\
    rule 1 1 0 0\nsize 2 2\nbottom 1 1\nleft 1 1\nend\n";

/// Its tiles.
pub const EXCLUSIVE_OR_TILES: &str =
    "tiles 1\ntau 2\nglue h:0 1\nglue h:1 1\nglue v:0 1\nglue v:1 1\nglue b:1 2\n\
    glue b:2 2\nglue a:1 2\nglue a:2 2\ntile o a:1 b:1 - -\ntile b:1 v:1 b:2 - b:1\n\
    tile b:2 v:1 - - b:2\ntile a:1 a:2 h:1 a:1 -\ntile a:2 - h:1 a:2 -\n\
    tile q:0:0 v:0 h:0 v:0 h:0\ntile q:0:1 v:1 h:1 v:1 h:0\n\
    tile q:1:0 v:1 h:1 v:0 h:1\ntile q:1:1 v:0 h:0 v:1 h:1\nbox 0 0 2 2\n\
    seed 0 0 o\nend\n";

/// What grows from them.
pub const EXCLUSIVE_OR_PLACES: [Spot; 9] = [
    (0, 0, 0),
    (1, 0, 1),
    (2, 0, 2),
    (0, 1, 3),
    (1, 1, 8),
    (2, 1, 6),
    (0, 2, 4),
    (1, 2, 7),
    (2, 2, 8),
];

/// The same without the rule for two ones, which would come first.
pub const WITHOUT_ONES: &str =
    "quadrant 1\nsymbol 0\nsymbol 1\nrule 0 0 0 0\nrule 0 1 1 1\nrule 1 0 1 1\nsize 2 2\n\
    bottom 1 1\nleft 1 1\nend\n";

/// Its tiles.
pub const WITHOUT_ONES_TILES: &str =
    "tiles 1\ntau 2\nglue h:0 1\nglue h:1 1\nglue v:0 1\nglue v:1 1\nglue b:1 2\n\
    glue b:2 2\nglue a:1 2\nglue a:2 2\ntile o a:1 b:1 - -\ntile b:1 v:1 b:2 - b:1\n\
    tile b:2 v:1 - - b:2\ntile a:1 a:2 h:1 a:1 -\ntile a:2 - h:1 a:2 -\n\
    tile q:0:0 v:0 h:0 v:0 h:0\ntile q:0:1 v:1 h:1 v:1 h:0\n\
    tile q:1:0 v:1 h:1 v:0 h:1\nbox 0 0 2 2\nseed 0 0 o\nend\n";

/// What grows from them.
pub const WITHOUT_ONES_PLACES: [Spot; 5] = [(0, 0, 0), (1, 0, 1), (2, 0, 2), (0, 1, 3), (0, 2, 4)];

/// More columns than rows, rules that give unlike symbols, and border symbols that are not given.
pub const LOPSIDED: &str =
    "quadrant 1\nsymbol a\nsymbol b\nsymbol c\nrule c a a c\nrule a b c b\nsize 3 2\n\
    bottom b\nend\n";

/// Its tiles.
pub const LOPSIDED_TILES: &str =
    "tiles 1\ntau 2\nglue h:a 1\nglue h:b 1\nglue h:c 1\nglue v:a 1\nglue v:b 1\n\
    glue v:c 1\nglue b:1 2\nglue b:2 2\nglue b:3 2\nglue a:1 2\nglue a:2 2\n\
    tile o a:1 b:1 - -\ntile b:1 v:b b:2 - b:1\ntile b:2 v:a b:3 - b:2\n\
    tile b:3 v:a - - b:3\ntile a:1 a:2 h:a a:1 -\ntile a:2 - h:a a:2 -\n\
    tile q:a:b v:b h:c v:b h:a\ntile q:c:a v:c h:a v:a h:c\nbox 0 0 3 2\n\
    seed 0 0 o\nend\n";

/// What grows from them.
pub const LOPSIDED_PLACES: [Spot; 9] = [
    (0, 0, 0),
    (1, 0, 1),
    (2, 0, 2),
    (3, 0, 3),
    (0, 1, 4),
    (1, 1, 6),
    (2, 1, 7),
    (0, 2, 5),
    (1, 2, 6),
];

/// The quadrant of a text.
#[tactic(auto, using(tile_io::proofs::Progress::start_is_mark))]
pub fn quadrant(alloc: Global, text: &str) -> Result<Quadrant, TextStop> {
    let bytes = text.as_bytes();
    let (quadrant, _end) = read_quadrant(
        alloc,
        &bytes[..bytes.len().min(MOST_INPUT)],
        Mark::start(),
    )?;
    Ok(quadrant)
}
