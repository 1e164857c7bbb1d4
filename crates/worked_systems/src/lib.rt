//! What the tests of several crates share: the worked systems and machines, as texts, and a gate.
#![tactic(auto)]

mod gate;
mod machines;
mod places;
mod texts;

pub use gate::CountingGate;
pub use machines::{
    BIT_FLIPPER, CLIPPED_FLIPPER, FLIPPED, FLIPPER, IDLE, LEFT_RUNNER, RUN_LEFT, STAYER,
    widest_machine,
};
pub use places::{Spot, fitting_place, grid_of, lists, put_fitting, sequence_of};
use std::alloc::Global;
pub use texts::{changed_line, filled_box, scattered_seeds};
use tile_io::{MOST_INPUT, Mark, TextStop};
use tile_system::System;
use tile_text::read_system;

/// One tile.
pub const SINGLE: &str = "tiles 1\ntau 1\ntile S - - - -\nbox 0 0 0 0\nseed 0 0 S\nend\n";

/// Three tiles in a row.
pub const CHAIN: &str =
    "tiles 1\ntau 2\nglue a 2\nglue b 2\ntile S - a - -\ntile B - b - a\ntile C - - - b\n\
    box 0 0 2 0\nseed 0 0 S\nend\n";

/// Two types for one site.
pub const RIVALS: &str =
    "tiles 1\ntau 1\nglue a 1\ntile S - a - -\ntile A - - - a\ntile B - - - a\n\
    box 0 0 1 0\nseed 0 0 S\nend\n";

/// Three types for one site.
pub const THREE_RIVALS: &str =
    "tiles 1\ntau 1\nglue a 1\ntile S - a - -\ntile A - - - a\ntile B - - - a\ntile C - - - a\n\
    box 0 0 1 0\nseed 0 0 S\nend\n";

/// A short path and a long one around a square to one site, with a type for each.
pub const RACE: &str =
    "tiles 1\ntau 1\nglue a 1\nglue b 1\nglue c 1\nglue e 1\nglue f 1\nglue g 1\n\
    tile S b a - -\ntile A c - - a\ntile B e - b -\ntile C - f e -\ntile D - - g f\n\
    tile X - - c -\ntile Y g - - -\nbox 0 0 1 2\nseed 0 0 S\nend\n";

/// One tile, whose four sides can be changed to bear glues of other types.
pub const EDGES: &str =
    "tiles 1\ntau 1\nglue n 1\nglue e 1\nglue s 1\nglue w 1\ntile O - - - -\ntile N - - n -\n\
    tile E - - - e\ntile S s - - -\ntile W - w - -\nbox 0 0 0 0\nseed 0 0 O\nend\n";

/// A square that has one order of growth for each corner.
pub const SQUARE: &str = "tiles 1\ntau 1\nglue a 1\nglue b 1\nglue c 1\nglue d 1\ntile S b a - -\n\
    tile E c - - a\ntile N - d b -\ntile C - - c d\nbox 0 0 1 1\nseed 0 0 S\nend\n";

/// The Sierpinski triangle.
pub const SIERPINSKI: &str =
    "tiles 1\ntau 2\nglue 0 1\nglue 1 1\nglue h 2\nglue v 2\ntile S v h - -\n\
    tile B 1 h - h\ntile L v 1 v -\ntile r00 0 0 0 0\ntile r01 1 1 1 0\n\
    tile r10 1 1 0 1\ntile r11 0 0 1 1\nbox 0 0 7 7\nseed 0 0 S\nend\n";

/// One type that binds on all sides.
pub const FULL: &str = "tiles 1\ntau 1\nglue a 1\ntile T a a a a\nbox 0 0 63 63\nseed 0 0 T\nend\n";

/// The same in a box with work for several workers.
pub const WIDE: &str =
    "tiles 1\ntau 1\nglue a 1\ntile T a a a a\nbox 0 0 127 127\nseed 0 0 T\nend\n";

/// A tile that two sides hold beside a third that mismatches.
pub const MISMATCH: &str =
    "tiles 1\ntau 2\nglue a 2\nglue c 2\nglue p 2\nglue q 2\nglue u 1\nglue w 1\n\
    glue n 1\nglue m 1\ntile S p a - -\ntile B u c - a\ntile D q - - c\ntile L - w p -\n\
    tile T - n u w\ntile R - - q m\nbox 0 0 2 1\nseed 0 0 S\nend\n";

/// A counter of two bits, from 0.
pub const SMALL_COUNTER: &str =
    "tiles 1\ntau 2\nglue w0 1\nglue w1 1\nglue v0 1\nglue v1 1\nglue e0 2\nglue e1 2\n\
    glue x0 1\nglue x1 1\nglue c0 1\nglue c1 1\nglue t0 2\nglue t1 2\nglue k 1\n\
    glue p:1 2\ntile t:0 w0 p:1 - -\ntile t:1 e0 - - p:1\ntile ie:0 x1 - e0 c0\n\
    tile ie:1 x0 - e1 c1\ntile im:00 v0 c0 v0 c0\ntile im:01 v1 c1 v0 c0\n\
    tile im:10 v1 c0 v1 c0\ntile im:11 v0 c1 v1 c1\ntile iw:00 t0 c0 w0 -\n\
    tile iw:01 t1 c1 w0 -\ntile iw:10 t1 c0 w1 -\ntile iw:11 - c1 w1 -\n\
    tile cw:0 w0 k t0 -\ntile cw:1 w1 k t1 -\ntile cm:0 v0 k v0 k\ntile cm:1 v1 k v1 k\n\
    tile ce:0 e0 - x0 k\ntile ce:1 e1 - x1 k\nbox 0 0 1 7\nseed 0 0 t:0\nend\n";

/// What grows from the counter of two bits, in canonical order.
pub const COUNTED: &str =
    "place 0 0 t:0\nplace 1 0 t:1\nplace 1 1 ie:0\nplace 0 1 iw:00\nplace 0 2 cw:0\n\
    place 1 2 ce:1\nplace 1 3 ie:1\nplace 0 3 iw:01\nplace 0 4 cw:1\nplace 1 4 ce:0\n\
    place 1 5 ie:0\nplace 0 5 iw:10\nplace 0 6 cw:1\nplace 1 6 ce:1\nplace 1 7 ie:1\n\
    place 0 7 iw:11\n";

/// The strongest glue at the highest temperature.
pub const LIMITS: &str =
    "tiles 1\ntau 1000\nglue a 250\ntile S - a - -\ntile A - - - a\nbox 0 0 1 0\n\
    seed 0 0 S\nend\n";

/// Null beside null, and equal glues of strength 0.
pub const NULL_GLUES: &str =
    "tiles 1\ntau 1\nglue z 0\ntile S - z - -\ntile A - - - z\ntile B - - - -\n\
    box 0 0 1 0\nseed 0 0 S\nend\n";

/// Two seed tiles, and one between them that both hold.
pub const TWO_SEEDS: &str =
    "tiles 2\ntau 2\nglue a 1\nglue b 1\ntile S - a - -\ntile T - - - b\ntile M - b - a\n\
    box 0 0 2 0\nseed 0 0 S\nseed 2 0 T\nend\n";

/// A pair of unlike glues that bind, where equal ones do not.
pub const PAIRED: &str =
    "tiles 2\ntau 1\nglue a 0\nglue b 0\npair a b 1\ntile S - a - -\ntile A - - - a\n\
    tile B - - - b\nbox 0 0 1 0\nseed 0 0 S\nend\n";

/// The same where equal ones bind too.
pub const PAIRED_RIVALS: &str =
    "tiles 2\ntau 1\nglue a 1\nglue b 0\npair a b 1\ntile S - a - -\ntile A - - - a\n\
    tile B - - - b\nbox 0 0 1 0\nseed 0 0 S\nend\n";

/// The system of a text.
pub fn system(alloc: Global, text: &str) -> Result<System, TextStop> {
    let bytes = text.as_bytes();
    let (system, _end) = read_system(alloc, &bytes[..bytes.len().min(MOST_INPUT)], Mark::start())?;
    Ok(system)
}
