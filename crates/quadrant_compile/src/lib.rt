//! Rules from two symbols to two, over columns and rows: their text, and the tile system that
//! shows their recurrence.
#![tactic(auto)]

mod border;
mod cells;
mod compiler;
mod laws;
mod limits;
mod line_kind;
mod listing;
mod names;
mod parts;
mod quadrant;
mod reader;
mod rule;
mod rule_list;
mod ruled;
mod table;
mod take;
mod tile;

pub use cells::cell_at;
pub use compiler::{QuadrantTiles, compile_quadrant, quadrant_tiles};
pub use laws::{law_example, law_quadrant, law_quadrant_text, law_recurrence, law_valid};
pub use limits::{LONGEST_SIDE, MOST_SYMBOLS, law_limits};
pub use quadrant::Quadrant;
pub use reader::read_quadrant;
pub use rule::{Answer, Rule};
