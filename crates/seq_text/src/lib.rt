//! Growths as text, and the schedules of scouts.
#![tactic(auto)]

mod action;
mod closed;
mod kind;
mod laws;
mod legality;
mod number_texts;
mod places;
mod plain;
mod reader;
mod schedule;
mod seen;
mod stuck;
mod type_name;
mod verdict;

pub use closed::{print_closed, put_closed};
pub use laws::{
    law_growth_fits, law_growth_one_of_two, law_growth_reads_printed, law_input_reads_printed,
    law_schedule_one_of_two,
};
pub use legality::print_legality;
pub use number_texts::NumberTexts;
pub use places::{PlacePieces, print_places, put_places};
pub use plain::{plain_coordinate, plain_end};
pub use reader::{read_grid, read_grid_in_blocks, read_sequence, read_sequence_in_blocks};
pub use schedule::read_events;
pub use seen::{print_replies, print_seen, put_seen};
pub use stuck::{print_stuck, print_stuck_seed};
pub use type_name::hold_type_name;
pub use verdict::{print_verdict, put_verdict};
