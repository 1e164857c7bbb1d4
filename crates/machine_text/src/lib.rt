//! Turing machines: their text, their configurations and their runs.
#![tactic(auto)]

mod config;
mod kind;
mod laws;
mod limits;
mod machine;
mod name_list;
mod parts;
mod reader;
mod rule;
mod rule_list;
mod short_name;
mod take;

pub use config::{Config, Head};
pub use laws::{law_limits, law_machine_text};
pub use limits::{LONGEST_SHORT_NAME, MOST_CELLS, MOST_ROWS, MOST_STATES, MOST_SYMBOLS};
pub use machine::{Machine, run_machine};
pub use name_list::NameList;
pub use reader::read_machine;
pub use rule::{Rule, Transition, Turn};
pub use short_name::{check_new, find_name, find_names, find_names_of_line};
