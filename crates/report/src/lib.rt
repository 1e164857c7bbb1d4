//! What is to be told of a growth, as one line of JSON.
#![tactic(auto)]

mod report;

pub use report::report_text;
