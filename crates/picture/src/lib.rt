//! Pictures of assemblies as text: a character for each site.
#![tactic(auto)]

mod characters;
mod legend;
mod picture;

pub use picture::print_picture;
