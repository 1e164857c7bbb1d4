//! The pull on a type at a site, attachment, closed assemblies and the least open site.
#![tactic(auto)]

mod attach;
mod bonding;
mod candidate;
mod facing;
mod finder;
mod inside;
mod outside;
mod plane;
mod type_list;

pub use attach::{bond, bond_with, can_attach, first_type, interaction, pull};
pub use bonding::{Strengths, bonds, facing_bonds};
pub use candidate::candidates;
pub use facing::{FacingGlues, facing_pull, glues_beside, glues_facing};
pub use finder::{EachType, TypeFinder};
pub use inside::{closed_in_box, least_open_inside, least_open_inside_by};
pub use outside::{least_open_outside, least_open_outside_by};
pub use plane::{least_open, least_open_by};
pub use type_list::TypeList;
