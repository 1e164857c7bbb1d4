//! Frames of a running growth, each the greatest producible part of what was seen.
#![tactic(auto)]

mod frames;
mod laws;
mod listing;
mod looks;
mod printing;
mod watcher;
mod watching;

pub use frames::Frames;
pub use laws::{law_extension, law_extension_grows, law_frames};
pub use printing::print_frames;
pub use watcher::Watcher;
pub use watching::{watch, watch_by_index};
