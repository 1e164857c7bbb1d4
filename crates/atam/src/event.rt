// What scouts do, and what they are told.
use crate::{Site, TypeId};
use thiserror::Error;

/// What a scout does. A scout goes by its name, the least of its numbers.
#[derive(Debug, Clone, Copy, PartialEq, Eq)]
pub enum Event {
    Look { who: u32, site: Site },
    Claim { who: u32, site: Site, tile: TypeId },
    Split { who: u32 },
    Join { into: u32, from: u32 },
}

/// What a scout is told. `Divided` has the name of the new scout, and `Joined` that of the joined one.
#[derive(Debug, Clone, Copy, PartialEq, Eq)]
pub enum Seen {
    Saw(Option<TypeId>),
    Won,
    Held(TypeId),
    Divided(u32),
    Joined(u32),
}

/// Why an event is refused.
#[derive(Debug, Clone, Copy, PartialEq, Eq, Error)]
pub enum CoreStop {
    #[error("no such scout")]
    NoSuchScout,
    #[error("not supported")]
    NotSupported { pull: u32 },
    #[error("outside the box")]
    OutsideBox,
    #[error("no number left")]
    NoNumberLeft,
    #[error("no memory")]
    NoMemory,
}
