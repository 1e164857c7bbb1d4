// Why an assembly has no canonical sequence that lists all of it.
use thiserror::Error;
use tile_system::{NoMemory, Site};

/// Why a grid was not put in order.
#[derive(Debug, Clone, Copy, PartialEq, Eq, Error)]
pub enum ReplayStop {
    /// Some seed's site does not hold the seed's type.
    #[error("no seed there")]
    NoSeedThere,
    /// The canonical sequence does not list this many of the tiles; the site is the least of
    /// theirs.
    #[error("stuck")]
    Stuck { left: u32, least: Site },
    #[error("no memory")]
    NoMemory,
}

impl From<NoMemory> for ReplayStop {
    ghost use Rattle.std.specs.Prelude.{◌≡◌};
    ghost use Rattle.replay_order.specs.declared.stop.ReplayStop.TheVariants.{NoMemory as OutOfMemory};

    ghost from_gives = { λ _ stop. stop ≡ OutOfMemory };

    fn from(_: NoMemory) -> ReplayStop {
        ReplayStop::NoMemory
    }
}
