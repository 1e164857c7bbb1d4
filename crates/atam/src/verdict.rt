// The answer to the question for local determinism.
use crate::{Site, TypeId};

/// Whether the three conditions hold, or the first that fails.
#[derive(Clone, Copy, Debug, PartialEq, Eq)]
pub enum Verdict {
    Yes,
    NotExact { site: Site, sum: u32 },
    Rival { site: Site, tile: TypeId },
    NotTerminal { site: Site, tile: TypeId },
}
