// What was found for glues, kept with their key.
use crate::known::Known;

// The key of glues that face a site, and what was found for them.
#[derive(Clone, Copy)]
pub(crate) struct Finding {
    pub(crate) key: u64,
    pub(crate) known: Known,
}
