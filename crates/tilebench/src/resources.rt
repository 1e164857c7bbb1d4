// What a run is lent.
use std::alloc::Global;

/// The runtime that starts threads, the allocator, and the gate that each worker passes before its
/// first claim.
#[derive(Drop)]
pub struct Resources<'a, R, G> {
    pub rt: &'a R,
    pub alloc: Global,
    pub gate: &'a G,
}
