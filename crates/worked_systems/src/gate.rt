// A gate that counts who comes.
use std::sync::atomic::{AtomicU64, Ordering};
use tile_io::Gate;

/// A gate that lets each worker through, counts those who come, and keeps a bit for each number.
#[derive(Drop)]
pub struct CountingGate {
    count: AtomicU64,
    numbers: AtomicU64,
}

impl CountingGate {
    pub fn make() -> CountingGate {
        CountingGate {
            count: AtomicU64::new(0),
            numbers: AtomicU64::new(0),
        }
    }

    /// Whether each number below this one, which is at most 16, came once, and no other.
    pub fn saw_each_once(&self, workers: u32) -> bool {
        let all = (1u64 << workers.min(16)) - 1;
        self.count.load(Ordering::SeqCst) == u64::from(workers)
            && self.numbers.load(Ordering::SeqCst) == all
    }
}

impl Gate for CountingGate {
    fn arrive(&self, worker: u32) {
        let bit = 1u64 << worker.min(63);
        let _before = self.count.fetch_add(1, Ordering::SeqCst);
        let _others = self.numbers.fetch_or(bit, Ordering::SeqCst);
    }
}
