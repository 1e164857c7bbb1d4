//! A gate that holds two workers until both have come, for the tests of several crates.
#![tactic(auto)]

use std::sync::atomic::{AtomicU64, Ordering};
use tile_io::Gate;

// One waits for the other for so many loads at most.
const MOST_LOADS: u64 = 1_000_000_000;

/// Holds worker 0 and one other until both have come, and lets all others through.
#[derive(Drop)]
pub struct MeetingGate {
    other: u32,
    first_came: AtomicU64,
    other_came: AtomicU64,
    missed: AtomicU64,
}

impl MeetingGate {
    /// A gate at which worker 0 meets the one with this number.
    pub fn make(other: u32) -> MeetingGate {
        MeetingGate {
            other,
            first_came: AtomicU64::new(0),
            other_came: AtomicU64::new(0),
            missed: AtomicU64::new(0),
        }
    }

    /// Whether both came, and neither waited in vain.
    pub fn is_met(&self) -> bool {
        self.first_came.load(Ordering::SeqCst) == 1
            && self.other_came.load(Ordering::SeqCst) == 1
            && self.missed.load(Ordering::SeqCst) == 0
    }
}

impl Gate for MeetingGate {
    fn arrive(&self, worker: u32) {
        if worker == 0 {
            meet(&self.first_came, &self.other_came, &self.missed);
        } else if worker == self.other {
            meet(&self.other_came, &self.first_came, &self.missed);
        }
    }
}

// Marks an arrival, and waits for the other.
fn meet(mine: &AtomicU64, other: &AtomicU64, missed: &AtomicU64) {
    mine.store(1, Ordering::SeqCst);
    for _ in 0..MOST_LOADS {
        if other.load(Ordering::SeqCst) == 1 {
            return;
        }
    }
    missed.store(1, Ordering::SeqCst);
}
