// How a system is to be grown.
use fan_out::WorkerCount;

/// By how many workers a system is grown, and what they choose by.
#[derive(Clone, Copy, Debug, PartialEq, Eq)]
pub struct Crew {
    pub workers: WorkerCount,
    /// Any number.
    pub choice: u64,
}
