// How many workers share some work.
ghost use Rattle.std.specs.Prelude.{◌≡◌, ◌≤◌};

/// How many workers share some work: 1 to 16.
#[derive(Clone, Copy, Debug, PartialEq, Eq)]
pub struct WorkerCount {
    count: u32,
    pub ghost some: { 1 ≤ count },
    pub ghost few: { count ≤ 16 },
}

impl WorkerCount {
    pub fn new(count: u32) -> WorkerCount
        requires some { 1 ≤ count }
        requires few { count ≤ 16 }
        ensures { result.count ≡ count }
    {
        WorkerCount { count }
    }

    pub fn get(self) -> u32
        ensures count { result ≡ self.count }
        ensures some { 1 ≤ result }
        ensures few { result ≤ 16 }
    {
        self.count
    }
}
