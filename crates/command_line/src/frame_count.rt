// How many frames are taken of a growth.
ghost use Rattle.std.specs.Prelude.{◌≡◌, ◌≤◌};

/// How many frames are taken of a growth: 1 to 1000.
#[derive(Clone, Copy, Debug, PartialEq, Eq)]
pub struct FrameCount {
    count: u32,
    pub ghost some: { 1 ≤ count },
    pub ghost few: { count ≤ 1000 },
}

impl FrameCount {
    pub fn new(count: u32) -> FrameCount
        requires some { 1 ≤ count }
        requires few { count ≤ 1000 }
        ensures { result.count ≡ count }
    {
        FrameCount { count }
    }

    pub fn get(self) -> u32
        ensures count { result ≡ self.count }
        ensures some { 1 ≤ result }
        ensures few { result ≤ 1000 }
    {
        self.count
    }
}
