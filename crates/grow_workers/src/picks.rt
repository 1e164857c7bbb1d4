// How a worker chooses.
ghost use Rattle.std.specs.Prelude.{◌<◌, ◌≤◌};

use frontier_seat::{Chooser, RngChooser};
use rand_core::Rng;
use rand_pcg::Lcg64Xsh32;

// Where growth looks for its next site with the choice 0.
const NEXT_SITE: u32 = 0;

/// Who picks among the types where growth goes in canonical order: PCG's generator of state 0 and
/// stream 0.
pub fn picks_in_order() -> RngChooser<Lcg64Xsh32> {
    RngChooser::make(Lcg64Xsh32::new(0, 0))
}

// Candidates by PCG's generator of this worker, and with any choice but 0 the sites too.
#[derive(Drop)]
pub(crate) struct Picks {
    rng: Lcg64Xsh32,
    wanders: bool,
}

impl Picks {
    pub(crate) fn make(choice: u64, worker: u32) -> Picks {
        Picks {
            rng: Lcg64Xsh32::new(choice, u64::from(worker)),
            wanders: choice != 0,
        }
    }
}

impl Chooser for Picks {
    fn pick(&mut self, n: u32) -> u32
        requires { 1 ≤ n }
        ensures { result < n }
    {
        self.rng.next_u32() % n
    }

    #[inline(always)]
    fn start(&mut self, count: u32) -> u32
        requires { 1 ≤ count }
        ensures { result < count }
    {
        if self.wanders {
            return self.rng.next_u32() % count;
        }
        NEXT_SITE
    }
}
