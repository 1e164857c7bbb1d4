// By which way a growth goes.
ghost use Rattle.std.specs.Prelude.{◌≡◌, ◌↔◌, IsTrue};
ghost use Rattle.grow_workers.specs.declared.goes.Goes.TheVariants.{InOrder};

use crate::picks::Picks;

// Either each worker claims in bands of rows of its own, by this choice, or worker 0 goes through
// the whole box in canonical order and logs its claims, so that the others may end.
#[derive(Clone, Copy)]
pub(crate) enum Goes {
    ByBands { choice: u64 },
    InOrder,
}

impl Goes {
    pub(crate) fn is_in_order(self) -> bool
        ensures { IsTrue result ↔ (self ≡ InOrder) }
    {
        match self {
            Goes::ByBands { choice: _choice } => false,
            Goes::InOrder => true,
        }
    }

    // How a worker chooses that logs nothing.
    pub(crate) fn picks(self, worker: u32) -> Picks {
        match self {
            Goes::ByBands { choice } => Picks::make(choice, worker),
            Goes::InOrder => Picks::make(0, worker),
        }
    }
}
