// How a run ended.
ghost use Rattle.std.specs.Prelude.{◌≡◌};
ghost use Rattle.tilebench.specs.Statuses.{number_of};

use site_table::Grown;

/// How a run ended. The numbers are the program's exit codes, from 0 in this order.
#[derive(Clone, Copy, Debug, PartialEq, Eq)]
pub enum Status {
    /// Done, and the answer is a yes.
    Done,
    /// Done, and the answer is a no.
    No,
    /// The words were refused.
    Words,
    /// The input was refused.
    Text,
    /// The source failed.
    ReadFault,
    /// A sink failed.
    WriteFault,
    /// Memory was wanting.
    NoMemory,
}

impl Status {
    /// The exit code.
    pub fn code(self) -> u8
        ensures { result ≡ number_of self }
    {
        match self {
            Status::Done => 0,
            Status::No => 1,
            Status::Words => 2,
            Status::Text => 3,
            Status::ReadFault => 4,
            Status::WriteFault => 5,
            Status::NoMemory => 6,
        }
    }
}

/// What the top call hands back.
#[derive(Drop)]
pub struct Ran {
    pub status: Status,
    /// What the system grew into, where the answer of a command that grows was printed.
    pub grown: Option<Grown>,
}
