// A job.
ghost use Rattle.std.specs.Prelude.{◌≡◌, ◌↔◌, IsTrue};

use tile_system::System;

/// A system that is to be grown, and the choice of its line, by which its worker chooses.
pub struct Job {
    pub sys: System,
    pub choice: u64,
}

impl Drop for Job {
    fn drop(self) {
        let Job {
            sys: _sys,
            choice: _choice,
        } = self;
    }
}

/// Whether two jobs are equal. It takes no memory.
pub fn same_job(a: &Job, b: &Job) -> bool
    ensures { IsTrue result ↔ (a.now ≡ b.now) }
{
    a.choice == b.choice && a.sys.is_same(&b.sys)
}
