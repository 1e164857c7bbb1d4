// What a batch may hold at most.
ghost use Rattle.std.specs.Prelude.{◌≡◌};
ghost use Rattle.job_board.specs.declared.limits.TheConstants.{MOST_JOBS, MOST_SITES};
ghost use Rattle.job_board.specs.declared.limits.TheConstants.{GREATEST_CHOICE};

/// So many jobs.
pub const MOST_JOBS: usize = 1024;

/// So many sites in the boxes of all jobs together.
pub const MOST_SITES: usize = 4_194_304;

/// So great a choice.
pub const GREATEST_CHOICE: u32 = 4_294_967_295;

/// The limits of batches, as numbers.
pub fn law_limits()
    ensures jobs { MOST_JOBS ≡ 1024 }
    ensures sites { MOST_SITES ≡ 4194304 }
    ensures choice { GREATEST_CHOICE ≡ 4294967295 }
{}
