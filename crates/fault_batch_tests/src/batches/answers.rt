// Batches that are answered, and words that are refused.
use program_runs::{Case, first_unlike};
use std::test::Fail;
use tilebench::Status;
use worked_systems::{RIVALS, SINGLE, TWO_SEEDS};

/// Two jobs, of which the second is clipped.
pub(crate) const TWO_JOBS: &str =
    "batch 1\njob 0\ntiles 1\ntau 1\ntile S - - - -\nbox 0 0 0 0\nseed 0 0 S\nend\n\
     job 7\ntiles 1\ntau 2\nglue a 2\nglue b 2\ntile S - a - -\ntile B - b - a\ntile C - - - b\n\
     box 0 0 1 0\nseed 0 0 S\nend\n";

const USAGE: &str = "refused words Usage\n";

// Batches, whose first lines stand before a system, and words that are refused.
const RUNS: [Case; 10] = [
    Case {
        words: &["batch", "--workers", "2"],
        system: TWO_JOBS,
        behind: "",
        status: Status::No,
        out: "job 0\nplace 0 0 S\nclosed terminal\nunique yes\njob 1\nplace 0 0 S\nplace 1 0 B\n\
            closed clipped 2 0 C\nunique no 3 2 0 C\ndone 2 yes 1\n",
        err: "",
    },
    Case {
        words: &["batch"],
        system: TWO_JOBS,
        behind: "\n# the last\njob 4294967295\ntiles 1\ntau 1\ntile S - - - -\nbox 0 0 0 0\n\
            seed 0 0 S\nend\n# no more\n\n",
        status: Status::No,
        out: "job 0\nplace 0 0 S\nclosed terminal\nunique yes\njob 1\nplace 0 0 S\nplace 1 0 B\n\
            closed clipped 2 0 C\nunique no 3 2 0 C\njob 2\nplace 0 0 S\nclosed terminal\n\
            unique yes\ndone 3 yes 2\n",
        err: "",
    },
    Case {
        words: &["batch", "--workers", "16"],
        system: "batch 1\njob 3\n",
        behind: SINGLE,
        status: Status::Done,
        out: "job 0\nplace 0 0 S\nclosed terminal\nunique yes\ndone 1 yes 1\n",
        err: "",
    },
    Case {
        words: &["batch"],
        system: "# with two seeds\nbatch 1\n\njob 0\n",
        behind: TWO_SEEDS,
        status: Status::Done,
        out: "job 0\nplace 0 0 S\nplace 2 0 T\nplace 1 0 M\nclosed terminal\nunique yes\n\
            done 1 yes 1\n",
        err: "",
    },
    // a job's choice picks among the types that attach, as one worker of grow does by it
    Case {
        words: &["batch"],
        system: "batch 1\njob 1\n",
        behind: RIVALS,
        status: Status::No,
        out: "job 0\nplace 0 0 S\nplace 1 0 B\nclosed terminal\nunique no 2 1 0 A\n\
            done 1 yes 0\n",
        err: "",
    },
    Case {
        words: &["batch", "--workers", "0"],
        system: TWO_JOBS,
        behind: "",
        status: Status::Words,
        out: "",
        err: USAGE,
    },
    Case {
        words: &["batch", "--workers", "17"],
        system: TWO_JOBS,
        behind: "",
        status: Status::Words,
        out: "",
        err: USAGE,
    },
    Case {
        words: &["batch", "--choice", "1"],
        system: TWO_JOBS,
        behind: "",
        status: Status::Words,
        out: "",
        err: USAGE,
    },
    Case {
        words: &["batch", "2"],
        system: TWO_JOBS,
        behind: "",
        status: Status::Words,
        out: "",
        err: USAGE,
    },
    Case {
        words: &["grow"],
        system: TWO_JOBS,
        behind: "",
        status: Status::Text,
        out: "",
        err: "refused text line 1 NoHeader\n",
    },
];

#[test]
fn runs_end_as_they_should(rt: HostRuntime) -> Result<(), Fail> {
    assert_eq!(rt; first_unlike(&rt, rt.alloc(), &RUNS)?, None);
    Ok(())
}
