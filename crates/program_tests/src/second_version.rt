// Texts of the second version: several seeds, and pairs of unlike glues.
use program_runs::{Case, Change, first_unlike, first_unlike_change};
use std::test::Fail;
use tilebench::Status;
use worked_systems::{PAIRED, SINGLE, TWO_SEEDS};

// The seeds in another order than that of their sites.
const LATER_SEED_FIRST: &str =
    "tiles 2\ntau 2\nglue a 1\nglue b 1\ntile S - a - -\ntile T - - - b\ntile M - b - a\n\
    box 0 0 2 0\nseed 2 0 T\nseed 0 0 S\nend\n";

const GROWN: [Case; 15] = [
    Case {
        words: &["check"],
        system: TWO_SEEDS,
        behind: "place 0 0 S\nplace 2 0 T\nplace 1 0 M\n",
        status: Status::Done,
        out: "legal yes\nunique yes\n",
        err: "",
    },
    Case {
        words: &["check"],
        system: TWO_SEEDS,
        behind: "place 0 0 S\nplace 2 0 T\n",
        status: Status::No,
        out: "legal yes\nunique no 3 1 0 M\n",
        err: "",
    },
    Case {
        words: &["check"],
        system: TWO_SEEDS,
        behind: "place 0 0 S\n",
        status: Status::No,
        out: "legal no 1\n",
        err: "",
    },
    Case {
        words: &["check"],
        system: TWO_SEEDS,
        behind: "place 2 0 T\nplace 0 0 S\n",
        status: Status::No,
        out: "legal no 1\n",
        err: "",
    },
    Case {
        words: &["replay"],
        system: TWO_SEEDS,
        behind: "place 1 0 M\nplace 2 0 T\nplace 0 0 S\n",
        status: Status::Done,
        out: "place 0 0 S\nplace 2 0 T\nplace 1 0 M\n",
        err: "",
    },
    Case {
        words: &["replay"],
        system: TWO_SEEDS,
        behind: "place 0 0 S\n",
        status: Status::No,
        out: "stuck seed 2 0\n",
        err: "",
    },
    Case {
        words: &["replay"],
        system: TWO_SEEDS,
        behind: "place 2 0 T\nplace 1 0 M\n",
        status: Status::No,
        out: "stuck seed 0 0\n",
        err: "",
    },
    // both are missing, and the first one is told
    Case {
        words: &["replay"],
        system: LATER_SEED_FIRST,
        behind: "place 1 0 M\n",
        status: Status::No,
        out: "stuck seed 2 0\n",
        err: "",
    },
    Case {
        words: &["grow"],
        system: TWO_SEEDS,
        behind: "",
        status: Status::Done,
        out: "place 0 0 S\nplace 2 0 T\nplace 1 0 M\nclosed terminal\nunique yes\n",
        err: "",
    },
    Case {
        words: &["grow", "--workers", "16"],
        system: TWO_SEEDS,
        behind: "",
        status: Status::Done,
        out: "place 0 0 S\nplace 2 0 T\nplace 1 0 M\nclosed terminal\nunique yes\n",
        err: "",
    },
    Case {
        words: &["race", "--workers", "1"],
        system: TWO_SEEDS,
        behind: "",
        status: Status::Done,
        out: "won 0 1\ntotal 1\n",
        err: "",
    },
    Case {
        words: &["schedule"],
        system: TWO_SEEDS,
        behind: "claim 0 1 0 M\nlook 0 2 0\n",
        status: Status::Done,
        out: "won\nsaw T\nplace 0 0 S\nplace 2 0 T\nplace 1 0 M\n",
        err: "",
    },
    Case {
        words: &["picture"],
        system: TWO_SEEDS,
        behind: "place 0 0 S\nplace 2 0 T\n",
        status: Status::Done,
        out: "picture 3 1\nA S\nB T\nA.B\n",
        err: "",
    },
    Case {
        words: &["report"],
        system: TWO_SEEDS,
        behind: "",
        status: Status::Done,
        out: "{\"closed\":\"terminal\",\"glues\":2,\"height\":1,\"tau\":2,\"tiles\":3,\"types\":3,\
             \"unique\":\"yes\",\"width\":3,\"won\":[1]}\n",
        err: "",
    },
    Case {
        words: &["grow"],
        system: PAIRED,
        behind: "",
        status: Status::Done,
        out: "place 0 0 S\nplace 1 0 B\nclosed terminal\nunique yes\n",
        err: "",
    },
];

const PRINTED: [Case; 10] = [
    Case {
        words: &["upgrade"],
        system: SINGLE,
        behind: "",
        status: Status::Done,
        out: "tiles 2\ntau 1\ntile S - - - -\nbox 0 0 0 0\nseed 0 0 S\nend\n",
        err: "",
    },
    Case {
        words: &["format"],
        system: "tiles 2\ntau 1\ntile S - - - -\nbox 0 0 0 0\nseed 0 0 S\nend\n",
        behind: "",
        status: Status::Done,
        out: SINGLE,
        err: "",
    },
    Case {
        words: &["format"],
        system: TWO_SEEDS,
        behind: "",
        status: Status::Done,
        out: TWO_SEEDS,
        err: "",
    },
    Case {
        words: &["upgrade"],
        system: TWO_SEEDS,
        behind: "",
        status: Status::Done,
        out: TWO_SEEDS,
        err: "",
    },
    Case {
        words: &["format"],
        system: PAIRED,
        behind: "",
        status: Status::Done,
        out: PAIRED,
        err: "",
    },
    Case {
        words: &["upgrade"],
        system: PAIRED,
        behind: "",
        status: Status::Done,
        out: PAIRED,
        err: "",
    },
    Case {
        words: &["upgrade"],
        system: TWO_SEEDS,
        behind: "place 0 0 S\n",
        status: Status::Text,
        out: "",
        err: "refused text line 12 AfterEnd\n",
    },
    Case {
        words: &["upgrade"],
        system: "",
        behind: "",
        status: Status::Text,
        out: "",
        err: "refused text line 1 NoHeader\n",
    },
    Case {
        words: &["format"],
        system: "tiles 3\n",
        behind: "",
        status: Status::Text,
        out: "",
        err: "refused text line 1 NoHeader\n",
    },
    Case {
        words: &["upgrade", "x"],
        system: TWO_SEEDS,
        behind: "",
        status: Status::Words,
        out: "",
        err: "refused words Usage\n",
    },
];

#[test]
fn answers_each_case(rt: HostRuntime) -> Result<(), Fail> {
    assert_eq!(rt; first_unlike(&rt, rt.alloc(), &GROWN)?, None);
    assert_eq!(rt; first_unlike(&rt, rt.alloc(), &PRINTED)?, None);
    Ok(())
}

// Lines of the text with two seeds that are refused, and of the text with a pair.
const SEED_LINES: [Change; 4] = [
    Change {
        number: 10,
        line: "seed 0 0 T",
        status: Status::Text,
        out: "",
        err: "refused text line 10 DoubleSite\n",
    },
    Change {
        number: 1,
        line: "tiles 1",
        status: Status::Text,
        out: "",
        err: "refused text line 10 OutOfOrder\n",
    },
    Change {
        number: 10,
        line: "seed 3 0 T",
        status: Status::Text,
        out: "",
        err: "refused text line 10 SeedOutside\n",
    },
    Change {
        number: 10,
        line: "seed 0 0 X",
        status: Status::Text,
        out: "",
        err: "refused text line 10 UnknownName\n",
    },
];

const PAIR_LINES: [Change; 8] = [
    Change {
        number: 5,
        line: "pair a a 1",
        status: Status::Text,
        out: "",
        err: "refused text line 5 DoubleName\n",
    },
    Change {
        number: 5,
        line: "pair a c 1",
        status: Status::Text,
        out: "",
        err: "refused text line 5 UnknownName\n",
    },
    Change {
        number: 5,
        line: "pair a b 251",
        status: Status::Text,
        out: "",
        err: "refused text line 5 OutOfRange\n",
    },
    Change {
        number: 5,
        line: "pair a b",
        status: Status::Text,
        out: "",
        err: "refused text line 5 BadLine\n",
    },
    Change {
        number: 5,
        line: "pair a b 1\npair b a 2",
        status: Status::Text,
        out: "",
        err: "refused text line 6 DoubleName\n",
    },
    Change {
        number: 5,
        line: "pair a b 1\npair a b 1",
        status: Status::Text,
        out: "",
        err: "refused text line 6 DoubleName\n",
    },
    Change {
        number: 1,
        line: "tiles 1",
        status: Status::Text,
        out: "",
        err: "refused text line 5 BadLine\n",
    },
    Change {
        number: 6,
        line: "tile S - a - -\npair a b 1",
        status: Status::Text,
        out: "",
        err: "refused text line 7 OutOfOrder\n",
    },
];

#[test]
fn refuses_each_changed_line(rt: HostRuntime) -> Result<(), Fail> {
    let alloc = rt.alloc();
    assert_eq!(rt;
        first_unlike_change(&rt, alloc, "format", TWO_SEEDS, &SEED_LINES)?,
        None
    );
    assert_eq!(rt;
        first_unlike_change(&rt, alloc, "format", PAIRED, &PAIR_LINES)?,
        None
    );
    Ok(())
}
