// The command, and what grows from the systems that it prints.
use crate::rules::quadrants::{
    EXCLUSIVE_OR, EXCLUSIVE_OR_TILES, LOPSIDED_TILES, WITHOUT_ONES, WITHOUT_ONES_TILES,
};
use program_runs::{Case, Failures, first_unlike, run};
use std::test::Fail;
use tilebench::Status;

const RUNS: [Case; 12] = [
    Case {
        words: &["quadrant"],
        system: EXCLUSIVE_OR,
        behind: "",
        status: Status::Done,
        out: EXCLUSIVE_OR_TILES,
        err: "",
    },
    Case {
        words: &["grow"],
        system: EXCLUSIVE_OR_TILES,
        behind: "",
        status: Status::Done,
        out: "place 0 0 o\nplace 1 0 b:1\nplace 2 0 b:2\nplace 0 1 a:1\nplace 1 1 q:1:1\n\
            place 2 1 q:0:1\nplace 0 2 a:2\nplace 1 2 q:1:0\nplace 2 2 q:1:1\nclosed terminal\n\
            unique yes\n",
        err: "",
    },
    Case {
        words: &["quadrant"],
        system: WITHOUT_ONES,
        behind: "# no more\n\n",
        status: Status::Done,
        out: WITHOUT_ONES_TILES,
        err: "",
    },
    Case {
        words: &["grow", "--workers", "4"],
        system: WITHOUT_ONES_TILES,
        behind: "",
        status: Status::Done,
        out: "place 0 0 o\nplace 1 0 b:1\nplace 2 0 b:2\nplace 0 1 a:1\nplace 0 2 a:2\n\
            closed terminal\nunique yes\n",
        err: "",
    },
    Case {
        words: &["grow", "--choice", "7"],
        system: LOPSIDED_TILES,
        behind: "",
        status: Status::Done,
        out: "place 0 0 o\nplace 1 0 b:1\nplace 2 0 b:2\nplace 3 0 b:3\nplace 0 1 a:1\n\
            place 1 1 q:a:b\nplace 2 1 q:c:a\nplace 0 2 a:2\nplace 1 2 q:a:b\n\
            closed terminal\nunique yes\n",
        err: "",
    },
    Case {
        words: &["quadrant"],
        system: "quadrant 1\nsymbol 0\nsymbol 1\nrule 0 0 0 0\nrule 0 1 1 1\nrule 1 0 1 1\n\
            rule 1 1 0 0\nsize 2 2\nbottom 1 1 1\nleft 1 1\nend\n",
        behind: "",
        status: Status::Text,
        out: "",
        err: "refused text line 9 TooMany\n",
    },
    Case {
        words: &["quadrant"],
        system: "quadrant 1\nsymbol 0\nsymbol 1\nrule 0 0 0 0\nrule 0 1 1 1\nrule 1 0 1 1\n\
            rule 1 0 0 0\nsize 2 2\nbottom 1 1\nleft 1 1\nend\n",
        behind: "",
        status: Status::Text,
        out: "",
        err: "refused text line 7 DoubleName\n",
    },
    Case {
        words: &["quadrant"],
        system: EXCLUSIVE_OR,
        behind: "place 0 0 o\n",
        status: Status::Text,
        out: "",
        err: "refused text line 12 AfterEnd\n",
    },
    Case {
        words: &["quadrant"],
        system: EXCLUSIVE_OR_TILES,
        behind: "",
        status: Status::Text,
        out: "",
        err: "refused text line 1 NoHeader\n",
    },
    Case {
        words: &["turing"],
        system: EXCLUSIVE_OR,
        behind: "",
        status: Status::Text,
        out: "",
        err: "refused text line 1 NoHeader\n",
    },
    Case {
        words: &["quadrant", "2"],
        system: EXCLUSIVE_OR,
        behind: "",
        status: Status::Words,
        out: "",
        err: "refused words Usage\n",
    },
    Case {
        words: &["quadrants"],
        system: EXCLUSIVE_OR,
        behind: "",
        status: Status::Words,
        out: "",
        err: "refused words NoCommand\n",
    },
];

#[test]
fn runs_as_told(rt: HostRuntime) -> Result<(), Fail> {
    assert_eq!(rt; first_unlike(&rt, rt.alloc(), &RUNS)?, None);
    Ok(())
}

#[test]
fn ends_where_a_stream_fails(rt: HostRuntime) -> Result<(), Fail> {
    let unread = Failures {
        source: 1,
        most: 1,
        ..Failures::NONE
    };
    let cut_off = Failures {
        out: 5,
        most: 1,
        ..Failures::NONE
    };
    for (failures, status, out) in [
        (unread, Status::ReadFault, ""),
        (cut_off, Status::WriteFault, "tiles"),
    ] {
        let text = EXCLUSIVE_OR.as_bytes();
        let ran = run(&rt, rt.alloc(), &["quadrant"], text, failures)?;
        assert!(rt; ran.is(status, out, ""));
    }
    Ok(())
}
