// One line of a text changed.
use program_runs::{Change, first_unlike_change};
use std::test::Fail;
use tilebench::Status;
use worked_systems::{CHAIN, EDGES};

pub(crate) const CHAINED: &str =
    "place 0 0 S\nplace 1 0 B\nplace 2 0 C\nclosed terminal\nunique yes\n";

// The chain with one line changed, which is refused.
const REFUSED: [Change; 27] = [
    Change {
        number: 1,
        line: "tiles 3",
        status: Status::Text,
        out: "",
        err: "refused text line 1 NoHeader\n",
    },
    Change {
        number: 1,
        line: "tiles 1\r",
        status: Status::Text,
        out: "",
        err: "refused text line 1 NoHeader\n",
    },
    Change {
        number: 2,
        line: "tau 0",
        status: Status::Text,
        out: "",
        err: "refused text line 2 OutOfRange\n",
    },
    Change {
        number: 2,
        line: "tau 1001",
        status: Status::Text,
        out: "",
        err: "refused text line 2 OutOfRange\n",
    },
    Change {
        number: 2,
        line: "tau -1",
        status: Status::Text,
        out: "",
        err: "refused text line 2 OutOfRange\n",
    },
    Change {
        number: 2,
        line: "tau 00000000002",
        status: Status::Text,
        out: "",
        err: "refused text line 2 BadNumber\n",
    },
    Change {
        number: 2,
        line: "tau +1",
        status: Status::Text,
        out: "",
        err: "refused text line 2 BadNumber\n",
    },
    Change {
        number: 2,
        line: "tau -",
        status: Status::Text,
        out: "",
        err: "refused text line 2 BadNumber\n",
    },
    Change {
        number: 2,
        line: "tau 4294967297",
        status: Status::Text,
        out: "",
        err: "refused text line 2 OutOfRange\n",
    },
    Change {
        number: 2,
        line: "tau 1 2",
        status: Status::Text,
        out: "",
        err: "refused text line 2 BadLine\n",
    },
    Change {
        number: 2,
        line: "end",
        status: Status::Text,
        out: "",
        err: "refused text line 2 OutOfOrder\n",
    },
    Change {
        number: 3,
        line: "glue a 251",
        status: Status::Text,
        out: "",
        err: "refused text line 3 OutOfRange\n",
    },
    Change {
        number: 3,
        line: "glue abcdefghijabcdefghijabcdefghijabcdefghij1 2",
        status: Status::Text,
        out: "",
        err: "refused text line 3 BadName\n",
    },
    Change {
        number: 4,
        line: "glue a 2",
        status: Status::Text,
        out: "",
        err: "refused text line 4 DoubleName\n",
    },
    Change {
        number: 4,
        line: "glue abcdefghijabcdefghijabcdefghijabcdefghij1 1",
        status: Status::Text,
        out: "",
        err: "refused text line 4 BadName\n",
    },
    Change {
        number: 4,
        line: "glue b 2\r",
        status: Status::Text,
        out: "",
        err: "refused text line 4 BadNumber\n",
    },
    Change {
        number: 4,
        line: "################################################################\
             ################################################################\
             ################################################################\
             ################################################################\
             #",
        status: Status::Text,
        out: "",
        err: "refused text line 4 LineTooLong\n",
    },
    Change {
        number: 5,
        line: "tile S - z - -",
        status: Status::Text,
        out: "",
        err: "refused text line 5 UnknownName\n",
    },
    Change {
        number: 5,
        line: "tile S - a# - -",
        status: Status::Text,
        out: "",
        err: "refused text line 5 BadName\n",
    },
    Change {
        number: 6,
        line: "tile S - b - z",
        status: Status::Text,
        out: "",
        err: "refused text line 6 DoubleName\n",
    },
    Change {
        number: 8,
        line: "box 0 0 1024 0",
        status: Status::Text,
        out: "",
        err: "refused text line 8 OutOfRange\n",
    },
    Change {
        number: 8,
        line: "box 0 0 1000001 0",
        status: Status::Text,
        out: "",
        err: "refused text line 8 OutOfRange\n",
    },
    Change {
        number: 9,
        line: "seed 3 0 S",
        status: Status::Text,
        out: "",
        err: "refused text line 9 SeedOutside\n",
    },
    Change {
        number: 9,
        line: "seed 3 0 X",
        status: Status::Text,
        out: "",
        err: "refused text line 9 UnknownName\n",
    },
    Change {
        number: 9,
        line: "seed 0 0 S\nseed 0 0 S",
        status: Status::Text,
        out: "",
        err: "refused text line 10 OutOfOrder\n",
    },
    Change {
        number: 10,
        line: "# no end",
        status: Status::Text,
        out: "",
        err: "refused text line 11 NoEnd\n",
    },
    Change {
        number: 10,
        line: "end\ntau 2",
        status: Status::Text,
        out: "",
        err: "refused text line 11 AfterEnd\n",
    },
];

// Lines that leave the same growth.
const TAKEN: [Change; 7] = [
    Change {
        number: 1,
        line: "tiles 2",
        status: Status::Done,
        out: CHAINED,
        err: "",
    },
    Change {
        number: 2,
        line: "tau 0000000002",
        status: Status::Done,
        out: CHAINED,
        err: "",
    },
    Change {
        number: 2,
        line: "  tau   2  ",
        status: Status::Done,
        out: CHAINED,
        err: "",
    },
    Change {
        number: 3,
        line: "################################################################\
             ################################################################\
             ################################################################\
             ################################################################\
             \nglue a 2",
        status: Status::Done,
        out: CHAINED,
        err: "",
    },
    Change {
        number: 4,
        line: "glue b 2\nglue abcdefghijabcdefghijabcdefghijabcdefghij 250",
        status: Status::Done,
        out: CHAINED,
        err: "",
    },
    Change {
        number: 8,
        line: "box 0 0 2 1023",
        status: Status::Done,
        out: CHAINED,
        err: "",
    },
    Change {
        number: 9,
        line: "seed 00 -0 S",
        status: Status::Done,
        out: CHAINED,
        err: "",
    },
];

// One site outside is open on one edge of the box; where all four are, the southern one is the
// least.
const OPEN: [Change; 7] = [
    Change {
        number: 7,
        line: "tile O n - - -",
        status: Status::No,
        out: "place 0 0 O\nclosed clipped 0 1 N\nunique no 3 0 1 N\n",
        err: "",
    },
    Change {
        number: 7,
        line: "tile O - e - -",
        status: Status::No,
        out: "place 0 0 O\nclosed clipped 1 0 E\nunique no 3 1 0 E\n",
        err: "",
    },
    Change {
        number: 7,
        line: "tile O - - s -",
        status: Status::No,
        out: "place 0 0 O\nclosed clipped 0 -1 S\nunique no 3 0 -1 S\n",
        err: "",
    },
    Change {
        number: 7,
        line: "tile O - - - w",
        status: Status::No,
        out: "place 0 0 O\nclosed clipped -1 0 W\nunique no 3 -1 0 W\n",
        err: "",
    },
    Change {
        number: 7,
        line: "tile O n e s w",
        status: Status::No,
        out: "place 0 0 O\nclosed clipped 0 -1 S\nunique no 3 0 -1 S\n",
        err: "",
    },
    Change {
        number: 7,
        line: "tile O n e - w",
        status: Status::No,
        out: "place 0 0 O\nclosed clipped -1 0 W\nunique no 3 -1 0 W\n",
        err: "",
    },
    Change {
        number: 7,
        line: "tile O n e - -",
        status: Status::No,
        out: "place 0 0 O\nclosed clipped 1 0 E\nunique no 3 1 0 E\n",
        err: "",
    },
];

#[test]
fn answers_each_changed_line(rt: HostRuntime) -> Result<(), Fail> {
    for (text, changes) in [(CHAIN, &REFUSED[..]), (CHAIN, &TAKEN), (EDGES, &OPEN)] {
        assert_eq!(rt;
            first_unlike_change(&rt, rt.alloc(), "grow", text, changes)?,
            None
        );
    }
    Ok(())
}
