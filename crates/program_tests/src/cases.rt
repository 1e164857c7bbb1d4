// Worked examples, case by case.
use program_runs::{Case, first_unlike};
use std::test::Fail;
use tilebench::Status;
use worked_systems::{
    BIT_FLIPPER, CHAIN, FLIPPER, FULL, LIMITS, MISMATCH, NULL_GLUES, RACE, RIVALS, SINGLE,
    SMALL_COUNTER, SQUARE,
};

const GROWN: [Case; 12] = [
    Case {
        words: &["race"],
        system: CHAIN,
        behind: "",
        status: Status::Done,
        out: "won 0 2\ntotal 2\n",
        err: "",
    },
    Case {
        words: &["grow"],
        system: SINGLE,
        behind: "",
        status: Status::Done,
        out: "place 0 0 S\nclosed terminal\nunique yes\n",
        err: "",
    },
    Case {
        words: &["grow"],
        system: CHAIN,
        behind: "",
        status: Status::Done,
        out: "place 0 0 S\nplace 1 0 B\nplace 2 0 C\nclosed terminal\nunique yes\n",
        err: "",
    },
    Case {
        words: &["grow"],
        system: "tiles 1\ntau 2\nglue a 2\nglue b 2\ntile S - a - -\ntile B - b - a\n\
             tile C - - - b\nbox 0 0 1 0\nseed 0 0 S\nend\n",
        behind: "",
        status: Status::No,
        out: "place 0 0 S\nplace 1 0 B\nclosed clipped 2 0 C\nunique no 3 2 0 C\n",
        err: "",
    },
    Case {
        words: &["grow"],
        system: SQUARE,
        behind: "",
        status: Status::No,
        out: "place 0 0 S\nplace 1 0 E\nplace 0 1 N\nplace 1 1 C\nclosed terminal\n\
             unique no 1 1 1 2\n",
        err: "",
    },
    Case {
        words: &["grow"],
        system: RACE,
        behind: "",
        status: Status::No,
        out: "place 0 0 S\nplace 1 0 A\nplace 0 1 B\nplace 1 1 X\nplace 0 2 C\nplace 1 2 D\n\
             closed terminal\nunique no 2 1 1 Y\n",
        err: "",
    },
    Case {
        words: &["grow"],
        system: NULL_GLUES,
        behind: "",
        status: Status::Done,
        out: "place 0 0 S\nclosed terminal\nunique yes\n",
        err: "",
    },
    Case {
        words: &["grow"],
        system: LIMITS,
        behind: "",
        status: Status::Done,
        out: "place 0 0 S\nclosed terminal\nunique yes\n",
        err: "",
    },
    Case {
        words: &["grow"],
        system: MISMATCH,
        behind: "",
        status: Status::Done,
        out: "place 0 0 S\nplace 1 0 B\nplace 2 0 D\nplace 0 1 L\nplace 1 1 T\nplace 2 1 R\n\
             closed terminal\nunique yes\n",
        err: "",
    },
    Case {
        words: &["grow"],
        system: SMALL_COUNTER,
        behind: "",
        status: Status::Done,
        out: "place 0 0 t:0\nplace 1 0 t:1\nplace 1 1 ie:0\nplace 0 1 iw:00\nplace 0 2 cw:0\n\
             place 1 2 ce:1\nplace 1 3 ie:1\nplace 0 3 iw:01\nplace 0 4 cw:1\nplace 1 4 ce:0\n\
             place 1 5 ie:0\nplace 0 5 iw:10\nplace 0 6 cw:1\nplace 1 6 ce:1\nplace 1 7 ie:1\n\
             place 0 7 iw:11\nclosed terminal\nunique yes\n",
        err: "",
    },
    Case {
        words: &["grow"],
        system: FLIPPER,
        behind: "",
        status: Status::Done,
        out: "place 0 0 t:0\nplace 1 0 t:1\nplace 2 0 t:2\nplace 0 1 a:F:1\nplace 1 1 R:F:0\n\
             place 2 1 r:1\nplace 1 2 a:F:0\nplace 0 2 l:0\nplace 2 2 R:F:1\nplace 2 3 a:F:1\n\
             place 1 3 l:1\nplace 0 3 l:0\nclosed terminal\nunique yes\n",
        err: "",
    },
    Case {
        words: &["grow"],
        system: "tiles 1\ntau 1\nglue a 1\nglue b 1\ntile S - a - b\ntile A - - - a\n\
             tile B - b - -\nbox -3 -7 -1 -7\nseed -2 -7 S\nend\n",
        behind: "",
        status: Status::Done,
        out: "place -2 -7 S\nplace -3 -7 B\nplace -1 -7 A\nclosed terminal\nunique yes\n",
        err: "",
    },
];

const CHECKED: [Case; 9] = [
    Case {
        words: &["check"],
        system: CHAIN,
        behind: "place 0 0 S\nplace 1 0 B\nplace 2 0 C\n",
        status: Status::Done,
        out: "legal yes\nunique yes\n",
        err: "",
    },
    Case {
        words: &["check"],
        system: CHAIN,
        behind: "place 0 0 S\nplace 1 0 B\nplace 2 0 C\nclosed terminal\nunique yes\n",
        status: Status::Done,
        out: "legal yes\nunique yes\n",
        err: "",
    },
    Case {
        words: &["check"],
        system: CHAIN,
        behind: "place 0 0 S\nplace 1 0 B\n",
        status: Status::No,
        out: "legal yes\nunique no 3 2 0 C\n",
        err: "",
    },
    Case {
        words: &["check"],
        system: CHAIN,
        behind: "place 0 0 S\nplace 1 0 B\nplace 2 0 C\nplace 1 0 B\n",
        status: Status::No,
        out: "legal no 2 3\n",
        err: "",
    },
    Case {
        words: &["check"],
        system: CHAIN,
        behind: "place 1 0 B\n",
        status: Status::No,
        out: "legal no 1\n",
        err: "",
    },
    Case {
        words: &["check"],
        system: CHAIN,
        behind: "",
        status: Status::No,
        out: "legal no 1\n",
        err: "",
    },
    Case {
        words: &["check"],
        system: MISMATCH,
        behind: "place 0 0 S\nplace 1 0 B\nplace 1 1 T\n",
        status: Status::No,
        out: "legal no 3 2 1\n",
        err: "",
    },
    Case {
        words: &["check"],
        system: MISMATCH,
        behind: "place 0 0 S\nplace 1 0 B\nplace 2 0 D\nplace 0 1 L\nplace 2 1 R\nplace 1 1 T\n",
        status: Status::Done,
        out: "legal yes\nunique yes\n",
        err: "",
    },
    Case {
        words: &["check"],
        system: RIVALS,
        behind: "place 0 0 S\nplace 1 0 B\n",
        status: Status::No,
        out: "legal yes\nunique no 2 1 0 A\n",
        err: "",
    },
];

const REPLAYED: [Case; 4] = [
    Case {
        words: &["replay"],
        system: MISMATCH,
        behind: "place 2 1 R\nplace 1 1 T\nplace 0 1 L\nplace 2 0 D\nplace 1 0 B\nplace 0 0 S\n",
        status: Status::Done,
        out: "place 0 0 S\nplace 1 0 B\nplace 2 0 D\nplace 0 1 L\nplace 1 1 T\nplace 2 1 R\n",
        err: "",
    },
    Case {
        words: &["replay"],
        system: MISMATCH,
        behind: "place 0 0 S\nplace 2 0 D\nplace 2 1 R\n",
        status: Status::No,
        out: "stuck 2 2 0\n",
        err: "",
    },
    Case {
        words: &["replay"],
        system: MISMATCH,
        behind: "place 1 0 B\n",
        status: Status::No,
        out: "stuck seed 0 0\n",
        err: "",
    },
    Case {
        words: &["replay"],
        system: FULL,
        behind: "place 0 0 T\nplace 5 5 T\n",
        status: Status::No,
        out: "stuck 1 5 5\n",
        err: "",
    },
];

const SCHEDULED: [Case; 4] = [
    // A scout that gives away one number after another, until it has one left.
    Case {
        words: &["schedule"],
        system: RIVALS,
        behind: "split 0\nsplit 0\nsplit 0\nsplit 0\nsplit 0\nsplit 0\nsplit 0\nsplit 0\n\
             split 0\nsplit 0\nsplit 0\nsplit 0\nsplit 0\nsplit 0\nsplit 0\nsplit 0\n\
             split 0\nsplit 0\nsplit 0\nsplit 0\nsplit 0\nsplit 0\nsplit 0\nsplit 0\n\
             split 0\nsplit 0\nsplit 0\nsplit 0\nsplit 0\nsplit 0\nsplit 0\nsplit 0\n\
             split 0\nsplit 0\nsplit 0\nsplit 0\nsplit 0\nsplit 0\nsplit 0\nsplit 0\n\
             split 0\nsplit 0\nsplit 0\nsplit 0\nsplit 0\nsplit 0\nsplit 0\nsplit 0\n\
             split 0\nsplit 0\nsplit 0\nsplit 0\nsplit 0\nsplit 0\nsplit 0\nsplit 0\n\
             split 0\nsplit 0\nsplit 0\nsplit 0\nsplit 0\nsplit 0\nsplit 0\nsplit 0\n\
             claim 1 1 0 A\nclaim 2 1 0 B\nclaim 0 0 0 S\nlook 0 1 0\nclaim 0 0 0 S\n\
             claim 0 -1 0 A\njoin 0 1\njoin 1 0\nlook 4294967295 0 0\n",
        status: Status::No,
        out: "split 63\nsplit 62\nsplit 61\nsplit 60\nsplit 59\nsplit 58\nsplit 57\nsplit 56\n\
             split 55\nsplit 54\nsplit 53\nsplit 52\nsplit 51\nsplit 50\nsplit 49\nsplit 48\n\
             split 47\nsplit 46\nsplit 45\nsplit 44\nsplit 43\nsplit 42\nsplit 41\nsplit 40\n\
             split 39\nsplit 38\nsplit 37\nsplit 36\nsplit 35\nsplit 34\nsplit 33\nsplit 32\n\
             split 31\nsplit 30\nsplit 29\nsplit 28\nsplit 27\nsplit 26\nsplit 25\nsplit 24\n\
             split 23\nsplit 22\nsplit 21\nsplit 20\nsplit 19\nsplit 18\nsplit 17\nsplit 16\n\
             split 15\nsplit 14\nsplit 13\nsplit 12\nsplit 11\nsplit 10\nsplit 9\nsplit 8\n\
             split 7\nsplit 6\nsplit 5\nsplit 4\nsplit 3\nsplit 2\nsplit 1\nrefused 4\nwon\n\
             held A\nrefused 2 0\nsaw A\nheld S\nrefused 3\njoined 0\nrefused 1\nrefused 1\n\
             place 0 0 S\nplace 1 0 A\n",
        err: "",
    },
    Case {
        words: &["schedule"],
        system: CHAIN,
        behind: "claim 0 1 0 B\nlook 0 1 0\nsplit 0\njoin 63 0\n",
        status: Status::Done,
        out: "won\nsaw B\nsplit 63\njoined 0\nplace 0 0 S\nplace 1 0 B\n",
        err: "",
    },
    Case {
        words: &["schedule"],
        system: RIVALS,
        behind: "split 0\nclaim 0 1 0 A\nclaim 63 1 0 B\nclaim 63 0 0 B\n",
        status: Status::No,
        out: "split 63\nwon\nheld A\nrefused 2 0\nplace 0 0 S\nplace 1 0 A\n",
        err: "",
    },
    Case {
        words: &["schedule"],
        system: MISMATCH,
        behind: "claim 0 1 0 B\nclaim 0 1 1 T\nlook 0 2 0\nclaim 1 1 0 B\nlook 0 3 0\nsplit 0\n\
             split 63\njoin 63 0\n",
        status: Status::No,
        out: "won\nrefused 2 1\nsaw -\nrefused 1\nrefused 3\nsplit 63\nrefused 4\njoined 0\n\
             place 0 0 S\nplace 1 0 B\n",
        err: "",
    },
];

const FORMATTED: [Case; 2] = [
    Case {
        words: &["format"],
        system: "# two words\n\ntiles 1\ntau  01\ntile S - - - -\nbox 0 0 -0 00\nseed 0 0   S\nend\n",
        behind: "",
        status: Status::Done,
        out: SINGLE,
        err: "",
    },
    Case {
        words: &["format"],
        system: CHAIN,
        behind: "",
        status: Status::Done,
        out: CHAIN,
        err: "",
    },
];

const COMPILED: [Case; 8] = [
    Case {
        words: &["turing"],
        system: BIT_FLIPPER,
        behind: "",
        status: Status::Done,
        out: FLIPPER,
        err: "",
    },
    Case {
        words: &["turing"],
        system: CHAIN,
        behind: "",
        status: Status::Text,
        out: "",
        err: "refused text line 1 NoHeader\n",
    },
    Case {
        words: &["counter", "2", "0"],
        system: "",
        behind: "",
        status: Status::Done,
        out: SMALL_COUNTER,
        err: "",
    },
    Case {
        words: &["counter", "1", "0"],
        system: "",
        behind: "",
        status: Status::Words,
        out: "",
        err: "refused words BitsOutOfRange\n",
    },
    Case {
        words: &["counter", "2", "4"],
        system: "",
        behind: "",
        status: Status::Words,
        out: "",
        err: "refused words StartTooLarge\n",
    },
    Case {
        words: &["counter", "32", "0"],
        system: "",
        behind: "",
        status: Status::Words,
        out: "",
        err: "refused words TooTall\n",
    },
    Case {
        words: &["load", "0"],
        system: "",
        behind: "",
        status: Status::Done,
        out: "load 0 bits 2 start 3\ntiles 4\nclosed terminal\nunique yes\n",
        err: "",
    },
    Case {
        words: &["load", "15871"],
        system: "",
        behind: "",
        status: Status::Done,
        out: "load 15871 bits 32 start 4294966784\ntiles 32768\nclosed terminal\nunique yes\n",
        err: "",
    },
];

const TOLD: [Case; 3] = [
    Case {
        words: &["picture"],
        system: MISMATCH,
        behind: "place 0 0 S\nplace 2 0 D\n",
        status: Status::Done,
        out: "picture 3 2\nA S\nC D\n...\nA.C\n",
        err: "",
    },
    Case {
        words: &["report"],
        system: SMALL_COUNTER,
        behind: "",
        status: Status::Done,
        out: "{\"closed\":\"terminal\",\"glues\":14,\"height\":8,\"tau\":2,\"tiles\":16,\"types\":18,\
             \"unique\":\"yes\",\"width\":2,\"won\":[15]}\n",
        err: "",
    },
    Case {
        words: &["report"],
        system: RIVALS,
        behind: "place 0 0 S\n",
        status: Status::Text,
        out: "",
        err: "refused text line 10 AfterEnd\n",
    },
];

const REFUSED_TEXTS: [Case; 10] = [
    Case {
        words: &["grow"],
        system: SINGLE,
        behind: "tau 1\n",
        status: Status::Text,
        out: "",
        err: "refused text line 7 AfterEnd\n",
    },
    Case {
        words: &["replay"],
        system: CHAIN,
        behind: "place 0 0 S\nplace 0 0 S\n",
        status: Status::Text,
        out: "",
        err: "refused text line 12 DoubleSite\n",
    },
    Case {
        words: &["replay"],
        system: CHAIN,
        behind: "place 3 0 C\n",
        status: Status::Text,
        out: "",
        err: "refused text line 11 OutsideBox\n",
    },
    Case {
        words: &["check"],
        system: CHAIN,
        behind: "place 3 0 C\n",
        status: Status::Text,
        out: "",
        err: "refused text line 11 OutsideBox\n",
    },
    Case {
        words: &["replay"],
        system: CHAIN,
        behind: "place 0 0 S\nplace 1 0",
        status: Status::Text,
        out: "",
        err: "refused text line 12 NoEnd\n",
    },
    Case {
        words: &["grow"],
        system: CHAIN,
        behind: "place 0 0 S\n",
        status: Status::Text,
        out: "",
        err: "refused text line 11 AfterEnd\n",
    },
    Case {
        words: &["format"],
        system: CHAIN,
        behind: "tau 1\n",
        status: Status::Text,
        out: "",
        err: "refused text line 11 AfterEnd\n",
    },
    Case {
        words: &["grow"],
        system: "",
        behind: "",
        status: Status::Text,
        out: "",
        err: "refused text line 1 NoHeader\n",
    },
    Case {
        words: &["grow"],
        system: "tiles 1\ntau 0\n",
        behind: "",
        status: Status::Text,
        out: "",
        err: "refused text line 2 OutOfRange\n",
    },
    Case {
        words: &["grow"],
        system: "tiles 1\ntau 1\ntile S - - - -\nbox 0 0 0 0\nseed 0 0 S\nend\n\n# behind\ntau 1\n",
        behind: "",
        status: Status::Text,
        out: "",
        err: "refused text line 9 AfterEnd\n",
    },
];

const REFUSED_WORDS: [Case; 19] = [
    Case {
        words: &[],
        system: CHAIN,
        behind: "",
        status: Status::Words,
        out: "",
        err: "refused words NoCommand\n",
    },
    Case {
        words: &["gorw"],
        system: CHAIN,
        behind: "",
        status: Status::Words,
        out: "",
        err: "refused words NoCommand\n",
    },
    Case {
        words: &[""],
        system: CHAIN,
        behind: "",
        status: Status::Words,
        out: "",
        err: "refused words NoCommand\n",
    },
    Case {
        words: &["grow "],
        system: CHAIN,
        behind: "",
        status: Status::Words,
        out: "",
        err: "refused words NoCommand\n",
    },
    Case {
        words: &["--help"],
        system: CHAIN,
        behind: "",
        status: Status::Words,
        out: "",
        err: "refused words NoCommand\n",
    },
    Case {
        words: &["--version"],
        system: CHAIN,
        behind: "",
        status: Status::Words,
        out: "",
        err: "refused words NoCommand\n",
    },
    Case {
        words: &["-h"],
        system: CHAIN,
        behind: "",
        status: Status::Words,
        out: "",
        err: "refused words NoCommand\n",
    },
    Case {
        words: &["grow", "x"],
        system: CHAIN,
        behind: "",
        status: Status::Words,
        out: "",
        err: "refused words Usage\n",
    },
    Case {
        words: &["check", "x"],
        system: CHAIN,
        behind: "",
        status: Status::Words,
        out: "",
        err: "refused words Usage\n",
    },
    Case {
        words: &["replay", ""],
        system: CHAIN,
        behind: "",
        status: Status::Words,
        out: "",
        err: "refused words Usage\n",
    },
    Case {
        words: &["format", "--help"],
        system: CHAIN,
        behind: "",
        status: Status::Words,
        out: "",
        err: "refused words Usage\n",
    },
    Case {
        words: &["grow", "-h"],
        system: CHAIN,
        behind: "",
        status: Status::Words,
        out: "",
        err: "refused words Usage\n",
    },
    Case {
        words: &["grow", "--version"],
        system: CHAIN,
        behind: "",
        status: Status::Words,
        out: "",
        err: "refused words Usage\n",
    },
    Case {
        words: &["grow", "--choice"],
        system: CHAIN,
        behind: "",
        status: Status::Words,
        out: "",
        err: "refused words Usage\n",
    },
    Case {
        words: &["grow", "--choice", "18446744073709551616"],
        system: CHAIN,
        behind: "",
        status: Status::Words,
        out: "",
        err: "refused words Usage\n",
    },
    Case {
        words: &["check", "--choice", "1"],
        system: CHAIN,
        behind: "",
        status: Status::Words,
        out: "",
        err: "refused words Usage\n",
    },
    Case {
        words: &["grow", "--workers", "0"],
        system: CHAIN,
        behind: "",
        status: Status::Words,
        out: "",
        err: "refused words Usage\n",
    },
    Case {
        words: &["grow", "--workers", "17"],
        system: CHAIN,
        behind: "",
        status: Status::Words,
        out: "",
        err: "refused words Usage\n",
    },
    Case {
        words: &["check", "--workers", "2"],
        system: CHAIN,
        behind: "",
        status: Status::Words,
        out: "",
        err: "refused words Usage\n",
    },
];

const TABLES: [&[Case]; 9] = [
    &GROWN,
    &CHECKED,
    &REPLAYED,
    &SCHEDULED,
    &FORMATTED,
    &COMPILED,
    &TOLD,
    &REFUSED_TEXTS,
    &REFUSED_WORDS,
];

#[test]
fn answers_each_case(rt: HostRuntime) -> Result<(), Fail> {
    for cases in TABLES {
        assert_eq!(rt; first_unlike(&rt, rt.alloc(), cases)?, None);
    }
    Ok(())
}
