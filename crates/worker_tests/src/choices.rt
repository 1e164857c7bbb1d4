// Where several types may come first, each choice takes one of them.
use program_runs::answered;
use std::alloc::{AllocError, Global};
use std::sync::Wait;
use std::test::Fail;
use std::thread::Threads;
use worked_systems::{PAIRED_RIVALS, RACE, RIVALS, THREE_RIVALS};

const OF_TWO: [&str; 2] = [
    "place 0 0 S\nplace 1 0 A\nclosed terminal\nunique no 2 1 0 B\n",
    "place 0 0 S\nplace 1 0 B\nclosed terminal\nunique no 2 1 0 A\n",
];

const OF_THREE: [&str; 3] = [
    "place 0 0 S\nplace 1 0 A\nclosed terminal\nunique no 2 1 0 B\n",
    "place 0 0 S\nplace 1 0 B\nclosed terminal\nunique no 2 1 0 A\n",
    "place 0 0 S\nplace 1 0 C\nclosed terminal\nunique no 2 1 0 A\n",
];

// The end by the short path, and the one by the long path.
const OF_A_RACE: [&str; 2] = [
    "place 0 0 S\nplace 1 0 A\nplace 0 1 B\nplace 1 1 X\nplace 0 2 C\nplace 1 2 D\n\
     closed terminal\nunique no 2 1 1 Y\n",
    "place 0 0 S\nplace 1 0 A\nplace 0 1 B\nplace 0 2 C\nplace 1 2 D\nplace 1 1 Y\n\
     closed terminal\nunique no 2 1 1 X\n",
];

// The number of the end in which a growth with this choice ends.
fn end_of<R: Threads + Wait + Sync>(
    rt: &R,
    alloc: Global,
    system: &str,
    workers: &str,
    choice: u32,
    ends: &[&str],
) -> Result<Option<usize>, AllocError> {
    let choice = format!(in alloc; "{choice}")?;
    let words = ["grow", "--workers", workers, "--choice", choice.as_str()];
    let ran = answered(rt, alloc, &words, system)?;
    for (number, end) in ends.iter().enumerate() {
        if ran.out.as_slice() == end.as_bytes() {
            return Ok(Some(number));
        }
    }
    Ok(None)
}

// How many of these ends some choice has, where each choice has one of them.
fn count_of_ends<R: Threads + Wait + Sync>(
    rt: &R,
    alloc: Global,
    system: &str,
    workers: &str,
    ends: &[&str],
) -> Result<Option<usize>, AllocError> {
    let mut taken = [false; 3];
    for choice in 0..64 {
        let Some(number) = end_of(rt, alloc, system, workers, choice, ends)? else {
            return Ok(None);
        };
        if let Some(it) = taken.get_mut(number) {
            *it = true;
        }
    }
    Ok(Some(taken.iter().filter(|it| **it).count()))
}

#[test]
fn each_rival_wins_by_some_choice(rt: HostRuntime) -> Result<(), Fail> {
    for (system, ends) in [
        (RIVALS, &OF_TWO[..]),
        (PAIRED_RIVALS, &OF_TWO),
        (THREE_RIVALS, &OF_THREE),
        (RACE, &OF_A_RACE),
    ] {
        let found = count_of_ends(&rt, rt.alloc(), system, "1", ends)?;
        assert_eq!(rt; found, Some(ends.len()));
    }
    Ok(())
}

#[test]
fn several_workers_take_one_of_the_rivals(rt: HostRuntime) -> Result<(), Fail> {
    for workers in ["2", "16"] {
        let found = count_of_ends(&rt, rt.alloc(), THREE_RIVALS, workers, &OF_THREE)?;
        assert!(rt; found.is_some());
    }
    Ok(())
}
