// Tables of runs.
use crate::running::{EndedRun, answered};
use std::alloc::{AllocError, Global};
use std::sync::Wait;
use std::thread::Threads;
use tilebench::Status;
use worked_systems::changed_line;

/// A run and how it ends: the words, the text of a system and what stands behind it.
#[derive(Clone, Copy)]
pub struct Case {
    pub words: &'static [&'static str],
    pub system: &'static str,
    pub behind: &'static str,
    pub status: Status,
    pub out: &'static str,
    pub err: &'static str,
}

/// The number, from 0, of the first case that ends otherwise.
pub fn first_unlike<R: Threads + Wait + Sync>(
    rt: &R,
    alloc: Global,
    cases: &[Case],
) -> Result<Option<usize>, AllocError> {
    for (number, case) in cases.iter().enumerate() {
        let ran = behind(rt, alloc, case.words, case.system, case.behind)?;
        if !ran.is(case.status, case.out, case.err) {
            return Ok(Some(number));
        }
    }
    Ok(None)
}

/// Runs the words on the text of a system and what stands behind it.
pub fn behind<R: Threads + Wait + Sync>(
    rt: &R,
    alloc: Global,
    words: &[&str],
    system: &str,
    behind: &str,
) -> Result<EndedRun, AllocError> {
    let mut text = String::from_str(alloc, system)?;
    text.push_str(behind)?;
    answered(rt, alloc, words, text.as_str())
}

/// A line of a text, counted from 1, what stands there instead, and how `grow` ends then.
#[derive(Clone, Copy)]
pub struct Change {
    pub number: usize,
    pub line: &'static str,
    pub status: Status,
    pub out: &'static str,
    pub err: &'static str,
}

/// The number, from 0, of the first change of this text after which this command ends otherwise.
pub fn first_unlike_change<R: Threads + Wait + Sync>(
    rt: &R,
    alloc: Global,
    command: &str,
    text: &str,
    changes: &[Change],
) -> Result<Option<usize>, AllocError> {
    for (number, change) in changes.iter().enumerate() {
        let changed = changed_line(alloc, text, change.number, change.line)?;
        let ran = answered(rt, alloc, &[command], changed.as_str())?;
        if !ran.is(change.status, change.out, change.err) {
            return Ok(Some(number));
        }
    }
    Ok(None)
}
