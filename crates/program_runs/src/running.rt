// A run from words and bytes to a status and bytes.
ghost use Rattle.std.specs.Prelude.{◌≤◌};

use site_table::Grown;
use std::alloc::{AllocError, Global};
use std::sync::Wait;
use std::thread::Threads;
use tile_io::{Gate, MemorySink, MemorySource, NoRoom, OpenGate};
use tilebench::{Status, tilebench};

// More bytes than any answer of the tests has.
const ROOM: usize = 1 << 21;

/// How a run ended, the growth that it handed out, and what its sinks hold.
#[derive(Drop)]
pub struct EndedRun {
    pub status: Status,
    pub grown: Option<Grown>,
    pub out: Vec<u8>,
    pub err: Vec<u8>,
}

impl EndedRun {
    /// Whether the run ended so.
    pub fn is(&self, status: Status, out: &str, err: &str) -> bool {
        self.status == status
            && self.out.as_slice() == out.as_bytes()
            && self.err.as_slice() == err.as_bytes()
    }
}

/// The call of each object that fails, and how many bytes a call moves at most.
#[derive(Clone, Copy)]
pub struct Failures {
    pub source: u32,
    pub out: u32,
    pub err: u32,
    pub most: usize,
}

impl Failures {
    pub const NONE: Failures = Failures {
        source: u32::MAX,
        out: u32::MAX,
        err: u32::MAX,
        most: 4096,
    };
}

/// Runs the words on a text with nothing that fails.
pub fn answered<R: Threads + Wait + Sync>(
    rt: &R,
    alloc: Global,
    words: &[&str],
    text: &str,
) -> Result<EndedRun, AllocError> {
    run(rt, alloc, words, text.as_bytes(), Failures::NONE)
}

/// Runs the words on an input, with the calls that fail.
pub fn run<R: Threads + Wait + Sync>(
    rt: &R,
    alloc: Global,
    words: &[&str],
    input: &[u8],
    failures: Failures,
) -> Result<EndedRun, AllocError> {
    run_at(rt, alloc, words, input.to_vec(alloc)?, failures, &OpenGate)
}

/// The same on an input that is handed over, with a gate for its workers.
pub fn run_at<R: Threads + Wait + Sync, G: Gate>(
    rt: &R,
    alloc: Global,
    words: &[&str],
    input: Vec<u8>,
    failures: Failures,
    gate: &G,
) -> Result<EndedRun, AllocError> {
    let words = words_of(alloc, words)?;
    let most = failures.most.max(1);
    let mut source = MemorySource::make(input, most, [failures.source].to_vec(alloc)?);
    let mut out = sink_of(alloc, most, failures.out)?;
    let mut err = sink_of(alloc, most, failures.err)?;
    let ran = tilebench(rt, alloc, &words, &mut source, &mut out, &mut err, gate);
    Ok(EndedRun {
        status: ran.status,
        grown: ran.grown,
        out: out.bytes().to_vec(alloc)?,
        err: err.bytes().to_vec(alloc)?,
    })
}

// The words as the top call takes them.
fn words_of(alloc: Global, words: &[&str]) -> Result<Vec<String>, AllocError> {
    let mut list = Vec::new(alloc);
    for word in words {
        list.push(String::from_str(alloc, word)?)?;
    }
    Ok(list)
}

fn sink_of(alloc: Global, most: usize, fails: u32) -> Result<MemorySink, AllocError>
    requires { 1 ≤ most }
{
    match MemorySink::make(alloc, ROOM, most, [fails].to_vec(alloc)?) {
        Ok(sink) => Ok(sink),
        Err(NoRoom) => Err(AllocError),
    }
}
