//! The program: the top call over the machine's arguments and streams.
#![tactic(auto)]

use std::env;
use std::io::ErrorKind;
use std::process::ExitCode;
use tile_io::{OpenGate, StdSink, StdSource};
use tilebench::{Status, tilebench};

fn main(rt: HostRuntime) -> ExitCode {
    let mut arguments = match env::args(&rt) {
        Ok(arguments) => arguments,
        Err(error) => return ExitCode::from(status_of(error.kind()).code()),
    };
    let _program = arguments.next();
    let words: Vec<String> = match arguments.collect(rt.alloc()) {
        Ok(words) => words,
        Err(_) => return ExitCode::from(Status::NoMemory.code()),
    };
    let mut source = StdSource::make(rt.stdin());
    let mut out = StdSink::make(rt.stdout());
    let mut err = StdSink::make(rt.stderr());
    let ran = tilebench(
        &rt,
        rt.alloc(),
        &words,
        &mut source,
        &mut out,
        &mut err,
        &OpenGate,
    );
    ExitCode::from(ran.status.code())
}

// The status where the arguments can't be read.
fn status_of(kind: ErrorKind) -> Status {
    match kind {
        ErrorKind::OutOfMemory => Status::NoMemory,
        _ => Status::Words,
    }
}
