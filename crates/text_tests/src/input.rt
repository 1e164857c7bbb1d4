// Reading a source whole, printing a line, and where lines stand in a text.
use std::test::Fail;
use tile_io::{
    Cause, Line, Mark, MemorySink, MemorySource, NoRoom, ReadStop, TextFault, check_rest,
    next_line, print_line, read_whole,
};

// Reads a text at a byte a call, of which the calls in `fails` fail.
fn read(rt: &HostRuntime, text: &[u8], fails: &[u32]) -> Result<Result<Vec<u8>, ReadStop>, Fail> {
    let alloc = rt.alloc();
    let mut source = MemorySource::make(text.to_vec(alloc)?, 1, fails.to_vec(alloc)?);
    Ok(read_whole(alloc, &mut source))
}

#[test]
fn reads_all_or_fails(rt: HostRuntime) -> Result<(), Fail> {
    for fail in 0..4 {
        let all = read(&rt, b"abc", &[fail])?;
        assert_eq!(rt; all.err(), Some(ReadStop::Failed), "at {fail}");
    }
    let all = read(&rt, b"abc", &[4])?;
    assert_eq!(rt; all.is_ok(), true);
    Ok(())
}

// A line through a sink that takes a byte a call, and fails at its fifth one in the second case.
#[test]
fn prints_a_line_or_a_front(rt: HostRuntime) -> Result<(), Fail> {
    let alloc = rt.alloc();
    for (fails, want) in [(99u32, b"place -1 S\n".as_slice()), (4, b"plac")] {
        match MemorySink::make(alloc, 40, 1, [fails].to_vec(alloc)?) {
            Ok(sink) => {
                let mut sink = sink;
                let done = print_line(&mut sink, b"place", &[b"-1", b"S"]).is_ok();
                assert_eq!(rt; done, want.len() == 11, "{fails}");
                assert_eq!(rt; sink.bytes(), want, "{fails}");
            }
            Err(NoRoom) => assert!(rt; false, "memory"),
        }
    }
    Ok(())
}

// A remark, an empty line, and a line with spaces.
#[test]
#[tactic(auto, using(tile_io::proofs::Progress::start_is_mark))]
fn finds_lines(rt: HostRuntime) -> Result<(), Fail> {
    let text = b"# a remark\n\n  tau   0012 \nx";
    let start = Mark::start();
    assert_eq!(rt;
        next_line(text, start),
        Ok(Some(Line {
            start: 12,
            end: 25,
            number: 3,
            next: Mark { at: 26, line: 4 }
        }))
    );
    let fault = Err(TextFault {
        line: 3,
        cause: Cause::AfterEnd,
    });
    assert_eq!(rt; check_rest(text, start), fault);
    Ok(())
}
