// The text of a machine: read, and refused.
use crate::machines::machine;
use machine_text::{Rule, Turn};
use std::alloc::{AllocError, Global};
use std::test::Fail;
use tile_io::{Cause, TextFault, TextStop};
use worked_systems::{BIT_FLIPPER, changed_line};

#[test]
fn reads_a_bit_flipper(rt: HostRuntime) -> Result<(), Fail> {
    let tape = "tape 1\n # more\n tape  0 1";
    let text = changed_line(rt.alloc(), BIT_FLIPPER, 10, tape)?;
    let machine = machine(rt.alloc(), text.as_str())?;
    assert!(rt; machine.states() == 1 && machine.symbols() == 2);
    assert!(rt; machine.cells() == 3 && machine.rows() == 5);
    assert!(rt;
        machine.state_name(0) == b"F".as_slice() && machine.symbol_name(1) == b"1".as_slice()
    );
    let rule = Rule {
        state: 0,
        symbol: 1,
        turn: Turn::Right,
    };
    assert!(rt; machine.rule(0, 0) == Some(rule));
    Ok(())
}

// What refuses a text.
fn refusal(alloc: Global, text: &str) -> Option<TextStop> {
    machine(alloc, text).err()
}

// A line of the bit flipper, counted from 1, what stands there instead, and the line and the cause
// of what refuses it.
const CHANGED: [(usize, &str, u32, Cause); 31] = [
    (1, "machine 2", 1, Cause::NoHeader),
    (1, "tiles 1", 1, Cause::NoHeader),
    (2, "state", 2, Cause::BadLine),
    (2, "state F:", 2, Cause::BadName),
    (2, "state abcdefghi", 2, Cause::BadName),
    (2, "state F\nstate F", 3, Cause::DoubleName),
    (2, "symbol 0", 2, Cause::OutOfOrder),
    (3, "symbol -", 3, Cause::BadName),
    (4, "symbol 0", 4, Cause::DoubleName),
    (5, "rule F 0 F 1", 5, Cause::BadLine),
    (5, "rule G 0 F 1 R", 5, Cause::UnknownName),
    (5, "rule F 2 F 1 R", 5, Cause::UnknownName),
    (5, "rule F 0 G 1 R", 5, Cause::UnknownName),
    (5, "rule F 0 F 2 R", 5, Cause::UnknownName),
    (5, "rule F 0 F 1 X", 5, Cause::BadName),
    (6, "rule F 0 F 0 R", 6, Cause::DoubleName),
    (6, "rule F 0 G 2 X", 6, Cause::DoubleName),
    (7, "cells 0", 7, Cause::OutOfRange),
    (7, "cells 513", 7, Cause::OutOfRange),
    (7, "cells three", 7, Cause::BadNumber),
    (8, "head 0", 8, Cause::OutOfOrder),
    (8, "rows 1025", 8, Cause::OutOfRange),
    (9, "head 3", 9, Cause::OutOfRange),
    (9, "head -1", 9, Cause::OutOfRange),
    (10, "tape", 10, Cause::BadLine),
    (10, "tape 2", 10, Cause::UnknownName),
    (10, "tape 1 -", 10, Cause::BadName),
    (10, "tape 2 0 1 0", 10, Cause::TooMany),
    (10, "tape 1 0\ntape 1 0", 11, Cause::TooMany),
    (10, "rule F 0 F 0 R", 10, Cause::OutOfOrder),
    (11, "# no end", 12, Cause::NoEnd),
];

// The number, from 0, of the first change that is refused otherwise.
fn first_unlike(alloc: Global) -> Result<Option<usize>, AllocError> {
    for (change, (number, line, at, cause)) in CHANGED.iter().enumerate() {
        let text = changed_line(alloc, BIT_FLIPPER, *number, line)?;
        let fault = TextFault {
            line: *at,
            cause: *cause,
        };
        if refusal(alloc, text.as_str()) != Some(TextStop::Fault(fault)) {
            return Ok(Some(change));
        }
    }
    Ok(None)
}

#[test]
fn refuses_a_changed_line(rt: HostRuntime) -> Result<(), Fail> {
    assert_eq!(rt; first_unlike(rt.alloc())?, None);
    Ok(())
}

// Adds lines that declare so many names.
fn declare(alloc: Global, text: &mut String, keyword: &str, count: u32) -> Result<(), AllocError> {
    for number in 0..count {
        text.push_str(format!(in alloc; "{keyword} n{number}\n")?.as_str())?;
    }
    Ok(())
}

// A machine of so many states and symbols, and else at its limits.
fn large(alloc: Global, states: u32, symbols: u32) -> Result<String, AllocError> {
    let mut text = String::from_str(alloc, "machine 1\n")?;
    declare(alloc, &mut text, "state", states)?;
    declare(alloc, &mut text, "symbol", symbols)?;
    text.push_str("cells 512\nrows 1024\nhead 511\nend\n")?;
    Ok(text)
}

#[test]
fn takes_no_more_than_the_limits(rt: HostRuntime) -> Result<(), Fail> {
    for (states, symbols, line) in [(64, 64, None), (65, 1, Some(66)), (1, 65, Some(67))] {
        let text = large(rt.alloc(), states, symbols)?;
        let stop = line.map(|line| TextStop::Fault(TextFault {
            line,
            cause: Cause::TooMany,
        }));
        assert!(rt; refusal(rt.alloc(), text.as_str()) == stop);
    }
    Ok(())
}
