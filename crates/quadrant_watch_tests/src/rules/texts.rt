// The text of two-input rules: read, and refused.
use crate::rules::quadrants::{EXCLUSIVE_OR, LOPSIDED, quadrant};
use quadrant_compile::Answer;
use std::alloc::{AllocError, Global};
use std::test::Fail;
use tile_io::{Cause, TextFault, TextStop};
use worked_systems::changed_line;

const C_AND_B: Answer = Answer { east: 2, north: 1 };

#[test]
fn reads_a_lopsided_text(rt: HostRuntime) -> Result<(), Fail> {
    let quadrant = quadrant(rt.alloc(), LOPSIDED)?;
    assert!(rt; quadrant.symbols() == 3 && quadrant.width() == 3 && quadrant.height() == 2);
    assert!(rt; quadrant.symbol_name(2) == b"c".as_slice());
    assert!(rt; quadrant.answer(0, 1) == Some(C_AND_B) && quadrant.answer(1, 0).is_none());
    assert!(rt; quadrant.bottom_symbol(1) == 1 && quadrant.bottom_symbol(3) == 0);
    assert!(rt; quadrant.left_symbol(2) == 0);
    Ok(())
}

#[test]
fn reads_borders_in_parts(rt: HostRuntime) -> Result<(), Fail> {
    let left = "left 0\n # more\n left  1";
    let text = changed_line(rt.alloc(), EXCLUSIVE_OR, 10, left)?;
    let quadrant = quadrant(rt.alloc(), text.as_str())?;
    assert!(rt; quadrant.left_symbol(1) == 0 && quadrant.left_symbol(2) == 1);
    Ok(())
}

// What refuses a text.
fn refusal(alloc: Global, text: &str) -> Option<TextStop> {
    quadrant(alloc, text).err()
}

// A line of exclusive or, counted from 1, what stands there instead, and the line and the cause of
// what refuses it.
const CHANGED: [(usize, &str, u32, Cause); 30] = [
    (1, "quadrant 2", 1, Cause::NoHeader),
    (1, "machine 1", 1, Cause::NoHeader),
    (2, "symbol", 2, Cause::BadLine),
    (2, "symbol a:b", 2, Cause::BadName),
    (2, "symbol abcdefghi", 2, Cause::BadName),
    (3, "symbol 0", 3, Cause::DoubleName),
    (2, "rule 0 0 0 0", 2, Cause::OutOfOrder),
    (4, "rule 0 0 0", 4, Cause::BadLine),
    (4, "rule 2 0 0 0", 4, Cause::UnknownName),
    (4, "rule 0 - 0 0", 4, Cause::BadName),
    (4, "rule 0 0 2 0", 4, Cause::UnknownName),
    (4, "rule 0 0 0 2", 4, Cause::UnknownName),
    (7, "rule 1 0 0 0", 7, Cause::DoubleName),
    (7, "rule 1 0 2 -", 7, Cause::DoubleName),
    (7, "rule - 0 0 0", 7, Cause::BadName),
    (8, "size 0 2", 8, Cause::OutOfRange),
    (8, "size 2 1024", 8, Cause::OutOfRange),
    (8, "size 1024 two", 8, Cause::OutOfRange),
    (8, "size two 0", 8, Cause::BadNumber),
    (8, "bottom 1", 8, Cause::OutOfOrder),
    (8, "size 2 2\nrule 1 1 0 0", 9, Cause::OutOfOrder),
    (9, "bottom 1 1 1", 9, Cause::TooMany),
    (9, "bottom 1\nbottom 1 1", 10, Cause::TooMany),
    (9, "bottom", 9, Cause::BadLine),
    (10, "left 2 1 1", 10, Cause::TooMany),
    (10, "left 1 -", 10, Cause::BadName),
    (10, "left 1\nbottom 1", 11, Cause::OutOfOrder),
    (10, "tape 1 1", 10, Cause::BadLine),
    (11, "end 1", 11, Cause::BadLine),
    (11, "# no end", 12, Cause::NoEnd),
];

// The number, from 0, of the first change that is refused otherwise.
fn first_unlike(alloc: Global) -> Result<Option<usize>, AllocError> {
    for (change, (number, line, at, cause)) in CHANGED.iter().enumerate() {
        let text = changed_line(alloc, EXCLUSIVE_OR, *number, line)?;
        let fault = TextFault {
            line: *at,
            cause: *cause,
        };
        if refusal(alloc, text.as_str()) != Some(TextStop::Fault(fault)) {
            return Ok(Some(change));
        }
    }
    Ok(None)
}

#[test]
fn refuses_a_changed_line(rt: HostRuntime) -> Result<(), Fail> {
    assert_eq!(rt; first_unlike(rt.alloc())?, None);
    Ok(())
}

#[test]
fn takes_no_more_symbols_than_the_limit(rt: HostRuntime) -> Result<(), Fail> {
    for (symbols, line) in [(64, None), (65, Some(66))] {
        let text = largest(rt.alloc(), symbols, false)?;
        let stop = line.map(|line| TextStop::Fault(TextFault {
            line,
            cause: Cause::TooMany,
        }));
        assert!(rt; refusal(rt.alloc(), text.as_str()) == stop);
    }
    Ok(())
}

// The largest box with so many symbols, and with a rule for any two of the first 64 or with none.
pub fn largest(alloc: Global, symbols: u32, has_rules: bool) -> Result<String, AllocError> {
    let mut text = String::from_str(alloc, "quadrant 1\n")?;
    for symbol in 0..symbols {
        text.push_str(format!(in alloc; "symbol s{symbol}\n")?.as_str())?;
    }
    if has_rules {
        push_rules(alloc, &mut text)?;
    }
    text.push_str("size 1023 1023\nend\n")?;
    Ok(text)
}

// A rule for any two symbols, which gives both on.
fn push_rules(alloc: Global, text: &mut String) -> Result<(), AllocError> {
    for pair in 0..4096u32 {
        let (west, south) = (pair / 64, pair % 64);
        let rule = format!(in alloc; "rule s{west} s{south} s{west} s{south}\n")?;
        text.push_str(rule.as_str())?;
    }
    Ok(())
}
