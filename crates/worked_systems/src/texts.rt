// Texts that are made by rule.
use std::alloc::{AllocError, Global};

/// A text with one of its lines, counted from 1, replaced.
pub fn changed_line(
    alloc: Global,
    text: &str,
    number: usize,
    line: &str,
) -> Result<String, AllocError> {
    let mut changed = String::new(alloc);
    for (before, own) in text.lines().enumerate() {
        changed.push_str(if number == before.saturating_add(1) {
            line
        } else {
            own
        })?;
        changed.push_str("\n")?;
    }
    Ok(changed)
}

/// The places of a square box from (0, 0) that one type fills, by rows.
pub fn filled_box(alloc: Global, side: u32, name: &str) -> Result<String, AllocError> {
    let mut text = String::new(alloc);
    for y in 0..side {
        push_row(alloc, &mut text, side, y, name)?;
    }
    Ok(text)
}

fn push_row(
    alloc: Global,
    text: &mut String,
    width: u32,
    y: u32,
    name: &str,
) -> Result<(), AllocError> {
    for x in 0..width {
        let line = format!(in alloc; "place {x} {y} {name}\n")?;
        text.push_str(line.as_str())?;
    }
    Ok(())
}

/// One type that binds on all sides, in a box of 128 by 128 sites, with so many seeds at every
/// second site of every second row, 64 in a row.
pub fn scattered_seeds(alloc: Global, count: u32) -> Result<String, AllocError> {
    let mut text = String::from_str(
        alloc,
        "tiles 2\ntau 1\nglue a 1\ntile T a a a a\nbox 0 0 127 127\n",
    )?;
    for number in 0..count {
        let (x, y) = (number % 64 * 2, number / 64 % 64 * 2);
        text.push_str(format!(in alloc; "seed {x} {y} T\n")?.as_str())?;
    }
    text.push_str("end\n")?;
    Ok(text)
}
