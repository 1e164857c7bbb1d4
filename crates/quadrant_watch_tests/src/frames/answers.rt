// What `watch` prints, frame by frame.
use program_runs::behind;
use std::alloc::{AllocError, Global};
use std::sync::Wait;
use std::thread::Threads;

// The frames, which stand before the line `grown`, and what stands behind it.
pub(crate) fn parts(out: &[u8]) -> Option<(&str, &str)> {
    str::from_utf8(out).ok()?.split_once("grown\n")
}

// How many frames these are, where the line of each tells its number and how many places are told
// of by then, which `check` finds legal behind their system.
pub(crate) fn count_of_frames<R: Threads + Wait + Sync>(
    rt: &R,
    alloc: Global,
    system: &str,
    frames: &str,
) -> Result<Option<u32>, AllocError> {
    let mut places = String::new(alloc);
    let mut number = 0u32;
    for frame in frames.split("frame ") {
        let Some((line, added)) = frame.split_once('\n') else {
            continue;
        };
        number = number.saturating_add(1);
        places.push_str(added)?;
        if !is_frame(rt, alloc, system, line, number, places.as_str())? {
            return Ok(None);
        }
    }
    Ok(Some(number))
}

// Whether the line tells this number and so many places, which are legal.
fn is_frame<R: Threads + Wait + Sync>(
    rt: &R,
    alloc: Global,
    system: &str,
    line: &str,
    number: u32,
    places: &str,
) -> Result<bool, AllocError> {
    let count = places.lines().count();
    let told = format!(in alloc; "{number} {count}")?;
    Ok(line == told.as_str() && is_legal(rt, alloc, system, places)?)
}

// Whether `check` finds the places legal.
fn is_legal<R: Threads + Wait + Sync>(
    rt: &R,
    alloc: Global,
    system: &str,
    places: &str,
) -> Result<bool, AllocError> {
    let checked = behind(rt, alloc, &["check"], system, places)?;
    Ok(checked.out.starts_with(b"legal yes\n"))
}
