// The machines of texts.
use machine_text::{Machine, read_machine};
use std::alloc::Global;
use tile_io::{MOST_INPUT, Mark, TextStop};

/// The machine of a text.
#[tactic(auto, using(tile_io::proofs::Progress::start_is_mark))]
pub fn machine(alloc: Global, text: &str) -> Result<Machine, TextStop> {
    let bytes = text.as_bytes();
    let (machine, _end) = read_machine(
        alloc,
        &bytes[..bytes.len().min(MOST_INPUT)],
        Mark::start(),
    )?;
    Ok(machine)
}
