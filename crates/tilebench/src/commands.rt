// The table of commands.
ghost use Rattle.tilebench.specs.Commands.{room_of};
ghost use Rattle.tilebench.specs.Inner.Runs.{EndsCommand};

mod batch;
mod certify;
mod check;
mod counter;
mod format;
mod grow;
mod load;
mod pictures;
mod quadrant;
mod race;
mod replay;
mod reports;
mod schedule;
mod turing;
mod upgrade;
mod verify;
mod watch;

use crate::resources::Resources;
use crate::run::{run, run_in_blocks};
use crate::status::Ran;
use command_line::Command;
use std::sync::Wait;
use std::thread::Threads;
use tile_io::{Gate, Sink, Source};

/// Runs a command. It may wait: `batch` does at a lock.
pub fn run_command<R: Threads + Wait + Sync, G: Gate, S: Source, K: Sink, E: Sink>(
    resources: &Resources<'_, R, G>,
    command: Command,
    source: &mut S,
    out: &mut K,
    err: &mut E,
) -> Ran
    ensures { EndsCommand S.left S.faults K.written K.faults E.written E.faults (room_of command)
        source.old source.new out.old out.new err.old err.new result }
{
    match command {
        Command::Grow(crew) => grow::Grow(crew).run(resources, source, out, err),
        Command::Race(crew) => race::Race(crew).run(resources, source, out, err),
        Command::Report(crew) => reports::Report(crew).run(resources, source, out, err),
        Command::Watch(crew, frames) => {
            watch::Watch { crew, frames }.run(resources, source, out, err)
        }
        Command::Batch { workers } => batch::Batch { workers }.run(resources, source, out, err),
        Command::Check => run_in_blocks(resources.alloc, &check::Check, source, out, err),
        Command::Replay => run_in_blocks(resources.alloc, &replay::Replay, source, out, err),
        Command::Schedule => run(resources, &schedule::Schedule, source, out, err),
        Command::Format => run(resources, &format::Format, source, out, err),
        Command::Upgrade => run(resources, &upgrade::Upgrade, source, out, err),
        Command::Turing => run(resources, &turing::Turing, source, out, err),
        Command::Quadrant => run(resources, &quadrant::Quadrant, source, out, err),
        Command::Picture => run_in_blocks(resources.alloc, &pictures::Picture, source, out, err),
        Command::Certify => run_in_blocks(resources.alloc, &certify::Certify, source, out, err),
        Command::Verify { workers } => {
            verify::Verify { workers }.run(resources, source, out, err)
        }
        Command::Counter { bits, start } => {
            let room = counter::Counter { bits, start };
            run(resources, &room, source, out, err)
        }
        Command::Load { number } => load::Load { number }.run(resources, source, out, err),
    }
}
