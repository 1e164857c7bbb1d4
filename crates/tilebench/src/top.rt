// The top call: all that the program does, over any source, sinks and gate.
ghost use Rattle.std.specs.Prelude.{◌≡◌, ◌≢◌, ◌⊎◌, ◌≤◌, Bool, map, string_bytes};
ghost use Rattle.tile_io.specs.Faults.{Rose};
ghost use Rattle.fan_out.specs.declared.worker_count.WorkerCount.{WorkerCount};
ghost use Rattle.command_line.specs.declared.commands.Command.TheVariants.{Batch, Grow, Watch};
ghost use Rattle.command_line.specs.declared.crew.Crew.{Crew};
ghost use Rattle.command_line.specs.declared.frame_count.FrameCount.{FrameCount};
ghost use Rattle.command_line.specs.Commands.{IsCallOf, IsNoCommand};
ghost use Rattle.tilebench.specs.Gains.{Gains};
ghost use Rattle.tilebench.specs.Headline.{Ends, IsAnswer, IsDue, IsTextRefusal, IsWordsRefusal};
ghost use Rattle.tilebench.specs.Headline.{IsBatchHeadline, IsHeadline, IsWatchedHeadline};
ghost use Rattle.tilebench.specs.Inputs.{AnswersInput};
ghost use Rattle.tilebench.specs.Refusals.{IsReadingCall};
ghost use Rattle.tilebench.specs.Statuses.{IsAnswered, answer_status};

use crate::commands::run_command;
use crate::resources::Resources;
use crate::status::{Ran, Status};
use crate::stop::Stop;
use crate::telling::refuse;
use command_line::command_of;
use std::alloc::Global;
use std::sync::Wait;
use std::thread::Threads;
use tile_io::{Gate, Sink, Source};

/// Runs a command: reads `source`, and writes the answer to `out` or a refusal to `err`.
///
/// `words` do not hold the program's name. All memory is taken before the first write. It may wait:
/// `batch` does at a lock.
pub fn tilebench<R: Threads + Wait + Sync, S: Source, K: Sink, E: Sink, G: Gate>(
    rt: &R,
    alloc: Global,
    words: &[String],
    source: &mut S,
    out: &mut K,
    err: &mut E,
    gate: &G,
) -> Ran
    // By its status: `out` gained an answer, with which a growth is handed out where the command
    // grows one system; or `err` gained a refusal, or a count of faults rose, or memory was
    // wanting.
    ensures ends { Ends S.faults K.written K.faults E.written E.faults
        (IsAnswer (map string_bytes words.now) (S.left source.old) (S.left source.new))
        (IsTextRefusal (map string_bytes words.now) (S.left source.old) (S.left source.new))
        (IsWordsRefusal (map string_bytes words.now))
        source.old source.new out.old out.new err.old err.new result.status result.grown }

    // What `grow` printed.
    ensures growth { (crew : Crew) (is_yes : Bool)
        → IsCallOf (map string_bytes words.now) (Grow crew)
        → result.status ≡ answer_status is_yes
        → Gains K.written K.faults
        (AnswersInput IsHeadline (S.left source.old) (S.left source.new) is_yes) out.old out.new }

    // What `watch` printed.
    ensures watched { (crew : Crew) (frames : FrameCount) (is_yes : Bool)
        → IsCallOf (map string_bytes words.now) (Watch crew frames)
        → result.status ≡ answer_status is_yes
        → Gains K.written K.faults
        (AnswersInput (IsWatchedHeadline frames.count)
        (S.left source.old) (S.left source.new) is_yes)
        out.old out.new }

    // What `batch` printed.
    ensures batched { (workers : WorkerCount) (is_yes : Bool)
        → IsCallOf (map string_bytes words.now) (Batch workers)
        → result.status ≡ answer_status is_yes
        → Gains K.written K.faults
        (AnswersInput IsBatchHeadline (S.left source.old) (S.left source.new) is_yes)
        out.old out.new }

    // Words that call for no command that reads leave the source as it was, and so does want of
    // memory while they are read.
    ensures unread { ¬ IsReadingCall (map string_bytes words.now) → source.new ≡ source.old }
    ensures read_fault { result.status ≡ Status.ReadFault
        → IsReadingCall (map string_bytes words.now) }
    ensures no_memory { result.status ≡ Status.NoMemory
        → (source.new ≡ source.old) ⊎ IsReadingCall (map string_bytes words.now) }
    ensures no_command { IsNoCommand (map string_bytes words.now)
        → (result.status ≡ Status.Words) ⊎ (result.status ≡ Status.WriteFault) }

    // Counts of faults never fall.
    ensures faults { (S.faults source.old ≤ S.faults source.new)
        × (K.faults out.old ≤ K.faults out.new) × (E.faults err.old ≤ E.faults err.new) }

    // Where the words, their numbers and the input are in order and nothing fails, there is an
    // answer, or no memory for it.
    ensures complete { IsDue (map string_bytes words.now) (S.left source.old)
        → ¬ Rose (S.faults source.old) (S.faults source.new)
        → ¬ Rose (K.faults out.old) (K.faults out.new)
        → ¬ Rose (E.faults err.old) (E.faults err.new)
        → IsAnswered result.status ⊎ (result.status ≡ Status.NoMemory) }
{
    let resources = Resources { rt, alloc, gate };
    match command_of(alloc, words) {
        Ok(command) => run_command(&resources, command, source, out, err),
        Err(stop) => Ran {
            status: refuse(Stop::from(stop), err),
            grown: None,
        },
    }
}
