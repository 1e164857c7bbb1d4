// The run of a command: its input is read, and its answer is told.
ghost use Rattle.std.specs.Prelude.{◌≡◌, ◌≢◌, ◌≤◌, false, length, IfErr, IfOk};
ghost use Rattle.std.specs.Thread.{IsSync};
ghost use Rattle.tile_io.specs.declared.limits.TheConstants.{MOST_INPUT};
ghost use Rattle.tilebench.specs.Inner.Gives.{GivesAnswer, GivesFromSource};
ghost use Rattle.tilebench.specs.Inner.Runs.{EndsCommand};
ghost use Rattle.tilebench.specs.Rows.{AnswersLeft, FailsLeft};

use crate::resources::Resources;
use crate::room::{PlainRoom, Room, SourceRoom};
use crate::status::Ran;
use crate::stop::Stop;
use crate::telling::tell;
use site_table::Grown;
use std::alloc::Global;
use std::thread::Threads;
use tile_io::{Gate, Sink, Source, read_whole};

/// Reads the input of a command if it has one, and writes its answer, or the refusal.
pub fn run<C: PlainRoom, R: Threads + Sync, G: Gate, S: Source, K: Sink, E: Sink>(
    resources: &Resources<'_, R, G>,
    room: &C,
    source: &mut S,
    out: &mut K,
    err: &mut E,
) -> Ran
    ensures { EndsCommand S.left S.faults K.written K.faults E.written E.faults
        (C.room_row room.now)
        source.old source.new out.old out.new err.old err.new result }
{
    let answer = |input: Vec<u8>|
        requires { IsSync R.row × IsSync G.row × (length input.items ≤ MOST_INPUT) }
    { room.answer(resources, input) };
    run_by(resources.alloc, room, answer, source, out, err)
}

/// The same for a command that is answered by this.
pub fn run_by<
    C: Room,
    F: FnOnce(Vec<u8>) -> Result<(C::Answer, Option<Grown>), Stop>,
    S: Source,
    K: Sink,
    E: Sink,
>(alloc: Global, room: &C, answer: F, source: &mut S, out: &mut K, err: &mut E) -> Ran
    requires can { (input : _) → length input.items ≤ MOST_INPUT → F.pre answer input }
    requires gives { (input : _) (given : _) → F.post answer input given
        → GivesAnswer C.Answer.yes C.Answer.text C.Answer.printable
        (C.room_row room.now) input.items given }
    ensures { EndsCommand S.left S.faults K.written K.faults E.written E.faults
        (C.room_row room.now)
        source.old source.new out.old out.new err.old err.new result }
{
    tell(answer_from(alloc, room, answer, source), out, err)
}

// The command's answer to all that is left of the source, or to nothing.
fn answer_from<C: Room, F: FnOnce(Vec<u8>) -> Result<(C::Answer, Option<Grown>), Stop>, S: Source>(
    alloc: Global,
    room: &C,
    answer: F,
    source: &mut S,
) -> Result<(C::Answer, Option<Grown>), Stop>
    requires can { (input : _) → length input.items ≤ MOST_INPUT → F.pre answer input }
    requires gives { (input : _) (given : _) → F.post answer input given
        → GivesAnswer C.Answer.yes C.Answer.text C.Answer.printable
        (C.room_row room.now) input.items given }
    ensures answer { GivesFromSource S.faults C.Answer.yes C.Answer.text C.Answer.printable
        (λ grown. AnswersLeft (C.room_row room.now) grown (S.left source.old) (S.left source.new))
        (C.room_row room.now).refuses
        (FailsLeft (C.room_row room.now) (S.left source.old) (S.left source.new))
        source.old source.new result }
    ensures unread { (C.room_row room.now).reads ≡ false → source.new ≡ source.old }
    ensures read_fault { (C.room_row room.now).reads ≡ false
        → IfErr result (λ stop. stop ≢ Stop.ReadFault) }
    ensures later { S.faults source.old ≤ S.faults source.new }
    ensures printable { IfOk result (λ found. C.Answer.printable found.0) }
{
    if !room.reads_input() {
        return answer(Vec::new(alloc));
    }
    let input = read_whole(alloc, source)?;
    answer(input)
}

/// Writes the answer of a command that reads its input in blocks, or the refusal.
pub fn run_in_blocks<C: SourceRoom, S: Source, K: Sink, E: Sink>(
    alloc: Global,
    room: &C,
    source: &mut S,
    out: &mut K,
    err: &mut E,
) -> Ran
    ensures { EndsCommand S.left S.faults K.written K.faults E.written E.faults
        (C.room_row room.now)
        source.old source.new out.old out.new err.old err.new result }
{
    tell(room.answer_from(alloc, source), out, err)
}
