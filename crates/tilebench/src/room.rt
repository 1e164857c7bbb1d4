// What a command is to the top call: it answers an input, or what is left of the source, and its
// answer has a text.
ghost use Rattle.std.specs.Prelude.{◌≡◌, ◌≤◌, ℕ, Bool, true, List, length};
ghost use Rattle.std.specs.Thread.{IsSync};
ghost use Rattle.tile_io.specs.declared.fault.TextFault.{TextFault};
ghost use Rattle.tile_io.specs.declared.limits.TheConstants.{MOST_INPUT};
ghost use Rattle.tile_io.specs.Prints.{Prints};
ghost use Rattle.tilebench.specs.Inner.Gives.{AnswersFrom, GivesAnswer};
ghost use Rattle.tilebench.specs.Rows.{RoomRow};

use crate::resources::Resources;
use crate::stop::Stop;
use site_table::Grown;
use std::alloc::Global;
use std::thread::Threads;
use tile_io::{Failed, Gate, Sink, Source};

/// What a command answers.
pub trait Reply {
    /// Its text.
    ghost text: { Self → List ℕ };

    /// Whether it is a yes.
    ghost yes: { Self → Bool };

    /// Whether each type in it is one of its system.
    ghost printable: { Self → Type 0 };

    /// Whether it is a yes.
    fn is_yes(&self) -> bool
        ensures { result ≡ yes self.now };

    /// Writes its text.
    fn print<K: Sink>(&self, out: &mut K) -> Result<(), Failed>
        requires { printable self.now }
        ensures { Prints K.written K.faults out.old out.new result (text self.now) };
}

/// A command, with what its words say.
pub trait Room {
    type Answer: Reply + Drop;

    /// Its row in the table of commands.
    ghost room_row: { Self → RoomRow };

    /// Whether it reads the source. A command that does not is given an empty input.
    fn reads_input(&self) -> bool
        ensures { result ≡ (room_row self.now).reads };

    /// An input that it takes has no fault.
    ghost one_of_two: { (room : Self) (input : List ℕ) (fault : TextFault) →
        (room_row room).takes input → (room_row room).fails input fault → ⊥ };
}

/// A command whose workers pass no gate. What a method of a trait knows of the gate it knows in one
/// thread alone, so a command that grows answers in a method of its own, which its arm of
/// `run_command` hands to `run_by`.
pub trait PlainRoom: Room {
    /// Its answer to an input, which it may let go once it is read, with the growth that is to be
    /// handed out. The other `Err` is want of memory.
    fn answer<R: Threads + Sync, G: Gate>(
        &self,
        resources: &Resources<'_, R, G>,
        input: Vec<u8>,
    ) -> Result<(Self::Answer, Option<Grown>), Stop>
        requires threads { IsSync R.row }
        requires gate { IsSync G.row }
        requires short { length input.items ≤ MOST_INPUT }
        ensures { GivesAnswer Self.Answer.yes Self.Answer.text Self.Answer.printable
            (Self.room_row self.now) input.items result };
}

/// A command that reads its source in blocks, so that where the system ends within the first it
/// never holds its whole input.
pub trait SourceRoom: Room {
    /// Its answer to all that is left of a source.
    fn answer_from<S: Source>(
        &self,
        alloc: Global,
        source: &mut S,
    ) -> Result<(Self::Answer, Option<Grown>), Stop>
        ensures answer { AnswersFrom S.left S.faults Self.Answer.yes Self.Answer.text
            Self.Answer.printable (Self.room_row self.now) source.old source.new result }
        ensures later { S.faults source.old ≤ S.faults source.new };

    /// It reads the source.
    ghost reads_source: { (room : Self) → (Self.Room.room_row room).reads ≡ true };
}
