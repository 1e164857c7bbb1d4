// A machine is read from its text.
ghost use Rattle.std.specs.Prelude.{◌≡◌, ◌≤◌, length, IfOk};
ghost use Rattle.tile_io.specs.NextLine.{IsMark};
ghost use Rattle.tile_io.specs.Formats.{ReadsOrStops};
ghost use Rattle.machine_text.specs.Machines.{IsMachine};
ghost use Rattle.machine_text.specs.MachineText.{ReadsMachine, machine_format};

use crate::kind::LineKind;
use crate::limits::{MOST_STATES, MOST_SYMBOLS};
use crate::machine::Machine;
use crate::parts::MachineParts;
use crate::take::take_item;
use std::alloc::Global;
use tile_io::{LineReader, LineStop, LineWords, MOST_INPUT, Mark, TextStop, read_text};

/// Reads a machine text, up to its end line, in time that grows with its length and the number of
/// its names.
pub fn read_machine(alloc: Global, text: &[u8], from: Mark) -> Result<(Machine, Mark), TextStop>
    requires short { length text.now ≤ MOST_INPUT }
    requires mark { IsMark text.now from }
    ensures read { ReadsOrStops machine_format text.now from
        (λ found. ReadsMachine text.now from found.0 found.1) result }
    ensures mark { IfOk result (λ found. IsMark text.now found.1) }
    ensures valid { IfOk result (λ found. IsMachine found.0) }
{
    let Ok(parts) = MachineParts::new(alloc) else {
        return Err(TextStop::NoMemory);
    };
    let mut reader = MachineReader {
        alloc,
        parts,
        last: None,
    };
    let to = read_text(&mut reader, text, from)?;
    Ok((Machine::new(reader.parts), to))
}

// What was read so far: the parts of a machine, and the keyword of the last kept line.
#[derive(Drop)]
struct MachineReader {
    alloc: Global,
    parts: MachineParts,
    last: Option<LineKind>,
}

#[tactic(auto, unfolding(crate::specs::MachineText::machine_table))]
impl LineReader for MachineReader {
    ghost use Rattle.machine_text.specs.MachineText.{MachineItem, machine_table};
    ghost use Rattle.machine_text.specs.Inner.Kinds.{row_of};
    ghost use Rattle.machine_text.specs.Inner.SoFar.{machine_in, HoldsLines};

    type Kind = LineKind;

    ghost Item = { MachineItem };

    ghost Context = { Unit {0} };

    ghost context = { λ _. tt };

    ghost table = { λ _. machine_table };

    ghost row = { λ _. row_of };

    ghost holds = { λ r. HoldsLines (machine_in r.parts) r.last };

    fn has_header(&self) -> bool {
        true
    }

    fn kind_of(&self, word: &[u8]) -> Option<LineKind> {
        LineKind::of(word)
    }

    fn has_words(&self, kind: LineKind, count: usize) -> bool {
        kind.has_words(count)
    }

    fn may_stand(&self, kind: LineKind) -> bool {
        kind.may_stand(self.last)
    }

    fn has_room(&self, kind: LineKind, words: &LineWords) -> bool {
        match kind {
            LineKind::State => self.parts.states.len() < MOST_STATES,
            LineKind::Symbol => self.parts.symbols.len() < MOST_SYMBOLS,
            LineKind::Tape => self.parts.has_cells(words.len() - 1),
            _ => true,
        }
    }

    fn take_fields(&mut self, kind: LineKind, words: &LineWords) -> Result<bool, LineStop> {
        take_item(self.alloc, &mut self.parts, kind, words)?;
        self.last = Some(kind);
        Ok(kind.is_last())
    }

    fn is_complete(&self) -> bool {
        false
    }
}
