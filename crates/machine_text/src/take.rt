// What the fields of a line make of a machine in the making.
ghost use Rattle.std.specs.Prelude.{◌≡◌, ◌≤◌, ◌<◌, List, true, None, length, IfOk};
ghost use Rattle.machine_text.specs.Machines.{TuringMachine, rule_among};
ghost use Rattle.machine_text.specs.MachineText.{MachineItem, transition_in, turn_field, machine_of};
ghost use Rattle.machine_text.specs.Inner.Kinds.{row_of, word_of_kind, machine_row, state_row, symbol_row, rule_row, cells_row, rows_row, head_row, tape_row};
ghost use Rattle.machine_text.specs.Inner.SoFar.{machine_in, HasFewNames};
ghost use Rattle.machine_text.specs.NameChecks.{Gets};

use crate::kind::LineKind;
use crate::limits::{MOST_CELLS, MOST_ROWS};
use crate::parts::MachineParts;
use crate::rule::{Rule, Transition, Turn};
use crate::short_name::{check_new, find_name, find_names};
use std::alloc::Global;
use tile_io::{Cause, LineStop, LineWords, is_word, read_count};

/// Takes the fields of a line of this keyword.
pub(crate) fn take_item(
    alloc: Global,
    parts: &mut MachineParts,
    kind: LineKind,
    words: &LineWords,
) -> Result<(), LineStop>
    requires words { (row_of kind).has_words (length words.now) ≡ true }
    requires few { HasFewNames (machine_in parts.old) }
    ensures { (earlier : List MachineItem) → machine_in parts.old ≡ machine_of earlier →
        Gets (word_of_kind kind) ((row_of kind).fields earlier words.now) (machine_in parts.old)
        (machine_in parts.new) result }
{
    match kind {
        LineKind::Machine => check_version(words),
        LineKind::State => take_state(alloc, parts, words),
        LineKind::Symbol => take_symbol(alloc, parts, words),
        LineKind::Rule => take_rule(parts, words),
        LineKind::Cells => take_cells(parts, words),
        LineKind::Rows => take_rows(parts, words),
        LineKind::Head => take_head(parts, words),
        LineKind::Tape => take_tape(alloc, parts, words),
        LineKind::End => Ok(()),
    }
}

// Whether the header is of version 1.
fn check_version(words: &LineWords) -> Result<(), LineStop>
    requires { length words.now ≡ 2 }
    ensures { (M : TuringMachine) → Gets machine_row.word (machine_row.fields M words.now) M M result }
{
    if !is_word(words.word(1), b"1") {
        return Err(LineStop::Fault(Cause::NoHeader));
    }
    Ok(())
}

// Takes the fields of a `state` line.
fn take_state(alloc: Global, parts: &mut MachineParts, words: &LineWords) -> Result<(), LineStop>
    requires words { length words.now ≡ 2 }
    requires few { HasFewNames (machine_in parts.old) }
    ensures { Gets state_row.word (state_row.fields (machine_in parts.old) words.now)
        (machine_in parts.old) (machine_in parts.new) result }
{
    let name = words.word(1);
    check_new(&parts.states, name)?;
    match parts.states.push(alloc, name) {
        Ok(()) => Ok(()),
        Err(_) => Err(LineStop::NoMemory),
    }
}

// Takes the fields of a `symbol` line.
fn take_symbol(alloc: Global, parts: &mut MachineParts, words: &LineWords) -> Result<(), LineStop>
    requires words { length words.now ≡ 2 }
    requires few { HasFewNames (machine_in parts.old) }
    ensures { Gets symbol_row.word (symbol_row.fields (machine_in parts.old) words.now)
        (machine_in parts.old) (machine_in parts.new) result }
{
    let name = words.word(1);
    check_new(&parts.symbols, name)?;
    match parts.symbols.push(alloc, name) {
        Ok(()) => Ok(()),
        Err(_) => Err(LineStop::NoMemory),
    }
}

// Takes the fields of a `rule` line.
fn take_rule(parts: &mut MachineParts, words: &LineWords) -> Result<(), LineStop>
    requires words { length words.now ≡ 6 }
    requires few { HasFewNames (machine_in parts.old) }
    ensures { Gets rule_row.word (rule_row.fields (machine_in parts.old) words.now)
        (machine_in parts.old) (machine_in parts.new) result }
{
    let transition = read_rule(parts, words)?;
    match parts.rules.push(transition) {
        Ok(()) => Ok(()),
        Err(_) => Err(LineStop::NoMemory),
    }
}

// The rule of a `rule` line.
#[tactic(auto, unfolding(crate::specs::MachineText::transition_in))]
fn read_rule(parts: &MachineParts, words: &LineWords) -> Result<Transition, Cause>
    requires words { length words.now ≡ 6 }
    requires few { HasFewNames (machine_in parts.now) }
    ensures rule { result ≡ transition_in (machine_in parts.now) words.now }
    ensures fresh { IfOk result (λ t. rule_among parts.now.rules t.state t.symbol ≡ None) }
    ensures state { IfOk result (λ t. t.state < length parts.now.states) }
    ensures symbol { IfOk result (λ t. t.symbol < length parts.now.symbols) }
{
    let state = find_name(&parts.states, words.word(1))?;
    let symbol = find_name(&parts.symbols, words.word(2))?;
    if parts.rules.find(state, symbol).is_some() {
        return Err(Cause::DoubleName);
    }
    let next_state = find_name(&parts.states, words.word(3))?;
    let next_symbol = find_name(&parts.symbols, words.word(4))?;
    let turn = read_turn(words.word(5))?;
    Ok(Transition {
        state,
        symbol,
        rule: Rule {
            state: next_state,
            symbol: next_symbol,
            turn,
        },
    })
}

// Takes the fields of a `cells` line.
fn take_cells(parts: &mut MachineParts, words: &LineWords) -> Result<(), LineStop>
    requires { length words.now ≡ 2 }
    ensures { Gets cells_row.word (cells_row.fields (machine_in parts.old) words.now) (machine_in parts.old)
        (machine_in parts.new) result }
{
    parts.cells = read_count(words.word(1), 1, MOST_CELLS)?;
    Ok(())
}

// Takes the fields of a `rows` line.
fn take_rows(parts: &mut MachineParts, words: &LineWords) -> Result<(), LineStop>
    requires { length words.now ≡ 2 }
    ensures { Gets rows_row.word (rows_row.fields (machine_in parts.old) words.now) (machine_in parts.old)
        (machine_in parts.new) result }
{
    parts.rows = read_count(words.word(1), 1, MOST_ROWS)?;
    Ok(())
}

// Takes the fields of a `head` line.
fn take_head(parts: &mut MachineParts, words: &LineWords) -> Result<(), LineStop>
    requires { length words.now ≡ 2 }
    ensures { Gets head_row.word (head_row.fields (machine_in parts.old) words.now)
        (machine_in parts.old) (machine_in parts.new) result }
{
    let last = parts.cells.saturating_sub(1);
    parts.head = read_count(words.word(1), 0, last)?;
    Ok(())
}

// Takes the fields of a `tape` line.
fn take_tape(alloc: Global, parts: &mut MachineParts, words: &LineWords) -> Result<(), LineStop>
    requires { 2 ≤ length words.now }
    ensures { Gets tape_row.word (tape_row.fields (machine_in parts.old) words.now)
        (machine_in parts.old) (machine_in parts.new) result }
{
    let symbols = find_names(alloc, &parts.symbols, words)?;
    match parts.tape.extend_from_slice(symbols.as_slice()) {
        Ok(()) => Ok(()),
        Err(_) => Err(LineStop::NoMemory),
    }
}

// The turn that a word is.
fn read_turn(word: &[u8]) -> Result<Turn, Cause>
    ensures { result ≡ turn_field word.now }
{
    match word {
        b"L" => Ok(Turn::Left),
        b"R" => Ok(Turn::Right),
        b"S" => Ok(Turn::Stay),
        _ => Err(Cause::BadName),
    }
}
