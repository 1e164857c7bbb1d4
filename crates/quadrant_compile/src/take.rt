// What the fields of a line make of a quadrant in the making.
ghost use Rattle.std.specs.Prelude.{◌≡◌, ◌≤◌, ◌<◌, ℕ, List, true, None, Ok, drop, length, IfOk};
ghost use Rattle.quadrant_compile.specs.declared.limits.TheConstants.{MOST_SYMBOLS};
ghost use Rattle.quadrant_compile.specs.Quadrants.{RuleQuadrant, answer_among};
ghost use Rattle.quadrant_compile.specs.QuadrantText.{QuadrantItem, rule_in, quadrant_of};
ghost use Rattle.quadrant_compile.specs.Inner.Keywords.{row_of, word_of_kind, quadrant_row, symbol_row, rule_row, size_row, bottom_row, left_row};
ghost use Rattle.quadrant_compile.specs.Inner.Borders.{border_kind};
ghost use Rattle.quadrant_compile.specs.Inner.SoFar.{quadrant_in};
ghost use Rattle.machine_text.specs.NameChecks.{Gets};
ghost use Rattle.tile_io.specs.Lines.{words_of};
ghost use Rattle.machine_text.specs.MachineText.{references};

use crate::border::Border;
use crate::limits::LONGEST_SIDE;
use crate::line_kind::LineKind;
use crate::parts::QuadrantParts;
use crate::rule::{Answer, Rule};
use machine_text::{check_new, find_name, find_names, find_names_of_line};
use std::alloc::Global;
use tile_io::{Cause, LineStop, LineWords, is_word, read_count};

/// Takes the fields of a line of this keyword.
pub(crate) fn take_item(
    alloc: Global,
    parts: &mut QuadrantParts,
    kind: LineKind,
    words: &LineWords,
) -> Result<(), LineStop>
    requires words { (row_of kind).has_words (length words.now) ≡ true }
    requires few { length parts.old.symbols ≤ MOST_SYMBOLS }
    ensures { (earlier : List QuadrantItem) → quadrant_in parts.old ≡ quadrant_of earlier →
        Gets (word_of_kind kind) ((row_of kind).fields earlier words.now) (quadrant_in parts.old)
        (quadrant_in parts.new) result }
{
    match kind {
        LineKind::Quadrant => check_version(words),
        LineKind::Symbol => take_symbol(alloc, parts, words),
        LineKind::Rule => take_rule(parts, words),
        LineKind::Size => take_size(parts, words),
        LineKind::Bottom => take_bottom(alloc, parts, words),
        LineKind::Left => take_left(alloc, parts, words),
        LineKind::End => Ok(()),
    }
}

/// Takes the fields of a line of this border. It goes over the line once.
pub(crate) fn take_border(
    alloc: Global,
    parts: &mut QuadrantParts,
    border: Border,
    line: &[u8],
) -> Result<(), LineStop>
    ensures { (earlier : List QuadrantItem) → quadrant_in parts.old ≡ quadrant_of earlier →
        Gets (word_of_kind (border_kind border))
        ((row_of (border_kind border)).fields earlier (words_of line.now))
        (quadrant_in parts.old) (quadrant_in parts.new) result }
{
    match border {
        Border::Bottom => take_bottom_line(alloc, parts, line),
        Border::Left => take_left_line(alloc, parts, line),
    }
}

// Whether the header is of version 1.
fn check_version(words: &LineWords) -> Result<(), LineStop>
    requires { length words.now ≡ 2 }
    ensures { (q : RuleQuadrant) →
        Gets quadrant_row.word (quadrant_row.fields q words.now) q q result }
{
    if !is_word(words.word(1), b"1") {
        return Err(LineStop::Fault(Cause::NoHeader));
    }
    Ok(())
}

// Takes the fields of a `symbol` line.
fn take_symbol(alloc: Global, parts: &mut QuadrantParts, words: &LineWords) -> Result<(), LineStop>
    requires words { length words.now ≡ 2 }
    requires few { length parts.old.symbols ≤ MOST_SYMBOLS }
    ensures { Gets symbol_row.word (symbol_row.fields (quadrant_in parts.old) words.now)
        (quadrant_in parts.old) (quadrant_in parts.new) result }
{
    let name = words.word(1);
    check_new(&parts.symbols, name)?;
    match parts.symbols.push(alloc, name) {
        Ok(()) => Ok(()),
        Err(_) => Err(LineStop::NoMemory),
    }
}

// Takes the fields of a `rule` line.
fn take_rule(parts: &mut QuadrantParts, words: &LineWords) -> Result<(), LineStop>
    requires words { length words.now ≡ 5 }
    requires few { length parts.old.symbols ≤ MOST_SYMBOLS }
    ensures { Gets rule_row.word (rule_row.fields (quadrant_in parts.old) words.now)
        (quadrant_in parts.old) (quadrant_in parts.new) result }
{
    let rule = read_rule(parts, words)?;
    match parts.rules.push(rule) {
        Ok(()) => Ok(()),
        Err(_) => Err(LineStop::NoMemory),
    }
}

// The rule of a `rule` line.
#[tactic(auto, unfolding(crate::specs::QuadrantText::rule_in))]
fn read_rule(parts: &QuadrantParts, words: &LineWords) -> Result<Rule, Cause>
    requires words { length words.now ≡ 5 }
    requires few { length parts.now.symbols ≤ MOST_SYMBOLS }
    ensures rule { result ≡ rule_in (quadrant_in parts.now) words.now }
    ensures fresh { IfOk result (λ r. answer_among parts.now.rules r.west r.south ≡ None) }
    ensures west { IfOk result (λ r. r.west < length parts.now.symbols) }
    ensures south { IfOk result (λ r. r.south < length parts.now.symbols) }
{
    let west = find_name(&parts.symbols, words.word(1))?;
    let south = find_name(&parts.symbols, words.word(2))?;
    if parts.rules.find(west, south).is_some() {
        return Err(Cause::DoubleName);
    }
    let east = find_name(&parts.symbols, words.word(3))?;
    let north = find_name(&parts.symbols, words.word(4))?;
    Ok(Rule {
        west,
        south,
        answer: Answer { east, north },
    })
}

// Takes the fields of a `size` line.
fn take_size(parts: &mut QuadrantParts, words: &LineWords) -> Result<(), LineStop>
    requires { length words.now ≡ 3 }
    ensures { Gets size_row.word (size_row.fields (quadrant_in parts.old) words.now) (quadrant_in parts.old)
        (quadrant_in parts.new) result }
{
    let width = read_count(words.word(1), 1, LONGEST_SIDE)?;
    let height = read_count(words.word(2), 1, LONGEST_SIDE)?;
    parts.width = width;
    parts.height = height;
    Ok(())
}

// Takes the fields of a `bottom` line.
fn take_bottom(alloc: Global, parts: &mut QuadrantParts, words: &LineWords) -> Result<(), LineStop>
    requires { 2 ≤ length words.now }
    ensures { Gets bottom_row.word (bottom_row.fields (quadrant_in parts.old) words.now)
        (quadrant_in parts.old) (quadrant_in parts.new) result }
{
    let symbols = find_names(alloc, &parts.symbols, words)?;
    keep_bottom(parts, symbols.as_slice())
}

// The same by the bytes of the line.
fn take_bottom_line(alloc: Global, parts: &mut QuadrantParts, line: &[u8]) -> Result<(), LineStop>
    ensures { Gets bottom_row.word (bottom_row.fields (quadrant_in parts.old) (words_of line.now))
        (quadrant_in parts.old) (quadrant_in parts.new) result }
{
    let symbols = find_names_of_line(alloc, &parts.symbols, line)?;
    keep_bottom(parts, symbols.as_slice())
}

// Puts the symbols of a `bottom` line behind those of the bottom.
fn keep_bottom(parts: &mut QuadrantParts, symbols: &[u32]) -> Result<(), LineStop>
    ensures { (words : List (List ℕ)) →
        references (quadrant_in parts.old).symbols (drop 1 words) ≡ Ok symbols.now →
        Gets bottom_row.word (bottom_row.fields (quadrant_in parts.old) words)
        (quadrant_in parts.old) (quadrant_in parts.new) result }
{
    match parts.bottom.extend_from_slice(symbols) {
        Ok(()) => Ok(()),
        Err(_) => Err(LineStop::NoMemory),
    }
}

// Takes the fields of a `left` line.
fn take_left(alloc: Global, parts: &mut QuadrantParts, words: &LineWords) -> Result<(), LineStop>
    requires { 2 ≤ length words.now }
    ensures { Gets left_row.word (left_row.fields (quadrant_in parts.old) words.now)
        (quadrant_in parts.old) (quadrant_in parts.new) result }
{
    let symbols = find_names(alloc, &parts.symbols, words)?;
    keep_left(parts, symbols.as_slice())
}

// The same by the bytes of the line.
fn take_left_line(alloc: Global, parts: &mut QuadrantParts, line: &[u8]) -> Result<(), LineStop>
    ensures { Gets left_row.word (left_row.fields (quadrant_in parts.old) (words_of line.now))
        (quadrant_in parts.old) (quadrant_in parts.new) result }
{
    let symbols = find_names_of_line(alloc, &parts.symbols, line)?;
    keep_left(parts, symbols.as_slice())
}

// Puts the symbols of a `left` line behind those of the left border.
fn keep_left(parts: &mut QuadrantParts, symbols: &[u32]) -> Result<(), LineStop>
    ensures { (words : List (List ℕ)) →
        references (quadrant_in parts.old).symbols (drop 1 words) ≡ Ok symbols.now →
        Gets left_row.word (left_row.fields (quadrant_in parts.old) words)
        (quadrant_in parts.old) (quadrant_in parts.new) result }
{
    match parts.left.extend_from_slice(symbols) {
        Ok(()) => Ok(()),
        Err(_) => Err(LineStop::NoMemory),
    }
}
