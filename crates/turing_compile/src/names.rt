// The names of kinds and labels.
ghost use Rattle.std.specs.Prelude.{◌≡◌, ◌≤◌, ◌<◌, ◌+◌, [], ◌∷◌, ◌++◌, decimal, length};
ghost use Rattle.std.specs.List.{slice_index_or};
ghost use Rattle.turing_compile.specs.Compiled.{pair_name};
ghost use Rattle.turing_compile.specs.Inner.Rows.{kind_name, label_name};
ghost use Rattle.turing_compile.specs.Inner.Members.{IsKind, IsLabel};
ghost use Rattle.machine_text.specs.Machines.{IsMachine};
ghost use Rattle.tile_table.specs.declared.short_text.TheConstants.{SHORT_ROOM};

use crate::kind::{Kind, Label};
use machine_text::Machine;
use tile_table::ShortText;

/// Adds the name of a kind to a text.
pub fn add_kind_name(text: &mut ShortText, machine: &Machine, kind: Kind)
    requires valid { IsMachine machine.now }
    requires kind { IsKind machine.now kind }
    requires room { length text.old + length (kind_name machine.now kind) ≤ SHORT_ROOM }
    ensures { text.new ≡ text.old ++ kind_name machine.now kind }
{
    match kind {
        Kind::First { cell } => add_numbered(text, b't', cell),
        Kind::Action { state, symbol } => add_paired(text, machine, b'a', state, symbol),
        Kind::FromLeft { state, symbol } => add_paired(text, machine, b'R', state, symbol),
        Kind::FromRight { state, symbol } => add_paired(text, machine, b'L', state, symbol),
        Kind::RightOf { symbol } => add_prefixed(text, b'r', symbol_name(machine, symbol)),
        Kind::LeftOf { symbol } => add_prefixed(text, b'l', symbol_name(machine, symbol)),
    }
}

/// Adds the name of a label to a text.
pub fn add_label_name(text: &mut ShortText, machine: &Machine, label: Label)
    requires valid { IsMachine machine.now }
    requires label { IsLabel machine.now label }
    requires room { length text.old + length (label_name machine.now label) ≤ SHORT_ROOM }
    ensures { text.new ≡ text.old ++ label_name machine.now label }
{
    match label {
        Label::Symbol { symbol } => add_prefixed(text, b's', symbol_name(machine, symbol)),
        Label::Acting { state, symbol } => add_paired(text, machine, b'h', state, symbol),
        Label::Rightward => text.add(b"r"),
        Label::Leftward => text.add(b"l"),
        Label::HeadRightward { state } => add_prefixed(text, b'R', state_name(machine, state)),
        Label::HeadLeftward { state } => add_prefixed(text, b'L', state_name(machine, state)),
        Label::Joint { cell } => add_numbered(text, b'c', cell),
    }
}

// Adds the letter, a colon and the name.
fn add_prefixed(text: &mut ShortText, letter: u8, name: &[u8])
    requires { length text.old + (2 + length name.now) ≤ SHORT_ROOM }
    ensures { text.new ≡ text.old ++ (letter ∷ 58 ∷ name.now) }
{
    text.add(&[letter, b':']);
    text.add(name);
}

fn add_numbered(text: &mut ShortText, letter: u8, number: u32)
    requires { length text.old + (2 + length (decimal number)) ≤ SHORT_ROOM }
    ensures { text.new ≡ text.old ++ (letter ∷ 58 ∷ decimal number) }
{
    text.add(&[letter, b':']);
    text.add_number(number);
}

fn add_paired(text: &mut ShortText, machine: &Machine, letter: u8, state: u32, symbol: u32)
    requires state { state < length machine.now.states }
    requires symbol { symbol < length machine.now.symbols }
    requires room { length text.old
        + (3 + length (slice_index_or machine.now.states state [])
        + length (slice_index_or machine.now.symbols symbol [])) ≤ SHORT_ROOM }
    ensures { text.new ≡ text.old ++ (letter ∷ 58 ∷ pair_name machine.now state symbol) }
{
    add_prefixed(text, letter, state_name(machine, state));
    text.add(b":");
    text.add(symbol_name(machine, symbol));
}

#[tactic(auto, using(std::proofs::lemmas::Option::get_or_from_slice_get))]
fn state_name(machine: &Machine, state: u32) -> &[u8]
    requires { state < length machine.now.states }
    ensures { result.now ≡ slice_index_or machine.now.states state [] }
{
    machine.state_name(state)
}

#[tactic(auto, using(std::proofs::lemmas::Option::get_or_from_slice_get))]
fn symbol_name(machine: &Machine, symbol: u32) -> &[u8]
    requires { symbol < length machine.now.symbols }
    ensures { result.now ≡ slice_index_or machine.now.symbols symbol [] }
{
    machine.symbol_name(symbol)
}
