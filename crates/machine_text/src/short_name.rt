// Short names, as states and symbols have them: which may be declared, and which number one refers
// to.
ghost use Rattle.std.specs.Prelude.{◌≡◌, ◌≤◌, ◌<◌, length, IfOk, drop};
ghost use Rattle.std.specs.List.{list_all};
ghost use Rattle.std.specs.Iterator.{YieldsFirstRef};
ghost use Rattle.tile_io.specs.Checks.{Declares, declared, referred};
ghost use Rattle.tile_io.specs.Lines.{words_of};
ghost use Rattle.machine_text.specs.Machines.{is_short_name, is_short_name_byte};
ghost use Rattle.machine_text.specs.MachineText.{references};
ghost use Rattle.machine_text.specs.NameChecks.{Refers};

use crate::limits::LONGEST_SHORT_NAME;
use crate::name_list::NameList;
use std::alloc::Global;
use tile_io::{Cause, LineStop, LineWords, WordIter, words};

/// The numbers that the words of a line behind the first refer to, each in time that grows with the
/// number of names. It goes over the line once.
pub fn find_names(alloc: Global, names: &NameList, words: &LineWords) -> Result<Vec<u32>, LineStop>
    requires { 2 ≤ length words.now }
    ensures { Refers (references names.now (drop 1 words.now)) result }
{
    find_names_of_line(alloc, names, words.line())
}

/// The same by the line.
pub fn find_names_of_line(
    alloc: Global,
    names: &NameList,
    line: &[u8],
) -> Result<Vec<u32>, LineStop>
    ensures { Refers (references names.now (drop 1 (words_of line.now))) result }
{
    let mut rest = words(line);
    let _first = next_word(&mut rest);
    let mut numbers = Vec::new(alloc);
    while let Some(word) = next_word(&mut rest) {
        let number = find_name(names, word)?;
        match numbers.push(number) {
            Ok(()) => {}
            Err(_) => return Err(LineStop::NoMemory),
        }
    }
    Ok(numbers)
}

// The next of the words that are left.
fn next_word<'a>(rest: &mut WordIter<'a>) -> Option<&'a [u8]>
    ensures { YieldsFirstRef words_of rest.old result rest.new }
{
    rest.next()
}

/// The number that a name refers to, in time that grows with the number of names.
pub fn find_name(names: &NameList, name: &[u8]) -> Result<u32, Cause>
    ensures number { result ≡ referred is_short_name names.now name.now }
    ensures known { IfOk result (λ number. number < length names.now) }
{
    if !is_short_name(name) {
        return Err(Cause::BadName);
    }
    names.find(name).ok_or(Cause::UnknownName)
}

/// Whether a name may be declared, in time that grows with the number of names.
pub fn check_new(names: &NameList, name: &[u8]) -> Result<(), Cause>
    ensures { Declares (declared is_short_name names.now name.now) name.now result }
{
    if !is_short_name(name) {
        return Err(Cause::BadName);
    }
    if names.find(name).is_some() {
        return Err(Cause::DoubleName);
    }
    Ok(())
}

// Whether these bytes are a short name: some letters, digits and `_`, and no more than it may have.
#[tactic(auto, unfolding(crate::specs::Machines::is_short_name))]
fn is_short_name(name: &[u8]) -> bool
    ensures { result ≡ is_short_name name.now }
{
    !name.is_empty() && name.len() <= LONGEST_SHORT_NAME && are_short_name_bytes(name)
}

fn are_short_name_bytes(bytes: &[u8]) -> bool
    ensures { result ≡ list_all is_short_name_byte bytes.now }
{
    bytes.iter().all(|byte| is_short_name_byte(*byte))
}

fn is_short_name_byte(byte: u8) -> bool
    ensures { result ≡ is_short_name_byte byte }
{
    byte.is_ascii_alphanumeric() || byte == b'_'
}
