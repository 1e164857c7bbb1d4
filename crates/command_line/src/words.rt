// From a list of words to a command.
ghost use Rattle.std.specs.Prelude.{◌≡◌, ◌≢◌, ◌↔◌, Ok, Err, Some, map, string_bytes, IfOk};
ghost use Rattle.command_line.specs.Commands.{IsCallOf, IsNoCommand, IsTakenUnlessMemory, IsUsage, arguments_of, numbers_of};
ghost use Rattle.command_line.specs.Numbers.{AreInRange};
ghost use Rattle.command_line.specs.Inner.Names.{first_name};

use crate::commands::{Command, CommandName, command_found, command_named_by};
use crate::parse::matches_of;
use crate::words_stop::WordsStop;
use std::alloc::Global;

/// The command that the words call for, as clap reads them. Nothing is printed.
///
/// `words` do not hold the program's name: the word of the command stands in its place.
pub fn command_of(alloc: Global, words: &[String]) -> Result<Command, WordsStop>
    ensures called { IfOk result (IsCallOf (map string_bytes words.now)) }
    ensures range { IfOk result (λ command.
        AreInRange (arguments_of command) (numbers_of command)) }
    ensures no_command { (result ≡ Err WordsStop.NoCommand)
        ↔ IsNoCommand (map string_bytes words.now) }
    ensures usage { result ≡ Err WordsStop.Usage → IsUsage (map string_bytes words.now) }

    // Words that clap promises to take are taken, or memory is wanting.
    ensures taken { IsTakenUnlessMemory (map string_bytes words.now) result }
{
    let Some(name) = named_command(words) else {
        return Err(WordsStop::NoCommand);
    };
    read_words(alloc, name, words)
}

// The command that the first word names.
fn named_command(words: &[String]) -> Option<CommandName>
    ensures { result ≡ first_name (map string_bytes words.now) }
{
    match words.first() {
        Some(word) => command_named_by(word.as_str()),
        None => None,
    }
}

// Reads the words of the command that the first of them names.
fn read_words(alloc: Global, name: CommandName, words: &[String]) -> Result<Command, WordsStop>
    requires { first_name (map string_bytes words.now) ≡ Some name }
    ensures called { IfOk result (IsCallOf (map string_bytes words.now)) }
    ensures range { IfOk result (λ command.
        AreInRange (arguments_of command) (numbers_of command)) }
    ensures named { result ≢ Err WordsStop.NoCommand }
    ensures usage { result ≡ Err WordsStop.Usage → IsUsage (map string_bytes words.now) }
    ensures taken { IsTakenUnlessMemory (map string_bytes words.now) result }
{
    let found = matches_of(alloc, name, words)?;
    Ok(command_found(name, &found))
}
