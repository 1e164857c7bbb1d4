// What clap makes of the words of a command.
ghost use Rattle.std.specs.Prelude.{◌≡◌, ◌≢◌, true, false, [], Ok, Err, map, string_bytes, IfOk};
ghost use Rattle.clap.specs.Words.{IsParsedFrom, HasMatchesOf, app_of, fault_of, found_of, is_simple_and_free, takes};
ghost use Rattle.command_line.specs.Inner.Found.{FindsNumbers, IsExact};
ghost use Rattle.command_line.specs.Inner.Names.{name_app, name_arguments};

use crate::commands::{CommandName, clap_command};
use crate::words_stop::WordsStop;
use clap::ArgMatches;
use std::alloc::Global;

// What clap finds in the words of a command. `Usage` comes only where it refuses them.
pub fn matches_of<'a>(
    alloc: Global,
    name: CommandName,
    words: &'a [String],
) -> Result<ArgMatches<'a>, WordsStop>
    ensures accepted { IfOk result (λ found.
        fault_of (name_app name) (map string_bytes words.entry.now) ≡ []) }
    ensures exact { IfOk result (λ found.
        IsExact (name_app name) (map string_bytes words.entry.now) (found_of found)) }
    ensures numbers { IfOk result (λ found. FindsNumbers (name_arguments name) (found_of found)) }
    ensures refused { result ≡ Err WordsStop.Usage
        → fault_of (name_app name) (map string_bytes words.entry.now) ≢ [] }
    ensures untaken { result ≡ Err WordsStop.Usage
        → takes (name_app name) (map string_bytes words.entry.now) ≡ false }
    ensures named { result ≢ Err WordsStop.NoCommand }
{
    parsed(clap_command(alloc, name)?, words)
}

// What a clap command finds in the words.
fn parsed<'a>(command: clap::Command<'a>, words: &'a [String]) -> Result<ArgMatches<'a>, WordsStop>
    requires { is_simple_and_free (app_of command) ≡ true }
    ensures parsed { IfOk result (λ found. IsParsedFrom command.entry found) }
    ensures exact { IfOk result (λ found.
        HasMatchesOf (app_of command.entry) (map string_bytes words.entry.now) found) }
    ensures accepted { IfOk result (λ found.
        fault_of (app_of command.entry) (map string_bytes words.entry.now) ≡ []) }
    ensures refused { result ≡ Err WordsStop.Usage
        → fault_of (app_of command.entry) (map string_bytes words.entry.now) ≢ [] }
    ensures untaken { result ≡ Err WordsStop.Usage
        → takes (app_of command.entry) (map string_bytes words.entry.now) ≡ false }
    ensures named { result ≢ Err WordsStop.NoCommand }
{
    match command.try_get_matches_from(words) {
        Ok(found) => Ok(found),
        Err(error) => Err(WordsStop::of_kind(error.kind())),
    }
}
