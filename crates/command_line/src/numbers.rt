// Arguments that take a number.
ghost use Rattle.std.specs.Prelude.{◌≡◌, ◌≤◌, ◌<◌, ◌^◌, ◌-◌, ℕ, false, option_map};
ghost use Rattle.clap.specs.Words.{found_of, rule_of};
ghost use Rattle.command_line.specs.Numbers.{number_rule};
ghost use Rattle.command_line.specs.Inner.Found.{FindsInRange, FindsNumber};

use clap::builder::ValueParser;
use clap::{Arg, ArgAction, ArgMatches};
use std::alloc::Global;

// An option `--id N` with a default, or without one a required word of its own.
pub fn number_argument<'a>(
    alloc: Global,
    id: &'a str,
    default: Option<&'a str>,
    least: u64,
    most: u64,
) -> Arg<'a>
    ensures rule { rule_of result ≡ number_rule (record {
      id = id.entry.now;
      default = option_map (λ digits. digits.now) default.entry;
      least = least;
      most = most;
    }) }
    ensures local { result.global ≡ false }
{
    let number = Arg::new(alloc, id)
        .action(ArgAction::Set)
        .value_parser(ValueParser::unsigned(least, most));
    match default {
        Some(digits) => number.long(id).default_value(digits),
        None => number.required(true),
    }
}

// The number that a parse found.
pub fn number_of(found: &ArgMatches, id: &str) -> u64
    requires { (least most : ℕ) × (most < 2 ^ 64)
        × FindsInRange (found_of found.now) id.now least most }
    ensures number { FindsNumber (found_of found.now) id.now result }
    ensures range { (least most : ℕ) → FindsInRange (found_of found.now) id.now least most
        → (least ≤ result) × (result ≤ most) }
{
    found.get_one::<u64>(id).unwrap()
}
