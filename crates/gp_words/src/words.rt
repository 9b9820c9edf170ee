//! The command that the words are.

ghost use Rattle.std.specs.Prelude.{◌≡◌, map, string_bytes, IfOk, IfSome, option_map, option_and_then};
ghost use Rattle.clap.specs.Words.{subcommand_rows_of};
ghost use Rattle.gp_words.specs.CommandLine as spec;
ghost use Rattle.gp_words.specs.Told.{command_now, HasSize};

use crate::apps::top_command;
use crate::command::Command;
use crate::found::command_at;
use clap::ArgMatches;
use clap::error::ErrorKind;
use gp_memory::NoMemory;
use std::alloc::Global;

// That of the subcommand that clap found.
fn command_below<'a>(matches: &ArgMatches<'a>) -> Option<Command<'a>>
    ensures command { option_map command_now result ≡ option_and_then spec.command_at (subcommand_rows_of matches.now) }
    ensures size { IfSome result HasSize }
{
    match matches.subcommand() {
        Some((name, found)) => command_at(name, found),
        None => None,
    }
}

/// The command that the words are, or none: the words behind the program's name. The size of a demo is one of its kind.
pub fn command_of<'a>(alloc: Global, words: &'a [String]) -> Result<Option<Command<'a>>, NoMemory>
    ensures command { IfOk result (λ o. option_map command_now o ≡ spec.command_of (map string_bytes words.entry.now)) }
    ensures size { IfOk result (λ o. IfSome o HasSize) }
{
    let command = top_command(alloc)?;
    match command.try_get_matches_from(words) {
        Ok(matches) => Ok(command_below(&matches)),
        Err(error) => match error.kind() {
            ErrorKind::OutOfMemory => Err(NoMemory),
            _ => Ok(None),
        },
    }
}
