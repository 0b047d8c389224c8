//! Splits the arguments into a command, its options and its plain arguments.
ghost use Rattle.std.specs.Prelude.{◌≡◌, false, ◌≤◌, ℕ, List, Some, IfOk, IfSome, MatchOption, length};
ghost use Rattle.clap.specs.Words.{subcommand_rows_of};
ghost use Rattle.program_words.specs.Words.{Split};
ghost use Rattle.program_words.specs.Scanning.{takes_at, has_lone, HasValues, Texts};
ghost use Rattle.program_words.specs.Made.{Names};
ghost use Rattle.program_words.specs.Splitting.{split_of, command_split, IsMet, IsUnread, KeepsBelow, IsLone, TextsBehind};

use crate::commands::commands;
use crate::memory::Memory;
use crate::told::{Told, told_of};
use clap::ArgMatches;
use clap::error::ErrorKind;
use spool_spec::json_tree::Text;
use std::alloc::Global;

/// The command, and the arguments after it. None if the first argument is no command, if an option has no value or two, if the
/// command doesn't take it, or if more than four arguments are plain. Values that begin with `-` are refused too: no option of
/// a request has such a value.
pub(crate) fn split_words<'a>(
    alloc: Global,
    words: &'a [Text],
) -> Result<Option<(&'a str, Told<'a>)>, Memory>
    ensures some { IfOk result (λ r. IfSome r (λ p. Names words.entry.now p.0.now (split_of p.1))) }
    ensures every { IfOk result (λ r. (command : List ℕ) (split : Split) → Names words.entry.now command split → HasValues (takes_at command) split
        → length split.plain ≤ 4 → command_split r ≡ Some (command, split)) }
{
    if lone_behind(words) {
        return Ok(None);
    }
    match parsed(alloc, words)? {
        Some(matches) => Ok(command_of(&matches)),
        None => Ok(None),
    }
}

// What clap finds in the arguments.
fn parsed<'a>(alloc: Global, words: &'a [Text]) -> Result<Option<ArgMatches<'a>>, Memory>
    ensures { IfOk result (λ r. MatchOption r (IsUnread words.entry.now) (λ m. IsMet words.entry.now (subcommand_rows_of m))) }
{
    let command = commands(alloc)?;
    match command.try_get_matches_from(words) {
        Ok(matches) => Ok(Some(matches)),
        Err(error) => match error.kind() {
            ErrorKind::OutOfMemory => Err(Memory),
            _ => Ok(None),
        },
    }
}

fn command_of<'a>(matches: &ArgMatches<'a>) -> Option<(&'a str, Told<'a>)>
    ensures { KeepsBelow (subcommand_rows_of matches.now) result }
{
    let (name, inner) = matches.subcommand()?;
    let told = told_of(inner)?;
    Some((name, told))
}

// Whether a `-` stands alone after the command and before `--`. To clap it is a plain argument.
fn lone_behind(words: &[Text]) -> bool
    ensures value { IsLone words.now result }
    ensures texts { result ≡ false → TextsBehind words.now }
{
    match words {
        [_, arguments @ ..] => has_lone(arguments),
        [] => false,
    }
}

fn has_lone(words: &[Text]) -> bool
    ensures value { result ≡ has_lone words.now }
    ensures texts { result ≡ false → Texts words.now }
{
    for word in words {
        if word.as_str() == "--" {
            return false;
        }
        if word.as_str() == "-" {
            return true;
        }
    }
    false
}
