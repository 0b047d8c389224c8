//! The commands and their options, as they are declared to `clap`.
ghost use Rattle.std.specs.Prelude.{◌≡◌, false, Some, codes, IfOk};
ghost use Rattle.clap.specs.Words.{app_of, shape_of, rule_of, new_rule, with_subcommand};
ghost use Rattle.clap.specs.declared.builder.command.Command.TheViews.{out-Command};
ghost use Rattle.program_words.specs.Made.{plain_made, command_with, command_made, all};

use clap::{Arg, ArgAction, Command};
use std::alloc::{AllocError, Global};

/// The commands, each with the options that it takes. There is no help and no version, so `--help` is an unknown option.
pub(crate) fn commands<'a>(alloc: Global) -> Result<Command<'a>, AllocError>
    ensures { IfOk result (λ c. app_of c ≡ all) }
{
    let top = Command::new(alloc, "jadlungin")
        .no_binary_name(true)
        .disable_help_flag(true)
        .disable_help_subcommand(true)
        .subcommand_required(true);
    let show = with_plain(alloc, top, "show")?;
    let init = with_plain(alloc, show, "init")?;
    let run = with_run(alloc, init)?;
    let serve = with_serve(alloc, run)?;
    let sweep = with_plain(alloc, serve, "sweep")?;
    let compact = with_plain(alloc, sweep, "compact")?;
    let discards = with_plain(alloc, compact, "discards")?;
    let payload = with_plain(alloc, discards, "payload")?;
    let query = with_plain(alloc, payload, "query")?;
    with_plain(alloc, query, "make")
}

// Adds a command that takes no options.
fn with_plain<'a>(
    alloc: Global,
    commands: Command<'a>,
    name: &'a str,
) -> Result<Command<'a>, AllocError>
    ensures { IfOk result (λ c. app_of c ≡ with_subcommand (app_of commands.entry) (command_with (λ _. false) name.entry.now)) }
{
    let command = plain_command(alloc, name)?;
    commands.subcommand(command)
}

fn with_run<'a>(alloc: Global, commands: Command<'a>) -> Result<Command<'a>, AllocError>
    ensures { IfOk result (λ c. app_of c ≡ with_subcommand (app_of commands.entry) (command_made (codes "run"))) }
{
    let command = run_command(alloc)?;
    commands.subcommand(command)
}

fn with_serve<'a>(alloc: Global, commands: Command<'a>) -> Result<Command<'a>, AllocError>
    ensures { IfOk result (λ c. app_of c ≡ with_subcommand (app_of commands.entry) (command_made (codes "serve"))) }
{
    let command = serve_command(alloc)?;
    commands.subcommand(command)
}

fn plain_command<'a>(alloc: Global, name: &'a str) -> Result<Command<'a>, AllocError>
    ensures shape { IfOk result (λ c. shape_of c ≡ command_with (λ _. false) name.entry.now) }
    ensures local { IfOk result (λ c. (out-Command c).has_globals ≡ false) }
{
    Command::new(alloc, name).arg(plain(alloc))
}

fn run_command<'a>(alloc: Global) -> Result<Command<'a>, AllocError>
    ensures shape { IfOk result (λ c. shape_of c ≡ command_made (codes "run")) }
    ensures local { IfOk result (λ c. (out-Command c).has_globals ≡ false) }
{
    Command::new(alloc, "run")
        .arg(option(alloc, "serve"))?
        .arg(option(alloc, "links"))?
        .arg(plain(alloc))
}

fn serve_command<'a>(alloc: Global) -> Result<Command<'a>, AllocError>
    ensures shape { IfOk result (λ c. shape_of c ≡ command_made (codes "serve")) }
    ensures local { IfOk result (λ c. (out-Command c).has_globals ≡ false) }
{
    Command::new(alloc, "serve")
        .arg(option(alloc, "links"))?
        .arg(plain(alloc))
}

// An option with one value. A second use is an error of clap.
fn option<'a>(alloc: Global, name: &'a str) -> Arg<'a>
    ensures rule { rule_of result ≡ record (new_rule name.entry.now) { long = Some name.entry.now } }
    ensures global { result.global ≡ false }
{
    Arg::new(alloc, name).long(name)
}

// The plain arguments, each of which is a use of one positional.
fn plain<'a>(alloc: Global) -> Arg<'a>
    ensures rule { rule_of result ≡ plain_made }
    ensures global { result.global ≡ false }
{
    Arg::new(alloc, "plain").action(ArgAction::Append)
}
