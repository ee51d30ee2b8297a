//! The commands as `clap` knows them, and the texts that it finds.
ghost use Rattle.std.specs.Prelude.{◌≡◌, IfOk, true, map};
ghost use Rattle.std.specs.String.{string_bytes};
ghost use Rattle.clap.specs.Words.{app_of, with_rule};
ghost use Rattle.clap.specs.Faults.{is_simple_and_free};
ghost use Rattle.lab_arguments.specs.Grammar.{check_form, gen_form, run_form};
ghost use Rattle.lab_arguments.specs.Inner.Commands.{GivesTexts, TakenBy, bare, check_app, gen_app, optional};
ghost use Rattle.lab_arguments.specs.Inner.Commands.{run_app, wanted};

use crate::request::{UsageCause, WordsFault};
use clap::error::ErrorKind;
use clap::{Arg, ArgMatches, Command};
use std::alloc::{AllocError, Global};

/// What `clap` finds in the words for this command.
fn matches_of<'a>(command: Command<'a>, words: &'a [String]) -> Result<ArgMatches<'a>, WordsFault>
    ensures { is_simple_and_free (app_of command.entry) ≡ true
        → TakenBy (app_of command.entry) (map string_bytes words.entry.now) result }
{
    match command.try_get_matches_from(words) {
        Ok(matches) => Ok(matches),
        Err(error) => match error.kind() {
            ErrorKind::OutOfMemory => Err(WordsFault::Memory),
            _ => Err(WordsFault::Usage(UsageCause::Words)),
        },
    }
}

/// A command without `--help`, whose words do not begin with a program's name.
fn bare_command<'a>(alloc: Global, name: &'a str) -> Command<'a>
    ensures { app_of result ≡ bare name.entry.now }
{
    Command::new(alloc, name)
        .no_binary_name(true)
        .disable_help_flag(true)
}

/// The command with an option `--NAME TEXT` more.
fn with_option<'a>(
    alloc: Global,
    command: Command<'a>,
    name: &'a str,
) -> Result<Command<'a>, AllocError>
    ensures { IfOk result (λ made. app_of made ≡ with_rule (app_of command.entry) (optional name.entry.now)) }
{
    command.arg(Arg::new(alloc, name).long(name))
}

/// The command with a plain word more, which has to be there.
fn with_word<'a>(
    alloc: Global,
    command: Command<'a>,
    name: &'a str,
) -> Result<Command<'a>, AllocError>
    ensures { IfOk result (λ made. app_of made ≡ with_rule (app_of command.entry) (wanted name.entry.now)) }
{
    command.arg(Arg::new(alloc, name).required(true))
}

fn run_command<'a>(alloc: Global) -> Result<Command<'a>, AllocError>
    ensures { IfOk result (λ command. app_of command ≡ run_app) }
{
    let command = with_option(alloc, bare_command(alloc, "run"), "workers")?;
    let command = with_option(alloc, command, "until")?;
    with_word(alloc, command, "SCRIPT")
}

fn check_command<'a>(alloc: Global) -> Result<Command<'a>, AllocError>
    ensures { IfOk result (λ command. app_of command ≡ check_app) }
{
    with_word(alloc, bare_command(alloc, "check"), "SCRIPT")
}

fn gen_command<'a>(alloc: Global) -> Result<Command<'a>, AllocError>
    ensures { IfOk result (λ command. app_of command ≡ gen_app) }
{
    let command = with_option(alloc, bare_command(alloc, "gen"), "workers")?;
    let command = with_word(alloc, command, "SEED")?;
    with_word(alloc, command, "BOARDS")
}

/// The texts of `SCRIPT`, `workers` and `until` in the words after `run`.
pub fn run_texts<'a>(alloc: Global, words: &'a [String]) -> Result<ArgMatches<'a>, WordsFault>
    ensures { GivesTexts run_form (map string_bytes words.entry.now) result }
{
    match run_command(alloc) {
        Ok(command) => matches_of(command, words),
        Err(_) => Err(WordsFault::Memory),
    }
}

/// The text of `SCRIPT` in the words after `check`.
pub fn check_texts<'a>(alloc: Global, words: &'a [String]) -> Result<ArgMatches<'a>, WordsFault>
    ensures { GivesTexts check_form (map string_bytes words.entry.now) result }
{
    match check_command(alloc) {
        Ok(command) => matches_of(command, words),
        Err(_) => Err(WordsFault::Memory),
    }
}

/// The texts of `SEED`, `BOARDS` and `workers` in the words after `gen`.
pub fn gen_texts<'a>(alloc: Global, words: &'a [String]) -> Result<ArgMatches<'a>, WordsFault>
    ensures { GivesTexts gen_form (map string_bytes words.entry.now) result }
{
    match gen_command(alloc) {
        Ok(command) => matches_of(command, words),
        Err(_) => Err(WordsFault::Memory),
    }
}
