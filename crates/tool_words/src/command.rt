//! The command, as `clap` reads it.

ghost use Rattle.std.specs.Prelude.{◌≡◌, ◌≢◌, ◌⊎◌, ◌↔◌, map, Some, None, IfOk, IfErr, option_map};
ghost use Rattle.std.specs.String.{string_bytes};
ghost use Rattle.clap.specs.Words.{app_of, found_of, kind_of, rows_of, first_of, with_rule};
ghost use Rattle.tool_words.specs.Words.{tool, bare, text_rule, option_rule, texts_of, texts_in, raw_texts};

use clap::error::ErrorKind;
use clap::{Arg, ArgMatches, Command, Error};
use no_memory::NoMemory;
use std::alloc::Global;

/// Why the words are not a command.
#[derive(Clone, Copy, Debug, PartialEq, Eq)]
pub enum WordsError {
    NoMemory,
    Usage,
}

/// The texts that the words give.
#[derive(Clone, Copy, Debug)]
pub struct Raw<'a> {
    pub action: &'a str,
    pub first: &'a str,
    pub second: &'a str,
    pub seed: Option<&'a str>,
    pub steps: Option<&'a str>,
    pub conflicts: Option<&'a str>,
}

/// The command with one more text, which is required.
fn with_text<'a>(
    alloc: Global,
    command: Command<'a>,
    name: &'a str,
) -> Result<Command<'a>, NoMemory>
    ensures { IfOk result (λ r. app_of r ≡ with_rule (app_of command.entry) (text_rule name.entry.now)) }
{
    command.arg(Arg::new(alloc, name).required(true))
}

/// The command with one more option, which takes a text.
fn with_option<'a>(
    alloc: Global,
    command: Command<'a>,
    name: &'a str,
) -> Result<Command<'a>, NoMemory>
    ensures { IfOk result (λ r. app_of r ≡ with_rule (app_of command.entry) (option_rule name.entry.now)) }
{
    command.arg(Arg::new(alloc, name).long(name))
}

fn bare_command<'a>(alloc: Global) -> Command<'a>
    ensures { app_of result ≡ bare }
{
    Command::new(alloc, "crash_cli").no_binary_name(true)
}

/// `ACTION FIRST SECOND [--seed N] [--steps N] [--conflicts N]`.
#[tactic(auto, unfolding(crate::specs::Words::tool))]
fn command<'a>(alloc: Global) -> Result<Command<'a>, NoMemory>
    ensures { IfOk result (λ command. app_of command ≡ tool) }
{
    let command = bare_command(alloc);
    let command = with_text(alloc, command, "ACTION")?;
    let command = with_text(alloc, command, "FIRST")?;
    let command = with_text(alloc, command, "SECOND")?;
    let command = with_option(alloc, command, "seed")?;
    let command = with_option(alloc, command, "steps")?;
    with_option(alloc, command, "conflicts")
}

/// Want of memory, or a refusal of the words. A wish for help is such a refusal.
fn reason(error: &Error) -> WordsError
    ensures memory { result ≡ WordsError.NoMemory ↔ (kind_of error.now ≡ ErrorKind.OutOfMemory) }
    ensures either { (result ≡ WordsError.NoMemory) ⊎ ((result ≡ WordsError.Usage) × (kind_of error.now ≢ ErrorKind.OutOfMemory)) }
{
    match error.kind() {
        ErrorKind::OutOfMemory => WordsError::NoMemory,
        _ => WordsError::Usage,
    }
}

/// The first text under a name.
#[tactic(auto, using(crate::proofs::CommandLemmas::rows))]
fn one<'a>(matches: &ArgMatches<'a>, id: &str) -> Option<&'a str>
    ensures { option_map (λ s. s.now) result ≡ first_of id.now (rows_of (found_of matches.now)) }
{
    matches.get_str(id)
}

fn texts<'a>(matches: &ArgMatches<'a>) -> Option<Raw<'a>>
    ensures { option_map raw_texts result ≡ texts_in (rows_of (found_of matches.now)) }
{
    let (Some(action), Some(first), Some(second)) = (
        one(matches, "ACTION"),
        one(matches, "FIRST"),
        one(matches, "SECOND"),
    ) else {
        return None;
    };
    Some(Raw {
        action,
        first,
        second,
        seed: one(matches, "seed"),
        steps: one(matches, "steps"),
        conflicts: one(matches, "conflicts"),
    })
}

/// The texts of the words, where the command takes them.
pub fn read_texts<'a>(alloc: Global, words: &'a [String]) -> Result<Raw<'a>, WordsError>
    ensures read { IfOk result (λ raw. texts_of (map string_bytes words.entry.now) ≡ Some (raw_texts raw)) }
    ensures refused { IfErr result (λ e. (e ≡ WordsError.NoMemory)
        ⊎ ((e ≡ WordsError.Usage) × (texts_of (map string_bytes words.entry.now) ≡ None))) }
{
    let Ok(command) = command(alloc) else {
        return Err(WordsError::NoMemory);
    };
    match command.try_get_matches_from(words) {
        Ok(matches) => match texts(&matches) {
            Some(raw) => Ok(raw),
            None => Err(WordsError::Usage),
        },
        Err(error) => Err(reason(&error)),
    }
}
