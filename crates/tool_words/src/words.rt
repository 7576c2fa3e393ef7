//! The words after the program's name.

ghost use Rattle.std.specs.Prelude.{◌≡◌, ◌≤◌, ◌⊎◌, map, Some, None, IfSome, IfOk, IfErr, option_map};
ghost use Rattle.std.specs.String.{string_bytes};
ghost use Rattle.tool_words.specs.Words.{raw_texts, number_or, options_of, action_of, kind_of, asked_in, asked_of, asked_value, options_asked};
ghost use Rattle.tool_words.specs.Words.{AreWithin, IsSized};

use crate::command::{Raw, WordsError, read_texts};
use decimal_text::read_decimal;
use rv_assemble::DemoKind;
use std::alloc::Global;

/// What is to be done.
#[derive(Clone, Copy, Debug, PartialEq, Eq)]
pub enum Action {
    /// A report of the program's crash on an input.
    Make,
    /// What the program does on an input.
    Run,
    /// What the program does on a report's input.
    Replay,
    /// Whether a report is the one that the program gives on the report's input.
    Check,
    /// Through which calls the program came to its crash on a report's input.
    Stack,
}

/// What a report is made under.
#[derive(Clone, Copy, Debug, PartialEq, Eq)]
pub struct Options {
    /// Fixes the order in which the replacement of the input comes first.
    pub seed: u64,
    /// The most steps of the run, 1 to 10,000,000.
    pub steps: u32,
    /// The most conflicts of the search on a wide group, 1 to 1,000,000.
    pub conflicts: u32,
}

/// An action over two files.
#[derive(Drop)]
pub struct Task<'a> {
    pub action: Action,
    /// The name of the program's file.
    pub program: &'a str,
    /// The name of the input's file, or of the report's.
    pub second: &'a str,
    pub options: Options,
}

/// What the words ask for.
#[derive(Drop)]
pub enum Asked<'a> {
    /// An action over two files.
    Files(Task<'a>),
    /// The summary of the report of a demonstration.
    Demo {
        kind: DemoKind,
        /// The number of bytes of the input, 3 to 65,536.
        size: u32,
        options: Options,
    },
}

/// The demonstration that a text names.
fn kind_of(text: &str) -> Option<DemoKind>
    ensures { result ≡ kind_of text.now }
{
    match text {
        "single" => Some(DemoKind::Single),
        "triple" => Some(DemoKind::Triple),
        _ => None,
    }
}

/// The action that a text names.
fn action_of(text: &str) -> Option<Action>
    ensures { result ≡ action_of text.now }
{
    match text {
        "make" => Some(Action::Make),
        "run" => Some(Action::Run),
        "replay" => Some(Action::Replay),
        "check" => Some(Action::Check),
        "stack" => Some(Action::Stack),
        _ => None,
    }
}

/// The number within this range that a text spells, or the default where there is no text.
fn number_or(text: Option<&str>, default: u64, least: u64, most: u64) -> Option<u64>
    ensures number { result ≡ number_or default least most (option_map (λ s. s.now) text.entry) }
    ensures within { least ≤ default → default ≤ most → IfSome result (λ n. (least ≤ n) × (n ≤ most)) }
{
    let Some(text) = text else {
        return Some(default);
    };
    let number = read_decimal(text.as_bytes())?;
    if number < least || most < number {
        return None;
    }
    Some(number)
}

/// The options that the texts give.
fn options_of(raw: &Raw<'_>) -> Option<Options>
    ensures options { result ≡ options_of (raw_texts raw.now) }
    ensures within { IfSome result AreWithin }
{
    let seed = number_or(raw.seed, 0, 0, u64::MAX)?;
    let steps = number_or(raw.steps, 1_000_000, 1, 10_000_000)?;
    let conflicts = number_or(raw.conflicts, 10_000, 1, 1_000_000)?;
    Some(Options {
        seed,
        steps: steps as u32,
        conflicts: conflicts as u32,
    })
}

/// What the texts ask for.
fn asked_of<'a>(raw: &Raw<'a>) -> Option<Asked<'a>>
    ensures asked { option_map asked_value result ≡ asked_in (Some (raw_texts raw.now)) }
    ensures within { IfSome result (λ asked. AreWithin (options_asked asked)) }
    ensures sized { IfSome result IsSized }
{
    let options = options_of(raw)?;
    if raw.action == "demo" {
        let kind = kind_of(raw.first)?;
        let size = number_or(Some(raw.second), 3, 3, 65_536)?;
        return Some(Asked::Demo {
            kind,
            size: size as u32,
            options,
        });
    }
    let action = action_of(raw.action)?;
    Some(Asked::Files(Task {
        action,
        program: raw.first,
        second: raw.second,
        options,
    }))
}

/// What the words ask for: `ACTION PROGRAM SECOND` or `demo KIND N`, and the options.
pub fn read_words<'a>(alloc: Global, words: &'a [String]) -> Result<Asked<'a>, WordsError>
    ensures read { IfOk result (λ asked. asked_of (map string_bytes words.entry.now) ≡ Some (asked_value asked)) }
    ensures refused { IfErr result (λ e. (e ≡ WordsError.NoMemory)
        ⊎ ((e ≡ WordsError.Usage) × (asked_of (map string_bytes words.entry.now) ≡ None))) }
    ensures within { IfOk result (λ asked. AreWithin (options_asked asked)) }
    ensures sized { IfOk result IsSized }
{
    let raw = read_texts(alloc, words)?;
    match asked_of(&raw) {
        Some(asked) => Ok(asked),
        None => Err(WordsError::Usage),
    }
}
