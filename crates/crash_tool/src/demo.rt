//! Demonstrations: the summary of the report of a program that is made here, on an input that is made here.

ghost use Rattle.std.specs.Prelude.{◌≡◌, ◌≤◌, [], ◌∷◌, ◌++◌, IfOk, IfErr};
ghost use Rattle.std.specs.Fmt.{decimal};
ghost use Rattle.std.specs.String.{string_bytes};
ghost use Rattle.input_laws.specs.Sets.{revealed as bits};
ghost use Rattle.report_format.specs.Text.{content_of, revealed_line, joined};
ghost use Rattle.report_maker.specs.Made.{made_value};
ghost use Rattle.crash_tool.specs.Demo.{kind_line, case_lines, cost_lines, summary, IsDemoAnswer};
ghost use Rattle.tool_words.specs.Words.{AreWithin};
ghost use Rattle.crash_tool.specs.Call.{IsBut, IsOfFiles};

use crate::answer::Answer;
use crate::made::made;
use byte_sets::revealed;
use no_memory::NoMemory;
use report_format::laws::reports_are_in_range;
use report_format::{Bytes, Report};
use report_maker::Made;
use rv_assemble::{DemoKind, demo_case};
use std::alloc::Global;
use tool_words::Options;

/// The line of a kind.
fn kind_line(kind: DemoKind) -> &'static str
    ensures { result.now ≡ kind_line kind }
{
    match kind {
        DemoKind::Single => "demo single",
        DemoKind::Triple => "demo triple",
    }
}

/// The bits that a report reveals.
fn revealed_bits(report: &Report) -> u32
    ensures { result ≡ bits (content_of report.now).sets }
{
    reports_are_in_range(report);
    revealed(report.sets.as_slice())
}

/// The line of the bits that a report reveals.
fn format_revealed(alloc: Global, report: &Report) -> Result<String, NoMemory>
    ensures { IfOk result (λ line. string_bytes line ≡ revealed_line (content_of report.now).sets report.now.input) }
{
    let bits = revealed_bits(report);
    let total = 8 * report.input.as_slice().len();
    format!(in alloc; "revealed {bits} of {total}")
}

/// A word and a number behind it.
fn numbered(alloc: Global, word: &str, number: u64) -> Result<String, NoMemory>
    ensures { IfOk result (λ line. string_bytes line ≡ word.now ++ decimal number) }
{
    format!(in alloc; "{word}{number}")
}

/// Three lines.
fn three_lines(alloc: Global, first: &str, second: &str, third: &str) -> Result<String, NoMemory>
    ensures { IfOk result (λ text. string_bytes text ≡ joined (first.now ∷ second.now ∷ third.now ∷ [])) }
{
    let text = format!(in alloc; "{first}\n{second}\n{third}\n")?;
    Ok(text)
}

/// The lines of a demonstration and of the steps of its run.
fn case_text(alloc: Global, kind: DemoKind, size: u32, steps: u32) -> Result<String, NoMemory>
    ensures { IfOk result (λ text. string_bytes text ≡ joined (case_lines kind size steps)) }
{
    let size = numbered(alloc, "bytes ", u64::from(size))?;
    let steps = numbered(alloc, "steps ", u64::from(steps))?;
    three_lines(alloc, kind_line(kind), size.as_str(), steps.as_str())
}

/// The lines of what a report took and reveals.
fn cost_text(
    alloc: Global,
    groups: u32,
    conflicts: u64,
    revealed: String,
) -> Result<String, NoMemory>
    ensures { IfOk result (λ text. string_bytes text ≡ joined (cost_lines groups conflicts (string_bytes revealed))) }
{
    let groups = numbered(alloc, "groups ", u64::from(groups))?;
    let conflicts = numbered(alloc, "conflicts ", conflicts)?;
    three_lines(
        alloc,
        groups.as_str(),
        conflicts.as_str(),
        revealed.as_str(),
    )
}

/// A text and another behind it.
fn behind(alloc: Global, first: String, second: String) -> Result<Bytes, NoMemory>
    ensures { IfOk result (λ bytes. bytes ≡ string_bytes first ++ string_bytes second) }
{
    let text = format!(in alloc; "{first}{second}")?;
    Ok(Bytes::from_vec(text.into_bytes()))
}

/// The summary of what was made.
fn summary(alloc: Global, kind: DemoKind, size: u32, made: &Made) -> Result<Bytes, NoMemory>
    ensures { IfOk result (λ text. text ≡ summary kind size (made_value made.now)) }
{
    let case = case_text(alloc, kind, size, made.report.steps)?;
    let revealed = format_revealed(alloc, &made.report)?;
    let cost = cost_text(alloc, made.groups, made.conflicts, revealed)?;
    behind(alloc, case, cost)
}

/// The summary of a demonstration over `size` bytes, 3 to 65,536.
pub fn demo(alloc: Global, kind: DemoKind, size: u32, options: Options) -> Answer
    requires least { 3 ≤ size }
    requires most { size ≤ 65536 }
    requires options { AreWithin options }
    ensures answer { IsBut (IsDemoAnswer kind size options) result }
    ensures kind { IfErr result IsOfFiles }
{
    let case = demo_case(alloc, kind, size)?;
    let made = made(
        alloc,
        case.program.as_slice(),
        options,
        case.input.as_slice(),
    )?;
    Ok(summary(alloc, kind, size, &made)?)
}
