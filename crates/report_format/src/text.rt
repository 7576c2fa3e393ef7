//! The text of a report.

ghost use Rattle.std.specs.Prelude.{◌≡◌, ◌<◌, ◌≤◌, ◌++◌, [], ◌∷◌, All, map, length, IfOk, OnOk};
ghost use Rattle.std.specs.String.{string_bytes};
ghost use Rattle.input_laws.specs.Sets.{size};
ghost use Rattle.byte_sets.specs.ByteSet.{has};
ghost use Rattle.report_format.specs.Text.{content_of, word_digits, kind_name, program_line, trap_line, data_lines};
ghost use Rattle.report_format.specs.Text.{set_line, lines_of_set, set_lines, revealed_line, head, tail, joined, text};

use crate::{Bytes, Report};
use byte_sets::{ByteSet, revealed};
use no_memory::NoMemory;
use rv_event::{Trap, TrapKind};
use std::alloc::Global;

/// The word for a kind of trap.
pub fn kind_word(kind: TrapKind) -> &'static str
    ensures { result.now ≡ kind_name kind }
{
    match kind {
        TrapKind::Illegal => "illegal",
        TrapKind::FetchFault => "fetch",
        TrapKind::MisalignedJump => "misaligned",
        TrapKind::LoadFault => "load",
        TrapKind::StoreFault => "store",
        TrapKind::Breakpoint => "breakpoint",
        TrapKind::Abort => "abort",
    }
}

/// The eight digits of a word.
pub fn format_word(alloc: Global, word: u32) -> Result<String, NoMemory>
    ensures { IfOk result (λ digits. string_bytes digits ≡ word_digits word) }
{
    hex::encode(alloc, word.to_be_bytes().as_slice())
}

fn format_program(alloc: Global, report: &Report) -> Result<String, NoMemory>
    ensures { IfOk result (λ line. string_bytes line ≡ program_line report.now.length report.now.digest) }
{
    let length = report.length;
    let digest = hex::encode(alloc, report.digest.as_slice())?;
    format!(in alloc; "program {length} {digest}")
}

/// The line of a trap, `trap KIND PC VALUE`, without its line end.
pub fn format_trap(alloc: Global, trap: Trap) -> Result<String, NoMemory>
    ensures { IfOk result (λ line. string_bytes line ≡ trap_line trap) }
{
    let kind = kind_word(trap.kind);
    let pc = format_word(alloc, trap.pc)?;
    let value = format_word(alloc, trap.value)?;
    format!(in alloc; "trap {kind} {pc} {value}")
}

fn format_set(alloc: Global, place: usize, set: &ByteSet) -> Result<String, NoMemory>
    ensures { IfOk result (λ line. string_bytes line ≡ set_line place (has set.now)) }
{
    let size = set.size();
    let digits = hex::encode(alloc, set.to_bytes().as_slice())?;
    format!(in alloc; "set {place} {size} {digits}")
}

pub fn format_revealed(alloc: Global, sets: &[ByteSet], input: &[u8]) -> Result<String, NoMemory>
    requires filled { All (λ set. 0 < size (has set)) sets.now }
    requires few { length sets.now ≤ 65536 }
    requires one_each { length sets.now ≡ length input.now }
    ensures { IfOk result (λ line. string_bytes line ≡ revealed_line (map has sets.now) input.now) }
{
    let bits = revealed(sets);
    let total = 8 * input.len();
    format!(in alloc; "revealed {bits} of {total}")
}

/// Adds a line and its line end.
fn push_line(out: &mut Vec<u8>, line: &[u8]) -> Result<(), NoMemory>
    ensures { OnOk result (out.new.items ≡ out.old.items ++ (line.now ++ 10 ∷ [])) }
{
    out.extend_from_slice(line)?;
    out.push(b'\n')?;
    Ok(())
}

/// Adds lines, each with its line end.
fn push_lines(out: &mut Vec<u8>, lines: &[&str]) -> Result<(), NoMemory>
    ensures { OnOk result (out.new.items ≡ out.old.items ++ joined (map (λ line. line.now) lines.now)) }
{
    for line in lines {
        push_line(out, line.as_bytes())?;
    }
    Ok(())
}

/// Adds the lines before the data.
#[tactic(auto, unfolding(crate::specs::Text::head))]
fn push_head(alloc: Global, out: &mut Vec<u8>, report: &Report) -> Result<(), NoMemory>
    ensures { OnOk result (out.new.items ≡ out.old.items ++ joined (head (content_of report.now))) }
{
    let steps = report.steps;
    let seed = report.seed;
    let length = report.input.as_slice().len();
    let program = format_program(alloc, report)?;
    let trap = format_trap(alloc, report.trap)?;
    let steps = format!(in alloc; "steps {steps}")?;
    let seed = format!(in alloc; "seed {seed}")?;
    let input = format!(in alloc; "input {length}")?;
    push_lines(
        out,
        &[
            "crash-report 1",
            program.as_str(),
            trap.as_str(),
            steps.as_str(),
            seed.as_str(),
            input.as_str(),
        ],
    )
}

/// Adds the lines of the input's bytes.
fn push_data(alloc: Global, out: &mut Vec<u8>, input: &[u8]) -> Result<(), NoMemory>
    ensures { OnOk result (out.new.items ≡ out.old.items ++ joined (data_lines input.now)) }
{
    for piece in input.chunks(32) {
        let digits = hex::encode(alloc, piece)?;
        push_line(out, format!(in alloc; "data {digits}")?.as_bytes())?;
    }
    Ok(())
}

/// Adds the line of a set that isn't full.
fn push_set(alloc: Global, out: &mut Vec<u8>, place: usize, set: &ByteSet) -> Result<(), NoMemory>
    ensures { OnOk result (out.new.items ≡ out.old.items ++ joined (lines_of_set place (has set.now))) }
{
    if set.size() == 256 {
        return Ok(());
    }
    push_line(out, format_set(alloc, place, set)?.as_bytes())
}

/// Adds the lines of the sets that aren't full.
fn push_sets(alloc: Global, out: &mut Vec<u8>, sets: &[ByteSet]) -> Result<(), NoMemory>
    ensures { OnOk result (out.new.items ≡ out.old.items ++ joined (set_lines 0 (map has sets.now))) }
{
    for (place, set) in sets.iter().enumerate() {
        push_set(alloc, out, place, set)?;
    }
    Ok(())
}

/// Adds the lines after the sets.
#[tactic(auto, unfolding(crate::specs::Text::tail))]
fn push_tail(alloc: Global, out: &mut Vec<u8>, report: &Report) -> Result<(), NoMemory>
    requires filled { All (λ set. 0 < size (has set)) report.now.sets }
    requires few { length report.now.sets ≤ 65536 }
    requires one_each { length report.now.sets ≡ length report.now.input }
    ensures { OnOk result (out.new.items ≡ out.old.items ++ joined (tail (content_of report.now))) }
{
    let revealed = format_revealed(alloc, report.sets.as_slice(), report.input.as_slice())?;
    push_lines(out, &[revealed.as_str(), "end"])
}

/// The text of a report.
///
/// Lines end with a line feed, the last too: `crash-report 1`, `program LENGTH SHA256`,
/// `trap KIND PC VALUE`, `steps N`, `seed N`, `input N`, a line `data HEX` for each 32 bytes of the
/// input, a line `set I SIZE HEX64` for each set that isn't full, `revealed B of T` and `end`.
pub fn write_report(alloc: Global, report: &Report) -> Result<Bytes, NoMemory>
    ensures { IfOk result (λ written. written ≡ text (content_of report.now)) }
{
    let mut out = Vec::new(alloc);
    push_head(alloc, &mut out, report)?;
    push_data(alloc, &mut out, report.input.as_slice())?;
    push_sets(alloc, &mut out, report.sets.as_slice())?;
    push_tail(alloc, &mut out, report)?;
    Ok(Bytes::from_vec(out))
}
