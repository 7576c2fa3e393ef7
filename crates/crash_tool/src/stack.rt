//! Where a report's run ended, and through which calls it came there.

ghost use Rattle.std.specs.Prelude.{◌≡◌, None, IfOk, IfErr};
ghost use Rattle.elf32.specs.Rules.{refusal};
ghost use Rattle.elf32.specs.Symbols.{symbols};
ghost use Rattle.crash_tool.specs.Received.{IsByReading};
ghost use Rattle.symbol_stack.specs.Stack.{counter_of};
ghost use Rattle.symbol_stack.specs.Text.{text as stack_of};
ghost use Rattle.crash_tool.specs.Stack.{stack_answer};
ghost use Rattle.crash_tool.specs.Call.{IsBut, IsOfFiles};

use crate::answer::Answer;
use elf32::read_symbols;
use no_memory::NoMemory;
use receiver_replay::replay_report;
use report_format::{Bytes, read_report};
use std::alloc::Global;
use symbol_stack::laws::a_run_is_reached;
use symbol_stack::{Reached, ReachedStep, stack_text};
use watchers::Watch;

/// The text of the stack of a run, whose events the watch followed.
fn tell_stack(
    alloc: Global,
    program: &[u8],
    reached: &Watch<Reached, ReachedStep>,
) -> Result<Bytes, NoMemory>
    requires unbroken { refusal program.now ≡ None }
    ensures { IfOk result (λ text. text ≡ stack_of (symbols program.now) reached.now.calls (counter_of reached.now.last)) }
{
    let symbols = read_symbols(alloc, program)?;
    let reached = reached.state();
    let text = stack_text(alloc, &symbols, reached.calls.list(), reached.counter())?;
    Ok(Bytes::from_vec(text.into_vec()))
}

/// The stack of the run on a report's input, where the run is the report's.
pub fn stack(alloc: Global, program: &[u8], text: &[u8]) -> Answer
    ensures answer { IsBut (IsByReading (stack_answer program.now) text.now) result }
    ensures kind { IfErr result IsOfFiles }
{
    a_run_is_reached();
    let report = read_report(alloc, text)?;
    let mut reached = Watch::new(Reached::new(alloc), ReachedStep);
    replay_report(alloc, program, &report, &mut reached)?;
    Ok(tell_stack(alloc, program, &reached)?)
}
