//! The text of a run: how it ended, how many steps it took, how many program counters it had, and
//! the last of them.

ghost use Rattle.std.specs.Prelude.{◌≡◌, [], ◌++◌, fold, length, codes, IfOk};
ghost use Rattle.std.specs.String.{string_bytes};
ghost use Rattle.std.specs.FinSet as set;
ghost use Rattle.rv_event.specs.declared.transcript.Transcript.{Transcript};
ghost use Rattle.watchers.specs.Counters.{covered_after, last_after};
ghost use Rattle.watchers.specs.Pairs.{both_after};
ghost use Rattle.crash_tool.specs.RunText.{end_line, spaced, seen_text, run_text};

use no_memory::NoMemory;
use report_format::{Bytes, format_trap, format_word};
use rv_event::End;
use rv_machine::Run;
use std::alloc::Global;
use watchers::laws::{pairs_follow_both, states_after_a_run};
use watchers::{Covered, CoveredStep, LastSixteen, LastStep, Watch};

/// What follows a run: its program counters, and the last of them.
pub type Counters = Watch<(Covered, LastSixteen), (CoveredStep, LastStep)>;

/// No program counter yet.
pub fn no_counters(alloc: Global) -> Counters
    ensures { result ≡ (set.empty, []) }
{
    Watch::new(
        (Covered::new(alloc), LastSixteen::new()),
        (CoveredStep, LastStep),
    )
}

/// The line of an end.
fn format_end(alloc: Global, end: End) -> Result<String, NoMemory>
    ensures { IfOk result (λ line. string_bytes line ≡ end_line end) }
{
    match end {
        End::Trap(trap) => format_trap(alloc, trap),
        End::Exit(code) => format!(in alloc; "exit {code}"),
        End::Limit => String::from_str(alloc, "limit"),
    }
}

/// The line of the last program counters.
fn format_counters(alloc: Global, last: &[u32]) -> Result<String, NoMemory>
    ensures { IfOk result (λ line. string_bytes line ≡ codes "last" ++ spaced last.now) }
{
    let mut line = String::from_str(alloc, "last")?;
    for counter in last {
        let digits = format_word(alloc, *counter)?;
        line.push_str(" ")?;
        line.push_str(digits.as_str())?;
    }
    Ok(line)
}

/// The text of a run, by what was seen of it.
fn seen_text(alloc: Global, run: Run, counters: &Counters) -> Result<Bytes, NoMemory>
    ensures { IfOk result (λ text. text ≡ seen_text run.end run.steps (set.len counters.now.0) counters.now.1) }
{
    let end = format_end(alloc, run.end)?;
    let steps = run.steps;
    let seen = counters.state();
    let covered = seen.0.count();
    let last = format_counters(alloc, seen.1.list())?;
    let text = format!(in alloc; "{end}\nsteps {steps}\ncovered {covered}\n{last}\n")?;
    Ok(Bytes::from_vec(text.into_bytes()))
}

/// The text of a run, all of whose events the counters followed.
pub fn run_text(alloc: Global, run: Run, counters: &Counters) -> Result<Bytes, NoMemory>
    ensures { (t : Transcript) → run.end ≡ t.end → run.steps ≡ length t.events →
        counters.now ≡ fold (both_after covered_after last_after) (set.empty, []) t.events →
        IfOk result (λ text. text ≡ run_text t) }
{
    states_after_a_run();
    pairs_follow_both::<Covered, LastSixteen>();
    seen_text(alloc, run, counters)
}
