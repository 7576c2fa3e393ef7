//! The report's input run again.

ghost use Rattle.std.specs.Prelude.{◌≡◌, ◌↔◌, fold, IfOk, IfErr, IsTrue};
ghost use Rattle.rv_event.specs.declared.event.End.TheVariants as ends;
ghost use Rattle.report_format.specs.Text.{content_of};
ghost use Rattle.receiver_replay.specs.Received.{its_run, replayed, IsBut, NamesRule};

use crate::error::ReceiveError;
use crate::program::load;
use report_format::Report;
use rv_event::{End, Trap};
use rv_machine::{Machine, Run};
use std::alloc::Global;
use watched_run::watch_run;
use watchers::{Step, Watch, Watched};

/// Whether a run ended by this trap.
#[tactic(auto, using(rv_event::proofs::Derived::ends))]
fn is_by(end: End, trap: Trap) -> bool
    ensures { IsTrue result ↔ (end ≡ ends.Trap trap) }
{
    end == End::Trap(trap)
}

/// Runs a program on a report's input under a watch, for at most the report's number of steps: the number
/// of steps and the end, which are the report's, and the watch has followed all events. `Differs` has line 3
/// where the run's end is not the report's trap, and line 4 where it is and came after fewer steps.
/// `StillRunning`, `NoCrash` and `Spent` do not come. An error leaves the watch somewhere on the way.
#[tactic(auto, unfolding(crate::specs::Received::replayed))]
pub fn replay_report<S: Watched + Drop, F: Step<S> + Drop>(
    alloc: Global,
    program: &[u8],
    report: &Report,
    watch: &mut Watch<S, F>,
) -> Result<Run, ReceiveError>
    ensures replayed { IsBut (replayed program.now (content_of report.now)) result }
    ensures watch { IfOk result (λ _. watch.new
        ≡ fold S.after watch.old (its_run program.now (content_of report.now) report.now.steps).events) }
    ensures rules { IfErr result NamesRule }
{
    let image = load(alloc, program, report)?;
    let mut machine = Machine::start(alloc, &image)?;
    let run = watch_run(&mut machine, report.input.as_slice(), report.steps, watch)?;
    if !is_by(run.end, report.trap) {
        return Err(ReceiveError::Differs { line: 3 });
    }
    if run.steps < report.steps {
        return Err(ReceiveError::Differs { line: 4 });
    }
    Ok(run)
}
