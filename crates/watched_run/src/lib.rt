//! The run of a machine under a watch. Each step's event is fed to the watch as it is made, and none is
//! kept, so a run of any length takes no more memory than its machine and its watch do.
#![tactic(auto)]

ghost use Rattle.std.specs.Prelude.{◌≡◌, ◌≤◌, false, fold, length, IfOk};
ghost use Rattle.rv_machine.specs.Trace.{trace_from, state_after, has_ended};

use no_memory::NoMemory;
use rv_event::End;
use rv_machine::{Machine, Run};
use watchers::{Step, Watch, Watched};

/// Runs a machine on an input of at most 65,536 bytes until an end, for at most `limit` steps, under a
/// watch: as [`Machine::run`], and the watch has followed all events. Any number of watches is one, as a
/// pair of states is a state. The one error is want of memory for the watch, which leaves machine and
/// watch somewhere on the way.
pub fn watch_run<S: Watched + Drop, F: Step<S> + Drop>(
    machine: &mut Machine,
    input: &[u8],
    limit: u32,
    watch: &mut Watch<S, F>,
) -> Result<Run, NoMemory>
    requires running { machine.old.over ≡ false }
    requires place { machine.old.state.place ≤ length input.now }
    requires size { length input.now ≤ 65536 }
    ensures watch { IfOk result (λ _. watch.new ≡ fold S.after watch.old (trace_from limit input.now machine.old.state).events) }
    ensures steps { IfOk result (λ run. run.steps ≡ length (trace_from limit input.now machine.old.state).events) }
    ensures end { IfOk result (λ run. run.end ≡ (trace_from limit input.now machine.old.state).end) }
    ensures over { IfOk result (λ run. machine.new.over ≡ has_ended run.end) }
    ensures state { IfOk result (λ _. machine.new.state ≡ state_after limit input.now machine.old.state) }
    ensures place { IfOk result (λ _. machine.new.state.place ≤ length input.now) }
{
    for i in 0..limit {
        let stepped = machine.step(input);
        watch.advance(stepped.event)?;
        match stepped.end {
            Some(end) => return Ok(Run { steps: i + 1, end }),
            None => {}
        }
    }
    Ok(Run {
        steps: limit,
        end: End::Limit,
    })
}
