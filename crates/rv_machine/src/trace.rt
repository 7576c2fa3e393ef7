//! Whole runs.

ghost use Rattle.std.specs.Prelude.{◌≡◌, ◌≤◌, false, length, IfOk};
ghost use Rattle.elf32.specs.Loads.{program_of};
ghost use Rattle.rv_machine.specs.Trace.{trace_from, state_after, transcript_of, has_ended};

use crate::machine::Machine;
use elf32::Image;
use no_memory::NoMemory;
use rv_event::{End, Events, Transcript};
use std::alloc::Global;

/// What comes of a run whose events are not kept.
#[derive(Clone, Copy, Debug)]
pub struct Run {
    /// How many steps it took, each with one event.
    pub steps: u32,
    /// The trap or the exit, or `Limit` where there was none.
    pub end: End,
}

impl Machine {
    /// Runs on an input of at most 65,536 bytes until an end, for at most `limit` steps. The end is
    /// `Limit` where they made none.
    pub fn run(&mut self, input: &[u8], limit: u32) -> Run
        requires running { self.old.over ≡ false }
        requires place { self.old.state.place ≤ length input.now }
        requires size { length input.now ≤ 65536 }
        ensures steps { result.steps ≡ length (trace_from limit input.now self.old.state).events }
        ensures end { result.end ≡ (trace_from limit input.now self.old.state).end }
        ensures over { self.new.over ≡ has_ended result.end }
        ensures state { self.new.state ≡ state_after limit input.now self.old.state }
        ensures place { self.new.state.place ≤ length input.now }
    {
        for i in 0..limit {
            let stepped = self.step(input);
            match stepped.end {
                Some(end) => return Run { steps: i + 1, end },
                None => {}
            }
        }
        Run {
            steps: limit,
            end: End::Limit,
        }
    }
}

/// What a machine's run on an input tells.
fn transcribe(
    alloc: Global,
    mut machine: Machine,
    input: &[u8],
    limit: u32,
) -> Result<Transcript, NoMemory>
    requires running { machine.over ≡ false }
    requires place { machine.state.place ≤ length input.now }
    requires size { length input.now ≤ 65536 }
    ensures n { IfOk result (λ t. t.n ≡ length input.now) }
    ensures events { IfOk result (λ t. t.events ≡ (trace_from limit input.now machine.state).events) }
    ensures end { IfOk result (λ t. t.end ≡ (trace_from limit input.now machine.state).end) }
{
    let n = input.len() as u32;
    let mut events = Events::new(alloc);
    for _i in 0..limit {
        let stepped = machine.step(input);
        events.push(stepped.event)?;
        match stepped.end {
            Some(end) => return Ok(Transcript { n, events, end }),
            None => {}
        }
    }
    Ok(Transcript {
        n,
        events,
        end: End::Limit,
    })
}

/// What a program's run on an input of at most 65,536 bytes tells: its events, at most `limit` of them,
/// and its end, which is `Limit` where they made none.
pub fn trace_of(
    alloc: Global,
    image: &Image,
    input: &[u8],
    limit: u32,
) -> Result<Transcript, NoMemory>
    requires { length input.now ≤ 65536 }
    ensures run { IfOk result (λ t. t ≡ transcript_of (program_of image.now) input.now limit) }
    ensures length { IfOk result (λ t. length t.events ≤ limit) }
{
    let machine = Machine::start(alloc, image)?;
    transcribe(alloc, machine, input, limit)
}
