//! The last program counters of a run.

ghost use Rattle.std.specs.Prelude.{◌≡◌, ◌<◌, ◌≤◌, [], ◌∷◌, ◌++◌, length, take, IfOk, IsOk};
ghost use Rattle.watchers.specs.Counters.{last_sixteen, last_after};

use crate::watch::{Step, Watched};
use no_memory::NoMemory;
use rv_event::Event;
use std::marker::Model;

/// The last program counters that were fed, at most sixteen, the oldest first.
#[derive(Drop)]
pub struct LastSixteen {
    /// The newest stands before `end`. There is room for sixteen more, so that the older ones are moved
    /// only once in sixteen steps.
    counters: [u32; 32],
    end: usize,
}

impl Model for LastSixteen {
    ghost use Rattle.std.specs.Prelude.{ℕ, List, take, ◌≤◌};
    ghost use Rattle.watchers.specs.Counters.{last_sixteen};

    ghost Value = { List ℕ };

    ghost view = { λ l. last_sixteen (take l.end l.counters) };

    ghost invariant = { λ l. l.end ≤ 32 };
}

impl Watched for LastSixteen {
    ghost use Rattle.watchers.specs.Counters.{last_after};

    ghost after = { last_after };
}

impl LastSixteen {
    /// No program counter.
    pub fn new() -> LastSixteen
        ensures { result ≡ [] }
    {
        LastSixteen {
            counters: [0; 32],
            end: 0,
        }
    }

    /// The program counters, the oldest first.
    pub fn list(&self) -> &[u32]
        ensures same { result.now ≡ self.now }
        ensures few { length result.now ≤ 16 }
    {
        &self.counters[self.end.saturating_sub(16)..self.end]
    }

    /// Puts a program counter at the end.
    fn push(&mut self, pc: u32)
        ensures { self.new ≡ last_sixteen (self.old ++ pc ∷ []) }
    {
        let end = make_room(&mut self.counters, self.end);
        self.counters[end] = pc;
        self.end = end + 1;
    }
}

/// Room for one more program counter, behind the last ones: where there is none, sixteen are moved to the
/// front. The answer is where the next one goes.
fn make_room(counters: &mut [u32; 32], end: usize) -> usize
    requires { end ≤ 32 }
    ensures room { result < 32 }
    ensures size { length counters.new ≡ 32 }
    ensures same { last_sixteen (take result counters.new) ≡ last_sixteen (take end counters.old) }
{
    if end < 32 {
        return end;
    }
    counters.copy_within(16..32, 0);
    16
}

/// Puts the event's program counter at the end, and leaves out the oldest where there are more than
/// sixteen. It always answers Ok.
pub fn last_step(last: LastSixteen, event: Event) -> Result<LastSixteen, NoMemory>
    ensures after { IfOk result (λ after. after ≡ last_after last event) }
    ensures always { IsOk result }
{
    let mut last = last;
    last.push(event.pc);
    Ok(last)
}

/// The step of [`last_step`].
#[derive(Clone, Copy, Debug)]
pub struct LastStep;

impl Step<LastSixteen> for LastStep {
    fn next(&self, state: LastSixteen, event: Event) -> Result<LastSixteen, NoMemory> {
        last_step(state, event)
    }

    fn advance(&self, state: &mut LastSixteen, event: Event) -> Result<(), NoMemory> {
        state.push(event.pc);
        Ok(())
    }
}
