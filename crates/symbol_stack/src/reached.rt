//! Through which calls a run came to an event.

ghost use Rattle.std.specs.Prelude.{◌≡◌, [], None, IfOk};
ghost use Rattle.symbol_stack.specs.Stack.{counter_of, reached_after};

use crate::call_stack::CallStack;
use no_memory::NoMemory;
use rv_event::Event;
use std::alloc::Global;
use watchers::{Step, Watched};

/// The last event that was fed, and the calls that the run was in before it: a call that crashes was not
/// made. So the stack is one event behind.
#[derive(Drop)]
pub struct Reached {
    pub calls: CallStack,
    pub last: Option<Event>,
}

impl Watched for Reached {
    ghost use Rattle.symbol_stack.specs.Stack.{reached_after};

    ghost after = { reached_after };
}

impl Reached {
    /// No event.
    pub fn new(alloc: Global) -> Reached
        ensures { result ≡ record { calls = []; last = None } }
    {
        Reached {
            calls: CallStack::new(alloc),
            last: None,
        }
    }

    /// The program counter of the last event, or 0 where there is none.
    pub fn counter(&self) -> u32
        ensures { result ≡ counter_of self.now.last }
    {
        match self.last {
            Some(last) => last.pc,
            None => 0,
        }
    }

    /// Follows an event.
    fn follow(&mut self, event: Event) -> Result<(), NoMemory>
        ensures { IfOk result (λ _. self.new ≡ reached_after self.old event) }
    {
        if let Some(last) = self.last {
            self.calls.follow(last)?;
        }
        self.last = Some(event);
        Ok(())
    }
}

/// Feeds the stack the event before this one, and keeps this one. A refusal drops both.
pub fn reached_step(reached: Reached, event: Event) -> Result<Reached, NoMemory>
    ensures { IfOk result (λ after. after ≡ reached_after reached event) }
{
    let mut reached = reached;
    reached.follow(event)?;
    Ok(reached)
}

/// The step of [`reached_step`].
#[derive(Clone, Copy, Debug)]
pub struct ReachedStep;

impl Step<Reached> for ReachedStep {
    fn next(&self, state: Reached, event: Event) -> Result<Reached, NoMemory> {
        reached_step(state, event)
    }

    fn advance(&self, state: &mut Reached, event: Event) -> Result<(), NoMemory> {
        state.follow(event)
    }
}
