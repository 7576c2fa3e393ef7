//! No state, and two states that follow the same events: so a run under any number of watches is a run
//! under one.

use crate::watch::{Step, Watched};
use no_memory::NoMemory;
use rv_event::Event;

/// No state, which no event changes.
impl Watched for () {
    ghost after = { λ _ _. tt };
}

impl Step<()> for () {
    fn next(&self, _state: (), _event: Event) -> Result<(), NoMemory> {
        Ok(())
    }

    fn advance(&self, _state: &mut (), _event: Event) -> Result<(), NoMemory> {
        Ok(())
    }
}

/// Each of the two follows every event.
impl<A: Watched, B: Watched> Watched for (A, B) {
    ghost use Rattle.watchers.specs.Pairs.{both_after};

    ghost after = { both_after A.after B.after };
}

impl<A: Watched + Drop, B: Watched + Drop, F: Step<A>, G: Step<B>> Step<(A, B)> for (F, G) {
    fn next(&self, state: (A, B), event: Event) -> Result<(A, B), NoMemory> {
        let (first, second) = state;
        let first = self.0.next(first, event)?;
        let second = self.1.next(second, event)?;
        Ok((first, second))
    }

    #[inline(always)]
    fn advance(&self, state: &mut (A, B), event: Event) -> Result<(), NoMemory> {
        self.0.advance(&mut state.0, event)?;
        self.1.advance(&mut state.1, event)
    }
}
