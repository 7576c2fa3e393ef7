//! A state beside the step that brings it on.

ghost use Rattle.std.specs.Prelude.{◌≡◌, fold, IfOk};

use no_memory::NoMemory;
use rv_event::Event;
use std::marker::Model;

/// A state that names the state after an event.
pub trait Watched {
    ghost use Rattle.rv_event.specs.declared.event.Event.{Event};

    ghost after: { Self → Event → Self };
}

/// A function from a state and an event to the next state. Each state that it answers is the one
/// that the state's type names.
pub trait Step<S: Watched> {
    /// The state after an event. A refusal drops the state.
    fn next(&self, state: S, event: Event) -> Result<S, NoMemory>
        ensures { IfOk result (λ after. after ≡ S.after state event) };

    /// Brings a state on in its place. A refusal leaves some state.
    fn advance(&self, state: &mut S, event: Event) -> Result<(), NoMemory>
        ensures { IfOk result (λ _. state.new ≡ S.after state.old event) };
}

/// A state, and the step that gives the next one. Contracts see the state.
#[derive(Drop)]
pub struct Watch<S: Watched, F: Step<S>> {
    state: S,
    next: F,
}

impl<S: Watched, F: Step<S>> Model for Watch<S, F> {
    ghost Value = { S };

    ghost view = { λ w. w.state };
}

impl<S: Watched + Drop, F: Step<S> + Drop> Watch<S, F> {
    /// A watch at this state.
    pub fn new(state: S, next: F) -> Self
        ensures { result ≡ state }
    {
        Watch { state, next }
    }

    /// The watch after an event. A refusal drops the watch.
    pub fn feed(self, event: Event) -> Result<Self, NoMemory>
        ensures { IfOk result (λ watch. watch ≡ S.after self event) }
    {
        let Watch { state, next } = self;
        let state = next.next(state, event)?;
        Ok(Watch { state, next })
    }

    /// Brings the watch on in its place: a state with many bytes isn't moved. A refusal leaves some state.
    pub fn advance(&mut self, event: Event) -> Result<(), NoMemory>
        ensures { IfOk result (λ _. self.new ≡ S.after self.old event) }
    {
        self.next.advance(&mut self.state, event)
    }

    /// The watch after a list of events. A refusal drops the watch.
    pub fn feed_all(self, events: &[Event]) -> Result<Self, NoMemory>
        ensures { IfOk result (λ watch. watch ≡ fold S.after self events.now) }
    {
        let mut watch = self;
        for event in events {
            watch = watch.feed(*event)?;
        }
        Ok(watch)
    }

    /// The state.
    pub fn state(&self) -> &S
        ensures { result.now ≡ self.now }
    {
        &self.state
    }
}
