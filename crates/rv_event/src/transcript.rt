//! The whole of a run.

ghost use Rattle.std.specs.Prelude.{◌≡◌, IsTrue, ◌↔◌};
ghost use Rattle.rv_event.specs.Same.{same_transcript};
ghost use Rattle.rv_event.specs.declared.transcript.Transcript as run;

use crate::event::End;
use crate::events::Events;

/// A run on an input: the input's length, the events, and the end.
#[derive(Drop)]
pub struct Transcript {
    /// The number of bytes of the input.
    pub n: u32,
    pub events: Events,
    pub end: End,
}

impl Transcript {
    /// Whether two runs have the same length of input, the same events and the same end.
    #[tactic(auto, using(crate::proofs::Derived::ends))]
    pub fn agrees(&self, other: &Transcript) -> bool
        ensures computed { result ≡ same_transcript self.now other.now }
        ensures equal { IsTrue result ↔ (self.now ≡ other.now) }
    {
        let same_end = self.end == other.end;
        let same_events = self.events.agrees(&other.events);
        self.n == other.n && same_end && same_events
    }
}

/// The computed test of two runs is true exactly where they are equal.
pub fn same_transcripts_are_equal()
    ensures { (a b : run.Transcript) → IsTrue (same_transcript a b) ↔ (a ≡ b) }
{}
