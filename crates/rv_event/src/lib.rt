//! What a run of a machine tells: its events and its end.
//!
//! An [`Event`] tells of one executed instruction, or of one that could not be fetched. A
//! [`Transcript`] is a whole run: how many bytes the input has, the events in order, and the end.
//! Two runs with equal transcripts can't be told apart by what a crash report says of them.
#![tactic(auto)]

pub mod event;
pub mod events;
pub mod transcript;

pub use event::{End, Event, EventKind, Trap, TrapKind};
pub use events::Events;
pub use transcript::{Transcript, same_transcripts_are_equal};
