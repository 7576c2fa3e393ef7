//! The events of a run, 16 bytes each.
//!
//! Few events have the numbers of a call. So those stand apart, and with them the address, whose field has their place.

ghost use Rattle.std.specs.Prelude.{◌≡◌, ◌<◌, ◌++◌, ◌∷◌, [], ◌↔◌, true, IsTrue, IfOk, OnErr, Some, length, slice_get};
ghost use Rattle.rv_event.specs.Packed.{numbers_of};

use crate::event::{Event, EventKind};
use no_memory::NoMemory;
use std::alloc::{AllocError, Global};
use std::marker::Model;
use std::mem::size_of;

/// An event as it is kept.
#[derive(Clone, Copy)]
struct Packed {
    pc: u32,
    word: u32,
    /// The address, or the place of the numbers.
    addr: u32,
    kind: EventKind,
    has_numbers: bool,
}

const _: () = prove!(size_of::<Packed>() == 16);

/// What stands apart of an event: the address, and the numbers of its call.
#[derive(Clone, Copy)]
struct Numbers {
    addr: u32,
    call: [u32; 4],
}

/// What a packed event doesn't hold itself.
fn numbers_of(packed: Packed, numbers: &[Numbers]) -> Numbers
    requires { packed.has_numbers ≡ true → packed.addr < length numbers.now }
    ensures { result ≡ numbers_of numbers.now packed }
{
    if packed.has_numbers {
        return numbers[packed.addr as usize];
    }
    Numbers {
        addr: packed.addr,
        call: [0; 4],
    }
}

/// The events of a run, first to last. Contracts see the list.
#[derive(Drop)]
pub struct Events {
    packed: Vec<Packed>,
    numbers: Vec<Numbers>,
}

impl Model for Events {
    ghost use Rattle.std.specs.Prelude.{List, map};
    ghost use Rattle.rv_event.specs.declared.event.Event.{Event};

    ghost Value = { List Event };

    ghost use Rattle.rv_event.specs.Packed.{unpacked, ArePlaced};

    ghost view = { λ e. map (unpacked e.numbers.items) e.packed.items };

    ghost invariant = { λ e. ArePlaced e.numbers.items e.packed.items };
}

impl Events {
    /// No events.
    pub fn new(alloc: Global) -> Self
        ensures { result ≡ [] }
    {
        Events {
            packed: Vec::new(alloc),
            numbers: Vec::new(alloc),
        }
    }

    /// How many events there are.
    pub fn len(&self) -> usize
        ensures { result ≡ length self.now }
    {
        self.packed.len()
    }

    /// The event at a place.
    pub fn event(&self, place: usize) -> Event
        requires { place < length self.now }
        ensures { slice_get self.now place ≡ Some result }
    {
        let packed = self.packed[place];
        let numbers = numbers_of(packed, &self.numbers);
        let call = numbers.call;
        Event {
            pc: packed.pc,
            word: packed.word,
            addr: numbers.addr,
            call,
            kind: packed.kind,
        }
    }

    /// Adds an event. A refusal leaves the events as they were.
    pub fn push(&mut self, event: Event) -> Result<(), NoMemory>
        requires { length self.old < 4294967296 }
        ensures added { IfOk result (λ _. self.new ≡ self.old ++ event ∷ []) }
        ensures kept { OnErr result (self.new ≡ self.old) }
    {
        if event.call != [0; 4] {
            return self.push_apart(event);
        }
        self.packed.push(Packed {
            pc: event.pc,
            word: event.word,
            addr: event.addr,
            kind: event.kind,
            has_numbers: false,
        })?;
        Ok(())
    }

    /// Adds an event whose numbers stand apart.
    fn push_apart(&mut self, event: Event) -> Result<(), NoMemory>
        requires { length self.old < 4294967296 }
        ensures added { IfOk result (λ _. self.new ≡ self.old ++ event ∷ []) }
        ensures kept { OnErr result (self.new ≡ self.old) }
    {
        let place = self.numbers.len();
        self.packed.push(Packed {
            pc: event.pc,
            word: event.word,
            addr: place as u32,
            kind: event.kind,
            has_numbers: true,
        })?;
        let call = event.call;
        match self.numbers.push(Numbers {
            addr: event.addr,
            call,
        }) {
            Ok(()) => Ok(()),
            Err(_full) => {
                self.packed.pop();
                Err(AllocError)
            }
        }
    }

    /// Whether two lists have the same events in the same order.
    pub(crate) fn agrees(&self, other: &Events) -> bool
        ensures { IsTrue result ↔ (self.now ≡ other.now) }
    {
        if self.len() != other.len() {
            return false;
        }
        for place in 0..self.len() {
            if self.event(place) != other.event(place) {
                return false;
            }
        }
        true
    }
}
