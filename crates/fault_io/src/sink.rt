//! What a sink of bytes promises, and the one in memory.

ghost use Rattle.std.specs.Prelude.{◌≡◌, ℕ, ◌+◌, ◌^◌, ◌<◌, ◌≤◌, ◌↔◌, List, [], ◌++◌, length, take, min, Option, Some, IfOk, OnErr, IsErr};
ghost use Rattle.fault_io.specs.Faults.{Rose, raised, after_taking, TookPrefix};
ghost use Rattle.fault_io.specs.Sinks.{left};

use no_memory::NoMemory;
use std::alloc::Global;
use std::marker::Model;

/// A piece that a sink failed to take. The sink counted it as a fault.
#[derive(Clone, Copy, Debug, PartialEq, Eq)]
pub struct Failed;

/// What takes bytes, piece by piece, and counts the pieces that failed.
pub trait Sink {
    /// The bytes taken so far, where the sink tells.
    ghost holds: { Self → Option (List ℕ) };

    /// The faults so far. The count stops at 2^64 - 1.
    ghost faults: { Self → ℕ };

    /// Takes the first bytes of the piece, and answers how many: at least one.
    ///
    /// After `Failed` the sink holds what it held, or that and a first part of the piece: a stream
    /// may fail to be flushed after it took bytes. So such a piece isn't put again.
    fn put(&mut self, bytes: &[u8]) -> Result<u32, Failed>
        requires not_empty { 0 < length bytes.now }
        requires fits { length bytes.now < 2 ^ 32 }
        ensures taken { IfOk result (λ k. holds self.new ≡ after_taking (holds self.old) (take k bytes.now)) }
        ensures some { IfOk result (λ k. 0 < k) }
        ensures within { IfOk result (λ k. k ≤ length bytes.now) }
        ensures part { OnErr result (TookPrefix (holds self.old) (holds self.new) bytes.now) }
        ensures cause { OnErr result (Rose (faults self.old) (faults self.new)) }
        ensures counts { faults self.old ≤ faults self.new };
}

/// A sink in memory, with room for so many bytes. It takes what fits, and fails where it is full.
#[derive(Debug, Drop)]
pub struct MemSink {
    bytes: Vec<u8>,
    room: u32,
    failed: u64,
}

impl Model for MemSink {
    ghost use Rattle.std.specs.Prelude.{◌≤◌, vec_len, vec_capacity};
    ghost use Rattle.fault_io.specs.Sinks.{SinkState};

    ghost Value = { SinkState };

    ghost view = { λ sink. record { bytes = sink.bytes.items; room = sink.room; faults = sink.failed } };

    ghost invariant = { λ sink. (vec_len sink.bytes ≤ sink.room) × (sink.room ≤ vec_capacity sink.bytes) };
}

impl MemSink {
    /// An empty sink with room for `room` bytes. It takes all of its memory here.
    pub fn new(alloc: Global, room: u32) -> Result<Self, NoMemory>
        ensures { IfOk result (λ sink. sink ≡ record { bytes = []; room = room; faults = 0 }) }
    {
        let mut bytes = Vec::new(alloc);
        bytes.reserve(room as usize)?;
        Ok(MemSink {
            bytes,
            room,
            failed: 0,
        })
    }

    /// The bytes taken so far.
    pub fn as_slice(&self) -> &[u8]
        ensures { result.now ≡ self.now.bytes }
    {
        self.bytes.as_slice()
    }
}

impl Sink for MemSink {
    ghost holds = { λ sink. Some sink.bytes };

    ghost faults = { λ sink. sink.faults };

    /// Takes what fits. It fails exactly where no room is left, and then takes nothing.
    fn put(&mut self, bytes: &[u8]) -> Result<u32, Failed>
        requires not_empty { 0 < length bytes.now }
        requires fits { length bytes.now < 2 ^ 32 }
        ensures what_fits { IfOk result (λ k. k ≡ min (length bytes.now) (left self.old)) }
        ensures taken { IfOk result (λ k. self.new ≡ record self.old { bytes = self.old.bytes ++ take k bytes.now }) }
        ensures full { IsErr result ↔ (left self.old ≡ 0) }
        ensures refused { OnErr result (self.new ≡ record self.old { faults = raised self.old.faults }) }
        ensures counts { self.old.faults ≤ self.new.faults }
    {
        let left = self.room as usize - self.bytes.len();
        if left == 0 {
            self.failed = self.failed.saturating_add(1);
            return Err(Failed);
        }
        let count = bytes.len().min(left);
        match self.bytes.extend_from_slice(&bytes[..count]) {
            Ok(()) => Ok(count as u32),
            Err(_) => unreachable!(),
        }
    }
}
