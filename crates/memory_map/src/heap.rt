//! The heap of a program: bytes that it asks for by moving the break.

ghost use Rattle.std.specs.Prelude.{◌≡◌, ◌<◌, ◌^◌, ◌+◌};
ghost use Rattle.memory_map.specs.Heaps.{heap_from, start_heap, may_break};

use elf32::Segment;

/// How many bytes a heap may have.
pub const HEAP_SIZE: u32 = 0x0100_0000;

/// Where a heap starts, and its break: the address after its last byte in memory.
#[derive(Clone, Copy, Debug)]
pub struct Heap {
    pub start: u32,
    pub brk: u32,
}

impl Heap {
    /// Whether the break may be at an address.
    pub fn may_break(&self, address: u32) -> bool
        ensures { result ≡ may_break self.now address }
    {
        self.start <= address && address - self.start <= HEAP_SIZE
    }
}

/// The address after a segment's last.
fn end_of(segment: &Segment) -> u64
    ensures value { result ≡ segment.now.base + segment.now.size }
    ensures size { result < 2 ^ 33 }
{
    u64::from(segment.base) + u64::from(segment.size)
}

/// The heap from an address on, where it has room below the stack, or above it and below 2^32.
fn heap_from(start: u64) -> Option<Heap>
    requires { start < 2 ^ 34 }
    ensures { result ≡ heap_from start }
{
    let end = start + u64::from(HEAP_SIZE);
    if end <= 0x7ff0_0000 || start >= 0x8000_0000 && end < 0x1_0000_0000 {
        let start = start as u32;
        Some(Heap { start, brk: start })
    } else {
        None
    }
}

/// The heap of a program at its start, which has no byte yet.
#[tactic(auto, unfolding(crate::specs::Heaps::start_heap))]
pub fn start_heap(segments: &[Segment]) -> Option<Heap>
    ensures { result ≡ start_heap segments.now }
{
    let last = segments.last()?;
    heap_from((end_of(last) + 4095) / 4096 * 4096)
}
