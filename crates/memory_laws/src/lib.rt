//! Laws over the definitions of memory: what a range of addresses, a write and the start of a program
//! come to, address by address. Each law is the contract of a function that does nothing.
#![tactic(auto)]

ghost use Rattle.std.specs.Prelude.{◌≡◌, ℕ, ◌+◌, ◌-◌, ◌%◌, ◌<◌, ◌≤◌, ◌^◌, ◌↔◌, true, Some, None, if◌then◌else◌, List, length, slice_index, slice_index_or, IsSome};
ghost use Rattle.std.specs.FinMap.{get};
ghost use Rattle.elf32.specs.declared.segments.Segment.{Segment};
ghost use Rattle.memory_map.specs.Cells.{Map, all_can, first_without, byte_at, placed, start_map};
ghost use Rattle.memory_map.specs.declared.heap.Heap.{Heap};
ghost use Rattle.memory_map.specs.Heaps.{heap_size, start_heap, heap_cell, is_in_span, with_break};
ghost use Rattle.memory_laws.specs.Ranges.{EachCan, IsFirstWithout, IsOutside};
ghost use Rattle.memory_laws.specs.Writes.{rights_of_cell};
ghost use Rattle.memory_laws.specs.Starts.{AreLoaded, IsIn, IsOnStack, segment_cell, stack_cell};

use elf32::Image;

/// A range has a right exactly where each of its addresses, modulo 2^32, has it.
pub fn ranges_by_address()
    ensures { (right : ℕ) (memory : Map) (address len : ℕ) → address < 2 ^ 32 →
        (all_can right memory address len ≡ true) ↔ EachCan right memory address len }
{}

/// The fault of a range is its first address, modulo 2^32, that lacks the right.
pub fn fault_is_the_first()
    ensures { (right : ℕ) (memory : Map) (address len fault : ℕ) → address < 2 ^ 32 →
        (first_without right memory address len ≡ Some fault) ↔ IsFirstWithout right memory address len fault }
{}

/// Placed bytes change no rights, and give no address a cell that had none.
pub fn placed_keeps_rights()
    ensures { (memory : Map) (address : ℕ) (bytes : List ℕ) (q : ℕ) →
        rights_of_cell (get (placed memory address bytes) q) ≡ rights_of_cell (get memory q) }
{}

/// Placed bytes change no cell but those at the addresses from the given one up, modulo 2^32.
pub fn placed_keeps_other_cells()
    ensures { (memory : Map) (address : ℕ) (bytes : List ℕ) (q : ℕ) → address < 2 ^ 32 →
        IsOutside address (length bytes) q → get (placed memory address bytes) q ≡ get memory q }
{}

/// Placed bytes stand at the addresses from the given one up, modulo 2^32, where these have cells.
pub fn placed_bytes_are_read()
    ensures { (memory : Map) (address : ℕ) (bytes : List ℕ) (i : ℕ) → address < 2 ^ 32 → length bytes ≤ 2 ^ 32 →
        i < length bytes → IsSome (get memory ((address + i) % 2 ^ 32)) →
        byte_at (placed memory address bytes) ((address + i) % 2 ^ 32) ≡ slice_index bytes i }
{}

/// The segments of every image are as the laws on the start ask.
pub fn images_are_loaded(image: &Image)
    ensures { AreLoaded image.now.segments }
{
    let _ = image;
}

/// At the start each address of a segment has the segment's byte there, or a zero after its bytes, and
/// the segment's rights.
pub fn segments_at_start()
    ensures { (segments : List Segment) (i address : ℕ) (d : Segment) → AreLoaded segments → i < length segments →
        IsIn (slice_index_or segments i d) address →
        get (start_map segments) address ≡ Some (segment_cell (slice_index_or segments i d) address) }
{}

/// At the start each address of the stack has a zero that may be read and written.
pub fn stack_at_start()
    ensures { (segments : List Segment) (address : ℕ) → IsOnStack address →
        get (start_map segments) address ≡ Some stack_cell }
{}

/// At the start no other address has a cell. So none from 2^32 on has one.
pub fn nothing_else_at_start()
    ensures elsewhere { (segments : List Segment) (address : ℕ) → AreLoaded segments →
        ((i : ℕ) (d : Segment) → i < length segments → ¬ (IsIn (slice_index_or segments i d) address)) →
        ¬ (IsOnStack address) → get (start_map segments) address ≡ None }
    ensures beyond { (segments : List Segment) (address : ℕ) → AreLoaded segments → 2 ^ 32 ≤ address →
        get (start_map segments) address ≡ None }
{}

/// At the start a heap has no byte, and no address where it may have one has a cell. All are below 2^32.
pub fn heap_at_start()
    ensures empty { (segments : List Segment) (heap : Heap) → start_heap segments ≡ Some heap → heap.brk ≡ heap.start }
    ensures apart { (segments : List Segment) (heap : Heap) (address : ℕ) → AreLoaded segments →
        start_heap segments ≡ Some heap → heap.start ≤ address → address < heap.start + heap_size →
        get (start_map segments) address ≡ None }
    ensures below { (segments : List Segment) (heap : Heap) → start_heap segments ≡ Some heap →
        heap.start + heap_size < 2 ^ 32 }
{}

/// As the break moves, the bytes from the old one up to the new one are zeros that may be read and written, those from
/// the new one up to the old one have no cell, and no other cell changes.
pub fn break_moves_what_is_between()
    ensures { (memory : Map) (old new q : ℕ) → get (with_break memory old new) q
        ≡ (if is_in_span new (old - new) q then None else if is_in_span old (new - old) q then Some heap_cell else get memory q) }
{}
