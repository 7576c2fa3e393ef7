//! The memory of a machine.

ghost use Rattle.std.specs.Prelude.{◌≡◌, ◌+◌, ◌<◌, ◌≤◌, ◌^◌, None, IfSome, IfNone, IfOk, OnOk, OnErr};
ghost use Rattle.std.specs.Prelude.{if◌then◌else◌, length, map, replicate, ◌++◌};
ghost use Rattle.std.specs.Bool.{OnTrue};
ghost use Rattle.std.specs.FinMap as finmap;
ghost use Rattle.elf32.specs.Segments.{AreSized};
ghost use Rattle.memory_map.specs.Cells.{read, write, byte_at, readable_byte, half_at, word_at, fetched, can, all_can, first_without};
ghost use Rattle.memory_map.specs.Cells.{ok_unless, with_byte, placed, start_map, cells_from, stack_cells};
ghost use Rattle.memory_map.specs.Layout.{CanFrom, IsPartAt, IsRun, part_of, heap_parts};
ghost use Rattle.memory_map.specs.Heaps.{break_answer, after_break, start_heap};

use crate::heap::{HEAP_SIZE, Heap, start_heap};
use crate::parts::{region_of, write_at};
use crate::region::{EXECUTE, READ, Region, WRITE};
use elf32::{Image, Segment};
use no_memory::NoMemory;
use std::alloc::Global;
use std::marker::Model;

/// The stack's first address.
const STACK_BASE: u32 = 0x7ff0_0000;

/// The number of the stack's bytes. The address after its last is 80000000.
const STACK_SIZE: usize = 0x0010_0000;

/// Bytes with rights, at addresses of 32 bits. Only [`Memory::start`] and [`Memory::copy`] take memory from
/// the allocator.
#[derive(Drop)]
pub struct Memory {
    stack: Region,
    /// The segments in ascending order, and past them the heap, where there is one.
    regions: Vec<Region>,
    heap: Option<Heap>,
}

impl Model for Memory {
    ghost use Rattle.std.specs.Prelude.{◌∷◌};
    ghost use Rattle.memory_map.specs.Heaps.{Space, space_code};
    ghost use Rattle.memory_map.specs.Layout.{map_of, IsLaidOut, HasHeap};

    ghost Value = { Space };

    ghost coded = { space_code };

    ghost view = { λ m. record { map = map_of (m.stack ∷ m.regions.items); heap = m.heap } };

    ghost invariant = { λ m. IsLaidOut m.stack m.regions.items × HasHeap m.stack m.regions.items m.heap };
}

impl Memory {
    /// The region that holds an address.
    fn region(&self, address: u32) -> Option<&Region>
        ensures some { IfSome result (λ r. IsPartAt (finmap.get self.now.map) address r.now) }
        ensures none { IfNone result (finmap.get self.now.map address ≡ None) }
    {
        region_of(&self.stack, &self.regions, address)
    }

    /// The bytes from an address to the end of its region, where they have a right. Else none.
    #[inline(always)]
    fn run(&self, right: u32, address: u32) -> &[u8]
        ensures { IsRun right self.now.map address result.now }
    {
        match self.region(address) {
            Some(region) => {
                if region.allows(right) {
                    region.rest(address)
                } else {
                    &[]
                }
            }
            None => &[],
        }
    }

    /// The byte at an address, whatever its rights are, and 0 where there is none.
    pub fn byte(&self, address: u32) -> u8
        ensures { result ≡ byte_at self.now.map address }
    {
        match self.region(address) {
            Some(region) => region.byte(address),
            None => 0,
        }
    }

    /// The first of `len` addresses, modulo 2^32, that lacks a right.
    fn first_without(&self, right: u32, address: u32, len: u32) -> Option<u32>
        ensures { result ≡ first_without right self.now.map address len }
    {
        let mut at = address;
        let mut left = len;
        while left > 0 {
            let run = self.run(right, at).len();
            if run == 0 {
                return Some(at);
            }
            if run >= left as usize {
                return None;
            }
            at = at.wrapping_add(run as u32);
            left -= run as u32;
        }
        None
    }

    /// Whether each of `len` addresses from one up, modulo 2^32, may be read. There may be none.
    pub fn readable(&self, address: u32, len: u32) -> bool
        ensures { result ≡ all_can read self.now.map address len }
    {
        self.first_without(READ, address, len).is_none()
    }

    /// Whether each of `len` addresses from one up, modulo 2^32, may be written. There may be none.
    pub fn writable(&self, address: u32, len: u32) -> bool
        ensures { result ≡ all_can write self.now.map address len }
    {
        self.first_without(WRITE, address, len).is_none()
    }

    /// The byte at an address, where it may be read. Else nothing.
    pub fn load(&self, address: u32) -> Option<u8>
        ensures { result ≡ readable_byte self.now.map address }
    {
        match self.run(READ, address) {
            [byte, ..] => Some(*byte),
            [] => None,
        }
    }

    /// The little-endian half word at an address, where its two bytes may be read. Else the address of
    /// the first that may not.
    pub fn load_half(&self, address: u32) -> Result<u16, u32>
        ensures { result ≡ ok_unless (first_without read self.now.map address 2) (half_at self.now.map address) }
    {
        match self.run(READ, address) {
            [low, high, ..] => Ok(u16::from_le_bytes([*low, *high])),
            _ => self.half_by_bytes(address),
        }
    }

    /// The half word at an address, byte by byte.
    #[inline(never)]
    fn half_by_bytes(&self, address: u32) -> Result<u16, u32>
        ensures { result ≡ ok_unless (first_without read self.now.map address 2) (half_at self.now.map address) }
    {
        match self.first_without(READ, address, 2) {
            Some(fault) => Err(fault),
            None => {
                let low = self.byte(address);
                let high = self.byte(address.wrapping_add(1));
                Ok(u16::from_le_bytes([low, high]))
            }
        }
    }

    /// The little-endian word at an address, where its four bytes may be read. Else the address of the
    /// first that may not.
    pub fn load_word(&self, address: u32) -> Result<u32, u32>
        ensures { result ≡ ok_unless (first_without read self.now.map address 4) (word_at self.now.map address) }
    {
        self.word(READ, address)
    }

    /// The little-endian word at an address, where its four bytes may be executed. Else nothing.
    #[inline(always)]
    pub fn fetch(&self, address: u32) -> Option<u32>
        ensures { result ≡ fetched self.now.map address }
    {
        self.word(EXECUTE, address).ok()
    }

    /// The word at an address, where its four bytes have a right. Else the first address that lacks it.
    #[inline(always)]
    fn word(&self, right: u32, address: u32) -> Result<u32, u32>
        ensures { result ≡ ok_unless (first_without right self.now.map address 4) (word_at self.now.map address) }
    {
        match self.run(right, address) {
            [a, b, c, d, ..] => Ok(u32::from_le_bytes([*a, *b, *c, *d])),
            _ => self.word_by_bytes(right, address),
        }
    }

    /// The word at an address, byte by byte.
    #[inline(never)]
    fn word_by_bytes(&self, right: u32, address: u32) -> Result<u32, u32>
        ensures { result ≡ ok_unless (first_without right self.now.map address 4) (word_at self.now.map address) }
    {
        match self.first_without(right, address, 4) {
            Some(fault) => Err(fault),
            None => Ok(self.bytes_as_word(address)),
        }
    }

    /// The word of the four bytes from an address up.
    fn bytes_as_word(&self, address: u32) -> u32
        ensures { result ≡ word_at self.now.map address }
    {
        let second = address.wrapping_add(1);
        let third = second.wrapping_add(1);
        let fourth = third.wrapping_add(1);
        u32::from_le_bytes([
            self.byte(address),
            self.byte(second),
            self.byte(third),
            self.byte(fourth),
        ])
    }

    /// Writes a byte at an address, where it may be written, and answers whether it may. Else nothing
    /// changes.
    pub fn store(&mut self, address: u32, byte: u8) -> bool
        ensures stored { result ≡ can write (finmap.get self.old.map address) }
        ensures after { self.new ≡ (if result
            then record self.old { map = with_byte self.old.map address byte (finmap.get self.old.map address) }
            else self.old) }
    {
        self.write_within(address, &[byte])
    }

    /// Writes bytes at the addresses from one up, modulo 2^32, where all may be written. Else nothing
    /// changes, and the error is the first address that may not.
    pub fn store_bytes(&mut self, address: u32, bytes: &[u8]) -> Result<(), u32>
        requires { length bytes.now < 2 ^ 32 }
        ensures answer { result ≡ ok_unless (first_without write self.old.map address (length bytes.now)) tt }
        ensures stored { OnOk result (self.new ≡ record self.old { map = placed self.old.map address bytes.now }) }
        ensures refused { OnErr result (self.new ≡ self.old) }
    {
        if self.write_within(address, bytes) {
            return Ok(());
        }
        match self.first_without(WRITE, address, bytes.len() as u32) {
            Some(fault) => Err(fault),
            None => {
                self.write_across(address, bytes);
                Ok(())
            }
        }
    }

    /// Writes bytes from an address up, where one region holds them all and they may be written. Else
    /// nothing changes.
    fn write_within(&mut self, address: u32, bytes: &[u8]) -> bool
        ensures written { OnTrue result (CanFrom write self.old.map address (length bytes.now)) }
        ensures within { OnTrue result (address + length bytes.now ≤ 2 ^ 32) }
        ensures one { length bytes.now ≡ 1 → result ≡ can write (finmap.get self.old.map address) }
        ensures after { self.new ≡ (if result then record self.old { map = placed self.old.map address bytes.now } else self.old) }
    {
        if self.stack.contains(address) {
            self.stack.write(address, bytes)
        } else {
            write_at(&mut self.regions, address, bytes)
        }
    }

    /// Writes bytes at the addresses from one up, modulo 2^32, all of which may be written.
    fn write_across(&mut self, address: u32, bytes: &[u8])
        requires { first_without write self.old.map address (length bytes.now) ≡ None }
        ensures { self.new ≡ record self.old { map = placed self.old.map address bytes.now } }
    {
        let mut at = address;
        for byte in bytes {
            self.store(at, *byte);
            at = at.wrapping_add(1);
        }
    }

    /// The heap, where the program has one.
    pub fn heap(&self) -> Option<Heap>
        ensures { result ≡ self.now.heap }
    {
        self.heap
    }

    /// The call brk: asks for the break to be at an address, and answers where it is then. None where the
    /// program has no heap.
    pub fn brk(&mut self, a: u32) -> Option<u32>
        ensures answer { result ≡ break_answer self.old.heap a }
        ensures after { self.new ≡ after_break self.old.map self.old.heap a }
    {
        let heap = self.heap?;
        if !heap.may_break(a) {
            return Some(heap.brk);
        }
        let last = self.regions.len() - 1;
        self.regions[last].resize((a - heap.start) as usize);
        self.heap = Some(Heap {
            start: heap.start,
            brk: a,
        });
        Some(a)
    }

    /// The memory of a machine at the start of a program: the bytes of each segment, zeros after them up
    /// to its size, the stack, whose 1,048,576 zeros from 7ff00000 on may be read and written, and a heap
    /// without a byte, where the program has one. Memory for all the heap's bytes is taken here. The one
    /// error is want of memory.
    pub fn start(alloc: Global, image: &Image) -> Result<Memory, NoMemory>
        ensures map { IfOk result (λ m. m.map ≡ start_map image.now.segments) }
        ensures heap { IfOk result (λ m. m.heap ≡ start_heap image.now.segments) }
    {
        let segments = image.segments.as_slice();
        let heap = start_heap(segments);
        let regions = regions_for(alloc, segments, heap)?;
        let stack = new_stack(alloc)?;
        Ok(Memory {
            stack,
            regions,
            heap,
        })
    }

    /// Another memory with the same cells and the same heap. Memory for all the heap's bytes is taken here
    /// too. The one error is want of memory.
    pub fn copy(&self, alloc: Global) -> Result<Memory, NoMemory>
        ensures { IfOk result (λ m. m ≡ self.now) }
    {
        let stack = self.stack.copy(alloc)?;
        let regions = copies(alloc, self.regions.as_slice())?;
        Ok(Memory {
            stack,
            regions,
            heap: self.heap,
        })
    }
}

/// Copies of regions, in the same order.
fn copies(alloc: Global, regions: &[Region]) -> Result<Vec<Region>, NoMemory>
    ensures { IfOk result (λ v. v.items ≡ regions.now) }
{
    let mut copies = Vec::with_capacity(alloc, regions.len())?;
    for region in regions {
        copies.push(region.copy(alloc)?)?;
    }
    Ok(copies)
}

/// Zeros.
fn zeros(alloc: Global, size: usize) -> Result<Vec<u8>, NoMemory>
    ensures items { IfOk result (λ v. v.items ≡ replicate size 0) }
    ensures size { IfOk result (λ v. length v.items ≡ size) }
{
    vec![in alloc; 0u8; size]
}

/// The stack: zeros that may be read and written.
fn new_stack(alloc: Global) -> Result<Region, NoMemory>
    ensures cells { IfOk result (λ r. cells_from r.base r.rights r.bytes ≡ stack_cells) }
    ensures base { IfOk result (λ r. r.base ≡ 0x7ff00000) }
    ensures size { IfOk result (λ r. length r.bytes ≡ 0x100000) }
{
    let bytes = zeros(alloc, STACK_SIZE)?;
    Ok(Region::new(STACK_BASE, READ + WRITE, bytes))
}

/// The region of a segment.
fn region_for(alloc: Global, segment: &Segment) -> Result<Region, NoMemory>
    requires { length segment.now.bytes ≤ segment.now.size }
    ensures { IfOk result (λ r. r ≡ part_of segment.now) }
{
    let mut bytes = Vec::from_slice(alloc, segment.bytes.as_slice())?;
    bytes.resize(segment.size as usize, 0)?;
    Ok(Region::new(segment.base, segment.rights, bytes))
}

/// The regions of segments, in the same order, and that of the heap.
fn regions_for(
    alloc: Global,
    segments: &[Segment],
    heap: Option<Heap>,
) -> Result<Vec<Region>, NoMemory>
    requires { AreSized segments.now }
    ensures { IfOk result (λ v. v.items ≡ map part_of segments.now ++ heap_parts heap) }
{
    let mut regions = Vec::new(alloc);
    for segment in segments {
        regions.push(region_for(alloc, segment)?)?;
    }
    match heap {
        Some(heap) => {
            let room = HEAP_SIZE as usize;
            regions.push(Region::with_room(alloc, heap.start, READ + WRITE, room)?)?;
        }
        None => {}
    }
    Ok(regions)
}
