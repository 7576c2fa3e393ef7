//! Accesses to the memory of a small program.

use elf32::read_image;
use memory_map::Memory;
use std::alloc::Global;
use std::test::Fail;

static PROGRAM: [u8; 190] = [
    // ELF header: ET_EXEC, EM_RISCV, e_entry 00001000, e_phoff 52, e_phnum 4
    127, 69, 76, 70, 1, 1, 1, 0, 0, 0, 0, 0, 0, 0, 0, 0, 2, 0, 243, 0, 1, 0, 0, 0, 0, 16, 0, 0, 52,
    0, 0, 0, 0, 0, 0, 0, 0, 0, 0, 0, 52, 0, 32, 0, 4, 0, 0, 0, 0, 0, 0, 0,
    // PT_LOAD: 4 bytes at 00001000, 6 in memory, rights 7
    1, 0, 0, 0, 180, 0, 0, 0, 0, 16, 0, 0, 0, 16, 0, 0, 4, 0, 0, 0, 6, 0, 0, 0, 7, 0, 0, 0, 1, 0,
    0, 0,
    // PT_LOAD: 2 bytes at 00001006, 2 in memory, rights 6
    1, 0, 0, 0, 184, 0, 0, 0, 6, 16, 0, 0, 6, 16, 0, 0, 2, 0, 0, 0, 2, 0, 0, 0, 6, 0, 0, 0, 1, 0,
    0, 0,
    // PT_LOAD: 2 bytes at fffffffe, 2 in memory, rights 7
    1, 0, 0, 0, 186, 0, 0, 0, 254, 255, 255, 255, 254, 255, 255, 255, 2, 0, 0, 0, 2, 0, 0, 0, 7, 0,
    0, 0, 1, 0, 0, 0,
    // PT_LOAD: 2 bytes at 00000000, 2 in memory, rights 7
    1, 0, 0, 0, 188, 0, 0, 0, 0, 0, 0, 0, 0, 0, 0, 0, 2, 0, 0, 0, 2, 0, 0, 0, 7, 0, 0, 0, 1, 0, 0,
    0,
    // the segments' bytes
    1, 2, 3, 4, 7, 8, 17, 34, 51, 68,
];

fn started(alloc: Global) -> Result<Memory, Fail> {
    let image = read_image(alloc, &PROGRAM)?;
    Ok(Memory::start(alloc, &image)?)
}

/// Whether a start has the segments, the zeros after them, and the stack.
fn has_segments_zeros_and_stack(memory: &Memory) -> bool {
    memory.load(0x0fff) == None
        && memory.load_word(0x1000) == Ok(0x0403_0201)
        && memory.load_half(0x1004) == Ok(0)
        && memory.load(0x1008) == None
        && memory.load_word(0x7fff_fffc) == Ok(0)
        && memory.load(0x8000_0000) == None
        && memory.fetch(0x7ff0_0000) == None
}

/// Whether accesses go on at address 0 after the last.
fn wraps(memory: &mut Memory) -> bool {
    memory.load_word(0xffff_fffe) == Ok(0x4433_2211)
        && memory.fetch(0xffff_fffe) == Some(0x4433_2211)
        && memory.load_half(0xffff_ffff) == Ok(0x3322)
        && memory.store_bytes(0xffff_ffff, &[5, 6]) == Ok(())
        && memory.load_word(0xffff_fffe) == Ok(0x4406_0511)
        && memory.readable(0xffff_fffe, 4)
        && !memory.writable(0xffff_fffe, 5)
        && memory.load_word(0xffff_ffff) == Err(2)
}

/// Whether accesses cross from a segment to one that touches it.
fn crosses(memory: &mut Memory) -> bool {
    memory.load_word(0x1004) == Ok(0x0807_0000)
        && memory.fetch(0x1004) == None
        && memory.store_bytes(0x1005, &[9, 10]) == Ok(())
        && memory.load_word(0x1004) == Ok(0x080a_0900)
}

/// Whether a store that is refused changes nothing.
fn refuses_whole_stores(memory: &mut Memory) -> bool {
    memory.store_bytes(0x1006, &[1, 2, 3, 4]) == Err(0x1008)
        && memory.load_half(0x1006) == Ok(0x0807)
        && memory.store(0x1007, 9)
        && !memory.store(0x1008, 9)
        && memory.load_half(0x1006) == Ok(0x0907)
}

/// Whether an empty range may be anywhere.
fn takes_empty_ranges(memory: &mut Memory) -> bool {
    memory.readable(0x5000, 0)
        && memory.writable(0x5000, 0)
        && memory.store_bytes(0x5000, &[]) == Ok(())
        && !memory.readable(0x5000, 1)
}

/// What the memory of the program doesn't do. Each is asked of a memory of its own.
fn first_wrong(alloc: Global) -> Result<Option<&'static str>, Fail> {
    if !has_segments_zeros_and_stack(&started(alloc)?) {
        return Ok(Some("starts with segments, zeros and the stack"));
    }
    if !wraps(&mut started(alloc)?) {
        return Ok(Some("wraps after the last address"));
    }
    if !crosses(&mut started(alloc)?) {
        return Ok(Some("crosses touching segments"));
    }
    if !refuses_whole_stores(&mut started(alloc)?) {
        return Ok(Some("refuses whole stores"));
    }
    if !takes_empty_ranges(&mut started(alloc)?) {
        return Ok(Some("takes empty ranges anywhere"));
    }
    Ok(None)
}

#[test]
fn accesses(rt: HostRuntime) -> Result<(), Fail> {
    assert_eq!(rt; first_wrong(rt.alloc())?, None);
    Ok(())
}
