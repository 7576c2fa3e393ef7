//! Regions of memory.

ghost use Rattle.std.specs.Prelude.{◌≡◌, ◌≤◌, ◌-◌, ◌+◌, IsTrue, IfOk, [], drop, slice_index, length, ◌&&◌, nat_le, if◌then◌else◌};
ghost use Rattle.memory_map.specs.Cells.{write};
ghost use Rattle.std.specs.Vec.{vec_capacity};
ghost use Rattle.memory_map.specs.Layout.{contains, allows, overwritten, resized, end_of};

use no_memory::NoMemory;
use std::alloc::Global;
use std::marker::Model;

/// The right to execute, PF_X of the System V gABI's "Program Header".
pub const EXECUTE: u32 = 1;

/// The right to write, PF_W.
pub const WRITE: u32 = 2;

/// The right to read, PF_R.
pub const READ: u32 = 4;

/// Bytes from an address up, all with the same rights.
#[derive(Drop)]
pub struct Region {
    base: u32,
    rights: u32,
    bytes: Vec<u8>,
    /// How many bytes there is memory for.
    room: usize,
}

impl Model for Region {
    ghost use Rattle.std.specs.Prelude.{◌≤◌};
    ghost use Rattle.std.specs.Vec.{vec_capacity};
    ghost use Rattle.memory_map.specs.Part.{Part, part_code};

    ghost Value = { Part };

    ghost coded = { part_code };

    ghost view = { λ r. record { base = r.base; rights = r.rights; bytes = r.bytes.items; room = r.room } };

    ghost invariant = { λ r. r.room ≤ vec_capacity r.bytes };
}

impl Region {
    /// A region with these bytes from an address up.
    pub fn new(base: u32, rights: u32, bytes: Vec<u8>) -> Self
        ensures { result ≡ record { base = base; rights = rights; bytes = bytes.items; room = 0 } }
    {
        Region {
            base,
            rights,
            bytes,
            room: 0,
        }
    }

    /// A region without bytes from an address up, with memory for so many.
    pub fn with_room(alloc: Global, base: u32, rights: u32, room: usize) -> Result<Self, NoMemory>
        ensures { IfOk result (λ r. r ≡ record { base = base; rights = rights; bytes = []; room = room }) }
    {
        let bytes = Vec::with_capacity(alloc, room)?;
        Ok(Region {
            base,
            rights,
            bytes,
            room,
        })
    }

    /// Cuts the bytes off after the first so many, or fills them up with zeros to so many.
    pub fn resize(&mut self, size: usize)
        requires { size ≤ self.old.room }
        ensures { self.new ≡ resized self.old size }
    {
        self.bytes.resize(size, 0).unwrap();
    }

    /// Another region with the same bytes and rights, and memory for as many bytes.
    pub fn copy(&self, alloc: Global) -> Result<Self, NoMemory>
        ensures { IfOk result (λ r. r ≡ self.now) }
    {
        let mut bytes = Vec::with_capacity(alloc, self.room.max(self.bytes.len()))?;
        bytes.extend_from_slice(self.bytes.as_slice())?;
        Ok(Region {
            base: self.base,
            rights: self.rights,
            bytes,
            room: self.room,
        })
    }

    /// The first address.
    pub fn base(&self) -> u32
        ensures { result ≡ self.now.base }
    {
        self.base
    }

    /// Whether the region has a byte at an address.
    pub fn contains(&self, address: u32) -> bool
        ensures { result ≡ contains self.now address }
    {
        self.base <= address && ((address - self.base) as usize) < self.bytes.len()
    }

    /// Whether the bytes have a right.
    pub fn allows(&self, right: u32) -> bool
        ensures { result ≡ allows self.now.rights right }
    {
        self.rights & right != 0
    }

    /// The bytes from an address to the region's end.
    pub fn rest(&self, address: u32) -> &[u8]
        requires { IsTrue (contains self.now address) }
        ensures { result.now ≡ drop (address - self.now.base) self.now.bytes }
    {
        &self.bytes[(address - self.base) as usize..]
    }

    /// The byte at an address.
    pub fn byte(&self, address: u32) -> u8
        requires { IsTrue (contains self.now address) }
        ensures { result ≡ slice_index self.now.bytes (address - self.now.base) }
    {
        self.bytes[(address - self.base) as usize]
    }

    /// Writes bytes from an address up, where all are within the region and may be written. Else
    /// nothing changes.
    pub fn write(&mut self, address: u32, bytes: &[u8]) -> bool
        requires { IsTrue (contains self.old address) }
        ensures written { result ≡ (allows self.old.rights write
            && nat_le (address + length bytes.now) (end_of self.old)) }
        ensures after { self.new ≡ (if result then overwritten self.old address bytes.now else self.old) }
    {
        let offset = (address - self.base) as usize;
        if !self.allows(WRITE) || bytes.len() > self.bytes.len() - offset {
            return false;
        }
        self.bytes[offset..offset + bytes.len()].copy_from_slice(bytes);
        true
    }
}
