//! The list of chunks, which leads from a number to its place. `table` has one.
ghost use Rattle.std.specs.Prelude.{◌≡◌, ◌+◌, ◌*◌, ◌^◌, ◌<◌, [], ◌∷◌, ◌++◌, Some, length, slice_get, slice_set, IfOk, IsTrue};
ghost use Rattle.std.specs.Mem.{type_size};
ghost use Rattle.term_arena.specs.Chunks.{IsChunk, IsChunkList, HasRoom, items_of, IsLinkTo, KeepsLinks};

use super::link::{Chunk, Link};
use super::{PLACES, raw};
use core::slots::{release, reserve};
use no_memory::NoMemory;
use std::alloc::{AllocError, Global};

/// Values by number, in chunks that are never moved or grown.
pub(crate) struct ChunkList<T> {
    chunks: Vec<Chunk<T>>,
    len: usize,
    alloc: Global,
}

/// A chunk of empty places, as many as `like` has values.
fn take_chunk<T>(alloc: &Global, like: &[T]) -> Result<Chunk<T>, NoMemory>
    requires { length like.now ≡ PLACES }
    ensures { IfOk result (λ c. IsChunk alloc.now c) }
{
    let (slots, lease) = unsafe { reserve(alloc, like) }?;
    let (slots, start) = raw::start_of(slots);
    let lease = raw::at_block_start(lease);
    Ok(Chunk {
        slots,
        start,
        lease,
    })
}

/// Gives a chunk back. Its values are forgotten.
fn free_chunk<T>(alloc: &Global, chunk: Chunk<T>)
    requires { IsChunk alloc.now chunk }
{
    let Chunk {
        slots,
        start: _,
        lease,
    } = chunk;
    release(alloc, slots, lease);
}

impl<T> ChunkList<T> {
    pub(crate) fn new(alloc: Global) -> ChunkList<T>
        ensures { IsChunkList result × (items_of result ≡ []) }
    {
        ChunkList {
            chunks: Vec::new(alloc),
            len: 0,
            alloc,
        }
    }

    pub(crate) fn len(&self) -> usize
        requires { IsChunkList self.now }
        ensures { result ≡ length (items_of self.now) }
    {
        self.len
    }

    /// Whether an empty place is left.
    pub(crate) fn has_room(&self) -> bool
        requires { IsChunkList self.now }
        ensures { IsTrue result → HasRoom self.now }
    {
        self.len < usize::MAX && self.len / PLACES < self.chunks.len()
    }

    /// Takes one more chunk. After a refusal nothing has changed. `like` has a value for each place
    /// of a chunk, and none of its values is kept.
    pub(crate) fn grow(&mut self, like: &[T]) -> Result<(), NoMemory>
        requires { IsChunkList self.old × (length like.now ≡ PLACES) }
        ensures kept { IsChunkList self.new × (items_of self.new ≡ items_of self.old) × KeepsLinks T.row self.old self.new }
        ensures room { IfOk result (λ _. HasRoom self.new) }
    {
        if self.len == usize::MAX {
            return Err(AllocError);
        }
        self.chunks.reserve(1)?;
        let chunk = take_chunk(&self.alloc, like)?;
        self.chunks.push_reserved(chunk);
        Ok(())
    }

    /// Fills the first empty place.
    pub(crate) fn place(&mut self, item: T)
        requires { IsChunkList self.old × HasRoom self.old }
        ensures { IsChunkList self.new × (items_of self.new ≡ items_of self.old ++ item ∷ []) × KeepsLinks T.row self.old self.new }
    {
        let chunk = &mut self.chunks[self.len / PLACES];
        chunk.slots.put(self.len % PLACES, item);
        self.len += 1;
    }

    /// The value of a number.
    pub(crate) fn get(&self, number: usize) -> &T
        requires { IsChunkList self.now × (number < length (items_of self.now)) }
        ensures { slice_get (items_of self.now) number ≡ Some result.now }
    {
        let chunk = &self.chunks[number / PLACES];
        chunk.slots.get(number % PLACES)
    }

    /// Puts a value over that of a number, which is forgotten.
    pub(crate) fn replace(&mut self, number: usize, item: T)
        requires { IsChunkList self.old × (number < length (items_of self.old)) }
        ensures { IsChunkList self.new × (items_of self.new ≡ slice_set (items_of self.old) number item) × KeepsLinks T.row self.old self.new }
    {
        let chunk = &mut self.chunks[number / PLACES];
        chunk.slots.put(number % PLACES, item);
    }

    /// The link to the place of a number.
    pub(crate) fn link_to(&self, number: usize) -> Link
        requires there { IsChunkList self.now × (number < length (items_of self.now)) }
        requires fits { PLACES * type_size T.row < 2 ^ 63 }
        ensures { IsLinkTo T.row self.now number result }
    {
        let chunk = &self.chunks[number / PLACES];
        raw::link_to(chunk.start, number % PLACES, number as u64)
    }

    /// The value that a link leads to.
    pub(crate) fn follow<'a>(&'a self, link: &'a Link) -> &'a T
        requires { IsChunkList self.now × IsLinkTo T.row self.now link.now.number link.now }
        ensures { slice_get (items_of self.now) link.now.number ≡ Some result.now }
    {
        raw::follow(&self.chunks, link)
    }

    /// Gives every chunk back.
    pub(crate) fn free(self)
        requires { IsChunkList self }
    {
        let ChunkList {
            mut chunks,
            len: _,
            alloc,
        } = self;
        while let Some(chunk) = chunks.pop() {
            free_chunk(&alloc, chunk);
        }
        chunks.destroy_empty();
    }
}
