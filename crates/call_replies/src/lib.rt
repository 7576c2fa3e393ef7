//! The table of calls: the reply to a call of a program, as a value, by the program's memory and by how much of the input is
//! left. The machine does what a reply says, and so does its replay.
//!
//! Nothing here takes memory, and no call is refused.
#![tactic(auto)]

ghost use Rattle.std.specs.Prelude.{◌≡◌, ℕ, ◌≤◌, slice_index};
ghost use Rattle.call_replies.specs.Calls.{read_reply, write_reply, break_reply, reply_to};
ghost use Rattle.call_replies.specs.Replies.{moved, IsWritable, IsOfHeap};

use memory_map::{Heap, Memory};

/// -9 as a word, EBADF of Linux negated: no such descriptor.
const BAD_DESCRIPTOR: u32 = 0xffff_fff7;

/// -14 as a word, EFAULT of Linux negated: an address lacks a right.
const BAD_ADDRESS: u32 = 0xffff_fff2;

/// -38 as a word, ENOSYS of Linux negated: no such call.
const NO_SUCH_CALL: u32 = 0xffff_ffda;

/// What comes of a call.
#[derive(Clone, Copy, Debug)]
pub enum Reply {
    /// An answer in a0.
    Answers(u32),
    /// The next so many bytes of the input are moved to the addresses from a1 up, and counted in a0.
    Moves(u32),
    /// The heap's break is moved to an address, which is the answer in a0.
    Breaks(Heap, u32),
    /// The end of the run, with a code.
    Exits(u32),
}

/// The reply to the call read, with so many bytes left of the input.
fn read_reply(memory: &Memory, left: u32, descriptor: u32, address: u32, size: u32) -> Reply
    ensures most { moved result ≤ left }
    ensures heap { IsOfHeap memory.now.heap result }
    ensures writable { IsWritable memory.now.map address result }
    ensures reply { result ≡ read_reply memory.now.map left descriptor address size }
{
    let count = size.min(left);
    if descriptor != 0 {
        Reply::Answers(BAD_DESCRIPTOR)
    } else if memory.writable(address, count) {
        Reply::Moves(count)
    } else {
        Reply::Answers(BAD_ADDRESS)
    }
}

/// The reply to the call write.
fn write_reply(memory: &Memory, descriptor: u32, address: u32, size: u32) -> Reply
    ensures most { moved result ≡ 0 }
    ensures heap { IsOfHeap memory.now.heap result }
    ensures writable { (a : ℕ) → IsWritable memory.now.map a result }
    ensures reply { result ≡ write_reply memory.now.map descriptor address size }
{
    if descriptor != 1 && descriptor != 2 {
        Reply::Answers(BAD_DESCRIPTOR)
    } else if memory.readable(address, size) {
        Reply::Answers(size)
    } else {
        Reply::Answers(BAD_ADDRESS)
    }
}

/// The reply to the call brk.
fn break_reply(memory: &Memory, address: u32) -> Reply
    ensures most { moved result ≡ 0 }
    ensures heap { IsOfHeap memory.now.heap result }
    ensures writable { (a : ℕ) → IsWritable memory.now.map a result }
    ensures reply { result ≡ break_reply memory.now.heap address }
{
    match memory.heap() {
        Some(heap) => {
            if heap.may_break(address) {
                Reply::Breaks(heap, address)
            } else {
                Reply::Answers(heap.brk)
            }
        }
        None => Reply::Answers(NO_SUCH_CALL),
    }
}

/// The reply to a call, by the values of a7, a0, a1 and a2, with so many bytes left of the input.
#[tactic(auto, unfolding(crate::specs::Calls::reply_to))]
pub fn reply_to(memory: &Memory, left: u32, call: [u32; 4]) -> Reply
    ensures most { moved result ≤ left }
    ensures writable { IsWritable memory.now.map (slice_index call 2) result }
    ensures heap { IsOfHeap memory.now.heap result }
    ensures reply { result
        ≡ reply_to memory.now.map memory.now.heap left (slice_index call 0) (slice_index call 1) (slice_index call 2) (slice_index call 3) }
{
    match call[0] {
        63 => read_reply(memory, left, call[1], call[2], call[3]),
        64 => write_reply(memory, call[1], call[2], call[3]),
        93 | 94 => Reply::Exits(call[1]),
        214 => break_reply(memory, call[1]),
        _ => Reply::Answers(NO_SUCH_CALL),
    }
}
