//! Registers and memory as numbers and terms.

ghost use Rattle.std.specs.Prelude.{◌≡◌, ◌<◌, ◌≤◌, ◌+◌, ◌^◌, ◌&&◌, ◌==◌, nat_le, nat_lt, if◌then◌else◌, true, ℕ, List};
ghost use Rattle.std.specs.Prelude.{Some, None, IfSome, IfNone, IsSome, IfOk, OnOk, All};
ghost use Rattle.term_model.specs.Tree.{Tree, Const};
ghost use Rattle.term_arena.specs.Trees.{tree_of, Extends};
ghost use Rattle.memory_map.specs.Cells.{fetched};
ghost use Rattle.memory_map.specs.Heaps.{may_break, with_break};
ghost use Rattle.replay_law.specs.Terms.{put_reg, with_tree, zero_between, start_terms};
ghost use Rattle.sym_replay.specs.Cells.{over_bare_cells};
ghost use Rattle.sym_replay.specs.Values.{value_tree, IsTermIn, IsValueIn, IsValueOf};
ghost use Rattle.sym_replay.specs.States.{terms_of, register_tree, AreWithin, HoldsBytes, IsKnownByte, IsKnownWord, IsState};
ghost use Rattle.std.specs.Ordering.{nat_cmp};
ghost use Rattle.std.specs.BTreeMap.{get};

use crate::value::Value;
use elf32::{Image, Segment};
use machine_laws::starts_in_state;
use memory_map::{Heap, Memory};
use no_memory::NoMemory;
use rv_word::byte_of;
use std::alloc::Global;
use std::collections::BTreeMap;
use term_arena::{Arena, Term};

/// The last address that has three more above it.
const LAST_WORD: u32 = 0xffff_fffc;

/// That bytes are below 256, as their type says.
fn are_bytes(bytes: &[u8])
    ensures { All (λ b. b < 256) bytes.now }
{
    let _ = bytes;
}

/// That the bytes of segments are below 256, as their types say. Nothing else is done.
fn segments_hold_bytes(segments: &[Segment])
    ensures { All (λ s. All (λ b. b < 256) s.bytes) segments.now }
{
    for segment in segments {
        are_bytes(segment.bytes.as_slice());
    }
}

/// Registers and memory over the input, and how many bytes of the input have been read.
#[derive(Drop)]
pub(crate) struct ReplayState {
    pub(crate) registers: [Value; 32],
    /// The addresses whose byte is a term.
    pub(crate) bytes: BTreeMap<u32, Term>,
    /// No address below has a term.
    pub(crate) lowest: u32,
    /// No address above has a term.
    pub(crate) highest: u32,
    pub(crate) place: u32,
    /// The addresses and rights of the run, and its bytes where there is no term.
    pub(crate) memory: Memory,
}

impl ReplayState {
    /// The state at the start of a program.
    pub(crate) fn start(alloc: Global, image: &Image) -> Result<ReplayState, NoMemory>
        ensures state { IfOk result (λ s. (trees : List Tree) → IsState trees s) }
        ensures terms { IfOk result (λ s. (trees : List Tree) →
            terms_of trees s ≡ over_bare_cells (start_terms image.now.segments)) }
    {
        starts_in_state();
        segments_hold_bytes(image.segments.as_slice());
        let memory = Memory::start(alloc, image)?;
        let mut registers = [Value::Known(0); 32];
        registers[2] = Value::Known(0x7fff_ff00);
        Ok(ReplayState {
            registers,
            bytes: BTreeMap::new(alloc),
            lowest: u32::MAX,
            highest: 0,
            place: 0,
            memory,
        })
    }

    /// The value of a register.
    pub(crate) fn register(&self, arena: &Arena, register: u8) -> Value
        requires state { IsState arena.now self.now }
        requires register { register < 32 }
        ensures { IsValueOf arena.now (register_tree arena.now self.now register) result }
    {
        let _ = arena;
        self.registers[register as usize]
    }

    /// Puts a value into a register. A write to x0 has no effect.
    pub(crate) fn put(&mut self, register: u8, v: Value)
        requires { register < 32 }
        ensures state { (trees : List Tree) → IsState trees self.old → IsValueIn trees v → IsState trees self.new }
        ensures terms { (trees : List Tree) →
            terms_of trees self.new ≡ put_reg register (value_tree trees v) (terms_of trees self.old) }
        ensures place { self.new.place ≡ self.old.place }
    {
        if register != 0 {
            self.registers[register as usize] = v;
        }
    }

    /// The term at an address, where there is one.
    fn term_at(&self, address: u32) -> Option<Term>
        requires { AreWithin self.now.bytes self.now.lowest self.now.highest }
        ensures { result ≡ get nat_cmp self.now.bytes address }
    {
        if address < self.lowest || address > self.highest {
            return None;
        }
        match self.bytes.get(&address) {
            Some(t) => Some(*t),
            None => None,
        }
    }

    /// Whether the byte at an address is known to be this one.
    fn knows(&self, address: u32, byte: u8) -> bool
        requires { AreWithin self.now.bytes self.now.lowest self.now.highest }
        ensures { result ≡ true → IsKnownByte self.now address byte }
    {
        self.term_at(address).is_none() && self.memory.byte(address) == byte
    }

    /// Whether all four addresses from one up, which don't go on at 0, lie beside the range of those that have terms.
    fn is_beside_terms(&self, address: u32) -> bool
        ensures fits { result ≡ true → address + 3 < 2 ^ 32 }
        ensures none { result ≡ true → AreWithin self.now.bytes self.now.lowest self.now.highest →
            (a : ℕ) → address ≤ a → a ≤ address + 3 → None ≡ get nat_cmp self.now.bytes a }
    {
        if address > LAST_WORD {
            return false;
        }
        if self.highest < address {
            return true;
        }
        address + 3 < self.lowest
    }

    /// Whether the four bytes from an address up are known to be those of a word. Where no term is near, memory's word is
    /// compared at once.
    #[inline(always)]
    pub(crate) fn knows_word(&self, address: u32, word: u32) -> bool
        requires within { AreWithin self.now.bytes self.now.lowest self.now.highest }
        requires held { HoldsBytes self.now.memory.map }
        ensures { result ≡ true → IsKnownWord self.now address word }
    {
        if self.is_beside_terms(address) {
            self.fetches(address, word)
        } else {
            self.knows_bytes(address, word)
        }
    }

    /// Whether memory's word at an address may be executed and is this one.
    fn fetches(&self, address: u32, word: u32) -> bool
        ensures { result ≡ true → fetched self.now.memory.map address ≡ Some word }
    {
        match self.memory.fetch(address) {
            Some(fetched) => fetched == word,
            None => false,
        }
    }

    /// Whether each of the four bytes from an address up is known to be that of a word.
    #[inline(never)]
    fn knows_bytes(&self, address: u32, word: u32) -> bool
        requires { AreWithin self.now.bytes self.now.lowest self.now.highest }
        ensures { result ≡ true → IsKnownWord self.now address word }
    {
        let second = address.wrapping_add(1);
        let third = second.wrapping_add(1);
        let fourth = third.wrapping_add(1);
        self.knows(address, byte_of(0, word))
            && self.knows(second, byte_of(1, word))
            && self.knows(third, byte_of(2, word))
            && self.knows(fourth, byte_of(3, word))
    }

    /// The value of the byte at an address.
    pub(crate) fn byte(&self, arena: &Arena, address: u32) -> Value
        requires { IsState arena.now self.now }
        ensures { IsValueOf arena.now ((terms_of arena.now self.now).bytes address) result }
    {
        let _ = arena;
        match self.term_at(address) {
            Some(t) => Value::Term(t),
            None => Value::Known(u32::from(self.memory.byte(address))),
        }
    }

    /// Puts a term at an address.
    pub(crate) fn put_term(&mut self, address: u32, t: Term) -> Result<(), NoMemory>
        ensures state { (trees : List Tree) → IsState trees self.old → IsTermIn trees t →
            OnOk result (IsState trees self.new) }
        ensures terms { (trees : List Tree) →
            OnOk result (terms_of trees self.new
            ≡ record (terms_of trees self.old) { bytes = with_tree (terms_of trees self.old).bytes address (tree_of trees t) }) }
        ensures registers { self.new.registers ≡ self.old.registers }
        ensures place { self.new.place ≡ self.old.place }
        ensures memory { self.new.memory ≡ self.old.memory }
    {
        self.bytes.insert(address, t)?;
        self.lowest = self.lowest.min(address);
        self.highest = self.highest.max(address);
        Ok(())
    }

    /// Takes away the term at an address, where there is one.
    fn forget(&mut self, address: u32)
        requires { AreWithin self.old.bytes self.old.lowest self.old.highest }
        ensures bytes { (q : ℕ) → get nat_cmp self.new.bytes q ≡ (if q == address then None else get nat_cmp self.old.bytes q) }
        ensures rest { self.new ≡ record self.old { bytes = self.new.bytes } }
    {
        if self.lowest <= address && address <= self.highest {
            self.bytes.remove(&address);
        }
    }

    /// Puts a number at an address that may be written, and answers whether it is one. Else nothing changes.
    fn put_number(&mut self, address: u32, byte: u8) -> bool
        requires { AreWithin self.old.bytes self.old.lowest self.old.highest }
        ensures state { (trees : List Tree) → IsState trees self.old → IsState trees self.new }
        ensures terms { (trees : List Tree) →
            terms_of trees self.new ≡ (if result
            then record (terms_of trees self.old) { bytes = with_tree (terms_of trees self.old).bytes address (Const byte) }
            else terms_of trees self.old) }
        ensures place { self.new.place ≡ self.old.place }
    {
        if self.memory.store(address, byte) {
            self.forget(address);
            true
        } else {
            false
        }
    }

    /// Puts a value at an address without a term, where it is a known byte and the address may be written, and answers
    /// whether that is so. Else nothing changes.
    fn put_known(&mut self, address: u32, v: &Value) -> bool
        requires { AreWithin self.old.bytes self.old.lowest self.old.highest }
        ensures state { (trees : List Tree) → IsState trees self.old → IsState trees self.new }
        ensures terms { (trees : List Tree) →
            terms_of trees self.new ≡ (if result
            then record (terms_of trees self.old) { bytes = with_tree (terms_of trees self.old).bytes address (value_tree trees v.now) }
            else terms_of trees self.old) }
        ensures place { self.new.place ≡ self.old.place }
    {
        match v {
            Value::Known(word) if *word < 0x100 => self.put_number(address, *word as u8),
            _ => false,
        }
    }

    /// Puts the value of a byte at an address.
    pub(crate) fn put_byte(
        &mut self,
        arena: &mut Arena,
        address: u32,
        v: &Value,
    ) -> Result<(), NoMemory>
        requires state { IsState arena.old self.old }
        requires value { IsValueIn arena.old v.now }
        ensures state { OnOk result (IsState arena.new self.new) }
        ensures terms { OnOk result (terms_of arena.new self.new
            ≡ record (terms_of arena.old self.old) {
              bytes = with_tree (terms_of arena.old self.old).bytes address (value_tree arena.old v.now);
            }) }
        ensures place { self.new.place ≡ self.old.place }
        ensures keeps { Extends arena.old arena.new }
    {
        if self.put_known(address, v) {
            return Ok(());
        }
        let t = v.interned(arena)?;
        self.put_term(address, t)
    }

    /// The first address from one up to another that has a term.
    fn first_between(&self, from: u32, to: u32) -> Option<u32>
        requires { from ≤ to }
        ensures some { IfSome result (λ a. (from ≤ a) × (a < to) × IsSome (get nat_cmp self.now.bytes a)) }
        ensures none { IfNone result ((q : ℕ) → from ≤ q → q < to → get nat_cmp self.now.bytes q ≡ None) }
    {
        match self.bytes.range(from..to).next() {
            Some((address, _)) => Some(*address),
            None => None,
        }
    }

    /// Takes away the terms from an address up to another.
    fn clear(&mut self, from: u32, to: u32)
        requires { from ≤ to }
        ensures bytes { (q : ℕ) → get nat_cmp self.new.bytes q ≡ (if nat_le from q && nat_lt q to then None else get nat_cmp self.old.bytes q) }
        ensures rest { self.new ≡ record self.old { bytes = self.new.bytes } }
    {
        while let Some(address) = self.first_between(from, to) {
            self.bytes.remove(&address);
        }
    }

    /// The heap's break moves to an address. The bytes that it moves past are zeros.
    pub(crate) fn move_break(&mut self, heap: Heap, address: u32)
        requires heap { self.old.memory.heap ≡ Some heap }
        requires place { may_break heap address ≡ true }
        ensures state { (trees : List Tree) → IsState trees self.old → IsState trees self.new }
        ensures terms { (trees : List Tree) → terms_of trees self.new ≡ record (terms_of trees self.old) {
          bytes = zero_between (terms_of trees self.old).bytes heap.brk address;
          cells = with_break (terms_of trees self.old).cells heap.brk address;
          heap = Some (record { start = heap.start; brk = address });
        } }
        ensures place { self.new.place ≡ self.old.place }
        ensures heap { self.new.memory.heap ≡ Some (record { start = heap.start; brk = address }) }
    {
        self.clear(heap.brk.min(address), heap.brk.max(address));
        self.memory.brk(address);
    }
}
