//! The nodes and their buckets: a hash table whose chains run through the nodes. The arena asks it
//! for a node's number, and puts new nodes at its end.
ghost use Rattle.std.specs.Prelude.{◌≡◌, ◌+◌, ◌<◌, ◌↔◌, ℕ, List, Contains, slice_index_or, [], ◌∷◌, ◌++◌, length, slice_get, Some, IfOk, OnOk, OnErr, MatchOption};
ghost use Rattle.term_arena.specs.Nodes.{AreDistinct};
ghost use Rattle.term_arena.specs.Entries.{nodes_of, IsAbsent, IsFound};
ghost use Rattle.term_arena.specs.Mixing.{mix, bucket_of};
ghost use Rattle.term_arena.specs.Chunks.{IsChunkList, HasRoom, items_of, KeepsLinks};
ghost use Rattle.term_arena.specs.Links.{target};
ghost use Rattle.term_arena.specs.Buckets.{entries_of, buckets, members, AreFalling, IsChain, IsTable, IsLinkedTo, AreEmpty};
ghost use Rattle.term_arena.specs.declared.chunks.link.Link.{Link};
ghost use Rattle.term_arena.specs.contracts.chunks.link.Placed.{the_row};

use super::link::{Link, Placed};
use super::list::ChunkList;
use super::{PLACES, raw};
use crate::entries::Entry;
use crate::nodes::Node;
use no_memory::NoMemory;
use std::alloc::Global;
use std::marker::Model;
use std::{array, mem};

/// How many buckets a table begins with.
const BUCKETS: usize = 1024;

/// Entries by number and by node, each node once.
pub(crate) struct NodeTable {
    list: ChunkList<Placed>,
    heads: Vec<Link>,
    alloc: Global,
}

impl Model for NodeTable {
    ghost use Rattle.std.specs.Prelude.{List};
    ghost use Rattle.term_arena.specs.declared.entries.Entry.{Entry};
    ghost use Rattle.term_arena.specs.Buckets.{entries_of, IsTable};

    ghost Value = { List Entry };

    ghost view = { λ t. entries_of t.list };

    ghost invariant = { λ t. IsTable t.list t.heads.items };
}

impl Drop for NodeTable {
    fn drop(self) {
        let NodeTable {
            list,
            heads: _,
            alloc: _,
        } = self;
        list.free();
    }
}

/// A number that spreads the nodes over the buckets, and leaves close to one another those that
/// differ in their last number alone. Nothing but speed rests on it.
#[tactic(auto, unfolding(crate::specs::Mixing::mix))]
fn mixed(node: Node) -> u64
    ensures { result ≡ mix node }
{
    let (first, second) = match node {
        Node::Const(v) => (1, u64::from(v)),
        Node::Input(i) => (2, u64::from(i)),
        Node::Apply(_, a, b) => (a.number().wrapping_add(3), b.number()),
    };
    first
        .wrapping_mul(0x9E37_79B9_7F4A_7C15)
        .wrapping_add(second)
}

/// The bucket of a node, of so many.
fn bucket(node: Node, count: usize) -> usize
    requires { 0 < count }
    ensures bucket { result ≡ bucket_of count node }
    ensures within { result < count }
{
    (mixed(node) % count as u64) as usize
}

/// As many empty buckets.
fn empty_buckets(alloc: Global, count: usize) -> Result<Vec<Link>, NoMemory>
    ensures { IfOk result (λ heads. AreEmpty heads.items count) }
{
    let mut heads = Vec::with_capacity(alloc, count)?;
    for _ in 0..count {
        heads.push_reserved(raw::no_link());
    }
    Ok(heads)
}

/// What lies in no chunk.
fn blank() -> Placed {
    let node = Node::Const(0);
    let entry = Entry {
        node,
        zero_bytes: [false; 4],
    };
    Placed {
        entry,
        number: 0,
        next: raw::no_link(),
    }
}

/// Takes a chunk where no place is empty.
fn keep_room(list: &mut ChunkList<Placed>) -> Result<(), NoMemory>
    requires { IsChunkList list.old }
    ensures kept { IsChunkList list.new × (items_of list.new ≡ items_of list.old) × KeepsLinks the_row list.old list.new }
    ensures room { IfOk result (λ _. HasRoom list.new) }
{
    if list.has_room() {
        return Ok(());
    }
    let like: [Placed; PLACES] = array::from_fn(|_| blank());
    list.grow(&like)
}

/// Puts a node into the chain of its bucket, where those before it are in theirs. It stays in its
/// place.
fn relink(list: &mut ChunkList<Placed>, heads: &mut [Link], number: usize)
    requires linked { IsLinkedTo list.old heads.old number }
    requires there { number < length (items_of list.old) }
    ensures linked { IsLinkedTo list.new heads.new (number + 1) }
    ensures entries { entries_of list.new ≡ entries_of list.old }
    ensures buckets { length heads.new ≡ length heads.old }
{
    let entry = list.get(number).entry;
    let own = bucket(entry.node, heads.len());
    let next = mem::replace(&mut heads[own], raw::no_link());
    let placed = Placed {
        entry,
        number: number as u64,
        next,
    };
    list.replace(number, placed);
    heads[own] = list.link_to(number);
}

/// Each chain ends, and goes through each node of its bucket once, from the last to the first.
fn each_node_is_in_its_chain(_list: &ChunkList<Placed>, _heads: &[Link])
    requires { IsTable _list.now _heads.now }
    ensures chains { (b : ℕ) (head : Link) → slice_get _heads.now b ≡ Some head →
        IsChain _list.now (target head) (members (buckets (length _heads.now) (items_of _list.now)) b (length (items_of _list.now))) }
    ensures members { (bs : List ℕ) (b n k : ℕ) → Contains (members bs b n) k ↔ ((k < n) × (slice_index_or bs k 0 ≡ b)) }
    ensures once { (bs : List ℕ) (b n : ℕ) → AreFalling (members bs b n) }
{}

impl NodeTable {
    /// A table with no nodes.
    pub(crate) fn new(alloc: Global) -> Result<NodeTable, NoMemory>
        ensures { IfOk result (λ t. t ≡ []) }
    {
        let heads = empty_buckets(alloc, BUCKETS)?;
        Ok(NodeTable {
            list: ChunkList::new(alloc),
            heads,
            alloc,
        })
    }

    /// How many nodes there are. No two are equal.
    pub(crate) fn len(&self) -> u64
        ensures len { result ≡ length self.now }
        ensures distinct { AreDistinct (nodes_of self.now) }
    {
        self.list.len() as u64
    }

    /// The entry of a number.
    pub(crate) fn get(&self, number: u64) -> Entry
        requires { number < length self.now }
        ensures { slice_get self.now number ≡ Some result }
    {
        self.list.get(number as usize).entry
    }

    /// The number of a node, by the chain of its bucket.
    pub(crate) fn find(&self, node: &Node) -> Option<u64>
        ensures { MatchOption result (IsAbsent self.now node.now) (λ k. IsFound self.now node.now k) }
    {
        let mut link = &self.heads[bucket(*node, self.heads.len())];
        while !raw::is_end(link) {
            let placed = self.list.follow(link);
            if placed.entry.node == *node {
                return Some(placed.number);
            }
            link = &placed.next;
        }
        None
    }

    /// Puts an entry at the end, and its node, which is new, into the chain of its bucket.
    pub(crate) fn push(&mut self, entry: Entry) -> Result<u64, NoMemory>
        requires { IsAbsent self.old entry.node }
        ensures number { IfOk result (λ k. k ≡ length self.old) }
        ensures ok { OnOk result (self.new ≡ self.old ++ entry ∷ []) }
        ensures err { OnErr result (self.new ≡ self.old) }
    {
        self.keep_chains_short()?;
        keep_room(&mut self.list)?;
        let number = self.list.len();
        let own = bucket(entry.node, self.heads.len());
        let next = mem::replace(&mut self.heads[own], raw::no_link());
        self.list.place(Placed {
            entry,
            number: number as u64,
            next,
        });
        self.heads[own] = self.list.link_to(number);
        Ok(number as u64)
    }

    /// Doubles the buckets where there are as many nodes.
    fn keep_chains_short(&mut self) -> Result<(), NoMemory>
        ensures { self.new ≡ self.old }
    {
        if self.list.len() < self.heads.len() {
            return Ok(());
        }
        self.double()
    }

    /// Doubles the buckets and links every node anew. No node is moved. After a refusal nothing has
    /// changed.
    fn double(&mut self) -> Result<(), NoMemory>
        ensures { self.new ≡ self.old }
    {
        let mut heads = empty_buckets(self.alloc, 2 * self.heads.len())?;
        for number in 0..self.list.len() {
            relink(&mut self.list, &mut heads, number);
        }
        self.heads = heads;
        Ok(())
    }
}
