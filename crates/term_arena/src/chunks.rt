//! Nodes by number and by value, in raw memory.
//!
//! Nodes lie in chunks of `PLACES` places that are never moved or grown. A list of chunks leads
//! from a number to its node. Each node has its number and a link to the next node of its bucket
//! (open hashing with chains). All raw pointers stay in this module, and what reads or makes one in
//! `raw`: the arena sees a list of distinct nodes.

mod link;
mod list;
mod raw;
mod table;

pub(crate) use table::NodeTable;

/// How many places a chunk has.
pub(crate) const PLACES: usize = 1024;
