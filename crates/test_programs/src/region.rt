//! Regions for programs.

ghost use Rattle.std.specs.Prelude.{◌≡◌, []};

use rv_assemble::{Bytes, Region};
use std::alloc::Global;

/// A region of zeros, which takes no memory.
pub fn zeros(alloc: Global, base: u32, size: u32, rights: u32) -> Region
    ensures { result ≡ record { base = base; size = size; rights = rights; bytes = [] } }
{
    Region {
        base,
        size,
        rights,
        bytes: Bytes::from_vec(Vec::new(alloc)),
    }
}
