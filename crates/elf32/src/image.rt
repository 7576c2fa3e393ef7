//! What a program has in memory when it starts.

ghost use Rattle.std.specs.Prelude.{◌≡◌, ◌≤◌, ◌%◌};
ghost use Rattle.elf32.specs.Segments.{AreApart, AreOffStack, AreSized, total_size};

use crate::segments::Segments;

/// A program: where it starts, and its segments in ascending order of base.
///
/// The entry point is a multiple of 4. No two segments share a byte, and none shares one with the stack,
/// which has the addresses 7ff00000 to 7fffffff. Each segment has a size above 0, ends at 2^32 at the
/// latest, holds no more bytes than its size, and has rights below 8. Their sizes sum to at most
/// 64 MiB.
#[derive(Drop)]
pub struct Image {
    pub entry: u32,
    pub segments: Segments,
    pub ghost aligned: { entry % 4 ≡ 0 },
    pub ghost apart: { AreApart segments },
    pub ghost off_stack: { AreOffStack segments },
    pub ghost sized: { AreSized segments },
    pub ghost small: { total_size segments ≤ 67108864 },
}
