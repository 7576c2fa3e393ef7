//! Regions in the order of their bases.

ghost use Rattle.std.specs.Prelude.{◌≡◌, Option, ◌≤◌, ◌^◌, ◌∷◌, None, IfSome, IfNone, length};
ghost use Rattle.std.specs.Bool.{OnTrue, OnFalse};
ghost use Rattle.std.specs.List.{All, AllPairs};
ghost use Rattle.memory_map.specs.Part.{Part};
ghost use Rattle.memory_map.specs.declared.heap.Heap.{Heap};
ghost use Rattle.memory_map.specs.Cells.{can, write};
ghost use Rattle.memory_map.specs.Layout.{IsHeldAt, IsPartAt, IsLaidOut, HasHeap, Overwrites, first_cell, end_of};

use crate::region::Region;

/// The place of the region that holds an address, found by its base.
#[inline(never)]
fn searched_place(regions: &[Region], address: u32) -> Option<usize>
    requires { AllPairs (λ p q. end_of p ≤ q.base) regions.now }
    ensures some { IfSome result (IsHeldAt regions.now address) }
    ensures none { IfNone result (first_cell regions.now address ≡ None) }
{
    let after = regions.partition_point(|r| r.base() <= address);
    if after == 0 {
        return None;
    }
    let place = after - 1;
    if regions[place].contains(address) {
        Some(place)
    } else {
        None
    }
}

/// The place of the region that holds an address. The first region, which has the code of most programs,
/// is tried before a search.
#[inline(always)]
fn place_of(regions: &[Region], address: u32) -> Option<usize>
    requires { AllPairs (λ p q. end_of p ≤ q.base) regions.now }
    ensures some { IfSome result (IsHeldAt regions.now address) }
    ensures none { IfNone result (first_cell regions.now address ≡ None) }
{
    if !regions.is_empty() && regions[0].contains(address) {
        return Some(0);
    }
    searched_place(regions, address)
}

/// The region that holds an address: the stack, or one of the others.
pub fn region_of<'a>(stack: &'a Region, regions: &'a [Region], address: u32) -> Option<&'a Region>
    requires { IsLaidOut stack.now regions.now }
    ensures some { IfSome result (λ r. IsPartAt (first_cell (stack.now ∷ regions.now)) address r.now) }
    ensures none { IfNone result (first_cell (stack.now ∷ regions.now) address ≡ None) }
{
    if stack.contains(address) {
        return Some(stack);
    }
    let place = place_of(regions, address)?;
    Some(&regions[place])
}

/// Writes bytes from an address up, where one of the regions holds them all and they may be written.
/// Else nothing changes.
pub fn write_at(regions: &mut [Region], address: u32, bytes: &[u8]) -> bool
    requires ascending { AllPairs (λ p q. end_of p ≤ q.base) regions.old }
    requires within { All (λ p. end_of p ≤ 2 ^ 32) regions.old }
    ensures written { OnTrue result (Overwrites (first_cell regions.old) (first_cell regions.new) address bytes.now) }
    ensures refused { OnFalse result (regions.new ≡ regions.old) }
    ensures one { length bytes.now ≡ 1 → result ≡ can write (first_cell regions.old address) }
    ensures laid_out { (stack : Part) → IsLaidOut stack regions.old → IsLaidOut stack regions.new }
    ensures heap { (stack : Part) (heap : Option Heap) → HasHeap stack regions.old heap → HasHeap stack regions.new heap }
{
    match place_of(regions, address) {
        Some(place) => regions[place].write(address, bytes),
        None => false,
    }
}
