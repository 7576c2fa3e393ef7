//! Whether memory can have code and regions.

ghost use Rattle.std.specs.Prelude.{◌≡◌, ◌+◌, ◌*◌, ◌^◌, ◌≤◌, ◌∷◌, map, length, nat_lt};
ghost use Rattle.std.specs.List.{list_any, sum_by};
ghost use Rattle.elf32.specs.Spans.{stack, share, overlap};
ghost use Rattle.rv_assemble.specs.Parts.{span_of};
ghost use Rattle.test_programs.specs.Program.{is_outside, cannot_load};

use rv_assemble::Region;

/// The regions that a program may have beside its code.
const MOST_REGIONS: usize = 63;

/// The bytes that code and regions may take in memory, 64 MiB.
const MOST_MEMORY: u64 = 0x0400_0000;

/// The instructions that fill this.
const MOST_INSTRUCTIONS: usize = 0x0100_0000;

/// The addresses, 4 GiB.
const ADDRESSES: u64 = 0x1_0000_0000;

/// Where code begins.
const CODE: u32 = 0x1_0000;

/// Where the stack begins, and how long it is.
const STACK: u32 = 0x7ff0_0000;

const STACK_SIZE: u32 = 0x10_0000;

/// Whether a region holds more than its size, has other rights, or ends past the addresses.
fn is_outside(region: &Region) -> bool
    ensures { result ≡ is_outside region.now }
{
    region.bytes.as_slice().len() > region.size as usize
        || region.rights > 7
        || u64::from(region.base) + u64::from(region.size) > ADDRESSES
}

/// Whether some region does so.
fn any_outside(regions: &[Region]) -> bool
    ensures { result ≡ list_any is_outside regions.now }
{
    regions.iter().any(is_outside)
}

/// Whether a region has one of the `size` addresses from `base` on.
fn shares(base: u32, size: u32, region: &Region) -> bool
    ensures { result ≡ share (record { base = base; size = size }) (span_of region.now) }
{
    let (other, other_size) = (region.base, region.size);
    let end = u64::from(base) + u64::from(size);
    let other_end = u64::from(other) + u64::from(other_size);
    u64::from(base.max(other)) < end.min(other_end)
}

/// The same of some region.
fn any_shares(base: u32, size: u32, regions: &[Region]) -> bool
    ensures { result ≡ list_any (λ r. share (record { base = base; size = size }) (span_of r)) regions.now }
{
    regions.iter().any(|region| shares(base, size, region))
}

/// The same of some region, as the list of all their addresses says it.
fn shares_with_any(base: u32, size: u32, regions: &[Region]) -> bool
    ensures { result ≡ list_any (share (record { base = base; size = size })) (map span_of regions.now) }
{
    any_shares(base, size, regions)
}

/// Whether two regions share an address.
#[tactic(auto, unfolding(elf32::specs::Spans::overlap))]
fn any_overlap(regions: &[Region]) -> bool
    ensures { result ≡ overlap (map span_of regions.now) }
{
    for i in 0..regions.len() {
        if shares_with_any(regions[i].base, regions[i].size, &regions[i + 1..]) {
            return true;
        }
    }
    false
}

/// Whether two of the stack, so many bytes of code and the regions share an address.
fn has_overlap(size: u32, regions: &[Region]) -> bool
    requires { size ≤ 67108864 }
    ensures { result ≡ overlap (stack ∷ record { base = 0x10000; size = size } ∷ map span_of regions.now) }
{
    if shares_with_any(STACK, STACK_SIZE, regions) {
        return true;
    }
    if shares_with_any(CODE, size, regions) {
        return true;
    }
    any_overlap(regions)
}

/// The bytes that regions take in memory.
fn memory_size(regions: &[Region]) -> u64
    requires { length regions.now ≤ 63 }
    ensures sum { result ≡ sum_by (λ r. r.size) regions.now }
    ensures small { result ≤ 63 * 2 ^ 32 }
{
    let mut total: u64 = 0;
    for region in regions {
        total += u64::from(region.size);
    }
    total
}

/// Whether so many instructions and the regions take more than 64 MiB.
fn is_too_large(count: usize, regions: &[Region]) -> bool
    requires { length regions.now ≤ 63 }
    ensures { result ≡ nat_lt 67108864 (4 * count + sum_by (λ r. r.size) regions.now) }
{
    count > MOST_INSTRUCTIONS || 4 * count as u64 + memory_size(regions) > MOST_MEMORY
}

/// Whether memory can't have `count` instructions and the regions.
pub fn cannot_load(count: usize, regions: &[Region]) -> bool
    ensures { result ≡ cannot_load count regions.now }
{
    if regions.len() > MOST_REGIONS || any_outside(regions) || is_too_large(count, regions) {
        return true;
    }
    has_overlap(4 * count as u32, regions)
}
