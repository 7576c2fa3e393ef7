//! Reading a file.

ghost use Rattle.std.specs.Prelude.{◌≡◌, ◌≢◌, ◌+◌, ◌≤◌, ◌∷◌, false, length, IfOk, IfErr, Err, Some, None};
ghost use Rattle.std.specs.List.{list_any};
ghost use Rattle.std.specs.List.Sorted.{IsPermutation, IsNonDecreasingBy};
ghost use Rattle.elf32.specs.Rules.{is_outside, spans_of, memory_size, refusal};
ghost use Rattle.elf32.specs.Spans.{stack, overlap};
ghost use Rattle.elf32.specs.Segments.{AreApart, AreOffStack, AreSized, total_size};
ghost use Rattle.elf32.specs.Loads.{segment_of, segments_of, in_order, IsImageOf};

use crate::bytes::Bytes;
use crate::error::ElfError;
use crate::header::{E_ENTRY, E_PHNUM, E_PHOFF, Header, UNREAD, half_in, read_headers, word_in};
use crate::image::Image;
use crate::rules::{MOST_HEADERS, check_header, check_segments};
use crate::segments::{Segment, Segments};
use no_memory::NoMemory;
use std::alloc::Global;

/// The segment of a header.
fn segment_of(alloc: Global, bytes: &[u8], header: &Header) -> Result<Segment, NoMemory>
    requires { header.now.offset + header.now.filesz ≤ length bytes.now }
    ensures { IfOk result (λ s. s ≡ segment_of bytes.now header.now) }
{
    let start = header.offset as usize;
    let end = start + header.filesz as usize;
    let mut held = Vec::new(alloc);
    held.extend_from_slice(&bytes[start..end])?;
    Ok(Segment {
        base: header.vaddr,
        size: header.memsz,
        rights: header.flags % 8,
        bytes: Bytes::from_vec(held),
    })
}

/// The segments of the headers, in the file's order.
fn segments_of(alloc: Global, bytes: &[u8], headers: &[Header]) -> Result<Vec<Segment>, NoMemory>
    requires { list_any (is_outside (length bytes.now)) headers.now ≡ false }
    ensures { IfOk result (λ v. v.items ≡ segments_of bytes.now headers.now) }
{
    let mut segments = Vec::new(alloc);
    for header in headers {
        if header.is_loaded() {
            segments.push(segment_of(alloc, bytes, header)?)?;
        }
    }
    Ok(segments)
}

/// The segments in ascending order of base.
fn sorted(mut segments: Vec<Segment>) -> Result<Vec<Segment>, NoMemory>
    ensures permutation { IfOk result (λ v. IsPermutation segments.items v.items) }
    ensures order { IfOk result (λ v. IsNonDecreasingBy (λ s. s.base) v.items) }
{
    segments.sort_by_key(|s| s.base)?;
    Ok(segments)
}

/// The segments of headers that break no rule, in ascending order of base.
fn loaded_segments(alloc: Global, bytes: &[u8], headers: &[Header]) -> Result<Segments, NoMemory>
    requires inside { list_any (is_outside (length bytes.now)) headers.now ≡ false }
    requires apart { overlap (stack ∷ spans_of headers.now) ≡ false }
    requires small { memory_size headers.now ≤ 67108864 }
    ensures segments { IfOk result (λ s. s ≡ in_order (segments_of bytes.now headers.now)) }
    ensures apart { IfOk result AreApart }
    ensures off_stack { IfOk result AreOffStack }
    ensures sized { IfOk result AreSized }
    ensures small { IfOk result (λ s. total_size s ≤ 67108864) }
{
    let segments = sorted(segments_of(alloc, bytes, headers)?)?;
    Ok(Segments::from_vec(segments))
}

/// Reads a statically linked RV32IM program, whose fields stand where the System V gABI's "ELF Header"
/// and "Program Header" put them.
///
/// Where the file breaks a rule, the error names the first that it breaks, in the order of
/// [`ElfError`]. Only a file that breaks none takes memory: for its segments' bytes, at most 64 MiB in
/// all.
#[tactic(auto, unfolding(crate::specs::Fields::headers))]
pub fn read_image(alloc: Global, bytes: &[u8]) -> Result<Image, ElfError>
    ensures accepted { IfOk result (λ image. IsImageOf bytes.now image) }
    ensures refused { IfErr result (λ e. e ≢ ElfError.NoMemory → refusal bytes.now ≡ Some e) }
    ensures memory { result ≡ Err ElfError.NoMemory → refusal bytes.now ≡ None }
{
    check_header(bytes)?;
    let entry = word_in(bytes, E_ENTRY);
    let start = word_in(bytes, E_PHOFF) as usize;
    let count = usize::from(half_in(bytes, E_PHNUM));
    let mut table = [UNREAD; MOST_HEADERS];
    read_headers(bytes, start, &mut table[..count]);
    let headers = &table[..count];
    check_segments(bytes.len(), entry, headers)?;
    let segments = loaded_segments(alloc, bytes, headers)?;
    Ok(Image { entry, segments })
}
