//! Reading a file that was opened: over any reader, within a limit, with its reads and failures counted.

ghost use Rattle.std.specs.Prelude.{◌≡◌, ◌≢◌, ◌+◌, ◌<◌, ◌≤◌, Some, length, take, IfOk, IfSome, OnSome, IsErr, IsNone};
ghost use Rattle.std.specs.Io.KnownBytes.{Consumes, IsAtEnd};
ghost use Rattle.fault_io.specs.Faults.{raised};
ghost use Rattle.fault_io.specs.Files.{answer_for, IsWithin};

use crate::{Bytes, FetchFault, Fetched};
use std::alloc::Global;
use std::io::{self, Read};
use std::marker::Model;

/// A reader that counts its reads, and those that fail. The counts stop at 2^64 - 1.
#[derive(Drop)]
pub(crate) struct Source<R: Read + Drop> {
    reader: R,
    reads: u64,
    failed: u64,
}

impl<R: Read + Drop> Model for Source<R> {
    ghost use Rattle.fault_io.specs.Reads.{ReaderState};

    ghost Value = { ReaderState };

    ghost view = { λ source. record { left = R.remaining source.reader; reads = source.reads; faults = source.failed } };
}

impl<R: Read + Drop> Source<R> {
    /// A source of what this reader has left, with no read yet.
    fn new(reader: R) -> Self
        ensures { result ≡ record { left = R.remaining reader; reads = 0; faults = 0 } }
    {
        Source {
            reader,
            reads: 0,
            failed: 0,
        }
    }

    /// Reads once, and answers how many bytes came, or `None` where the read failed.
    fn read(&mut self, buffer: &mut [u8]) -> Option<usize>
        ensures given { IfSome result (λ n. Consumes self.old.left self.new.left (take n buffer.new)) }
        ensures end { IfSome result (λ n. n ≡ 0 → 0 < length buffer.new → IsAtEnd self.new.left) }
        ensures fits { IfSome result (λ n. n ≤ length buffer.new) }
        ensures counted { self.new.reads ≡ raised self.old.reads }
        ensures failed { IsNone result → self.new.faults ≡ raised self.old.faults }
        ensures quiet { OnSome result (self.new.faults ≡ self.old.faults) }
    {
        self.reads = self.reads.saturating_add(1);
        match self.reader.read(buffer) {
            Ok(count) => Some(count),
            Err(_) => {
                self.failed = self.failed.saturating_add(1);
                None
            }
        }
    }
}

/// What a source has left, in at most `limit + 1` reads. A read that gives no bytes is the end.
fn read_up_to<R: Read + Drop>(
    alloc: Global,
    source: &mut Source<R>,
    limit: u32,
) -> Result<Fetched, FetchFault>
    ensures told { IfSome source.old.left (λ left. IfOk result (λ answer. answer ≡ answer_for (Some left) limit)) }
    ensures within { IfOk result (IsWithin limit) }
    ensures found { result ≢ Ok Fetched.Missing }
    ensures reads { source.new.reads ≤ source.old.reads + limit + 1 }
    ensures failed { result ≡ Err FetchFault.Failed → source.new.faults ≡ raised source.old.faults }
    ensures quiet { result ≢ Err FetchFault.Failed → source.new.faults ≡ source.old.faults }
{
    let most = limit as usize;
    let mut bytes = Vec::new(alloc);
    let mut buffer = [0u8; 4096];
    while bytes.len() <= most {
        let room = (most + 1 - bytes.len()).min(4096);
        let Some(count) = source.read(&mut buffer[..room]) else {
            return Err(FetchFault::Failed);
        };
        if count == 0 {
            return Ok(Fetched::Whole(Bytes::from_vec(bytes)));
        }
        bytes.extend_from_slice(&buffer[..count])?;
    }
    Ok(Fetched::TooLong)
}

/// What a fetch answers of a file, once it was opened or not.
pub fn fetch_opened<R: Read + Drop>(
    alloc: Global,
    opened: io::Result<R>,
    limit: u32,
) -> Result<Fetched, FetchFault>
    ensures told { IfOk opened (λ reader. IfSome (R.remaining reader) (λ left.
        IfOk result (λ answer. answer ≡ answer_for (Some left) limit))) }
    ensures unopened { IsErr opened → result ≡ Err FetchFault.Failed }
    ensures within { IfOk result (IsWithin limit) }
    ensures found { result ≢ Ok Fetched.Missing }
{
    match opened {
        Ok(reader) => read_up_to(alloc, &mut Source::new(reader), limit),
        Err(_) => Err(FetchFault::Failed),
    }
}
