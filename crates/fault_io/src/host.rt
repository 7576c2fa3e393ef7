//! The system's folder and streams.

ghost use Rattle.std.specs.Prelude.{◌≡◌, ◌≢◌, ◌^◌, ◌<◌, ◌≤◌, [], ◌∷◌, ◌++◌, None, length, take, IfOk, OnOk, OnErr};
ghost use Rattle.std.specs.Io.KnownBytes.{Appends};
ghost use Rattle.fault_io.specs.Faults.{raised};
ghost use Rattle.fault_io.specs.Files.{IsWithin};
ghost use Rattle.fault_io.specs.Sinks.{AppendsPrefix};

use crate::requests::Requests;
use crate::source::fetch_opened;
use crate::{Failed, FetchFault, Fetched, Folder, Sink};
use std::alloc::Global;
use std::fs;
use std::io::Write;
use std::marker::Model;
use std::rt::Files;

/// The files of the system, of which nothing is known. A contract sees the count of faults, and
/// what was asked for.
#[derive(Drop)]
pub struct HostFolder<R: Files + Drop> {
    rt: R,
    failed: u64,
    asked: Requests,
}

impl<R: Files + Drop> Model for HostFolder<R> {
    ghost use Rattle.fault_io.specs.Files.{HostState};

    ghost Value = { HostState };

    ghost view = { λ folder. record { faults = folder.failed; asked = folder.asked.items } };
}

impl<R: Files + Drop> HostFolder<R> {
    /// The files that this runtime reaches, with no fault yet.
    pub fn new(rt: R) -> Self
        ensures { result ≡ record { faults = 0; asked = [] } }
    {
        HostFolder {
            rt,
            failed: 0,
            asked: Requests::new(),
        }
    }
}

impl<R: Files + Drop> Folder for HostFolder<R> {
    ghost files = { λ _. None };

    ghost faults = { λ folder. folder.faults };

    ghost asked = { λ folder. folder.asked };

    /// Opens the file and reads it to its end, or until it is longer than `limit`. A file that
    /// can't be opened and a read that fails are one fault.
    fn fetch(&mut self, alloc: Global, name: &str, limit: u32) -> Result<Fetched, FetchFault>
        ensures within { IfOk result (IsWithin limit) }
        ensures untold { result ≢ Ok Fetched.Missing }
        ensures failed { result ≡ Err FetchFault.Failed → self.new.faults ≡ raised self.old.faults }
        ensures quiet { result ≢ Err FetchFault.Failed → self.new.faults ≡ self.old.faults }
        ensures counts { self.old.faults ≤ self.new.faults }
        ensures asked { self.new.asked ≡ self.old.asked ++ record { name = name.now; limit = limit } ∷ [] }
    {
        self.asked.add(name, limit);
        let fetched = fetch_opened(alloc, fs::open(&self.rt, name), limit);
        if let Err(FetchFault::Failed) = &fetched {
            self.failed = self.failed.saturating_add(1);
        }
        fetched
    }
}

/// A stream of the system, flushed at each piece. A contract sees the count of faults, and the
/// bytes written where the stream itself tells them, as one in memory does. As a sink it tells
/// nothing.
#[derive(Drop)]
pub struct HostSink<W: Write + Drop> {
    stream: W,
    failed: u64,
}

impl<W: Write + Drop> Model for HostSink<W> {
    ghost use Rattle.fault_io.specs.Sinks.{StreamState};

    ghost Value = { StreamState };

    ghost view = { λ sink. record { faults = sink.failed; written = W.contents sink.stream } };
}

impl<W: Write + Drop> HostSink<W> {
    /// A sink over this stream, with no fault yet.
    pub fn new(stream: W) -> Self
        ensures { result ≡ record { faults = 0; written = W.contents stream } }
    {
        HostSink { stream, failed: 0 }
    }
}

impl<W: Write + Drop> Sink for HostSink<W> {
    ghost holds = { λ _. None };

    ghost faults = { λ sink. sink.faults };

    /// Writes once and flushes. A write that takes nothing, and a write or a flush that fails, is
    /// a fault. Where the flush fails, the stream has the bytes that it took before it.
    fn put(&mut self, bytes: &[u8]) -> Result<u32, Failed>
        requires not_empty { 0 < length bytes.now }
        requires fits { length bytes.now < 2 ^ 32 }
        ensures written { IfOk result (λ k. Appends self.old.written self.new.written (take k bytes.now)) }
        ensures part { OnErr result (AppendsPrefix self.old.written self.new.written bytes.now) }
        ensures some { IfOk result (λ k. 0 < k) }
        ensures within { IfOk result (λ k. k ≤ length bytes.now) }
        ensures failed { OnErr result (self.new.faults ≡ raised self.old.faults) }
        ensures quiet { OnOk result (self.new.faults ≡ self.old.faults) }
        ensures counts { self.old.faults ≤ self.new.faults }
    {
        match self.stream.write(bytes) {
            Ok(count) if count > 0 && self.stream.flush().is_ok() => Ok(count as u32),
            _ => {
                self.failed = self.failed.saturating_add(1);
                Err(Failed)
            }
        }
    }
}
