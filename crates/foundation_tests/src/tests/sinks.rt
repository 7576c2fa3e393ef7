//! Sinks in memory and over streams: what fits, parts, flushes and failures.

ghost use Rattle.std.specs.Prelude.{◌<◌, ◌^◌, length};

use fault_io::{Failed, HostSink, MemSink, Sink};
use std::alloc::{AllocError, Global};
use std::io::{self, ErrorKind, Write};
use std::test::Fail;

/// A stream that takes at most so many bytes at once, none of them where that is 0, and whose flush may fail.
#[derive(Drop)]
struct Stream {
    most: usize,
    flushes: bool,
}

impl Write for Stream {
    fn write(&mut self, bytes: &[u8]) -> io::Result<usize> {
        if self.most == 0 {
            return Err(io::Error::from(ErrorKind::BrokenPipe));
        }
        Ok(bytes.len().min(self.most))
    }

    fn flush(&mut self) -> io::Result<()> {
        if self.flushes {
            Ok(())
        } else {
            Err(io::Error::from(ErrorKind::BrokenPipe))
        }
    }
}

/// Whether a sink in memory takes what fits, and no more.
fn takes_what_fits(alloc: Global) -> Result<bool, AllocError> {
    let mut sink = MemSink::new(alloc, 5)?;
    Ok(
        sink.put(b"abc") == Ok(3)
            && sink.put(b"def") == Ok(2)
            && sink.put(b"g") == Err(Failed)
            && sink.as_slice() == b"abcde".as_slice(),
    )
}

#[test]
fn a_memory_sink_takes_what_fits(rt: HostRuntime) -> Result<(), Fail> {
    assert!(rt; takes_what_fits(rt.alloc())?);
    Ok(())
}

/// Whether a stream that takes all gets a piece whole.
fn is_taken_whole(alloc: Global, piece: &[u8]) -> bool
    requires not_empty { 0 < length piece.now }
    requires fits { length piece.now < 2 ^ 32 }
{
    let mut stream = Vec::new(alloc);
    let count = HostSink::new(&mut stream).put(piece);
    count == Ok(piece.len() as u32) && stream.as_slice() == piece
}

/// A stream may take a long piece at once.
#[test]
fn a_host_sink_writes_to_its_stream(rt: HostRuntime) {
    let long = [b'a'; 5000];
    assert!(rt; is_taken_whole(rt.alloc(), b"abc") && is_taken_whole(rt.alloc(), &long));
}

/// A stream that fails at a write, and one that fails at a flush. How many bytes each takes at once, and whether it flushes.
#[test]
fn a_stream_that_fails_is_a_fault(rt: HostRuntime) {
    for (most, flushes) in [(0, true), (5000, false)] {
        let mut sink = HostSink::new(Stream { most, flushes });
        assert!(rt; sink.put(b"abc") == Err(Failed));
    }
}

/// A stream may take a part of a long piece, and the rest after it.
#[test]
fn a_host_sink_takes_parts(rt: HostRuntime) {
    let piece = [b'a'; 5000];
    let mut sink = HostSink::new(Stream {
        most: 4096,
        flushes: true,
    });
    let parts = (sink.put(&piece), sink.put(&piece[4096..]));
    assert!(rt; parts == (Ok(4096), Ok(904)));
}
