//! Folders in memory and of the system: limits, pieces, reads and failures.

use fault_io::{
    Bytes, FetchFault, Fetched, FileList, Folder, HostFolder, MemFolder, NamedFile, ReadList,
    SteadyFolder, fetch_opened,
};
use std::alloc::{AllocError, Global};
use std::fs;
use std::io::{self, Read};
use std::test::Fail;

const FILE: &str = "fault_io_test_file";

/// A file with these bytes.
fn file(alloc: Global, name: &str, bytes: &[u8]) -> Result<NamedFile, AllocError> {
    Ok(NamedFile {
        name: Bytes::from_vec(name.as_bytes().to_vec(alloc)?),
        bytes: Bytes::from_vec(bytes.to_vec(alloc)?),
    })
}

/// A folder with the three bytes `abc` under the name `notes`.
fn notes(alloc: Global) -> Result<SteadyFolder, AllocError> {
    let mut files = Vec::new(alloc);
    files.push(file(alloc, "notes", b"abc")?)?;
    Ok(SteadyFolder::new(FileList::from_vec(files)))
}

/// A folder read in pieces of 50, with 124 bytes under `p` and 4 under `x`.
fn pieces(alloc: Global, failing: &[u64]) -> Result<MemFolder, AllocError> {
    let mut files = Vec::new(alloc);
    files.push(file(alloc, "p", &[b'a'; 124])?)?;
    files.push(file(alloc, "x", &[b'a'; 4])?)?;
    let failing = ReadList::from_vec(failing.to_vec(alloc)?);
    Ok(MemFolder::new(FileList::from_vec(files), 50, failing))
}

/// What a fetch found, in a letter.
fn letter(fetched: &Result<Fetched, FetchFault>) -> u8 {
    match fetched {
        Ok(Fetched::Whole(_)) => b'w',
        Ok(Fetched::TooLong) => b'l',
        Ok(Fetched::Missing) => b'm',
        Err(FetchFault::Failed) => b'f',
        Err(FetchFault::NoMemory) => b'n',
    }
}

/// Whether a fetch found a whole file of these bytes.
fn is_whole(fetched: &Result<Fetched, FetchFault>, bytes: &[u8]) -> bool {
    match fetched {
        Ok(Fetched::Whole(found)) => found.as_slice() == bytes,
        _ => false,
    }
}

/// Whether a folder in memory gives what it holds, within the limit.
fn gives_what_it_holds(alloc: Global) -> Result<bool, AllocError> {
    let mut folder = notes(alloc)?;
    Ok(
        is_whole(&folder.fetch(alloc, "notes", 3), b"abc")
            && letter(&folder.fetch(alloc, "notes", 2)) == b'l'
            && letter(&folder.fetch(alloc, "note", 3)) == b'm',
    )
}

#[test]
fn a_steady_folder_gives_what_it_holds(rt: HostRuntime) -> Result<(), Fail> {
    assert!(rt; gives_what_it_holds(rt.alloc())?);
    Ok(())
}

/// The reads that fail, and what `p`, `x`, a missing name, `p` cut at 99 bytes and `x` give.
const FAILING_READS: [(&[u64], [u8; 5]); 10] = [
    (&[], *b"wwmlw"),
    (&[1], *b"fwmlw"),
    (&[4], *b"fwmlw"),
    (&[5], *b"wfmlw"),
    (&[6, 6], *b"wfmlw"),
    (&[7], *b"wwmfw"),
    (&[9], *b"wwmlf"),
    (&[1, 2, 3, 4], *b"ffmff"),
    (&[4, 6, 8, 10], *b"ffmff"),
    (&[0, 11, u64::MAX], *b"wwmlw"),
];

/// What these five fetches give, a letter each.
fn letters(alloc: Global, failing: &[u64]) -> Result<[u8; 5], AllocError> {
    let mut folder = pieces(alloc, failing)?;
    Ok([("p", 124), ("x", 4), ("q", 9), ("p", 99), ("x", 4)].map(|(name, limit)| letter(
        &folder.fetch(alloc, name, limit),
    )))
}

/// The program takes four reads and the input two. A fetch ends at a read that fails, and the
/// next fetch goes on with the next number.
#[test]
fn a_memory_folder_fails_at_its_reads(rt: HostRuntime) -> Result<(), Fail> {
    for (failing, expected) in FAILING_READS {
        assert!(rt; letters(rt.alloc(), failing)? == expected);
    }
    Ok(())
}

/// A reader that gives at most five bytes at a read, and counts the reads.
#[derive(Drop)]
struct Fives<'a> {
    left: usize,
    reads: &'a mut u32,
}

impl Read for Fives<'_> {
    fn read(&mut self, buffer: &mut [u8]) -> io::Result<usize> {
        *self.reads = self.reads.saturating_add(1);
        let count = self.left.min(5).min(buffer.len());
        self.left -= count;
        Ok(count)
    }
}

/// What a fetch of so many bytes gives within a limit, and how many reads it makes.
fn read_in_fives(alloc: Global, left: usize, limit: u32) -> (u8, u32) {
    let mut reads = 0;
    let reader = Fives {
        left,
        reads: &mut reads,
    };
    let answer = letter(&fetch_opened(alloc, Ok(reader), limit));
    (answer, reads)
}

/// Bytes left, the limit, the answer, and how many reads were made.
#[test]
fn no_read_after_the_end(rt: HostRuntime) {
    for (left, limit, answer, reads) in [
        (0, 0, b'w', 1),
        (0, 9, b'w', 1),
        (1, 0, b'l', 1),
        (10, 10, b'w', 3),
        (10, 9, b'l', 2),
        (11, 100, b'w', 4),
        (100, 7, b'l', 2),
    ] {
        assert!(rt; read_in_fives(rt.alloc(), left, limit) == (answer, reads));
    }
}

/// So many bytes, from `abc` on.
fn alphabets(alloc: Global, size: u32) -> Result<Vec<u8>, AllocError> {
    let mut bytes = Vec::new(alloc);
    for i in 0..size {
        bytes.push(b'a' + (i % 26) as u8)?;
    }
    Ok(bytes)
}

/// A file of one read, and of many: each is fetched whole at its size, is too long for one byte less, and can't be
/// fetched once it is gone.
#[test]
fn a_host_folder_reads_files(rt: HostRuntime) -> Result<(), Fail> {
    let mut folder = HostFolder::new(rt.clone()?);
    for size in [3u32, 4095, 4096, 4097, 5000, 8192] {
        let bytes = alphabets(rt.alloc(), size)?;
        fs::write(&rt, FILE, bytes.as_slice())?;
        let found = folder.fetch(rt.alloc(), FILE, size);
        let cut = folder.fetch(rt.alloc(), FILE, size.saturating_sub(1));
        fs::remove_file(&rt, FILE)?;
        let gone = folder.fetch(rt.alloc(), FILE, size);
        assert!(rt; is_whole(&found, &bytes) && letter(&cut) == b'l' && letter(&gone) == b'f');
    }
    Ok(())
}
