//! A folder in memory that gives its files in pieces, and whose reads fail by number.

ghost use Rattle.std.specs.Prelude.{◌≡◌, ◌≢◌, ◌+◌, ◌<◌, ◌≤◌, true, false, [], ◌∷◌, ◌++◌, length, None, Some, IfSome, IfOk};
ghost use Rattle.fault_io.specs.Files.{answer_for, file_of};
ghost use Rattle.fault_io.specs.Reads.{after_reads, failed_among, NoneFails, LastFails, reads_for};

use crate::folder::find_file;
use crate::requests::Requests;
use crate::{Bytes, FetchFault, Fetched, FileList, Folder};
use std::alloc::Global;
use std::marker::Model;

/// Numbers of reads.
#[derive(Debug, Drop)]
pub struct ReadList {
    items: Vec<u64>,
}

impl Model for ReadList {
    ghost use Rattle.std.specs.Prelude.{ℕ, List};

    ghost Value = { List ℕ };

    ghost view = { λ list. list.items.items };
}

impl ReadList {
    /// The vector's numbers, in its order.
    pub fn from_vec(items: Vec<u64>) -> Self
        ensures { result ≡ items.items }
    {
        ReadList { items }
    }

    /// The numbers, borrowed.
    pub fn as_slice(&self) -> &[u64]
        ensures { result.now ≡ self.now }
    {
        self.items.as_slice()
    }

    /// The numbers as a vector.
    pub fn into_vec(self) -> Vec<u64>
        ensures { result.items ≡ self }
    {
        self.items
    }
}

/// Reads in turn, numbered from 1. From the number 2^64 - 1 on they keep that number.
#[derive(Debug, Drop)]
struct Reads {
    failing: ReadList,
    made: u64,
}

impl Reads {
    /// Makes so many reads, or fewer where one fails, which is the last. Answers whether none fails.
    fn make(&mut self, count: u64) -> bool
        ensures kept { self.new.failing ≡ self.old.failing }
        ensures most { self.new.made ≤ self.old.made + count }
        ensures all { result ≡ true → self.new.made ≡ after_reads self.old.made count }
        ensures quiet { result ≡ true → NoneFails self.old.failing self.old.made self.new.made }
        ensures failed { result ≡ false → LastFails self.old.failing self.old.made self.new.made }
    {
        let first = self.made;
        for more in 0..count {
            self.made = first.saturating_add(more + 1);
            if self.made < u64::MAX && self.failing.as_slice().contains(&self.made) {
                return false;
            }
        }
        true
    }
}

/// Files in memory, read in pieces. It tells its files, and reads of chosen numbers fail.
///
/// The reads are numbered from 1 over its life. A read gives at most a piece of so many bytes, and
/// the one after the last byte gives none, which ends the file. A fetch ends at a read that fails.
/// The count of faults is how many reads with numbers of the list were made. Every read after
/// number 2^64 - 2 has the number 2^64 - 1, and none of these fails.
#[derive(Debug, Drop)]
pub struct MemFolder {
    files: FileList,
    piece: u32,
    reads: Reads,
    asked: Requests,
}

impl Model for MemFolder {
    ghost use Rattle.fault_io.specs.Reads.{FolderState};
    ghost use Rattle.std.specs.Prelude.{◌<◌};

    ghost Value = { FolderState };

    ghost view = { λ folder. record {
      files = folder.files;
      piece = folder.piece;
      failing = folder.reads.failing;
      made = folder.reads.made;
      asked = folder.asked.items;
    } };

    ghost invariant = { λ folder. 0 < folder.piece };
}

impl MemFolder {
    /// A folder of these files, read in pieces of `piece` bytes. Of two files with one name, the
    /// first is held.
    pub fn new(files: FileList, piece: u32, failing: ReadList) -> Self
        requires some { 0 < piece }
        ensures { result ≡ record { files = files; piece = piece; failing = failing; made = 0; asked = [] } }
    {
        let reads = Reads { failing, made: 0 };
        MemFolder {
            files,
            piece,
            reads,
            asked: Requests::new(),
        }
    }
}

/// How many reads of at most `piece` bytes a file of `size` bytes takes, where none fails.
fn reads_for(piece: u32, limit: u32, size: usize) -> u64
    requires some { 0 < piece }
    ensures { result ≡ reads_for piece limit size }
{
    let piece = u64::from(piece);
    if size > limit as usize {
        return u64::from(limit) / piece + 1;
    }
    (size as u64 + (piece - 1)) / piece + 1
}

impl Folder for MemFolder {
    ghost files = { λ folder. Some (file_of folder.files) };

    ghost faults = { λ folder. failed_among folder.failing folder.made };

    ghost asked = { λ folder. folder.asked };

    /// A fetch of a name that isn't held makes no read.
    #[tactic(auto, using(crate::proofs::ReadLemmas::count_same, crate::proofs::ReadLemmas::count_one))]
    fn fetch(&mut self, alloc: Global, name: &str, limit: u32) -> Result<Fetched, FetchFault>
        ensures kept { self.new ≡ record self.old { made = self.new.made; asked = self.new.asked } }
        ensures asked { self.new.asked ≡ self.old.asked ++ record { name = name.now; limit = limit } ∷ [] }
        ensures told { IfOk result (λ answer. answer ≡ answer_for (file_of self.old.files name.now) limit) }
        ensures missing { file_of self.old.files name.now ≡ None → (result ≡ Ok Fetched.Missing) × (self.new.made ≡ self.old.made) }

        // The reads made.
        ensures reads { IfSome (file_of self.old.files name.now) (λ bytes. result ≢ Err FetchFault.Failed →
            self.new.made ≡ after_reads self.old.made (reads_for self.old.piece limit (length bytes))) }
        ensures most { IfSome (file_of self.old.files name.now) (λ bytes.
            self.new.made ≤ self.old.made + reads_for self.old.piece limit (length bytes)) }

        // It fails exactly where it made one that fails, and ends there.
        ensures failed { result ≡ Err FetchFault.Failed → LastFails self.old.failing self.old.made self.new.made }
        ensures quiet { result ≢ Err FetchFault.Failed → NoneFails self.old.failing self.old.made self.new.made }

        // Its count rises by one then, and else stays.
        ensures once { result ≡ Err FetchFault.Failed →
            failed_among self.new.failing self.new.made ≡ failed_among self.old.failing self.old.made + 1 }
        ensures same { result ≢ Err FetchFault.Failed →
            failed_among self.new.failing self.new.made ≡ failed_among self.old.failing self.old.made }
        ensures counts { failed_among self.old.failing self.old.made ≤ failed_among self.new.failing self.new.made }
    {
        self.asked.add(name, limit);
        let Some(file) = find_file(self.files.as_slice(), name) else {
            return Ok(Fetched::Missing);
        };
        let bytes = file.bytes.as_slice();
        if !self.reads.make(reads_for(self.piece, limit, bytes.len())) {
            return Err(FetchFault::Failed);
        }
        if bytes.len() > limit as usize {
            return Ok(Fetched::TooLong);
        }
        Ok(Fetched::Whole(Bytes::from_vec(bytes.to_vec(alloc)?)))
    }
}
