//! What a folder of files promises, and the plain one in memory.

ghost use Rattle.std.specs.Prelude.{◌≡◌, ◌≢◌, ℕ, ◌≤◌, List, [], ◌∷◌, ◌++◌, Option, None, Some, IfSome, IfOk, option_map};
ghost use Rattle.fault_io.specs.Faults.{Rose};
ghost use Rattle.fault_io.specs.Files.{Files, answer_for, IsWithin, file_of};
ghost use Rattle.fault_io.specs.Requests.{Request};

use crate::Bytes;
use crate::requests::Requests;
use std::alloc::{AllocError, Global};
use std::marker::Model;
use thiserror::Error;

/// What a fetch found.
#[derive(Debug, Drop)]
pub enum Fetched {
    /// All bytes of the file, no more than the limit.
    Whole(Bytes),
    /// The file has more bytes than the limit.
    TooLong,
    /// The folder tells its files, and has none of this name.
    Missing,
}

/// Why a fetch gave no answer.
#[derive(Clone, Copy, Debug, PartialEq, Eq, Error)]
pub enum FetchFault {
    /// The file could not be opened, or a read failed. The folder counted it.
    #[error("a file cannot be read")]
    Failed,
    #[error("no memory")]
    NoMemory,
}

impl From<AllocError> for FetchFault {
    ghost use Rattle.fault_io.specs.declared.folder.FetchFault.TheVariants.{NoMemory};

    ghost from_gives = { λ _ e. e ≡ NoMemory };

    fn from(_: AllocError) -> Self {
        FetchFault::NoMemory
    }
}

/// Files by name, a count of the reads that failed, and a list of what was asked for.
pub trait Folder {
    /// The bytes under each name, where the folder tells.
    ghost files: { Self → Option Files };

    /// The faults so far. The count stops at 2^64 - 1.
    ghost faults: { Self → ℕ };

    /// What was asked for so far, in order. Proofs alone have the list.
    ghost asked: { Self → List Request };

    /// Fetches the file of this name, where it has at most `limit` bytes.
    ///
    /// Whatever the answer, the files stay, the count of faults doesn't fall, and this was asked
    /// for. Want of memory is no fault, and may be answered at any call.
    fn fetch(&mut self, alloc: Global, name: &str, limit: u32) -> Result<Fetched, FetchFault>
        ensures files { files self.new ≡ files self.old }
        ensures counts { faults self.old ≤ faults self.new }
        ensures asked { asked self.new ≡ asked self.old ++ record { name = name.now; limit = limit } ∷ [] }

        // Where the files are told, an answer is the one for what is held under the name.
        ensures told { IfSome (files self.old) (λ held.
            IfOk result (λ answer. answer ≡ answer_for (held name.now) limit)) }
        ensures untold { files self.old ≡ None → result ≢ Ok Fetched.Missing }
        ensures within { IfOk result (IsWithin limit) }

        // A failed fetch is a fault of a file that may be there. A name that isn't held is none.
        ensures failed { result ≡ Err FetchFault.Failed → Rose (faults self.old) (faults self.new) }
        ensures failed_held { IfSome (files self.old) (λ held. held name.now ≡ None → result ≢ Err FetchFault.Failed) }
        ensures missing { result ≡ Ok Fetched.Missing → faults self.new ≡ faults self.old };
}

/// A file in memory.
#[derive(Debug, Drop)]
pub struct NamedFile {
    pub name: Bytes,
    pub bytes: Bytes,
}

/// A list of files.
#[derive(Debug, Drop)]
pub struct FileList {
    items: Vec<NamedFile>,
}

impl Model for FileList {
    ghost use Rattle.std.specs.Prelude.{List};
    ghost use Rattle.fault_io.specs.declared.folder.NamedFile.{NamedFile};

    ghost Value = { List NamedFile };

    ghost view = { λ files. files.items.items };
}

impl FileList {
    /// The vector's files, in its order.
    pub fn from_vec(items: Vec<NamedFile>) -> Self
        ensures { result ≡ items.items }
    {
        FileList { items }
    }

    /// The files, borrowed.
    pub fn as_slice(&self) -> &[NamedFile]
        ensures { result.now ≡ self.now }
    {
        self.items.as_slice()
    }

    /// The files as a vector.
    pub fn into_vec(self) -> Vec<NamedFile>
        ensures { result.items ≡ self }
    {
        self.items
    }
}

/// Files in memory. It tells them, no read of it fails, and its count of faults is always 0.
#[derive(Debug, Drop)]
pub struct SteadyFolder {
    files: FileList,
    asked: Requests,
}

impl Model for SteadyFolder {
    ghost use Rattle.fault_io.specs.Files.{SteadyState};

    ghost Value = { SteadyState };

    ghost view = { λ folder. record { files = folder.files; asked = folder.asked.items } };
}

impl SteadyFolder {
    /// A folder of these files. Of two files with one name, the first is held.
    pub fn new(files: FileList) -> Self
        ensures { result ≡ record { files = files; asked = [] } }
    {
        let asked = Requests::new();
        SteadyFolder { files, asked }
    }
}

impl Folder for SteadyFolder {
    ghost files = { λ folder. Some (file_of folder.files) };

    ghost faults = { λ _. 0 };

    ghost asked = { λ folder. folder.asked };

    fn fetch(&mut self, alloc: Global, name: &str, limit: u32) -> Result<Fetched, FetchFault> {
        self.asked.add(name, limit);
        let Some(file) = find_file(self.files.as_slice(), name) else {
            return Ok(Fetched::Missing);
        };
        let bytes = file.bytes.as_slice();
        if bytes.len() > limit as usize {
            return Ok(Fetched::TooLong);
        }
        Ok(Fetched::Whole(Bytes::from_vec(bytes.to_vec(alloc)?)))
    }
}

/// The first file of this name.
pub(crate) fn find_file<'a>(files: &'a [NamedFile], name: &str) -> Option<&'a NamedFile>
    ensures { option_map (λ file. file.now.bytes) result ≡ file_of files.now name.now }
{
    files
        .iter()
        .find(|file| file.name.as_slice() == name.as_bytes())
}
