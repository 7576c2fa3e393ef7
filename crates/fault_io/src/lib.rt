//! What a program reads from and writes to, either of which may fail.
//!
//! A [`Folder`] has files by name and a [`Sink`] takes bytes piece by piece. Each counts its
//! faults, so a contract can say that a call failed only where a read or a write did, and a folder
//! has a list of what it was asked for, which proofs alone read. The forms in memory,
//! [`SteadyFolder`], [`MemFolder`] and [`MemSink`], tell what they hold. The forms of the system,
//! [`HostFolder`] and [`HostSink`], tell nothing of it.
#![tactic(auto)]

mod bytes;
mod folder;
mod host;
mod mem_folder;
mod requests;
mod sink;
mod source;

pub use bytes::Bytes;
pub use folder::{FetchFault, Fetched, FileList, Folder, NamedFile, SteadyFolder};
pub use host::{HostFolder, HostSink};
pub use mem_folder::{MemFolder, ReadList};
pub use sink::{Failed, MemSink, Sink};
pub use source::fetch_opened;
