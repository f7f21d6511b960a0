//! The outside: where bytes come from and where they go, as traits with a written meaning, a count of faults,
//! and contents that are told or untold.
#![tactic(auto)]

// The traits.
pub mod disk;
pub mod doors;
pub mod gates;
pub mod links;
pub mod nets;
pub mod shelves;
pub mod sinks;
pub mod sources;

// Their forms.
pub mod memory;
mod named;
pub mod real;
mod tallies;

pub use disk::Disk;
pub use doors::Door;
pub use gates::{Gate, GatedDisk};
pub use links::{Link, send_whole};
pub use memory::list::{ListSink, ListSource};
pub use memory::list_disk::ListDisk;
pub use memory::list_link::ListLink;
pub use memory::list_net::{ListDoor, ListNet};
pub use memory::list_shelf::{ListFile, ListShelf};
pub use memory::recorded_file::{Fill, RecordedFile};
pub use memory::sure::{SureSink, SureSource};
pub use memory::sure_disk::SureDisk;
pub use memory::sure_link::SureLink;
pub use memory::sure_net::{SureDoor, SureNet};
pub use memory::sure_shelf::{SureFile, SureShelf};
pub use nets::Net;
pub use real::file_disk::FileDisk;
pub use real::folder_disk::FolderDisk;
pub use real::folder_shelf::FolderShelf;
pub use real::folder_source::FolderSource;
pub use real::locks::LockFile;
pub use real::streams::{FileSource, StdoutSink};
pub use real::tcp::{TcpDoor, TcpLink, TcpNet};
pub use shelves::{Refusal, Shelf};
pub use sinks::{Sink, write_whole};
pub use sources::{ReadWhole, Source, read_whole};

/// A call on something outside failed.
#[derive(Clone, Copy, Debug, PartialEq, Eq)]
pub struct Failed;
