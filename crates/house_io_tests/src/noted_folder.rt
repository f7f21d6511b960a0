//! A folder that keeps each call that is made of it and of its files, and fails chosen ones.
use crate::notes::{Notes, unsupported};
use house_io::LockFile;
use std::alloc::Allocator;
use std::fmt::Display;
use std::fs::{FileTimes, Metadata, OpenFile, OpenOptions, Permissions};
use std::io::{self, ErrorKind, Read, Seek, SeekFrom, Write};
use std::rt::Files;
use std::sync::Arc;
use std::sync::atomic::{AtomicU64, Ordering};

/// What a call is on.
#[derive(Clone, Copy, Debug, PartialEq, Eq)]
pub(crate) enum Place {
    /// The journal's file.
    Journal,
    /// The folder in which it stands.
    Folder,
    /// The folder that names the folder.
    Parent,
    /// Any other path.
    Elsewhere,
}

/// A call with its arguments.
#[derive(Clone, Copy, Debug, PartialEq, Eq)]
pub(crate) enum Call {
    /// Whether it is opened to be read, to be written, and made where it is absent.
    Open(Place, bool, bool, bool),
    /// To the end, so that the offset tells the length.
    SeekEnd,
    /// To this offset.
    SeekStart(u64),
    /// The length of the buffer.
    Read(usize),
    /// The length of the piece.
    Write(usize),
    /// The file gets this length.
    SetLength(u64),
    /// With the file's length and times.
    SyncAll(Place),
    /// Its bytes alone.
    SyncData(Place),
    /// The exclusive lock, without waiting.
    Lock,
    /// Any other, as one that removes a file, renames it, copies it, links it or gives it to another owner.
    Other,
}

/// The journal is opened to be read.
pub(crate) const OPENED: Call = Call::Open(Place::Journal, true, false, false);

/// Its folder is opened.
pub(crate) const FOLDER: Call = Call::Open(Place::Folder, true, false, false);

/// The journal is opened to be written as well, and made where it is absent.
pub(crate) const MADE: Call = Call::Open(Place::Journal, true, true, true);

/// The journal's bytes are synced.
pub(crate) const SYNCED: Call = Call::SyncData(Place::Journal);

/// A folder in which a journal stands, or may be made.
#[derive(Drop)]
pub(crate) struct NotedFolder {
    /// The calls that came.
    pub(crate) calls: Arc<Notes<Call>>,
    /// The folder that names the folder.
    pub(crate) parent: String,
    /// The path of the folder.
    pub(crate) folder: String,
    /// The path of the journal.
    pub(crate) journal: String,
    /// 1 where the journal stands.
    pub(crate) stands: AtomicU64,
}

/// A file of 200,000 bytes that gives at most 65,536 at a time, and takes at most 3 of a piece of up to 16.
#[derive(Drop)]
pub(crate) struct NotedFile {
    /// The folder's notes.
    calls: Arc<Notes<Call>>,
    /// What it is open on.
    place: Place,
    /// The offset at which the next call reads or writes.
    at: u64,
}

const LENGTH: u64 = 200_000;

/// The most bytes that one reading gives.
const GIVEN: u64 = 65_536;

impl Read for NotedFile {
    fn read(&mut self, into: &mut [u8]) -> io::Result<usize> {
        self.calls.note(Call::Read(into.len()))?;
        let left = LENGTH.saturating_sub(self.at).min(GIVEN) as usize;
        let count = into.len().min(left);
        self.at = self.at.saturating_add(count as u64);
        Ok(count)
    }
}

impl Write for NotedFile {
    fn write(&mut self, from: &[u8]) -> io::Result<usize> {
        self.calls.note(Call::Write(from.len()))?;
        if from.len() > 16 {
            return Ok(from.len());
        }
        Ok(from.len().min(3))
    }

    fn flush(&mut self) -> io::Result<()> {
        self.calls.note_other(Call::Other)
    }
}

impl Seek for NotedFile {
    fn seek(&mut self, to: SeekFrom) -> io::Result<u64> {
        let (call, at) = match to {
            SeekFrom::Start(at) => (Call::SeekStart(at), at),
            _ => (Call::SeekEnd, LENGTH),
        };
        self.calls.note(call)?;
        self.at = at;
        Ok(at)
    }
}

impl OpenFile for NotedFile {
    fn metadata(&self) -> io::Result<Metadata> {
        self.calls.note_other(Call::Other)
    }

    fn set_len(&self, size: u64) -> io::Result<()> {
        self.calls.note(Call::SetLength(size))
    }

    fn sync_all(&self) -> io::Result<()> {
        self.calls.note(Call::SyncAll(self.place))
    }

    fn sync_data(&self) -> io::Result<()> {
        self.calls.note(Call::SyncData(self.place))
    }

    fn set_permissions(&self, _leave: Permissions) -> io::Result<()> {
        self.calls.note_other(Call::Other)
    }

    fn set_times(&self, _times: FileTimes) -> io::Result<()> {
        self.calls.note_other(Call::Other)
    }

    fn try_clone(&self) -> io::Result<NotedFile> {
        self.calls.note_other(Call::Other)
    }
}

impl LockFile for NotedFile {
    fn lock_now(&self) -> io::Result<()> {
        self.calls.note(Call::Lock)
    }
}

impl Eprint for NotedFolder {
    fn eprint<D: Display + Drop>(&self, value: D) -> io::Result<()> {
        self.eprintln(value)
    }

    fn eprintln<D: Display + Drop>(&self, value: D) -> io::Result<()> {
        self.calls.say(value)
    }
}

impl NotedFolder {
    fn place_of(&self, path: &str) -> Place {
        if path == self.folder.as_str() {
            Place::Folder
        } else if path == self.journal.as_str() {
            Place::Journal
        } else if path == self.parent.as_str() {
            Place::Parent
        } else {
            Place::Elsewhere
        }
    }

    /// Whether a file is found there, or made.
    fn is_found(&self, place: Place, makes: bool) -> bool {
        match place {
            Place::Folder | Place::Parent => true,
            Place::Elsewhere => false,
            Place::Journal => {
                if makes {
                    self.stands.store(1, Ordering::SeqCst);
                }
                self.stands.load(Ordering::SeqCst) == 1
            }
        }
    }
}

impl Files for NotedFolder {
    type File = NotedFile;

    type Dir = NotedFile;

    fn open_file(&self, how: &OpenOptions, path: &str) -> io::Result<NotedFile> {
        let place = self.place_of(path);
        let makes = how.asks_create();
        self.calls.note(Call::Open(place, how.asks_read(), how.asks_write(), makes))?;
        if !self.is_found(place, makes) {
            return Err(ErrorKind::NotFound.into());
        }
        match Arc::clone(&self.calls) {
            Ok(calls) => Ok(NotedFile {
                calls,
                place,
                at: 0,
            }),
            Err(_) => unsupported(),
        }
    }

    fn open_dir(&self, _path: &str) -> io::Result<NotedFile> {
        self.calls.note_other(Call::Other)
    }

    fn metadata(&self, _path: &str) -> io::Result<Metadata> {
        self.calls.note_other(Call::Other)
    }

    fn symlink_metadata(&self, _path: &str) -> io::Result<Metadata> {
        self.calls.note_other(Call::Other)
    }

    fn copy(&self, _from: &str, _to: &str) -> io::Result<u64> {
        self.calls.note_other(Call::Other)
    }

    fn rename(&self, _from: &str, _to: &str) -> io::Result<()> {
        self.calls.note_other(Call::Other)
    }

    fn remove_file(&self, _path: &str) -> io::Result<()> {
        self.calls.note_other(Call::Other)
    }

    fn create_dir(&self, _path: &str) -> io::Result<()> {
        self.calls.note_other(Call::Other)
    }

    fn remove_dir(&self, _path: &str) -> io::Result<()> {
        self.calls.note_other(Call::Other)
    }

    fn remove_dir_all<B: Allocator>(&self, _alloc: B, _path: &str) -> io::Result<()> {
        self.calls.note_other(Call::Other)
    }

    fn hard_link(&self, _original: &str, _link: &str) -> io::Result<()> {
        self.calls.note_other(Call::Other)
    }

    fn symlink(&self, _original: &str, _link: &str) -> io::Result<()> {
        self.calls.note_other(Call::Other)
    }

    fn set_permissions(&self, _path: &str, _leave: Permissions) -> io::Result<()> {
        self.calls.note_other(Call::Other)
    }

    fn chown(&self, _path: &str, _owner: Option<u32>, _group: Option<u32>) -> io::Result<()> {
        self.calls.note_other(Call::Other)
    }

    fn lchown(&self, _path: &str, _owner: Option<u32>, _group: Option<u32>) -> io::Result<()> {
        self.calls.note_other(Call::Other)
    }

    fn create_dir_with_mode(&self, _path: &str, _mode: u32) -> io::Result<()> {
        self.calls.note_other(Call::Other)
    }
}
