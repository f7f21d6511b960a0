//! What is asked of a disk or a source in a folder that keeps each call, and what is found then.
use crate::noted_folder::{Call, NotedFolder};
use crate::notes::{Notes, notes_of, open_ones};
use house_io::{Disk, Failed, FolderShelf, Refusal, Shelf, Source};
use std::alloc::Global;
use std::sync::Arc;
use std::sync::atomic::AtomicU64;

/// What is asked for.
#[derive(Clone, Copy, Debug)]
pub(crate) enum Asked {
    /// How long the disk is.
    Size,
    /// So many bytes at this offset.
    Reads(u64, usize),
    /// A disk is claimed.
    Claims,
    /// So many bytes at this offset, of a disk that is claimed first.
    Writes(u64, usize),
    /// A disk is synced.
    Syncs,
    /// So many bytes of a source in place of a disk.
    Pulls(usize),
}

/// Whether a piece is written, of a disk that is claimed first.
fn writes<D: Disk>(disk: &mut D, at: u64, from: &[u8]) -> bool {
    match disk.claim() {
        Ok(()) => disk.write_at(at, from).is_ok(),
        Err(Failed) => false,
    }
}

/// A front of so many bytes.
pub(crate) fn front(room: &mut [u8], count: usize) -> &mut [u8] {
    let count = count.min(room.len());
    &mut room[..count]
}

/// Whether what is asked of a disk goes well.
fn goes<D: Disk>(disk: &mut D, asked: Asked, room: &mut [u8]) -> bool {
    match asked {
        Asked::Size => disk.size().is_ok(),
        Asked::Reads(at, count) => disk.read_at(at, front(room, count)).is_ok(),
        Asked::Claims => disk.claim().is_ok(),
        Asked::Writes(at, count) => writes(disk, at, front(room, count)),
        Asked::Syncs => disk.sync().is_ok(),
        Asked::Pulls(_) => false,
    }
}

/// Whether what is asked of a source goes well.
fn pulls<S: Source>(source: &mut S, asked: Asked, room: &mut [u8]) -> bool {
    match asked {
        Asked::Pulls(count) => source.pull(front(room, count)).is_ok(),
        _ => false,
    }
}

/// A name that a shelf opens in a folder with one journal, what is asked of the disk or the source, and which calls on the files fail.
#[derive(Clone, Copy)]
pub(crate) struct Question {
    /// The folder that names the folder.
    pub(crate) parent: &'static str,
    /// The folder of the shelf.
    pub(crate) folder: &'static str,
    /// The journal that stands in it, or may be made.
    pub(crate) journal: &'static str,
    /// The name that is opened.
    pub(crate) name: &'static str,
    /// Whether the journal stands.
    pub(crate) stands: bool,
    /// What is asked of the disk or the source, in order.
    pub(crate) asked: &'static [Asked],
    /// The calls that fail, by their numbers from 0 on.
    pub(crate) failing: &'static [usize],
    /// The system's number of the error by which they fail.
    pub(crate) code: i32,
}

/// How many of what was asked for failed, or why nothing was opened, with how many files are open at the end, the calls that were made
/// and what was said.
#[derive(Debug, Drop)]
pub(crate) struct Outcome {
    /// How many of what was asked for failed, or why nothing was opened.
    pub(crate) outcome: Result<usize, Refusal>,
    /// How many files are open at the end.
    pub(crate) open: usize,
    /// The calls that were made, in order.
    pub(crate) calls: Vec<Call>,
    /// What was said on standard error.
    pub(crate) said: String,
}

/// How many fail of what is asked of a disk.
pub(crate) fn failures<H: Shelf>(
    alloc: Global,
    shelf: &mut H,
    name: &str,
    asked: &[Asked],
    room: &mut [u8],
) -> Result<usize, Refusal> {
    let mut disk = shelf.disk(alloc, name)?;
    let failed = asked
        .iter()
        .filter(|one| !goes(&mut disk, **one, room))
        .count();
    shelf.close_disk(name, disk);
    Ok(failed)
}

/// How many fail of what is asked of a source.
fn source_failures<H: Shelf>(
    alloc: Global,
    shelf: &mut H,
    name: &str,
    asked: &[Asked],
    room: &mut [u8],
) -> Result<usize, Refusal> {
    let mut source = shelf.source(alloc, name)?;
    let failed = asked
        .iter()
        .filter(|one| !pulls(&mut source, **one, room))
        .count();
    shelf.close_source(name, source);
    Ok(failed)
}

/// Whether a source is asked, and no disk.
fn is_of_a_source(asked: &[Asked]) -> bool {
    match asked {
        [Asked::Pulls(_), ..] => true,
        _ => false,
    }
}

/// How many fail of what is asked for in a folder, and how many files are open once the disk or the source is closed.
fn outcome_of(
    alloc: Global,
    folder: &NotedFolder,
    question: &Question,
    room: &mut [u8],
) -> (Result<usize, Refusal>, usize) {
    let mut shelf = FolderShelf::new(alloc, folder);
    let outcome = if is_of_a_source(question.asked) {
        source_failures(alloc, &mut shelf, question.name, question.asked, room)
    } else {
        failures(alloc, &mut shelf, question.name, question.asked, room)
    };
    (outcome, open_ones(&folder.calls))
}

/// The most bytes that are asked for at once.
fn most_asked(asked: &[Asked]) -> usize {
    let mut most: usize = 0;
    for one in asked {
        most = match *one {
            Asked::Reads(_, count) | Asked::Writes(_, count) | Asked::Pulls(count) => {
                most.max(count)
            }
            _ => most,
        };
    }
    most
}

/// The folder of a question, with notes of the calls.
pub(crate) fn folder_of(
    alloc: Global,
    question: &Question,
    calls: Arc<Notes<Call>>,
) -> Option<NotedFolder> {
    Some(NotedFolder {
        calls,
        parent: String::from_str(alloc, question.parent).ok()?,
        folder: String::from_str(alloc, question.folder).ok()?,
        journal: String::from_str(alloc, question.journal).ok()?,
        stands: AtomicU64::new(u64::from(question.stands)),
    })
}

/// What is found where a question is asked.
pub(crate) fn found(alloc: Global, question: &Question) -> Option<Outcome> {
    let mut room = vec![in alloc; 7; most_asked(question.asked)].ok()?;
    let calls = notes_of(alloc, question.failing, question.code)?;
    let folder = folder_of(alloc, question, Arc::clone(&calls).ok()?)?;
    let (outcome, open) = outcome_of(alloc, &folder, question, &mut room);
    Some(Outcome {
        outcome,
        open,
        calls: calls.taken(),
        said: calls.said(),
    })
}
