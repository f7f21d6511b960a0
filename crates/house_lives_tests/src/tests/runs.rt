//! Runs of the program over such a shelf.
use super::frames::{frame_at, joined};
use super::shelves::{Kill, journals_in, shelf};
use house_io::{ListShelf, SureDoor, SureLink, SureNet, SureSink};
use house_lives::live;
use std::alloc::Global;
use std::sync::Wait;
use std::thread::Threads;
use std::time::Clock;

/// The room of a link and of a sink, in bytes.
const ROOM: u32 = 2_000;

const SERVE: &[&str] = &["serve", "a", "j", "house:1", "--doors=1", "--sessions=2"];

const SETTLE: &[&str] = &["settle", "a", "j"];

/// The same under the newer file.
const SERVE_ON: &[&str] = &["serve", "b", "t", "house:1", "--doors=1", "--sessions=2"];

const SETTLE_ON: &[&str] = &["settle", "b", "t"];

const MIGRATE: &[&str] = &["migrate", "a", "j", "b", "t"];

/// Copies of these words. Nothing, here and below, where there is no memory.
fn words_of(alloc: Global, words: &[&str]) -> Option<Vec<String>> {
    let mut copies = Vec::new(alloc);
    for word in words {
        copies.push(String::from_str(alloc, word).ok()?).ok()?;
    }
    Some(copies)
}

/// How a run of these words ends, over a net and a sink where nothing fails.
fn ended(
    rt: &(impl Threads + Wait + Sync + Clock),
    alloc: Global,
    words: &[String],
    shelf: &mut ListShelf,
    out: &mut SureSink,
    net: &mut SureNet,
) -> u8 {
    live(rt, alloc, words, shelf, out, net).status()
}

/// The status and the text of a run of these words.
fn answer_of(
    rt: &(impl Threads + Wait + Sync + Clock),
    alloc: Global,
    words: &[&str],
    shelf: &mut ListShelf,
    net: &mut SureNet,
) -> Option<(u8, Vec<u8>)> {
    let words = words_of(alloc, words)?;
    let mut out = SureSink::new(alloc, ROOM).ok()?;
    let status = ended(rt, alloc, &words, shelf, &mut out, net);
    let text = out.written().to_vec(alloc).ok()?;
    Some((status, text))
}

/// A link over which these frames come.
fn link(alloc: Global, frames: &[&[u8]]) -> Option<SureLink> {
    let bytes = joined(alloc, frames)?;
    SureLink::new(alloc, bytes, ROOM).ok()
}

/// A link for each of these sessions.
fn links(alloc: Global, sessions: &[&[&[u8]]]) -> Option<Vec<SureLink>> {
    let mut links = Vec::new(alloc);
    for frames in sessions {
        links.push(link(alloc, frames)?).ok()?;
    }
    Some(links)
}

/// A door at which these links come in.
fn door(alloc: Global, sessions: &[&[&[u8]]]) -> Option<SureDoor> {
    let links = links(alloc, sessions)?;
    SureDoor::new(alloc, links).ok()
}

/// A net with that door.
fn net(alloc: Global, sessions: &[&[&[u8]]]) -> Option<SureNet> {
    let mut doors = Vec::new(alloc);
    doors.push(door(alloc, sessions)?).ok()?;
    SureNet::new(alloc, doors, Vec::new(alloc)).ok()
}

/// A net without doors.
fn no_net(alloc: Global) -> Option<SureNet> {
    SureNet::new(alloc, Vec::new(alloc), Vec::new(alloc)).ok()
}

/// What went over each link that was hung up at a door.
fn written_at(alloc: Global, door: &SureDoor) -> Option<Vec<Vec<u8>>> {
    let mut all = Vec::new(alloc);
    for link in door.hung_up() {
        all.push(link.written().to_vec(alloc).ok()?).ok()?;
    }
    Some(all)
}

/// The same of the one door, and nothing where none was given back.
fn replies_in(alloc: Global, net: &SureNet) -> Option<Vec<Vec<u8>>> {
    match net.closed() {
        [door] => written_at(alloc, door),
        _ => Some(Vec::new(alloc)),
    }
}

/// What became of a life: the replies of each session, and what a read gives of the journals.
#[derive(Drop)]
pub(super) struct Lived {
    /// The bytes that went over each link, in the order of the sessions.
    replies: Vec<Vec<u8>>,
    /// Those by clock, and then those under the newer file.
    pub journals: Vec<Vec<u8>>,
}

impl Lived {
    /// The reply of this number in a session, both from 0, if there is one.
    pub(super) fn reply(&self, session: usize, number: usize) -> Option<&[u8]> {
        frame_at(self.replies.get(session)?, number)
    }
}

/// What a shelf and a net show after a life.
fn shown(alloc: Global, shelf: &ListShelf, net: &SureNet) -> Option<Lived> {
    let replies = replies_in(alloc, net)?;
    let journals = journals_in(alloc, shelf)?;
    Some(Lived { replies, journals })
}

/// A life of these words on these journals, with a session for each of these lists of frames.
fn life_of(
    rt: &(impl Threads + Wait + Sync + Clock),
    alloc: Global,
    words: &[&str],
    journals: &[Vec<u8>],
    kill: Option<Kill>,
    sessions: &[&[&[u8]]],
) -> Option<Lived> {
    let mut shelf = shelf(alloc, journals, kill)?;
    let mut net = net(alloc, sessions)?;
    answer_of(rt, alloc, words, &mut shelf, &mut net)?;
    shown(alloc, &shelf, &net)
}

/// A life under the first file.
pub(super) fn life(
    rt: &(impl Threads + Wait + Sync + Clock),
    alloc: Global,
    journals: &[Vec<u8>],
    kill: Option<Kill>,
    sessions: &[&[&[u8]]],
) -> Option<Lived> {
    life_of(rt, alloc, SERVE, journals, kill, sessions)
}

/// A life under the newer file.
pub(super) fn life_on(
    rt: &(impl Threads + Wait + Sync + Clock),
    alloc: Global,
    journals: &[Vec<u8>],
    sessions: &[&[&[u8]]],
) -> Option<Lived> {
    life_of(rt, alloc, SERVE_ON, journals, None, sessions)
}

/// The status and the text of these words on these journals, where nothing fails and nobody comes.
fn told(
    rt: &(impl Threads + Wait + Sync + Clock),
    alloc: Global,
    words: &[&str],
    journals: &[Vec<u8>],
) -> Option<(u8, Vec<u8>)> {
    let mut shelf = shelf(alloc, journals, None)?;
    let mut net = no_net(alloc)?;
    answer_of(rt, alloc, words, &mut shelf, &mut net)
}

/// The status and the text of `settle` under the first file.
pub(super) fn settled(
    rt: &(impl Threads + Wait + Sync + Clock),
    alloc: Global,
    journals: &[Vec<u8>],
) -> Option<(u8, Vec<u8>)> {
    told(rt, alloc, SETTLE, journals)
}

/// The same under the newer file.
pub(super) fn settled_on(
    rt: &(impl Threads + Wait + Sync + Clock),
    alloc: Global,
    journals: &[Vec<u8>],
) -> Option<(u8, Vec<u8>)> {
    told(rt, alloc, SETTLE_ON, journals)
}

/// What became of a migration: its status and its text, and what a read gives of the journals.
#[derive(Drop)]
pub(super) struct Moved {
    pub status: u8,
    pub text: Vec<u8>,
    pub journals: Vec<Vec<u8>>,
}

/// A migration of these journals to the newer file.
pub(super) fn migrated(
    rt: &(impl Threads + Wait + Sync + Clock),
    alloc: Global,
    journals: &[Vec<u8>],
    kill: Option<Kill>,
) -> Option<Moved> {
    let mut shelf = shelf(alloc, journals, kill)?;
    let mut net = no_net(alloc)?;
    let (status, text) = answer_of(rt, alloc, MIGRATE, &mut shelf, &mut net)?;
    let journals = journals_in(alloc, &shelf)?;
    Some(Moved {
        status,
        text,
        journals,
    })
}
