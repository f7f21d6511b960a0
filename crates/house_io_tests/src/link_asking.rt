//! What is asked of a net that keeps each call, of its doors and of its links, and how much of it fails.
use crate::folder_asking::front;
use crate::noted_net::{NotedListener, NotedNet, NotedStream};
use crate::notes::open_ones;
use house_io::{Door, Failed, Link, Net, TcpDoor, TcpLink, TcpNet};
use std::alloc::Global;

/// What is asked for.
#[derive(Clone, Copy, Debug)]
pub(crate) enum Asked {
    /// So many doors at this address. The last of them is the one that is spoken of below.
    Doors(&'static str, u32),
    /// A link to this address.
    Dials(&'static str),
    /// A link at the last door.
    Accepts,
    /// So many bytes of the link that was given last.
    Pulls(usize),
    /// So many bytes of the link that was given last.
    Pushes(usize),
    /// The link is hung up at its door.
    HangsUp,
    /// The link is given back to the net.
    GoesBack,
    /// The last door closes.
    ClosesDoor,
}

/// A net, the doors that it gave, and the link that was given last.
#[derive(Drop)]
struct Talk<'a> {
    /// Where doors and links come from.
    net: TcpNet<'a, NotedNet>,
    /// In the order in which they were given.
    doors: Vec<TcpDoor<'a, NotedNet, NotedListener>>,
    /// None before the first, and after it was given back.
    link: Option<TcpLink<'a, NotedNet, NotedStream>>,
}

/// Whether so many doors open at an address.
fn opens(talk: &mut Talk, alloc: Global, address: &str, count: u32) -> bool {
    match talk.net.doors(alloc, address, count) {
        Ok(doors) => {
            talk.doors = doors;
            true
        }
        Err(_) => false,
    }
}

/// Whether a link is had to an address.
fn dials(talk: &mut Talk, alloc: Global, address: &str) -> bool {
    match talk.net.dial(alloc, address) {
        Ok(link) => {
            talk.link = Some(link);
            true
        }
        Err(_) => false,
    }
}

/// Whether a link is had at the last door.
fn accepts(talk: &mut Talk) -> bool {
    let Some(door) = talk.doors.last_mut() else {
        return false;
    };
    match door.accept() {
        Ok(link) => {
            talk.link = Some(link);
            true
        }
        Err(Failed) => false,
    }
}

/// Whether there is a door at which the link is hung up.
fn hangs_up(talk: &mut Talk) -> bool {
    match (talk.doors.last_mut(), talk.link.take()) {
        (Some(door), Some(link)) => {
            door.hang_up(link);
            true
        }
        _ => false,
    }
}

/// Whether there is a link that is given back to the net.
fn goes_back(talk: &mut Talk) -> bool {
    match talk.link.take() {
        Some(link) => {
            talk.net.hang_up(link);
            true
        }
        None => false,
    }
}

/// Whether there is a door that closes.
fn closes(talk: &mut Talk) -> bool {
    match talk.doors.pop() {
        Some(door) => {
            talk.net.close_door(door);
            true
        }
        None => false,
    }
}

/// Whether a pull of the link goes well.
fn pulls(talk: &mut Talk, into: &mut [u8]) -> bool {
    match &mut talk.link {
        Some(link) => link.pull(into).is_ok(),
        None => false,
    }
}

/// Whether a push to the link goes well.
fn pushes(talk: &mut Talk, from: &[u8]) -> bool {
    match &mut talk.link {
        Some(link) => link.push(from).is_ok(),
        None => false,
    }
}

/// Whether what is asked for goes well.
fn goes(talk: &mut Talk, alloc: Global, asked: Asked, room: &mut [u8]) -> bool {
    match asked {
        Asked::Doors(address, count) => opens(talk, alloc, address, count),
        Asked::Dials(address) => dials(talk, alloc, address),
        Asked::Accepts => accepts(talk),
        Asked::Pulls(count) => pulls(talk, front(room, count)),
        Asked::Pushes(count) => pushes(talk, front(room, count)),
        Asked::HangsUp => hangs_up(talk),
        Asked::GoesBack => goes_back(talk),
        Asked::ClosesDoor => closes(talk),
    }
}

/// How many fail of what is asked for, and how many listeners and connections are open then.
pub(crate) fn failures(
    alloc: Global,
    net: &NotedNet,
    asked: &[Asked],
    room: &mut [u8],
) -> (usize, usize) {
    let mut talk = Talk {
        net: TcpNet::new(net),
        doors: Vec::new(alloc),
        link: None,
    };
    let failed = asked
        .iter()
        .filter(|one| !goes(&mut talk, alloc, **one, room))
        .count();
    (failed, open_ones(&net.calls))
}

/// The most bytes that are pulled or pushed at once.
pub(crate) fn most_asked(asked: &[Asked]) -> usize {
    let mut most: usize = 0;
    for one in asked {
        most = match *one {
            Asked::Pulls(count) | Asked::Pushes(count) => most.max(count),
            _ => most,
        };
    }
    most
}
