//! Links, doors and nets in memory.
use super::fixtures::joined;
use house_io::{SureDoor, SureLink, SureNet};
use std::alloc::Global;

/// The room of a link, in bytes.
pub(super) const LINK_ROOM: u32 = 1_000;

/// A net without doors or links. Nothing, here and below, where there is no memory.
pub(super) fn no_net(alloc: Global) -> Option<SureNet> {
    SureNet::new(alloc, Vec::new(alloc), Vec::new(alloc)).ok()
}

/// A link over which these frames come.
fn sure_link(alloc: Global, frames: &[&[u8]]) -> Option<SureLink> {
    let bytes = joined(alloc, frames)?;
    SureLink::new(alloc, bytes, LINK_ROOM).ok()
}

/// One such link.
fn one_link(alloc: Global, frames: &[&[u8]]) -> Option<Vec<SureLink>> {
    let mut links = Vec::new(alloc);
    links.push(sure_link(alloc, frames)?).ok()?;
    Some(links)
}

/// A door with one link, over which these frames come.
fn sure_door(alloc: Global, frames: &[&[u8]]) -> Option<SureDoor> {
    let links = one_link(alloc, frames)?;
    SureDoor::new(alloc, links).ok()
}

/// A door for each of these talks.
fn sure_doors(alloc: Global, talks: &[&[&[u8]]]) -> Option<Vec<SureDoor>> {
    let mut doors = Vec::new(alloc);
    for frames in talks {
        doors.push(sure_door(alloc, frames)?).ok()?;
    }
    Some(doors)
}

/// A net with a door for each of these talks, at which its frames come in once.
pub(super) fn net_with_doors(alloc: Global, talks: &[&[&[u8]]]) -> Option<SureNet> {
    let doors = sure_doors(alloc, talks)?;
    SureNet::new(alloc, doors, Vec::new(alloc)).ok()
}

/// A net on which one link is dialled, over which these frames come.
pub(super) fn net_to_dial(alloc: Global, frames: &[&[u8]]) -> Option<SureNet> {
    let links = one_link(alloc, frames)?;
    SureNet::new(alloc, Vec::new(alloc), links).ok()
}

/// What went over the one link that was hung up at a door.
pub(super) fn written_at(door: &SureDoor) -> Option<&[u8]> {
    match door.hung_up() {
        [link] => Some(link.written()),
        _ => None,
    }
}
