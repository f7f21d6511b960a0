//! Sessions at a door.
use crate::tests::{
    BYE, HELLO, QUIT, REPORT, TAKEN, WELCOME, auction, is_written, joined, list_link_with,
    sure_link,
};
use auction_file::Auction;
use expected_values::equal;
use house_io::{Door, ListDoor, ListLink, SureDoor, SureLink};
use house_serve::{SessionEnd, serve_door};
use session::ListHall;
use std::alloc::Global;
use std::sync::Wait;
use std::test::Fail;

/// A session to its end, and one that stops after its first frame.
fn sure_links(alloc: Global) -> Option<Vec<SureLink>> {
    let first = sure_link(alloc, &[HELLO, REPORT, QUIT])?;
    let second = sure_link(alloc, &[HELLO])?;
    both_links(alloc, first, second)
}

fn both_links(alloc: Global, first: SureLink, second: SureLink) -> Option<Vec<SureLink>> {
    let mut links = Vec::new(alloc);
    links.push(first).ok()?;
    links.push(second).ok()?;
    Some(links)
}

/// A door with a session to its end, and one that stops after its first frame.
fn sure_door(alloc: Global) -> Option<SureDoor> {
    match sure_links(alloc) {
        None => None,
        Some(links) => SureDoor::new(alloc, links).ok(),
    }
}

/// The link of one session to its end.
fn whole_link(alloc: Global) -> Option<ListLink> {
    match joined(alloc, &[HELLO, QUIT]) {
        None => None,
        Some(bytes) => list_link_with(alloc, bytes, Vec::new(alloc)),
    }
}

fn one_link(alloc: Global, link: ListLink) -> Option<Vec<ListLink>> {
    let mut links = Vec::new(alloc);
    links.push(link).ok()?;
    Some(links)
}

fn list_door_with(alloc: Global, links: Vec<ListLink>) -> Option<ListDoor> {
    ListDoor::new(alloc, links, Vec::new(alloc)).ok()
}

/// A door with one session to its end.
fn list_door(alloc: Global) -> Option<ListDoor> {
    let link = whole_link(alloc)?;
    let links = one_link(alloc, link)?;
    list_door_with(alloc, links)
}

/// Serves so many sessions at a door: whether the door failed, and how they ended.
fn serve_some<D: Door, T: Wait>(
    rt: &T,
    alloc: Global,
    auction: &Auction,
    door: &mut D,
    sessions: u32,
) -> Option<(bool, Vec<SessionEnd>)> {
    let mut ends = Vec::with_capacity(alloc, sessions as usize).ok()?;
    match ListHall::open(alloc, &auction.terms) {
        Err(_) => None,
        Ok(mut hall) => {
            let failed = serve_door(rt, alloc, auction, &mut hall, door, sessions, &mut ends);
            Some((failed, ends))
        }
    }
}

/// Whether serving two sessions at a door fails or not, as wanted, and they end so.
fn serves_so<D: Door, T: Wait>(
    rt: &T,
    alloc: Global,
    door: &mut D,
    fails: bool,
    wanted: &[SessionEnd],
) -> bool {
    match auction(alloc) {
        None => false,
        Some(auction) => match serve_some(rt, alloc, &auction, door, 2) {
            None => false,
            Some((failed, ends)) => failed == fails && ends.as_slice() == wanted,
        },
    }
}

/// Whether the first link has the whole session written, and the second a welcome.
fn has_both(alloc: Global, door: &SureDoor) -> bool {
    match door.hung_up() {
        [first, second] => {
            is_written(alloc, first.written(), &[WELCOME, TAKEN, BYE])
                && second.written() == WELCOME
        }
        _ => false,
    }
}

fn serves_two<T: Wait>(rt: &T, alloc: Global) -> bool {
    let ends = [SessionEnd::Quit, SessionEnd::Closed { rest: 0 }];
    match sure_door(alloc) {
        None => false,
        Some(mut door) => {
            serves_so(rt, alloc, &mut door, false, &ends) && has_both(alloc, &door)
        }
    }
}

/// The door has one link, and fails after it.
fn fails_after_one<T: Wait>(rt: &T, alloc: Global) -> bool {
    match list_door(alloc) {
        None => false,
        Some(mut door) => {
            serves_so(rt, alloc, &mut door, true, &[SessionEnd::Quit]) && door.hung_up().len() == 1
        }
    }
}

#[test]
fn a_door_serves_one_link_after_another(rt: HostRuntime) {
    assert!(rt; serves_two(&rt, rt.alloc()));
    assert!(rt; fails_after_one(&rt, rt.alloc()));
}

/// Puts the link of a session after others, if there is memory.
fn push_link(alloc: Global, links: &mut Vec<SureLink>) -> bool {
    match sure_link(alloc, &[HELLO, QUIT]) {
        None => false,
        Some(link) => links.push(link).is_ok(),
    }
}

fn many_links(alloc: Global, count: u32) -> Option<Vec<SureLink>> {
    let mut links = Vec::new(alloc);
    for _link in 0..count {
        if !push_link(alloc, &mut links) {
            return None;
        }
    }
    Some(links)
}

/// A door with so many sessions.
fn many_door(alloc: Global, count: u32) -> Option<SureDoor> {
    SureDoor::new(alloc, many_links(alloc, count)?).ok()
}

/// Serves so many sessions at a door that has as many: whether it failed, how many ended, and whether each quit.
fn serves_many<T: Wait>(rt: &T, alloc: Global, count: u32) -> Option<(bool, usize, bool)> {
    let auction = auction(alloc)?;
    let mut door = many_door(alloc, count)?;
    let (failed, ends) = serve_some(rt, alloc, &auction, &mut door, count)?;
    Some((failed, ends.len(), ends.iter().all(is_quit)))
}

fn is_quit(end: &SessionEnd) -> bool {
    *end == SessionEnd::Quit
}

#[test]
fn a_door_serves_as_many_sessions_as_are_asked_for(rt: HostRuntime) -> Result<(), Fail> {
    equal(
        serves_many(&rt, rt.alloc(), 1_001),
        Some((false, 1_001, true)),
    )?;
    Ok(())
}
