//! What no clause says of links, doors and nets: that the calls succeed with ample memory, and what a real connection does.
use crate::disk_tests::{Change, changed};
use crate::tests::{bytes_of, one};
use expected_values::{equal, equal_in};
use house_io::{
    Door, Failed, Gate, GatedDisk, Link, ListDoor, ListLink, ListNet, Net, Refusal, SureDisk,
    SureDoor, SureLink, SureNet, TcpNet, send_whole,
};
use std::alloc::Global;
use std::net::{OpenListener, TcpListener};
use std::test::Fail;

fn sure_link(alloc: Global, text: &str) -> Option<SureLink> {
    SureLink::new(alloc, bytes_of(alloc, text.as_bytes())?, 20).ok()
}

fn list_link_of(alloc: Global, bytes: Vec<u8>, failing: Vec<u64>) -> Option<ListLink> {
    ListLink::new(alloc, bytes, 20, failing).ok()
}

/// A link of which the call of this number fails.
fn list_link(alloc: Global, text: &str, failing: u64) -> Option<ListLink> {
    list_link_of(
        alloc,
        bytes_of(alloc, text.as_bytes())?,
        one(alloc, failing)?,
    )
}

fn pull<L: Link>(link: &mut L, into: &mut [u8]) -> Result<usize, Failed> {
    link.pull(into)
}

fn send<L: Link>(link: &mut L, text: &[u8]) -> Result<(), Failed> {
    send_whole(link, text)
}

/// Reads two bytes at a time to the end, and sends each pair back.
fn echo<L: Link>(link: &mut L) -> Result<u32, Failed> {
    let mut pair = [0; 2];
    for turn in 0..9 {
        let count = pull(link, &mut pair)?;
        if count == 0 || count > pair.len() {
            return Ok(turn);
        }
        send(link, &pair[..count])?;
    }
    Ok(9)
}

fn echoes(alloc: Global, text: &str) -> Option<bool> {
    let mut link = sure_link(alloc, text)?;
    let turns = echo(&mut link);
    Some(turns == Ok(3) && link.written() == text.as_bytes())
}

/// What a link of which one call fails answers twice, and what was written then.
fn echoes_until(alloc: Global, failing: u64, written: &str) -> Option<bool> {
    let mut link = list_link(alloc, "lotte", failing)?;
    let first = echo(&mut link);
    let second = echo(&mut link);
    Some(first == Err(Failed) && second.is_ok() && link.written() == written.as_bytes())
}

#[test]
fn links_in_memory_answer_two_bytes_at_a_time(rt: HostRuntime) -> Result<(), Fail> {
    equal(echoes(rt.alloc(), "lotte"), Some(true))?;
    for (failing, written) in [(0, "lotte"), (1, "tte"), (2, "lotte"), (5, "lott")] {
        equal_in(
            failing,
            echoes_until(rt.alloc(), failing, written),
            Some(true),
        )?;
    }
    Ok(())
}

/// Adds a link, and tells whether it could.
fn add_sure_link(alloc: Global, links: &mut Vec<SureLink>, text: &str) -> bool {
    match sure_link(alloc, text) {
        Some(link) => links.push(link).is_ok(),
        None => false,
    }
}

fn one_sure_link(alloc: Global, text: &str) -> Option<Vec<SureLink>> {
    let mut links = Vec::new(alloc);
    if add_sure_link(alloc, &mut links, text) {
        Some(links)
    } else {
        None
    }
}

fn two_sure_links(alloc: Global, first: &str, second: &str) -> Option<Vec<SureLink>> {
    let mut links = one_sure_link(alloc, first)?;
    if add_sure_link(alloc, &mut links, second) {
        Some(links)
    } else {
        None
    }
}

fn sure_door(alloc: Global, first: &str, second: &str) -> Option<SureDoor> {
    SureDoor::new(alloc, two_sure_links(alloc, first, second)?).ok()
}

/// Adds a link of which the tenth call fails, and tells whether it could.
fn add_list_link(alloc: Global, links: &mut Vec<ListLink>, text: &str) -> bool {
    match list_link(alloc, text, 9) {
        Some(link) => links.push(link).is_ok(),
        None => false,
    }
}

fn one_list_link(alloc: Global, text: &str) -> Option<Vec<ListLink>> {
    let mut links = Vec::new(alloc);
    if add_list_link(alloc, &mut links, text) {
        Some(links)
    } else {
        None
    }
}

fn two_list_links(alloc: Global, first: &str, second: &str) -> Option<Vec<ListLink>> {
    let mut links = one_list_link(alloc, first)?;
    if add_list_link(alloc, &mut links, second) {
        Some(links)
    } else {
        None
    }
}

fn list_door_of(alloc: Global, links: Vec<ListLink>, failing: Vec<u64>) -> Option<ListDoor> {
    ListDoor::new(alloc, links, failing).ok()
}

/// A door with two links, of which the accept of this number fails.
fn list_door(alloc: Global, failing: u64) -> Option<ListDoor> {
    list_door_of(
        alloc,
        two_list_links(alloc, "ox", "hen")?,
        one(alloc, failing)?,
    )
}

/// Echoes over the next link and hangs it up.
fn serve<D: Door>(door: &mut D) -> Result<u32, Failed> {
    let mut link = door.accept()?;
    let turns = echo(&mut link);
    door.hang_up(link);
    turns
}

fn serve_three<D: Door>(door: &mut D) -> [Result<u32, Failed>; 3] {
    [serve(door), serve(door), serve(door)]
}

/// Whether just these texts were written over the links that were hung up.
fn has_written(door: &SureDoor, texts: [&str; 2]) -> bool {
    match door.hung_up() {
        [first, second] => first.written() == texts[0].as_bytes()
            && second.written() == texts[1].as_bytes(),
        _ => false,
    }
}

fn sure_door_serves(alloc: Global) -> Option<bool> {
    let mut door = sure_door(alloc, "ox", "hen")?;
    let turns = serve_three(&mut door);
    Some(turns == [Ok(1), Ok(2), Ok(0)] && has_written(&door, ["ox", "hen"]))
}

fn list_door_serves(alloc: Global) -> Option<bool> {
    let mut door = list_door(alloc, 1)?;
    let turns = serve_three(&mut door);
    let last = serve(&mut door);
    let are_so = turns == [Ok(1), Err(Failed), Ok(2)] && last == Err(Failed);
    Some(are_so && door.hung_up().len() == 2)
}

#[test]
fn doors_in_memory_give_their_links_in_order(rt: HostRuntime) -> Result<(), Fail> {
    equal(sure_door_serves(rt.alloc()), Some(true))?;
    equal(list_door_serves(rt.alloc()), Some(true))?;
    Ok(())
}

fn one_sure_door(alloc: Global) -> Option<Vec<SureDoor>> {
    let door = sure_door(alloc, "ox", "hen")?;
    let mut doors = Vec::new(alloc);
    match doors.push(door) {
        Ok(()) => Some(doors),
        Err(_) => None,
    }
}

fn sure_net_of(alloc: Global, doors: Vec<SureDoor>, links: Vec<SureLink>) -> Option<SureNet> {
    SureNet::new(alloc, doors, links).ok()
}

fn sure_net(alloc: Global) -> Option<SureNet> {
    sure_net_of(alloc, one_sure_door(alloc)?, one_sure_link(alloc, "cow")?)
}

fn one_list_door(alloc: Global) -> Option<Vec<ListDoor>> {
    let door = list_door(alloc, 9)?;
    let mut doors = Vec::new(alloc);
    match doors.push(door) {
        Ok(()) => Some(doors),
        Err(_) => None,
    }
}

fn list_net_of(
    alloc: Global,
    doors: Vec<ListDoor>,
    links: Vec<ListLink>,
    failing: Vec<u64>,
) -> Option<ListNet> {
    ListNet::new(alloc, doors, links, failing).ok()
}

/// A net with a door and a link, of which the call of this number fails.
fn list_net(alloc: Global, failing: u64) -> Option<ListNet> {
    let doors = one_list_door(alloc)?;
    list_net_of(
        alloc,
        doors,
        one_list_link(alloc, "cow")?,
        one(alloc, failing)?,
    )
}

/// Serves once at each of the doors, and closes them. Answers over how many bytes in pairs.
fn serve_each<N: Net>(net: &mut N, doors: Vec<N::Door>) -> u32
where
    N::Door: Drop,
{
    let mut turns: u32 = 0;
    for door in doors {
        let mut door = door;
        turns = turns.saturating_add(serve(&mut door).unwrap_or(0));
        net.close_door(door);
    }
    turns
}

/// Opens doors, serves once at each, and closes them. Answers over how many bytes in pairs.
fn open_and_serve<N: Net>(net: &mut N, alloc: Global, count: u32) -> Result<u32, Refusal>
where
    N::Door: Drop,
{
    match net.doors(alloc, "here:1", count) {
        Ok(doors) => Ok(serve_each(net, doors)),
        Err(refusal) => Err(refusal),
    }
}

/// Dials, echoes and hangs up.
fn dial_and_echo<N: Net>(net: &mut N, alloc: Global) -> Result<Result<u32, Failed>, Refusal> {
    let mut link = match net.dial(alloc, "here:1") {
        Ok(link) => link,
        Err(refusal) => return Err(refusal),
    };
    let turns = echo(&mut link);
    net.hang_up(link);
    Ok(turns)
}

/// How many links were hung up at each of two doors.
fn hung_up_at(doors: &[SureDoor]) -> Option<(usize, usize)> {
    match doors {
        [first, second] => Some((first.hung_up().len(), second.hung_up().len())),
        _ => None,
    }
}

fn sure_net_opens(alloc: Global) -> Option<bool> {
    let mut net = sure_net(alloc)?;
    let turns = open_and_serve(&mut net, alloc, 2);
    Some(turns == Ok(1) && hung_up_at(net.closed()) == Some((1, 0)))
}

fn sure_net_dials(alloc: Global) -> Option<bool> {
    let mut net = sure_net(alloc)?;
    let turns = [
        dial_and_echo(&mut net, alloc),
        dial_and_echo(&mut net, alloc),
    ];
    Some(turns == [Ok(Ok(2)), Ok(Ok(0))] && net.hung_up().len() == 2)
}

fn list_net_opens(alloc: Global) -> Option<bool> {
    let mut net = list_net(alloc, 1)?;
    let turns = [
        open_and_serve(&mut net, alloc, 2),
        open_and_serve(&mut net, alloc, 1),
        open_and_serve(&mut net, alloc, 1),
    ];
    let failed = Err(Refusal::Failed);
    Some(turns == [failed, failed, Ok(1)] && net.closed().len() == 1)
}

fn list_net_dials(alloc: Global) -> Option<bool> {
    let mut net = list_net(alloc, 0)?;
    let turns = [
        dial_and_echo(&mut net, alloc),
        dial_and_echo(&mut net, alloc),
        dial_and_echo(&mut net, alloc),
    ];
    let failed = Err(Refusal::Failed);
    Some(turns == [failed, Ok(Ok(2)), failed] && net.hung_up().len() == 1)
}

#[test]
fn nets_in_memory_give_their_doors_and_links(rt: HostRuntime) -> Result<(), Fail> {
    equal(sure_net_opens(rt.alloc()), Some(true))?;
    equal(sure_net_dials(rt.alloc()), Some(true))?;
    equal(list_net_opens(rt.alloc()), Some(true))?;
    equal(list_net_dials(rt.alloc()), Some(true))?;
    Ok(())
}

/// A value that a thread may own.
fn moved<T: Send>(value: T) -> T {
    value
}

#[test]
fn a_thread_may_own_each_door(rt: HostRuntime) {
    assert!(rt; moved(sure_door(rt.alloc(), "ox", "hen")).is_some());
    assert!(rt; moved(list_door(rt.alloc(), 0)).is_some());
}

/// An address of this machine at which nobody listens.
fn free_address<R: std::net::Net>(rt: &R, alloc: Global) -> Result<String, Fail> {
    let listener = TcpListener::bind(rt, "127.0.0.1:0")?;
    let address = listener.local_addr()?;
    Ok(format!(in alloc; "{address}")?)
}

/// Sends a text over one link, and tells whether it comes over the other.
fn carries<L: Link, M: Link>(from: &mut L, to: &mut M, text: &[u8; 4]) -> Result<bool, Failed> {
    send(from, text)?;
    let mut found = [0; 4];
    let count = pull(to, &mut found)?;
    Ok(count == 4 && found == *text)
}

/// Whether a text comes each way between two links.
fn carries_both<L: Link, M: Link>(near: &mut L, far: &mut M) -> bool {
    let there = carries(near, far, b"lots");
    let back = carries(far, near, b"bids");
    there == Ok(true) && back == Ok(true)
}

/// Sends a text each way between a link and the next one of a door.
fn talks_over<L: Link, D: Door>(near: &mut L, door: &mut D) -> bool {
    match door.accept() {
        Ok(mut far) => {
            let talked = carries_both(near, &mut far);
            door.hang_up(far);
            talked
        }
        Err(Failed) => false,
    }
}

/// Dials a door of a net and sends a text each way.
fn talks<N: Net, D: Door>(
    net: &mut N,
    alloc: Global,
    address: &str,
    door: &mut D,
) -> Result<bool, Refusal> {
    let mut near = match net.dial(alloc, address) {
        Ok(link) => link,
        Err(refusal) => return Err(refusal),
    };
    let talked = talks_over(&mut near, door);
    net.hang_up(near);
    Ok(talked)
}

/// At how many of the doors a text comes each way. They are closed.
fn talks_at_each<N: Net>(net: &mut N, alloc: Global, address: &str, doors: Vec<N::Door>) -> u32
where
    N::Door: Drop,
{
    let mut count: u32 = 0;
    for door in doors {
        let mut door = door;
        if talks(net, alloc, address, &mut door) == Ok(true) {
            count = count.saturating_add(1);
        }
        net.close_door(door);
    }
    count
}

/// Opens two doors on one address, and tells at how many of how many a text comes each way.
fn real_doors_talk<N: Net>(
    net: &mut N,
    alloc: Global,
    address: &str,
) -> Result<(u32, usize), Refusal>
where
    N::Door: Drop,
{
    match net.doors(alloc, address, 2) {
        Ok(doors) => {
            let count = doors.len();
            Ok((talks_at_each(net, alloc, address, doors), count))
        }
        Err(refusal) => Err(refusal),
    }
}

#[test]
fn two_real_doors_share_an_address(rt: HostRuntime) -> Result<(), Fail> {
    let address = free_address(&rt, rt.alloc())?;
    let mut net = TcpNet::new(&rt);
    equal(
        real_doors_talk(&mut net, rt.alloc(), address.as_str()),
        Ok((2, 2)),
    )?;
    Ok(())
}

/// What a link pulls next: so many bytes, of the text or of none.
fn pulls<L: Link>(link: &mut L, text: &[u8]) -> Result<bool, Failed> {
    let mut found = [0; 8];
    let count = pull(link, &mut found)?;
    Ok(count == text.len() && found.get(..count) == Some(text))
}

/// Dials a door, sends more than it reads, and tells whether the reply comes whole, and the end after it.
fn is_answered<N: Net, D: Door>(net: &mut N, alloc: Global, address: &str, door: &mut D) -> bool {
    let Ok(mut near) = net.dial(alloc, address) else {
        return false;
    };
    let sent = send(&mut near, b"oxen");
    let answered = match door.accept() {
        Ok(mut far) => {
            let mut byte = [0];
            let read = pull(&mut far, &mut byte);
            let replied = send(&mut far, b"hens");
            door.hang_up(far);
            read == Ok(1) && replied == Ok(())
        }
        Err(Failed) => false,
    };
    let reply = pulls(&mut near, b"hens");
    let end = pulls(&mut near, b"");
    net.hang_up(near);
    sent == Ok(()) && answered && reply == Ok(true) && end == Ok(true)
}

#[test]
fn a_reply_comes_whole_before_bytes_that_nobody_read(rt: HostRuntime) -> Result<(), Fail> {
    let address = free_address(&rt, rt.alloc())?;
    let mut net = TcpNet::new(&rt);
    let Ok(mut doors) = net.doors(rt.alloc(), address.as_str(), 1) else {
        return Err(Fail::new("no door"));
    };
    let mut door = doors.pop().unwrap();
    assert!(rt; is_answered(&mut net, rt.alloc(), address.as_str(), &mut door));
    Ok(())
}

#[test]
fn nobody_answers_at_a_free_address(rt: HostRuntime) -> Result<(), Fail> {
    let address = free_address(&rt, rt.alloc())?;
    let mut net = TcpNet::new(&rt);
    assert!(rt; net.dial(rt.alloc(), address.as_str()).is_err());
    assert!(rt; net.doors(rt.alloc(), "no address", 1).is_err());
    Ok(())
}

/// How often a disk came to its gate.
#[derive(Drop)]
struct Passed(u32);

impl Gate for Passed {
    fn reach(&mut self) {
        self.0 = self.0.saturating_add(1);
    }
}

fn sure_disk(alloc: Global) -> Option<SureDisk> {
    SureDisk::new(alloc, Vec::new(alloc), 20).ok()
}

fn gated_disk(alloc: Global) -> Option<GatedDisk<SureDisk, Passed>> {
    let disk = sure_disk(alloc)?;
    Some(GatedDisk {
        disk,
        gate: Passed(0),
    })
}

/// The length of a disk that is written twice, with a sync between, and how often it came to its gate.
fn written_twice(alloc: Global) -> Option<(Result<(usize, u64), Failed>, u32)> {
    let changes = [
        Change::Write(0, b"lots"),
        Change::Sync,
        Change::Write(4, b"of"),
    ];
    let mut gated = gated_disk(alloc)?;
    let found = changed(&mut gated, &changes, 0, &mut []);
    Some((found, gated.gate.0))
}

#[test]
fn a_gate_is_reached_before_each_write(rt: HostRuntime) -> Result<(), Fail> {
    equal(written_twice(rt.alloc()), Some((Ok((0, 6)), 2)))?;
    Ok(())
}
