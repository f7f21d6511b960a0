//! The command `serve`: an auction of two bidders that was worked by hand, served at two doors and settled.
use super::auctions::house_shelf;
use super::fixtures::{calls_from, joined};
use super::nets::{net_with_doors, written_at};
use super::runs::{answer_of, ends_so};
use expected_values::equal;
use house_io::{ListDoor, ListNet, SureDoor, SureNet, SureShelf};
use std::alloc::Global;
use std::sync::Wait;
use std::test::Fail;
use std::thread::Threads;
use std::time::Clock;
use worked_auctions::talks::{BYE, HELLO, QUIT, REPORT_0, REPORT_2, TAKEN_0, TAKEN_2, WELCOME};

/// Ada wants the unit, and says so to the clock of all and to that without bob.
const ADA: &[&[u8]] = &[HELLO, REPORT_0, REPORT_2, QUIT];

/// Bob takes the unit or nothing, and says so to the clock of all and to that without ada.
const BOB: &[&[u8]] = &[
    b"\x00\x00\x00\x06\x01\x02hello",
    b"\x00\x00\x00\x0c\x03\x00\x00\x00\x00\x01\x01\x00\x02\x00\x00\x00\x01",
    b"\x00\x00\x00\x0c\x03\x01\x00\x00\x00\x01\x01\x00\x02\x00\x00\x00\x01",
    QUIT,
];

const TAKEN_1: &[u8] = b"\x00\x00\x00\x05\x13\x01\x00\x00\x00\x01";

const TO_ADA: &[&[u8]] = &[WELCOME, TAKEN_0, TAKEN_2, BYE];

const TO_BOB: &[&[u8]] = &[WELCOME, TAKEN_0, TAKEN_1, BYE];

const ADDRESS: &str = "house:1";

const SERVE: &[&str] = &["serve", "a", "j", ADDRESS, "--doors", "2", "--sessions=1"];

pub(super) const SETTLE: &[&str] = &["settle", "a", "j"];

const SERVED: &str = "door 0 session 1 quit
door 1 session 1 quit
clock 0 round 1 ended prices 0
clock 1 round 1 ended prices 0
clock 2 round 1 ended prices 0
";

/// What the text of the settlement begins with.
const SETTLED: &str = "settled goods 1 bidders 2
prices 0
bidder 1 award 1 debit 0 credit 0 pays 0
bidder 2 award 0 debit 0 credit 0 pays 0
clock 0 steps 0 prices 0
";

/// A door without links.
fn list_door(alloc: Global) -> Option<ListDoor> {
    ListDoor::new(alloc, Vec::new(alloc), Vec::new(alloc)).ok()
}

/// A net on which the first call fails.
fn failing_net(alloc: Global) -> Option<ListNet> {
    let failing = calls_from(alloc, 0, 1)?;
    let mut doors = Vec::new(alloc);
    doors.push(list_door(alloc)?).ok()?;
    ListNet::new(alloc, doors, Vec::new(alloc), failing).ok()
}

/// Whether these replies went over the one link that was hung up at a door.
fn was_told(alloc: Global, door: &SureDoor, replies: &[&[u8]]) -> Option<bool> {
    let bytes = joined(alloc, replies)?;
    Some(written_at(door)? == bytes.as_slice())
}

/// Whether doors were asked for at this address, once, and at no other.
fn was_asked(net: &SureNet, address: &str) -> bool {
    match net.asked() {
        [one] => one.as_str() == address,
        _ => false,
    }
}

/// Whether both bidders were told what they should be, at the two doors that were closed, and the doors were asked for at one address.
fn were_told(alloc: Global, net: &SureNet) -> Option<bool> {
    if !was_asked(net, ADDRESS) {
        return Some(false);
    }
    match net.closed() {
        [first, second] => {
            Some(was_told(alloc, first, TO_ADA)? && was_told(alloc, second, TO_BOB)?)
        }
        _ => None,
    }
}

/// The length of the journal of the clock of all.
pub(super) fn journal_length(shelf: &SureShelf) -> Option<usize> {
    match shelf.file("j/clock-00.ahj") {
        Some(bytes) => Some(bytes.len()),
        None => None,
    }
}

/// Whether the auction is served at two doors.
fn is_served(
    rt: &(impl Threads + Wait + Sync + Clock),
    alloc: Global,
    shelf: &mut SureShelf,
    net: &mut SureNet,
) -> Option<bool> {
    ends_so(rt, alloc, SERVE, shelf, net, 0, SERVED)
}

/// Whether it is settled.
fn is_settled(
    rt: &(impl Threads + Wait + Sync + Clock),
    alloc: Global,
    shelf: &mut SureShelf,
    net: &mut SureNet,
) -> Option<bool> {
    let (status, text) = answer_of(rt, alloc, SETTLE, shelf, net)?;
    Some(status == 0 && text.as_slice().starts_with(SETTLED.as_bytes()))
}

/// Whether it is served, whether the bidders were told what they should be, how long the journal is, and whether it is settled.
type Served = (bool, bool, usize, bool);

/// All that of one auction over a shelf and a net.
fn served_on(
    rt: &(impl Threads + Wait + Sync + Clock),
    alloc: Global,
    shelf: &mut SureShelf,
    net: &mut SureNet,
) -> Option<Served> {
    let served = is_served(rt, alloc, shelf, net)?;
    let told = were_told(alloc, net)?;
    let length = journal_length(shelf)?;
    let settled = is_settled(rt, alloc, shelf, net)?;
    Some((served, told, length, settled))
}

/// The same over a shelf without journals.
fn served_anew(
    rt: &(impl Threads + Wait + Sync + Clock),
    alloc: Global,
    net: &mut SureNet,
) -> Option<Served> {
    let mut shelf = house_shelf(alloc)?;
    served_on(rt, alloc, &mut shelf, net)
}

/// The same on a net with both bidders.
fn served_and_settled(rt: &(impl Threads + Wait + Sync + Clock), alloc: Global) -> Option<Served> {
    let mut net = net_with_doors(alloc, &[ADA, BOB])?;
    served_anew(rt, alloc, &mut net)
}

#[test]
fn an_auction_is_served_and_settled(rt: HostRuntime) -> Result<(), Fail> {
    let found = served_and_settled(&rt, rt.alloc());
    equal(found, Some((true, true, 74, true)))?;
    Ok(())
}

/// Whether a house on this net ends with a fault of it.
fn ends_by_the_net(
    rt: &(impl Threads + Wait + Sync + Clock),
    alloc: Global,
    net: &mut ListNet,
) -> Option<bool> {
    let mut shelf = house_shelf(alloc)?;
    ends_so(rt, alloc, SERVE, &mut shelf, net, 7, "net fault\n")
}

/// Whether one on a net whose first call fails does so.
fn tells_the_fault(rt: &(impl Threads + Wait + Sync + Clock), alloc: Global) -> Option<bool> {
    let mut net = failing_net(alloc)?;
    ends_by_the_net(rt, alloc, &mut net)
}

#[test]
fn a_net_without_doors_is_told(rt: HostRuntime) -> Result<(), Fail> {
    equal(tells_the_fault(&rt, rt.alloc()), Some(true))?;
    Ok(())
}
