//! The command `bid`: talks that were worked by hand.
use super::auctions::bidder_shelf;
use super::fixtures::{calls_from, joined};
use super::nets::{LINK_ROOM, net_to_dial};
use super::runs::ends_so;
use expected_values::equal_in;
use house_io::{ListLink, ListNet, Net, SureNet};
use std::alloc::Global;
use std::sync::Wait;
use std::test::Fail;
use std::thread::Threads;
use std::time::Clock;
use worked_auctions::talks::{ALL, HELLO, LOOKS, ONCE, REFUSED, REPLIES};
use worked_auctions::valuations::TIE;

const ADDRESS: &str = "house:1";

const BID: &[&str] = &["bid", "a", "v", "1", "abc", ADDRESS];

const ONE_LOOK: &[&str] = &["bid", "a", "v", "1", "abc", ADDRESS, "--looks", "1"];

const THIRD: &[&str] = &["bid", "a", "v", "3", "abc", ADDRESS];

const BOTH: &str = "clock 0 round 1 ended prices 0\nclock 2 round 1 ended prices 0\n";

const SPENT: &str = "looks spent clock 0\n";

/// The words, what comes over the one link, in pieces, what goes over the one that was hung up, in pieces, the status and the text.
type Case<'a> = (&'a [&'a str], &'a [&'a [u8]], &'a [&'a [u8]], u8, &'a str);

/// Whether these words over a net end with this status and text.
fn ends_with<N: Net>(
    rt: &(impl Threads + Wait + Sync + Clock),
    alloc: Global,
    words: &[&str],
    net: &mut N,
    status: u8,
    text: &str,
) -> Option<bool> {
    let mut shelf = bidder_shelf(alloc, TIE)?;
    ends_so(rt, alloc, words, &mut shelf, net, status, text)
}

/// Whether these bytes went over the one link that was hung up, whose address alone was dialled. Where there is none, none should have
/// gone, and nothing was dialled.
fn has_written(net: &SureNet, bytes: &[u8]) -> bool {
    match (net.hung_up(), net.dialled()) {
        ([link], [address]) => link.written() == bytes && address.as_str() == ADDRESS,
        ([], []) => bytes.is_empty(),
        _ => false,
    }
}

/// Whether these frames went over it.
fn has_gone(alloc: Global, net: &SureNet, frames: &[&[u8]]) -> Option<bool> {
    let bytes = joined(alloc, frames)?;
    Some(has_written(net, &bytes))
}

/// Whether a bid ends as the case says.
fn bids(rt: &(impl Threads + Wait + Sync + Clock), alloc: Global, case: &Case) -> Option<bool> {
    let (words, comes, goes, status, text) = case;
    let mut net = net_to_dial(alloc, comes)?;
    let told = ends_with(rt, alloc, words, &mut net, *status, text)?;
    Some(told && has_gone(alloc, &net, goes)?)
}

const CASES: &[Case] = &[
    (BID, REPLIES, ALL, 0, BOTH),
    (ONE_LOOK, ONCE, LOOKS, 17, SPENT),
    (
        BID,
        &[REFUSED],
        &[HELLO],
        16,
        "refused code 2 detail 0 value 1\n",
    ),
    (BID, &[], &[HELLO], 18, "bad reply\n"),
    (THIRD, REPLIES, &[], 19, "no bidder 3\n"),
];

#[test]
fn bids_end_as_their_talks(rt: HostRuntime) -> Result<(), Fail> {
    for case in CASES {
        equal_in(case, bids(&rt, rt.alloc(), case), Some(true))?;
    }
    Ok(())
}

/// The call of this number, if there is one.
fn plan_of(alloc: Global, call: Option<u64>) -> Option<Vec<u64>> {
    match call {
        Some(number) => calls_from(alloc, number, 1),
        None => Some(Vec::new(alloc)),
    }
}

/// A link over which the replies come, and of which a call may fail.
fn list_link(alloc: Global, failing: Option<u64>) -> Option<ListLink> {
    let bytes = joined(alloc, REPLIES)?;
    let calls = plan_of(alloc, failing)?;
    ListLink::new(alloc, bytes, LINK_ROOM, calls).ok()
}

/// A net on which one link is dialled whose call of this number fails, or whose dialling does.
fn list_net(alloc: Global, failing_link: Option<u64>, failing: Option<u64>) -> Option<ListNet> {
    let calls = plan_of(alloc, failing)?;
    let mut links = Vec::new(alloc);
    links.push(list_link(alloc, failing_link)?).ok()?;
    ListNet::new(alloc, Vec::new(alloc), links, calls).ok()
}

/// Whether a bid over such a net is told to fail there.
fn tells_the_fault(
    rt: &(impl Threads + Wait + Sync + Clock),
    alloc: Global,
    failing_link: Option<u64>,
    failing: Option<u64>,
) -> Option<bool> {
    let mut net = list_net(alloc, failing_link, failing)?;
    ends_with(rt, alloc, BID, &mut net, 7, "net fault\n")
}

#[test]
fn faults_of_the_net_are_told(rt: HostRuntime) -> Result<(), Fail> {
    for (failing_link, failing) in [(None, Some(0)), (Some(0), None), (Some(2), None)] {
        let told = tells_the_fault(&rt, rt.alloc(), failing_link, failing);
        equal_in((failing_link, failing), told, Some(true))?;
    }
    Ok(())
}
