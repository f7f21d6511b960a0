//! Both ends of `run` over TCP: an auction that was worked by hand, and a door at which a connection is cut.
use super::auctions::{bidder_shelf, house_shelf};
use super::runs::{Answer, answer_of, is_answer};
use super::serves::{SETTLE, journal_length};
use expected_values::equal;
use house_io::{Link, Net, SureShelf, TcpNet, send_whole};
use std::alloc::Global;
use std::net::{OpenListener, TcpListener};
use std::sync::Wait;
use std::test::Fail;
use std::thread;
use std::thread::Threads;
use std::time::{Clock, Duration};

/// The unit is worth 4 to ada and 2 to bob.
const VALUES: &str = r#"
[[valuations]]
form = "marginal"
lists = [[4]]

[[valuations]]
form = "marginal"
lists = [[2]]
"#;

/// At prices of 0 and 1 both want the unit, and at 2 bob takes it or nothing. Without the other, each gets it for nothing.
const SERVED: &str = "door 0 session 1 quit
door 1 session 1 quit
clock 0 round 3 ended prices 2
clock 1 round 1 ended prices 0
clock 2 round 1 ended prices 0
";

/// The clock without the other is seen at its end first.
const TO_ADA: &str = "clock 2 round 1 ended prices 0
clock 0 round 3 ended prices 2
";

const TO_BOB: &str = "clock 1 round 1 ended prices 0
clock 0 round 3 ended prices 2
";

/// Ada pays what the unit is worth to bob.
const SETTLED: &str = "settled goods 1 bidders 2
prices 2
bidder 1 award 1 debit 0 credit 0 pays 2
bidder 2 award 0 debit 0 credit 0 pays 0
clock 0 steps 2 prices 2
choice 0 1 1
choice 0 2 0
clock 1 steps 0 prices 0
choice 1 2 1
clock 2 steps 0 prices 0
choice 2 1 1
";

/// How often a door is tried that is not open yet, and the milliseconds between.
const TRIES: u32 = 1_000;

const PAUSE: u64 = 10;

/// However long the other bidder takes.
const MOST_LOOKS: &str = "--looks=1000000000";

/// What a run answered, if there was memory.
type Ran = Option<Answer>;

/// An address of this machine at which nobody listens.
fn free_address<R: std::net::Net>(rt: &R, alloc: Global) -> Result<String, Fail> {
    let listener = TcpListener::bind(rt, "127.0.0.1:0")?;
    let address = listener.local_addr()?;
    Ok(format!(in alloc; "{address}")?)
}

/// How these words end over TCP. There is nothing where there is no memory.
fn run_over_tcp<T>(rt: &T, alloc: Global, words: &[&str], shelf: &mut SureShelf) -> Ran
where
    T: Threads + Wait + Sync + Clock + Eprint + std::net::Net,
    T::Stream: Send,
    T::Listener: Send,
{
    let mut net = TcpNet::new(rt);
    answer_of(rt, alloc, words, shelf, &mut net)
}

/// Whether a run ended with a fault of the net.
fn is_net_fault(ran: &Ran) -> bool {
    matches!(ran, Some((7, _)))
}

/// How the bid of a bidder ends, tried again until the doors are open.
fn bid<T>(rt: &T, alloc: Global, bidder: &str, token: &str, address: &str) -> Ran
where
    T: Threads + Wait + Sync + Clock + Eprint + std::net::Net,
    T::Stream: Send,
    T::Listener: Send,
{
    let mut shelf = bidder_shelf(alloc, VALUES)?;
    let words = ["bid", "a", "v", bidder, token, address, MOST_LOOKS];
    for _ in 0..TRIES {
        let ran = run_over_tcp(rt, alloc, &words, &mut shelf);
        if !is_net_fault(&ran) {
            return ran;
        }
        thread::sleep(rt, Duration::from_millis(PAUSE));
    }
    None
}

/// Whether an end has this status and text.
fn has_ended(ran: &Ran, status: u8, text: &str) -> bool {
    matches!(ran, Some(answer) if is_answer(answer, status, text))
}

/// A house and both bidders.
#[derive(Drop)]
struct Talk {
    /// How the house ended. None where memory ran out.
    house: Ran,
    /// How the bid of bidder 1 ended. None where memory ran out, or where the doors were never open.
    ada: Ran,
    /// How the bid of bidder 2 ended, in the same way.
    bob: Ran,
}

/// Serves at two doors of an address while both bid there.
fn serve_and_bid<T>(rt: &T, alloc: Global, address: &str, shelf: &mut SureShelf) -> Talk
where
    T: Threads + Wait + Sync + Clock + Eprint + std::net::Net,
    T::Stream: Send,
    T::Listener: Send,
{
    let words = ["serve", "a", "j", address, "--doors=2"];
    let (house, (ada, bob)) = thread::join(
        rt,
        || run_over_tcp(rt, alloc, &words, shelf),
        || {
            thread::join(
                rt,
                || bid(rt, alloc, "1", "abc", address),
                || bid(rt, alloc, "2", "hello", address),
            )
        },
    );
    Talk { house, ada, bob }
}

/// Whether the house and both bidders ended as they should.
fn is_told(talk: &Talk) -> bool {
    has_ended(&talk.house, 0, SERVED)
        && has_ended(&talk.ada, 0, TO_ADA)
        && has_ended(&talk.bob, 0, TO_BOB)
}

/// Whether an auction over TCP goes as it should, how long the journal is, and whether it is settled.
fn talked_and_settled<T>(rt: &T, alloc: Global, address: &str) -> Option<(bool, usize, bool)>
where
    T: Threads + Wait + Sync + Clock + Eprint + std::net::Net,
    T::Stream: Send,
    T::Listener: Send,
{
    let mut shelf = house_shelf(alloc)?;
    let told = is_told(&serve_and_bid(rt, alloc, address, &mut shelf));
    let length = journal_length(&shelf)?;
    let settled = run_over_tcp(rt, alloc, SETTLE, &mut shelf);
    Some((told, length, has_ended(&settled, 0, SETTLED)))
}

#[test]
fn an_auction_goes_over_tcp(rt: HostRuntime) -> Result<(), Fail> {
    let address = free_address(&rt, rt.alloc())?;
    let found = talked_and_settled(&rt, rt.alloc(), address.as_str());
    // The header, five reports of one bundle, and the last of bob's with two.
    equal(found, Some((true, 42 + 5 * 15 + 17, true)))?;
    Ok(())
}

/// The front of a hello.
const CUT_HELLO: &[u8] = b"\x00\x00\x00\x04\x01\x01";

/// Ada says hello and quits.
const HELLO_AND_QUIT: &[u8] = b"\x00\x00\x00\x04\x01\x01abc\x00\x00\x00\x00\x04";

const WELCOME_AND_BYE: &[u8] = b"\x00\x00\x00\x02\x11\x01\x03\x00\x00\x00\x00\x16";

const SERVED_BEHIND_A_CUT: &str = "door 0 session 1 closed
door 0 session 2 quit
clock 0 round 1 running prices 0 missing 1
clock 1 round 1 running prices 0 missing 2
clock 2 round 1 running prices 0 missing 1
";

/// A connection to an address, tried again until its door is open.
fn dial<T: Clock, N: Net>(rt: &T, alloc: Global, net: &mut N, address: &str) -> Option<N::Link> {
    for _ in 0..TRIES {
        match net.dial(alloc, address) {
            Ok(link) => return Some(link),
            Err(_) => thread::sleep(rt, Duration::from_millis(PAUSE)),
        }
    }
    None
}

/// Whether just these bytes come over a link, up to its end.
fn comes<L: Link>(link: &mut L, wanted: &[u8]) -> bool {
    let mut byte = [0; 1];
    for next in wanted {
        if link.pull(&mut byte) != Ok(1) || byte[0] != *next {
            return false;
        }
    }
    link.pull(&mut byte) == Ok(0)
}

/// Sends the front of a hello over a connection of its own, and hangs up.
fn is_cut<T: Clock, N: Net>(rt: &T, alloc: Global, net: &mut N, address: &str) -> bool {
    match dial(rt, alloc, net, address) {
        None => false,
        Some(mut link) => {
            let sent = send_whole(&mut link, CUT_HELLO).is_ok();
            net.hang_up(link);
            sent
        }
    }
}

/// Whether a session of its own goes well.
fn is_served<T: Clock, N: Net>(rt: &T, alloc: Global, net: &mut N, address: &str) -> bool {
    match dial(rt, alloc, net, address) {
        None => false,
        Some(mut link) => {
            let sent = send_whole(&mut link, HELLO_AND_QUIT).is_ok();
            let answered = comes(&mut link, WELCOME_AND_BYE);
            net.hang_up(link);
            sent && answered
        }
    }
}

/// A house, and those who come to its address one after another: one who hangs up in the middle of a frame, another house, and one
/// who is served.
#[derive(Drop)]
struct Visits {
    /// How the house ended. None where memory ran out.
    house: Ran,
    /// The front of a hello was sent before the link was hung up.
    cut: bool,
    /// How the other house ended, which finds the address in use.
    other: Ran,
    /// The last session had just the replies that it should have.
    served: bool,
}

/// How another house at an address ends.
fn serve_at<T>(rt: &T, alloc: Global, address: &str) -> Ran
where
    T: Threads + Wait + Sync + Clock + Eprint + std::net::Net,
    T::Stream: Send,
    T::Listener: Send,
{
    let mut shelf = house_shelf(alloc)?;
    run_over_tcp(rt, alloc, &["serve", "a", "j", address], &mut shelf)
}

/// Whether the front of a hello is sent over TCP.
fn is_cut_over_tcp<T>(rt: &T, alloc: Global, address: &str) -> bool
where
    T: Threads + Wait + Sync + Clock + Eprint + std::net::Net,
    T::Stream: Send,
    T::Listener: Send,
{
    let mut net = TcpNet::new(rt);
    is_cut(rt, alloc, &mut net, address)
}

/// Whether a session over TCP goes well.
fn is_served_over_tcp<T>(rt: &T, alloc: Global, address: &str) -> bool
where
    T: Threads + Wait + Sync + Clock + Eprint + std::net::Net,
    T::Stream: Send,
    T::Listener: Send,
{
    let mut net = TcpNet::new(rt);
    is_served(rt, alloc, &mut net, address)
}

/// Those who come to an address.
fn visit<T>(rt: &T, alloc: Global, address: &str) -> (bool, Ran, bool)
where
    T: Threads + Wait + Sync + Clock + Eprint + std::net::Net,
    T::Stream: Send,
    T::Listener: Send,
{
    let cut = is_cut_over_tcp(rt, alloc, address);
    let other = serve_at(rt, alloc, address);
    let served = is_served_over_tcp(rt, alloc, address);
    (cut, other, served)
}

/// Serves two sessions at one door of an address while they come there.
fn serve_visits<T>(rt: &T, alloc: Global, address: &str, shelf: &mut SureShelf) -> Visits
where
    T: Threads + Wait + Sync + Clock + Eprint + std::net::Net,
    T::Stream: Send,
    T::Listener: Send,
{
    let words = ["serve", "a", "j", address, "--doors=1", "--sessions=2"];
    let (house, (cut, other, served)) = thread::join(
        rt,
        || run_over_tcp(rt, alloc, &words, shelf),
        || visit(rt, alloc, address),
    );
    Visits {
        house,
        cut,
        other,
        served,
    }
}

/// Whether the cut was sent, how the other house and the house ended, and whether the last session went well.
fn is_cut_alone<T>(rt: &T, alloc: Global, address: &str) -> Option<[bool; 4]>
where
    T: Threads + Wait + Sync + Clock + Eprint + std::net::Net,
    T::Stream: Send,
    T::Listener: Send,
{
    let mut shelf = house_shelf(alloc)?;
    let visits = serve_visits(rt, alloc, address, &mut shelf);
    Some([
        visits.cut,
        has_ended(&visits.other, 7, "net fault\n"),
        visits.served,
        has_ended(&visits.house, 0, SERVED_BEHIND_A_CUT),
    ])
}

#[test]
fn a_cut_connection_ends_its_session_alone(rt: HostRuntime) -> Result<(), Fail> {
    let address = free_address(&rt, rt.alloc())?;
    let found = is_cut_alone(&rt, rt.alloc(), address.as_str());
    equal(found, Some([true; 4]))?;
    Ok(())
}
