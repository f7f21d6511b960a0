//! Talks of a bidder with links in memory.
mod limits;
mod pauses;

use auction_file::Auction;
use bidder_agent::{AgentEnd, Seen, Wants, agree};
use clock::Look;
use house_io::{Link, ListLink, SureLink};
use lot_base::Phase;
use std::alloc::Global;
use std::process::Abort;
use std::test::Fail;
use std::time::Clock;
use valuation::Valuation;
use worked_auctions::talks::{
    ALL, BYE, ENDED_0, ENDED_2, HELLO, LOOK_0, LOOK_2, LOOKS, ONCE, QUIT, REFUSED, REPLIES,
    REPORT_0, REPORT_2, RUNNING_0, RUNNING_2, TAKEN_0, TAKEN_2, WELCOME,
};
use worked_auctions::valuations::TIE;

/// One unit of one good for two bidders.
const FILE: &str = r#"
version = 1
ceiling = 10

[[goods]]
name = "oil"
supply = 1

[[bidders]]
name = "ada"
token = "ba7816bf8f01cfea414140de5dae2223b00361a396177a9cb410ff61f20015ad"

[[bidders]]
name = "bob"
token = "2cf24dba5fb0a30e26e83b2ac5b9e29e1b161e5c1fa7425e73043362938b9824"
"#;

const AGAIN_2: &[u8] = b"\x00\x00\x00\x05\x14\x02\x00\x00\x00\x01";

/// Replies of which one says that the report is known, and one more that is not read.
const AGAIN: &[&[u8]] = &[
    WELCOME, RUNNING_0, TAKEN_0, RUNNING_2, AGAIN_2, ENDED_0, ENDED_2, BYE, REFUSED,
];

/// Two of them at one clock, and the frames.
const TWICE: &[&[u8]] = &[
    WELCOME, RUNNING_0, TAKEN_0, RUNNING_2, TAKEN_2, RUNNING_0, RUNNING_2, RUNNING_0,
];

const MORE_LOOKS: &[&[u8]] = &[
    HELLO, LOOK_0, REPORT_0, LOOK_2, REPORT_2, LOOK_0, LOOK_2, LOOK_0,
];

/// What comes, in pieces, how many equal looks are borne, what goes, in pieces, and how the agent ends: by so many clocks that it has
/// seen at their ends, or before.
type Case<'a> = (&'a [&'a [u8]], u32, &'a [&'a [u8]], Result<usize, AgentEnd>);

fn auction(rt: &impl Abort, alloc: Global) -> Result<Auction, Fail> {
    assert!(rt; FILE.len() <= auction_file::MOST_BYTES);
    Ok(auction_file::read(alloc, FILE.as_bytes())?)
}

fn valuation(alloc: Global, auction: &Auction) -> Result<Valuation, Fail> {
    let mut valuations = valuation::read(alloc, &auction.terms, TIE.as_bytes())?;
    match valuations.pop() {
        Some(valuation) => Ok(valuation),
        None => Err(Fail::new("no valuation")),
    }
}

fn joined(alloc: Global, pieces: &[&[u8]]) -> Result<Vec<u8>, Fail> {
    let mut bytes = Vec::new(alloc);
    for piece in pieces {
        bytes.extend_from_slice(piece)?;
    }
    Ok(bytes)
}

fn sure_link(alloc: Global, pieces: &[&[u8]]) -> Result<SureLink, Fail> {
    Ok(SureLink::new(alloc, joined(alloc, pieces)?, 1000)?)
}

/// A link with all replies, of which the call of this number fails.
fn list_link(alloc: Global, failing: u64) -> Result<ListLink, Fail> {
    let bytes = joined(alloc, REPLIES)?;
    let mut numbers = Vec::new(alloc);
    numbers.push(failing)?;
    Ok(ListLink::new(alloc, bytes, 1000, numbers)?)
}

/// Takes the part of bidder 1 in an auction, with a valuation and a token.
fn play_as<L: Link>(
    rt: &impl Abort,
    clock: &impl Clock,
    alloc: Global,
    auction: &Auction,
    valuation: &Valuation,
    token: &[u8],
    link: &mut L,
    looks: u32,
) -> Result<Seen, AgentEnd> {
    assert!(rt; auction.terms.bidders >= 1 && looks >= 1);
    assert!(rt; token.len() >= 1 && token.len() <= 64);
    let wants = Wants {
        goods: auction.terms.goods,
        valuation,
    };
    agree(clock, alloc, auction, &wants, 1, token, link, looks)
}

/// The same, with the files above.
fn talk<L: Link>(
    rt: &impl Abort,
    clock: &impl Clock,
    alloc: Global,
    link: &mut L,
    looks: u32,
) -> Result<Result<Seen, AgentEnd>, Fail> {
    let auction = auction(rt, alloc)?;
    let valuation = valuation(alloc, &auction)?;
    Ok(play_as(rt, clock, alloc, &auction, &valuation, b"abc", link, looks))
}

fn count_of(answer: &Result<Seen, AgentEnd>) -> Result<usize, AgentEnd> {
    match answer {
        Ok(seen) => Ok(seen.looks.len()),
        Err(end) => Err(*end),
    }
}

fn talks(rt: &(impl Abort + Clock), alloc: Global, case: &Case) -> Result<bool, Fail> {
    let (comes, looks, goes, end) = case;
    let mut link = sure_link(alloc, comes)?;
    let answer = talk(rt, rt, alloc, &mut link, *looks)?;
    let wanted = joined(alloc, goes)?;
    Ok(count_of(&answer) == *end && link.written() == wanted.as_slice())
}

fn check(rt: &(impl Abort + Clock), alloc: Global, cases: &[Case]) -> Result<(), Fail> {
    for case in cases {
        let talked = talks(rt, alloc, case)?;
        assert!(rt; talked, "{case:?}");
    }
    Ok(())
}

/// Whether it is a look that shows a clock ended in round 1.
fn is_ended(look: &Look) -> bool {
    look.round == 1 && look.phase == Phase::Ended
}

/// Whether the clocks 0 and 2 were seen at their ends.
fn sees_both(alloc: Global, rt: &(impl Abort + Clock)) -> Result<bool, Fail> {
    let mut link = sure_link(alloc, REPLIES)?;
    match talk(rt, rt, alloc, &mut link, 1)? {
        Ok(seen) => Ok(match seen.looks.as_slice() {
            [first, second] => {
                first.clock == 0
                    && second.clock == 2
                    && is_ended(&first.look)
                    && is_ended(&second.look)
            }
            _ => false,
        }),
        Err(_) => Ok(false),
    }
}

#[test]
fn an_agent_talks_to_the_end(rt: HostRuntime) -> Result<(), Fail> {
    assert!(rt; sees_both(rt.alloc(), &rt)?);
    check(
        &rt,
        rt.alloc(),
        &[(REPLIES, 1, ALL, Ok(2)), (AGAIN, 1, ALL, Ok(2))],
    )
}

#[test]
fn equal_looks_are_borne_so_often(rt: HostRuntime) -> Result<(), Fail> {
    let spent = AgentEnd::LooksSpent(0);
    check(
        &rt,
        rt.alloc(),
        &[
            (ONCE, 1, LOOKS, Err(spent)),
            (TWICE, 2, MORE_LOOKS, Err(spent)),
        ],
    )
}

#[test]
fn a_refusal_and_what_answers_nothing_end_the_talk(rt: HostRuntime) -> Result<(), Fail> {
    let refused = AgentEnd::Refused {
        code: 2,
        detail: 0,
        value: 1,
    };
    let bad = AgentEnd::BadReply;
    check(
        &rt,
        rt.alloc(),
        &[
            (&[REFUSED], 1, &[HELLO], Err(refused)),
            (&[WELCOME, REFUSED], 1, &[HELLO, LOOK_0], Err(refused)),
            (&[], 1, &[HELLO], Err(bad)),
            (&[WELCOME, b"\x00\x00"], 1, &[HELLO, LOOK_0], Err(bad)),
            (&[QUIT], 1, &[HELLO], Err(bad)),
            (&[BYE], 1, &[HELLO], Err(bad)),
            (&[b"\x00\x00\x00\x02\x11\x01\x02"], 1, &[HELLO], Err(bad)),
            (&[WELCOME, RUNNING_2], 1, &[HELLO, LOOK_0], Err(bad)),
            (
                &[WELCOME, RUNNING_0, TAKEN_2],
                1,
                &[HELLO, LOOK_0, REPORT_0],
                Err(bad),
            ),
        ],
    )
}

/// A price in a round below that of the price before answers nothing.
#[test]
fn a_round_never_goes_back(rt: HostRuntime) -> Result<(), Fail> {
    let second = b"\x00\x00\x00\x0c\x12\x00\x00\x00\x00\x02\x00\x00\x01\x00\x00\x00\x01".as_slice();
    let taken = b"\x00\x00\x00\x05\x13\x00\x00\x00\x00\x02".as_slice();
    let report = b"\x00\x00\x00\x0a\x03\x00\x00\x00\x00\x02\x01\x00\x01\x00\x01".as_slice();
    check(
        &rt,
        rt.alloc(),
        &[(
            &[WELCOME, second, taken, ENDED_2, RUNNING_0],
            1,
            &[HELLO, LOOK_0, report, LOOK_2, LOOK_0],
            Err(AgentEnd::BadReply),
        )],
    )
}

/// Whether the talk ends by the link's fault after these frames.
fn is_cut(
    rt: &(impl Abort + Clock),
    alloc: Global,
    failing: u64,
    goes: &[&[u8]],
) -> Result<bool, Fail> {
    let mut link = list_link(alloc, failing)?;
    let answer = talk(rt, rt, alloc, &mut link, 1)?;
    let wanted = joined(alloc, goes)?;
    Ok(count_of(&answer) == Err(AgentEnd::LinkFault) && link.written() == wanted.as_slice())
}

#[test]
fn a_link_that_fails_ends_the_talk(rt: HostRuntime) -> Result<(), Fail> {
    assert!(rt; is_cut(&rt, rt.alloc(), 0, &[])?);
    assert!(rt; is_cut(&rt, rt.alloc(), 1, &[HELLO])?);
    assert!(rt; is_cut(&rt, rt.alloc(), 2, &[HELLO])?);
    assert!(rt; is_cut(&rt, rt.alloc(), 3, &[HELLO])?);
    Ok(())
}
