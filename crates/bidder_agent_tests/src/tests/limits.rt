//! A talk at the limits: twelve bidders, six goods, a token of 64 bytes, and each report of all 2,048 bundles.
use super::pauses::{SleepList, are_micros};
use super::{count_of, play_as};
use auction_file::{Auction, read as read_auction};
use house_io::SureLink;
use std::alloc::Global;
use std::process::Abort;
use std::test::Fail;
use valuation::Valuation;
use worked_auctions::talks::BYE;

/// A box of 4 * 4 * 4 * 4 * 2 * 4 bundles.
const GOODS: &str = r#"version = 1
ceiling = 10
goods = [
  { name = "g0", supply = 3 }, { name = "g1", supply = 3 }, { name = "g2", supply = 3 },
  { name = "g3", supply = 3 }, { name = "g4", supply = 1 }, { name = "g5", supply = 3 },
]
"#;

const DIGEST: &str = "ba7816bf8f01cfea414140de5dae2223b00361a396177a9cb410ff61f20015ad";

const TOKEN: &[u8] = b"0123456789abcdef0123456789abcdef0123456789abcdef0123456789abcdef";

/// No unit is worth anything, so that at prices of 0 each bundle is demanded.
const WORTHLESS: &str = "[[valuations]]\nform = \"unit\"\nvalues = [0, 0, 0, 0, 0, 0]\n";

/// The clocks that bidder 1 looks at.
const CLOCKS: &[u8] = &[0, 2, 3, 4, 5, 6, 7, 8, 9, 10, 11, 12];

/// Six goods and thirteen clocks.
const WELCOME: &[u8] = b"\x00\x00\x00\x02\x11\x06\x0d";

const RUNNING: u8 = 0;

const ENDED: u8 = 1;

fn auction(rt: &impl Abort, alloc: Global) -> Result<Auction, Fail> {
    let mut text = String::from_str(alloc, GOODS)?;
    for number in 1..13u32 {
        let bidder = format!(in alloc;
            "[[bidders]]\nname = \"b{number}\"\ntoken = \"{DIGEST}\"\n"
        )?;
        text.push_str(bidder.as_str())?;
    }
    assert!(rt; text.len() <= auction_file::MOST_BYTES);
    Ok(read_auction(alloc, text.as_bytes())?)
}

fn valuation(alloc: Global, auction: &Auction) -> Result<Valuation, Fail> {
    let mut text = String::new(alloc);
    for _ in 0..12 {
        text.push_str(WORTHLESS)?;
    }
    let mut valuations = valuation::read(alloc, &auction.terms, text.as_bytes())?;
    match valuations.pop() {
        Some(valuation) => Ok(valuation),
        None => Err(Fail::new("no valuation")),
    }
}

/// The price frame of a clock: its round, its phase, and six prices of 0.
fn push_price(bytes: &mut Vec<u8>, clock: u8, round: u8, phase: u8) -> Result<(), Fail> {
    bytes.extend_from_slice(b"\x00\x00\x00\x20\x12")?;
    bytes.extend_from_slice(&[clock, 0, 0, 0, round, phase, 0, 6])?;
    bytes.extend_from_slice(&[0; 24])?;
    Ok(())
}

/// The report in that round of a clock is taken.
fn push_taken(bytes: &mut Vec<u8>, clock: u8, round: u8) -> Result<(), Fail> {
    bytes.extend_from_slice(b"\x00\x00\x00\x05\x13")?;
    bytes.extend_from_slice(&[clock, 0, 0, 0, round])?;
    Ok(())
}

/// What comes after a look at a clock in a round of the talk: all clocks run in round 1 of theirs, clock 12 from the third round of
/// the talk on in round 2; the fifth round shows all ended.
fn push_replies(bytes: &mut Vec<u8>, clock: u8, turn: u32) -> Result<(), Fail> {
    let round = if clock == 12 && turn >= 3 { 2 } else { 1 };
    let phase = if turn == 5 { ENDED } else { RUNNING };
    push_price(bytes, clock, round, phase)?;
    if turn == 1 || (clock == 12 && turn == 3) {
        push_taken(bytes, clock, round)?;
    }
    Ok(())
}

/// All that comes.
fn replies(alloc: Global) -> Result<Vec<u8>, Fail> {
    let mut bytes = Vec::new(alloc);
    bytes.extend_from_slice(WELCOME)?;
    for turn in 1..6u32 {
        for clock in CLOCKS {
            push_replies(&mut bytes, *clock, turn)?;
        }
    }
    bytes.extend_from_slice(BYE)?;
    Ok(bytes)
}

/// Whether the agent of bidder 1 sees all twelve clocks at their ends, and sleeps for so many microseconds each time.
fn talks_and_sleeps(rt: &impl Abort, alloc: Global, micros: &[u64]) -> Result<bool, Fail> {
    let auction = auction(rt, alloc)?;
    let valuation = valuation(alloc, &auction)?;
    let mut link = SureLink::new(alloc, replies(alloc)?, 1000)?;
    let clock = SleepList::new(alloc);
    let answer = play_as(
        rt, &clock, alloc, &auction, &valuation, TOKEN, &mut link, 20,
    );
    Ok(count_of(&answer) == Ok(12) && are_micros(&clock.into_slept(), micros))
}

#[test]
fn an_agent_talks_at_the_limits(rt: HostRuntime) -> Result<(), Fail> {
    assert!(rt; talks_and_sleeps(&rt, rt.alloc(), &[50, 50])?);
    Ok(())
}
