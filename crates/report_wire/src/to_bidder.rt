//! Frames to a bidder.
ghost use Rattle.std.specs.Prelude.{◌≡◌, ◌≤◌, ◌<◌, ◌*◌, ◌+◌, ◌++◌, length, true, take, drop, slice_index, IfOk, OnOk, MatchOption};
ghost use Rattle.byte_numbers.specs.Spelling.{big_bytes};
ghost use Rattle.std.specs.List.{flat_map};
ghost use Rattle.report_wire.specs.Frames.{IsMessage, IsRead, spelling};
ghost use Rattle.report_wire.specs.Messages.{to_bidder, bidder_kind, bidder_payload};
ghost use Rattle.report_wire.specs.Payloads.{phase_number, halted_good, is_phase, is_price_payload, is_refused_payload, price_payload};
ghost use Rattle.report_wire.specs.declared.kinds.TheConstants.{PRICE, REFUSED};

use crate::frames::Frame;
use crate::heads::push_head;
use crate::kinds::{AGAIN, BYE, PRICE, REFUSED, TAKEN, WELCOME};
use crate::messages::ToBidder;
use crate::refusals::{BAD_DEMAND, BAD_PAYLOAD, EMPTY, NO_HELLO, WRONG_GOODS};
use byte_numbers::{number_of, push_number};
use lot_base::{NoMemory, Phase, Prices};
use std::alloc::{AllocError, Global};

impl Frame for ToBidder {
    ghost use Rattle.report_wire.specs.Messages.{to_bidder, bidder_kind, bidder_payload};
    ghost use Rattle.report_wire.specs.Forms.{bidder_is};

    ghost direction = { to_bidder };

    ghost kind_of = { bidder_kind };

    ghost payload_of = { bidder_payload };

    fn is_kind(kind: u8) -> bool {
        kind >= WELCOME && kind <= BYE
    }

    fn allows(kind: u8, length: u32) -> bool {
        kind == WELCOME && length == 2
            || kind == PRICE
            || ((kind == TAKEN || kind == AGAIN) && length == 5
                || (kind == REFUSED && length == 6 || kind == BYE && length == 0))
    }

    fn read(_alloc: Global, kind: u8, payload: &[u8]) -> Result<Option<ToBidder>, NoMemory> {
        Ok(message_of(kind, payload))
    }

    fn encode(&self, alloc: Global) -> Result<Vec<u8>, NoMemory> {
        let mut bytes = Vec::new(alloc);
        match push_to_bidder(&mut bytes, self) {
            Ok(()) => Ok(bytes),
            Err(_) => Err(NoMemory),
        }
    }

    ghost formed = { bidder_is };
}

/// The message of a payload, if it is one of the kind.
fn message_of(kind: u8, payload: &[u8]) -> Option<ToBidder>
    requires kind { to_bidder.is_kind kind ≡ true }
    requires length { to_bidder.allows kind (length payload.now) ≡ true }
    ensures { IsRead to_bidder bidder_kind bidder_payload kind payload.now result }
{
    match kind {
        WELCOME => {
            Some(ToBidder::Welcome {
                goods: payload[0],
                clocks: payload[1],
            })
        }
        PRICE => price_of(payload),
        TAKEN => {
            Some(ToBidder::Taken {
                clock: payload[0],
                round: number_of(&payload[1..5]),
            })
        }
        AGAIN => {
            Some(ToBidder::Again {
                clock: payload[0],
                round: number_of(&payload[1..5]),
            })
        }
        REFUSED => refused_of(payload),
        _ => Some(ToBidder::Bye),
    }
}

/// The refusal of a payload, if its code and detail are in range.
fn refused_of(payload: &[u8]) -> Option<ToBidder>
    requires { length payload.now ≡ 6 }
    ensures { IsRead to_bidder bidder_kind bidder_payload REFUSED payload.now result }
{
    let code = payload[0];
    let detail = payload[1];
    if code < NO_HELLO
        || code > BAD_PAYLOAD
        || if code == BAD_DEMAND {
            detail < EMPTY || detail > WRONG_GOODS
        } else {
            detail != 0
        }
    {
        return None;
    }
    Some(ToBidder::Refused {
        code,
        detail,
        value: number_of(&payload[2..6]),
    })
}

/// Whether the bytes are a price's payload.
fn is_price(payload: &[u8]) -> bool
    ensures { result ≡ is_price_payload payload.now }
{
    payload.len() >= 8
        && payload[7] >= 1
        && payload[7] <= 6
        && payload.len() == 8 + 4 * payload[7] as usize
        && is_phase(payload[5], payload[6], payload[7])
}

/// Whether a phase is spelled by these two numbers.
fn is_phase(phase: u8, good: u8, goods: u8) -> bool
    ensures { result ≡ is_phase phase good goods }
{
    phase < 2 && good == 0 || phase == 2 && good < goods
}

/// The phase of two numbers.
fn phase_of(phase: u8, good: u8, goods: u8) -> Phase
    requires { is_phase phase good goods ≡ true }
    ensures number { phase_number result ≡ phase }
    ensures good { halted_good result ≡ good }
{
    match phase {
        0 => Phase::Running,
        1 => Phase::Ended,
        _ => Phase::Halted(good),
    }
}

/// The prices of a payload, if it is a price's.
fn price_of(payload: &[u8]) -> Option<ToBidder>
    ensures { IsRead to_bidder bidder_kind bidder_payload PRICE payload.now result }
{
    if !is_price(payload) {
        return None;
    }
    let prices = prices_of(&payload[8..], payload[7]);
    Some(ToBidder::Price {
        clock: payload[0],
        round: number_of(&payload[1..5]),
        phase: phase_of(payload[5], payload[6], payload[7]),
        prices,
    })
}

/// The prices in four bytes each.
fn prices_of(bytes: &[u8], goods: u8) -> Prices
    requires some { 1 ≤ goods }
    requires few { goods ≤ 6 }
    requires length { length bytes.now ≡ 4 * goods }
    ensures count { length result ≡ goods }
    ensures spelled { flat_map (big_bytes 4) result ≡ bytes.now }
{
    let mut cells = [0u32; 6];
    fill_numbers(bytes, &mut cells[..goods as usize]);
    Prices::read(&cells[..goods as usize]).unwrap()
}

/// The numbers in four bytes each.
fn fill_numbers(bytes: &[u8], cells: &mut [u32])
    requires { length bytes.now ≡ 4 * length cells.old }
    ensures { flat_map (big_bytes 4) cells.new ≡ bytes.now }
{
    for good in 0..cells.len() {
        cells[good] = number_of(&bytes[4 * good..4 * good + 4]);
    }
}

/// Appends the frame of a message.
fn push_to_bidder(bytes: &mut Vec<u8>, message: &ToBidder) -> Result<(), AllocError>
    requires { IsMessage to_bidder (bidder_kind message.now) (bidder_payload message.now) }
    ensures { OnOk result (bytes.new.items ≡ bytes.old.items ++ spelling (bidder_kind message.now) (bidder_payload message.now)) }
{
    match message {
        ToBidder::Welcome { goods, clocks } => {
            push_head(bytes, 2, WELCOME)?;
            bytes.push(*goods)?;
            bytes.push(*clocks)?;
            Ok(())
        }
        ToBidder::Price {
            clock,
            round,
            phase,
            prices,
        } => {
            push_head(bytes, 8 + 4 * prices.count() as u32, PRICE)?;
            push_price(bytes, *clock, *round, phase, prices)
        }
        ToBidder::Taken { clock, round } => {
            push_head(bytes, 5, TAKEN)?;
            bytes.push(*clock)?;
            push_number(bytes, *round)
        }
        ToBidder::Again { clock, round } => {
            push_head(bytes, 5, AGAIN)?;
            bytes.push(*clock)?;
            push_number(bytes, *round)
        }
        ToBidder::Refused {
            code,
            detail,
            value,
        } => {
            push_head(bytes, 6, REFUSED)?;
            bytes.push(*code)?;
            bytes.push(*detail)?;
            push_number(bytes, *value)
        }
        ToBidder::Bye => push_head(bytes, 0, BYE),
    }
}

/// Appends the payload of prices.
fn push_price(
    bytes: &mut Vec<u8>,
    clock: u8,
    round: u32,
    phase: &Phase,
    prices: &Prices,
) -> Result<(), AllocError>
    ensures { OnOk result (bytes.new.items ≡ bytes.old.items ++ price_payload clock round phase.now prices.now) }
{
    let (number, good) = numbers_of(phase);
    bytes.push(clock)?;
    push_number(bytes, round)?;
    bytes.push(number)?;
    bytes.push(good)?;
    bytes.push(prices.count())?;
    push_prices(bytes, prices)
}

/// The phase in two numbers.
fn numbers_of(phase: &Phase) -> (u8, u8)
    ensures number { result.0 ≡ phase_number phase.now }
    ensures good { result.1 ≡ halted_good phase.now }
{
    match phase {
        Phase::Running => (0, 0),
        Phase::Ended => (1, 0),
        Phase::Halted(good) => (2, *good),
    }
}

/// Appends the prices.
fn push_prices(bytes: &mut Vec<u8>, prices: &Prices) -> Result<(), AllocError>
    ensures { OnOk result (bytes.new.items ≡ bytes.old.items ++ flat_map (big_bytes 4) prices.now) }
{
    for good in 0..prices.count() {
        push_number(bytes, prices.get(good))?;
    }
    Ok(())
}
