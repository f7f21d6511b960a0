//! Frames and entries against bytes that were written by hand.
ghost use Rattle.std.specs.Prelude.{◌≡◌, [], ◌∷◌, IfOk};

use expected_values::{equal, equal_in};
use lot_base::{NoMemory, Phase, Prices, RawDemand, RawReport, Sequence};
use report_wire::{
    Feed, Frame, Reader, ToBidder, ToHouse, WireFault, WireKind, entry_to, read_entry, view_entry,
    write_entry,
};
use std::alloc::Global;
use std::test::Fail;

/// A hello of bidder 1 with the token `abc`, and a look at clock 0.
const TALK: [u8; 15] = [0, 0, 0, 4, 1, 1, 0x61, 0x62, 0x63, 0, 0, 0, 1, 2, 0];

/// An entry of bidder 1 in round 1: two units of the one good.
const ENTRY: [u8; 10] = [1, 0, 0, 0, 1, 1, 0, 1, 0, 2];

/// How many messages a piece makes whole, and the fault that stands after them.
fn fed(reader: &mut Reader<ToHouse>, piece: &[u8]) -> Result<(usize, Option<WireFault>), NoMemory> {
    let Feed { frames, fault } = reader.feed(piece)?;
    Ok((frames.len(), fault))
}

/// The places after which a message became whole, where the bytes come one at a time.
fn whole_after(
    alloc: Global,
    reader: &mut Reader<ToHouse>,
    bytes: &[u8],
) -> Result<Vec<usize>, Fail> {
    let mut places = Vec::new(alloc);
    for place in 0..bytes.len() {
        let (messages, _) = fed(reader, &bytes[place..place + 1])?;
        if messages == 1 {
            places.push(place + 1)?;
        }
    }
    Ok(places)
}

/// The fault after the talk, where these bytes follow it.
fn fault_after(alloc: Global, bytes: &[u8]) -> Result<Option<WireFault>, Fail> {
    let mut reader = Reader::new(alloc);
    let _ = fed(&mut reader, &TALK)?;
    let (_, fault) = fed(&mut reader, bytes)?;
    Ok(fault)
}

#[test]
fn a_message_is_whole_at_its_last_byte(rt: HostRuntime) -> Result<(), Fail> {
    let mut reader = Reader::new(rt.alloc());
    let places = whole_after(rt.alloc(), &mut reader, &TALK)?;
    equal(places.as_slice(), [9, 15].as_slice())?;
    equal(reader.rest(), 0)?;
    Ok(())
}

/// Bytes after the talk, and how they fail to be a frame.
const FAULTS: &[(&[u8], WireKind)] = &[
    (&[0, 0, 0x80, 1], WireKind::TooLong(32_769)),
    (&[0, 0, 0, 0, 9], WireKind::UnknownKind(9)),
    (&[0, 0, 0, 0, 18], WireKind::UnknownKind(18)),
    (
        &[0, 0, 0, 2, 2, 0],
        WireKind::BadPayload { kind: 2, length: 2 },
    ),
    (
        &[0, 0, 0, 8, 3, 0, 0, 0, 0, 1, 1, 0xff, 0xff],
        WireKind::BadPayload { kind: 3, length: 8 },
    ),
];

#[test]
fn a_fault_has_the_place_of_its_frame(rt: HostRuntime) -> Result<(), Fail> {
    for (bytes, kind) in FAULTS {
        let fault = fault_after(rt.alloc(), bytes)?;
        let wanted = WireFault {
            place: 15,
            kind: *kind,
        };
        equal_in(bytes, fault, Some(wanted))?;
    }
    Ok(())
}

/// The frame of the look of a clock 2 of two goods, halted at its second good at prices 3 and 100.
fn price(alloc: Global) -> Result<Vec<u8>, NoMemory> {
    let Some(prices) = Prices::read(&[3, 100]) else {
        return Err(NoMemory);
    };
    let message = ToBidder::Price {
        clock: 2,
        round: 7,
        phase: Phase::Halted(1),
        prices,
    };
    message.encode(alloc)
}

/// Whether the reader gives that look of the bytes.
fn gives_the_price(alloc: Global, bytes: &[u8]) -> Result<bool, NoMemory> {
    let mut reader = Reader::new(alloc);
    let Feed { frames, fault } = reader.feed(bytes)?;
    let one: Option<&ToBidder> = frames.get(0);
    let found = match one {
        Some(
            ToBidder::Price {
                clock,
                round,
                phase,
                prices,
            },
        ) => *clock == 2 && *round == 7 && *phase == Phase::Halted(1) && prices.get(1) == 100,
        _ => false,
    };
    Ok(found && fault.is_none())
}

#[test]
fn a_look_comes_back_as_it_was_sent(rt: HostRuntime) -> Result<(), Fail> {
    let bytes = price(rt.alloc())?;
    equal(
        bytes.as_slice(),
        [
            0, 0, 0, 16, 18, 2, 0, 0, 0, 7, 2, 1, 2, 0, 0, 0, 3, 0, 0, 0, 100,
        ]
        .as_slice(),
    )?;
    assert!(rt; gives_the_price(rt.alloc(), &bytes)?);
    Ok(())
}

/// The report of bidder 1 in round 1 on two units of one good.
fn two_units(alloc: Global) -> Result<RawReport, NoMemory>
    ensures { IfOk result (λ r. r ≡ record { bidder = 1; round = 1; demand = record { goods = 1; quantities = 2 ∷ [] } }) }
{
    let Ok(quantities) = vec![in alloc; 2] else {
        return Err(NoMemory);
    };
    Ok(RawReport {
        bidder: 1,
        round: 1,
        demand: RawDemand {
            goods: 1,
            quantities: Sequence::from_vec(quantities),
        },
    })
}

/// The payload of its entry.
fn entry(alloc: Global) -> Result<Vec<u8>, NoMemory> {
    match two_units(alloc) {
        Ok(report) => write_entry(alloc, &report),
        Err(fault) => Err(fault),
    }
}

/// Whether a payload is an entry, in both ways of reading.
fn is_read(alloc: Global, payload: &[u8]) -> Result<bool, NoMemory> {
    let read = match read_entry(alloc, payload)? {
        Some(_) => true,
        None => false,
    };
    let seen = match view_entry(payload) {
        Some(_) => true,
        None => false,
    };
    Ok(read && seen)
}

#[test]
fn an_entry_is_written_and_read(rt: HostRuntime) -> Result<(), Fail> {
    equal(entry(rt.alloc())?.as_slice(), ENTRY.as_slice())?;
    let mut room = [9; 12];
    equal(entry_to(1, 1, 1, &[2], &mut room), 10)?;
    equal(room, [1, 0, 0, 0, 1, 1, 0, 1, 0, 2, 9, 9])?;
    assert!(rt; is_read(rt.alloc(), &ENTRY)?);
    for length in 0..10 {
        assert!(rt; !is_read(rt.alloc(), &ENTRY[..length])?, "cut to {length}");
    }
    Ok(())
}
