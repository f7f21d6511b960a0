//! Frames to the house.
ghost use Rattle.std.specs.Prelude.{◌≡◌, ◌++◌, length, true, IfOk, OnOk};
ghost use Rattle.report_wire.specs.Frames.{IsMessage, IsRead, spelling};
ghost use Rattle.report_wire.specs.Messages.{to_house, house_kind, house_payload};
ghost use Rattle.report_wire.specs.Payloads.{report_payload};
ghost use Rattle.report_wire.specs.declared.kinds.TheConstants.{REPORT};

use crate::entries::{push_report, read_report};
use crate::frames::Frame;
use crate::heads::push_head;
use crate::kinds::{HELLO, LOOK, QUIT, REPORT};
use crate::messages::ToHouse;
use lot_base::{NoMemory, RawDemand, RawReport, Sequence};
use std::alloc::{AllocError, Global};

impl Frame for ToHouse {
    ghost use Rattle.report_wire.specs.Messages.{to_house, house_kind, house_payload};
    ghost use Rattle.report_wire.specs.Forms.{house_is};

    ghost direction = { to_house };

    ghost kind_of = { house_kind };

    ghost payload_of = { house_payload };

    fn is_kind(kind: u8) -> bool {
        kind >= HELLO && kind <= QUIT
    }

    fn allows(kind: u8, length: u32) -> bool {
        kind == HELLO && (length >= 2 && length <= 65)
            || kind == LOOK && length == 1
            || (kind == REPORT || kind == QUIT && length == 0)
    }

    fn read(alloc: Global, kind: u8, payload: &[u8]) -> Result<Option<ToHouse>, NoMemory> {
        match kind {
            HELLO => {
                let Ok(token) = payload[1..].to_vec(alloc) else {
                    return Err(NoMemory);
                };
                Ok(Some(ToHouse::Hello {
                    bidder: payload[0],
                    token: Sequence::from_vec(token),
                }))
            }
            LOOK => Ok(Some(ToHouse::Look { clock: payload[0] })),
            REPORT => report_of(alloc, payload),
            _ => Ok(Some(ToHouse::Quit)),
        }
    }

    fn encode(&self, alloc: Global) -> Result<Vec<u8>, NoMemory> {
        let mut bytes = Vec::new(alloc);
        match push_to_house(&mut bytes, self) {
            Ok(()) => Ok(bytes),
            Err(_) => Err(NoMemory),
        }
    }

    ghost formed = { house_is };
}

/// The report of a payload, if it is one.
fn report_of(alloc: Global, payload: &[u8]) -> Result<Option<ToHouse>, NoMemory>
    ensures { IfOk result (λ found. IsRead to_house house_kind house_payload REPORT payload.now found) }
{
    let Some(report) = read_report(alloc, payload)? else {
        return Ok(None);
    };
    let RawReport {
        bidder: clock,
        round,
        demand,
    } = report;
    Ok(Some(ToHouse::Report {
        clock,
        round,
        demand,
    }))
}

/// Appends the frame of a message.
fn push_to_house(bytes: &mut Vec<u8>, message: &ToHouse) -> Result<(), AllocError>
    requires { IsMessage to_house (house_kind message.now) (house_payload message.now) }
    ensures { OnOk result (bytes.new.items ≡ bytes.old.items ++ spelling (house_kind message.now) (house_payload message.now)) }
{
    match message {
        ToHouse::Hello { bidder, token } => {
            let token = token.as_slice();
            push_head(bytes, 1 + token.len() as u32, HELLO)?;
            bytes.push(*bidder)?;
            bytes.extend_from_slice(token)
        }
        ToHouse::Look { clock } => {
            push_head(bytes, 1, LOOK)?;
            bytes.push(*clock)?;
            Ok(())
        }
        ToHouse::Report {
            clock,
            round,
            demand,
        } => {
            push_report_frame(bytes, *clock, *round, demand)?;
            Ok(())
        }
        ToHouse::Quit => push_head(bytes, 0, QUIT),
    }
}

/// Appends the frame of a report.
fn push_report_frame(
    bytes: &mut Vec<u8>,
    clock: u8,
    round: u32,
    demand: &RawDemand,
) -> Result<(), AllocError>
    requires { IsMessage to_house REPORT (report_payload clock round demand.now.goods demand.now.quantities) }
    ensures { OnOk result (bytes.new.items ≡ bytes.old.items ++ spelling REPORT
        (report_payload clock round demand.now.goods demand.now.quantities)) }
{
    let length = 8 + 2 * demand.quantities.as_slice().len();
    push_head(bytes, length as u32, REPORT)?;
    push_report(bytes, clock, round, demand)?;
    Ok(())
}
