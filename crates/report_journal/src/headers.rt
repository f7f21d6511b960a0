//! The header of a journal: of which clock of which auction its reports are, and from which prices that auction opens.
ghost use Rattle.std.specs.Prelude.{◌≡◌, ◌↔◌, ◌+◌, ◌*◌, ◌^◌, ◌<◌, ◌≤◌, ◌++◌, ◌∷◌, length, take, drop, Some, IsTrue, IfOk, OnOk};
ghost use Rattle.byte_numbers.specs.Spelling.{big_bytes};
ghost use Rattle.std.specs.List.{AllByRecursion, flat_map};
ghost use Rattle.lot_base.specs.declared.limits.TheConstants.{MOST_GOODS};
ghost use Rattle.report_journal.specs.declared.spellings.TheConstants.{OPEN, SHORTEST_FORMED};
ghost use Rattle.report_journal.specs.Format.{IsHeader, first_gate, name_of, opening_bytes};
ghost use Rattle.report_journal.specs.Puts.{IsHead};
ghost use Rattle.report_journal.specs.Scans.{unread_header};
ghost use Rattle.report_journal.specs.Fronts.{IsOpeningAt, IsHeaderAt};

use crate::spellings::{SHORTEST_FORMED, SHUT};
use byte_numbers::{number_of, push_number};
use lot_base::Prices;
use lot_base::limits::MOST_GOODS;
use std::alloc::{AllocError, Global};

/// The bytes of a name, a clock and a digest.
const PLAIN: usize = 40;

/// The byte before the number of opening prices.
const OPENING: u8 = 2;

/// The header of a journal.
#[derive(Clone, Copy, Debug)]
pub struct Header {
    /// 1 of a journal without opening prices, 2 of one with them, and 0 of a header that could not be read.
    pub version: u8,
    /// The number of the clock whose reports the journal holds.
    pub clock: u32,
    /// The digest of the auction's file.
    pub digest: [u8; 32],
    /// The price at which each good opens, where the header names them.
    pub opening: Option<Prices>,
}

impl Header {
    /// The header of a journal: of version 2 where the auction names its opening prices, and of version 1 where it does not.
    pub fn new(clock: u32, digest: [u8; 32], opening: Option<Prices>) -> Header
        ensures header { IsHeader result }
        ensures clock { result.clock ≡ clock }
        ensures digest { result.digest ≡ digest }
        ensures opening { result.opening ≡ opening }
    {
        match opening {
            None => Header {
                version: 1,
                clock,
                digest,
                opening: None,
            },
            Some(opening) => Header {
                version: version_of(opening.as_slice()),
                clock,
                digest,
                opening: Some(opening),
            },
        }
    }

    /// The offset of the first record's gate in a file with this header.
    pub fn first_gate(&self) -> u32
        requires { IsHeader self.now }
        ensures { result ≡ first_gate self.now }
    {
        let plain = PLAIN as u32 + 1;
        match &self.opening {
            None => plain,
            Some(opening) => plain + 2 + 4 * opening.count() as u32,
        }
    }
}

/// The version of the header of an auction that opens at these prices.
fn version_of(opening: &[u32]) -> u8
    ensures version { result ≡ 2 }
    ensures fit { AllByRecursion (λ price. price < 2 ^ 32) opening.now }
{
    let _ = opening;
    2
}

/// The bytes of a header, after the file's gate, and a closed gate.
pub fn head_bytes(alloc: Global, header: &Header) -> Result<Vec<u8>, AllocError>
    requires { IsHeader header.now }
    ensures { IfOk result (λ bytes. IsHead header.now bytes.items) }
{
    let mut bytes = Vec::new(alloc);
    bytes.extend_from_slice(name_of(&header.opening))?;
    push_number(&mut bytes, header.clock)?;
    bytes.extend_from_slice(&header.digest)?;
    push_opening(&mut bytes, &header.opening)?;
    bytes.push(SHUT)?;
    Ok(bytes)
}

fn name_of(opening: &Option<Prices>) -> &'static [u8; 4]
    ensures { result.now ≡ name_of opening.now }
{
    match opening {
        None => b"AHJ1",
        Some(_) => b"AHJ2",
    }
}

fn push_opening(bytes: &mut Vec<u8>, opening: &Option<Prices>) -> Result<(), AllocError>
    ensures { OnOk result (bytes.new.items ≡ bytes.old.items ++ opening_bytes opening.now) }
{
    match opening {
        None => Ok(()),
        Some(opening) => push_prices(bytes, opening),
    }
}

fn push_prices(bytes: &mut Vec<u8>, opening: &Prices) -> Result<(), AllocError>
    ensures { OnOk result (bytes.new.items ≡ bytes.old.items ++ opening_bytes (Some opening.now)) }
{
    bytes.push(OPENING)?;
    bytes.push(opening.count())?;
    for price in opening.as_slice() {
        push_number(bytes, *price)?;
    }
    Ok(())
}

/// The header at the front of the bytes after a file's gate, where one stands there with a byte after it.
pub fn read_header(bytes: &[u8]) -> Option<Header>
    requires { SHORTEST_FORMED ≤ length bytes.now + 1 }
    ensures { IsHeaderAt result bytes.now }
{
    let Header { clock, digest, .. } = unread_header(bytes);
    if has_name(bytes, b"AHJ1") {
        return Some(Header {
            version: 1,
            clock,
            digest,
            opening: None,
        });
    }
    if !has_name(bytes, b"AHJ2") {
        return None;
    }
    match read_opening(&bytes[PLAIN..]) {
        None => None,
        Some(opening) => Some(Header {
            version: 2,
            clock,
            digest,
            opening: Some(opening),
        }),
    }
}

/// What is kept of a header that cannot be read: the clock and the digest where they would stand.
pub fn unread_header(bytes: &[u8]) -> Header
    requires { SHORTEST_FORMED ≤ length bytes.now + 1 }
    ensures value { result ≡ unread_header (OPEN ∷ bytes.now) }
    ensures spelled { big_bytes 4 result.clock ≡ take 4 (drop 4 bytes.now) }
    ensures fits { result.clock < 2 ^ 32 }
{
    let mut digest = [0; 32];
    digest.copy_from_slice(&bytes[8..PLAIN]);
    Header {
        version: 0,
        clock: number_of(&bytes[4..8]),
        digest,
        opening: None,
    }
}

fn has_name(bytes: &[u8], name: &[u8; 4]) -> bool
    requires { 4 ≤ length bytes.now }
    ensures { IsTrue result ↔ (take 4 bytes.now ≡ name.now) }
{
    bytes[..4] == name[..]
}

/// The opening prices at the front of the bytes, where they stand there with a byte after them.
fn read_opening(bytes: &[u8]) -> Option<Prices>
    ensures { IsOpeningAt result bytes.now }
{
    if bytes.len() < 2 || bytes[0] != OPENING {
        return None;
    }
    let count = bytes[1] as usize;
    if count > MOST_GOODS || bytes.len() <= 2 + 4 * count {
        return None;
    }
    let prices = prices_in(&bytes[2..], count);
    Prices::read(&prices[..count])
}

/// The numbers that so many times four bytes spell, and zeros after them.
fn prices_in(bytes: &[u8], count: usize) -> [u32; MOST_GOODS]
    requires few { count ≤ MOST_GOODS }
    requires long { 4 * count ≤ length bytes.now }
    ensures spelled { flat_map (big_bytes 4) (take count result) ≡ take (4 * count) bytes.now }
    ensures fit { AllByRecursion (λ price. price < 2 ^ 32) (take count result) }
    ensures size { length result ≡ MOST_GOODS }
{
    let mut prices = [0; MOST_GOODS];
    for good in 0..count {
        prices[good] = number_of(&bytes[4 * good..4 * good + 4]);
    }
    prices
}
