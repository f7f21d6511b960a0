//! Files that were written by hand and what a scan finds in them, and the steps of a journal.
ghost use Rattle.std.specs.Prelude.{◌≡◌, IsTrue, IfSome};
ghost use Rattle.house_io.specs.Disks.{is_told, told_moments};
ghost use Rattle.report_journal.specs.Format.{IsHeader};

use house_io::{Disk, Failed, SureDisk};
use lot_base::Prices;
use lot_base::limits::GREATEST_PAYLOAD;
use report_journal::{Header, Hint, Journal, JournalFault, LONGEST_HINT, Mended, Scanned, scan};
use std::alloc::Global;
use std::sync::atomic::AtomicU32;
use std::sync::atomic::Ordering::SeqCst;

/// A report of bidder 1 in round 1 on the bundle of two.
pub(super) const PAYLOAD: [u8; 10] = [1, 0, 0, 0, 1, 1, 0, 1, 0, 2];

/// A longer one, on two bundles.
pub(super) const LONGER: [u8; 12] = [1, 0, 0, 0, 1, 1, 0, 2, 0, 2, 0, 3];

/// A payload with which a journal has grown: after it, as the first record, the gate is at 4,137 in version 1, and at 4,143 with one
/// opening price.
pub(super) const LONG: [u8; 4_091] = [9; 4_091];

/// The file of a journal of version 1 with the first record.
pub(super) const FILE: [u8; 57] = [
    0xa5, 0x41, 0x48, 0x4a, 0x31, 0, 0, 0, 3, 7, 7, 7, 7, 7, 7, 7, 7, 7, 7, 7, 7, 7, 7, 7, 7, 7, 7,
    7, 7, 7, 7, 7, 7, 7, 7, 7, 7, 7, 7, 7, 7, 0xa5, 0, 0, 0, 10, 1, 0, 0, 0, 1, 1, 0, 1, 0, 2, 0,
];

/// The file of a journal of version 2 with both records, whose one good opens at 300.
pub(super) const PRICED: [u8; 80] = [
    0xa5, 0x41, 0x48, 0x4a, 0x32, 0, 0, 0, 3, 7, 7, 7, 7, 7, 7, 7, 7, 7, 7, 7, 7, 7, 7, 7, 7, 7, 7,
    7, 7, 7, 7, 7, 7, 7, 7, 7, 7, 7, 7, 7, 7, 2, 1, 0, 0, 1, 0x2c, 0xa5, 0, 0, 0, 10, 1, 0, 0, 0,
    1, 1, 0, 1, 0, 2, 0xa5, 0, 0, 0, 12, 1, 0, 0, 0, 1, 1, 0, 2, 0, 2, 0, 3, 0,
];

/// The room of a disk, in bytes and in calls.
pub(super) const ROOM: u32 = 20_000;

/// The header of clock 3, whose goods open at these prices.
pub(super) fn header(opening: Option<Prices>) -> Header
    ensures { IsHeader result }
{
    Header::new(3, [7; 32], opening)
}

/// No opening prices, as in version 1.
pub(super) fn plain() -> Option<Prices> {
    None
}

/// The opening price of one good.
pub(super) fn one_good() -> Option<Prices> {
    Prices::read(&[300])
}

/// What a scan answers, without the places.
#[derive(Clone, Copy, Debug, PartialEq, Eq)]
pub(super) enum Seen {
    Unformed,
    Formed(usize),
    /// The number of the record, and the version of the header.
    Damaged(u32, u8),
}

fn seen_by(scanned: &Scanned) -> Seen {
    match scanned {
        Scanned::Unformed => Seen::Unformed,
        Scanned::Formed { records, .. } => Seen::Formed(records.as_slice().len()),
        Scanned::Damaged { header, number, .. } => Seen::Damaged(*number, header.version),
    }
}

/// A copy of these bytes. Nothing, here and below, where there is no memory.
pub(super) fn copy_of(alloc: Global, bytes: &[u8]) -> Option<Vec<u8>> {
    bytes.to_vec(alloc).ok()
}

/// A disk with this file.
pub(super) fn disk_of(alloc: Global, file: &[u8]) -> Option<SureDisk> {
    SureDisk::new(alloc, copy_of(alloc, file)?, ROOM).ok()
}

/// The disk once it is claimed. Nothing where that fails.
pub(super) fn claimed<D: Disk + Drop>(disk: D) -> Option<D>
    ensures claimed { IfSome result (λ d. IsTrue (D.shown d).claimed) }
    ensures told { IfSome result (λ d. IsTrue (is_told (D.shown d)) → IsTrue (is_told (D.shown disk))) }
    ensures moments { IfSome result (λ d. IsTrue (is_told (D.shown d)) → told_moments (D.shown d) ≡ told_moments (D.shown disk)) }
{
    let mut disk = disk;
    match disk.claim() {
        Ok(()) => Some(disk),
        Err(Failed) => None,
    }
}

/// What a scan answers of a disk. Nothing where it fails.
pub(super) fn scanned_on<D: Disk>(alloc: Global, disk: &mut D) -> Option<Scanned> {
    scan(alloc, disk).ok()
}

/// What a scan answers of a file.
pub(super) fn scanned(alloc: Global, file: &[u8]) -> Option<Scanned> {
    let mut disk = disk_of(alloc, file)?;
    scanned_on(alloc, &mut disk)
}

/// The same of a disk, without the places.
pub(super) fn seen_on<D: Disk>(alloc: Global, disk: &mut D) -> Option<Seen> {
    let found = scanned_on(alloc, disk)?;
    Some(seen_by(&found))
}

/// The same, without the places.
pub(super) fn seen_in(alloc: Global, file: &[u8]) -> Option<Seen> {
    let found = scanned(alloc, file)?;
    Some(seen_by(&found))
}

/// The version, the clock, whether the digest is that of the fixtures, and the opening price of good 0.
pub(super) type Told = (u8, u32, bool, Option<u32>);

fn told_by(header: &Header) -> Told {
    let price = match &header.opening {
        None => None,
        Some(opening) => opening.as_slice().first().copied(),
    };
    (
        header.version,
        header.clock,
        header.digest == [7; 32],
        price,
    )
}

fn header_by(scanned: &Scanned) -> Option<Told> {
    match scanned {
        Scanned::Unformed => None,
        Scanned::Formed { header, .. } => Some(told_by(header)),
        Scanned::Damaged { header, .. } => Some(told_by(header)),
    }
}

/// What the header says that a scan finds in a file.
pub(super) fn header_in(alloc: Global, file: &[u8]) -> Option<Told> {
    let found = scanned(alloc, file)?;
    header_by(&found)
}

/// What is asked of a journal, and what it answers.
#[derive(Clone, Copy)]
pub(super) enum Step<'a> {
    /// There is memory for so many records.
    Reserves(u32),
    /// This payload is appended so.
    Appends(&'a [u8], Result<u32, JournalFault>),
    /// The same, with another that is likely to come next.
    Lays(&'a [u8], &'a [u8], Result<u32, JournalFault>),
    Mends(Result<Mended, JournalFault>),
    Counts(u32),
    /// The record of this number has this payload.
    Holds(u32, &'a [u8]),
    /// The record of this number cannot be read.
    Fails(u32),
}

fn reserve<D: Disk>(alloc: Global, journal: &mut Journal<D>, records: u32) -> bool {
    journal.reserve(alloc, records).is_ok()
}

/// A hint at a payload.
#[derive(Drop)]
pub(super) struct Says<'a> {
    payload: &'a [u8],
    /// How often it was asked.
    asked: AtomicU32,
}

impl<'a> Says<'a> {
    /// A hint at this payload, which nobody has asked yet.
    pub(super) fn new(payload: &'a [u8]) -> Says<'a> {
        let asked = AtomicU32::new(0);
        Says { payload, asked }
    }

    /// How often it was asked.
    pub(super) fn asked(&self) -> u32 {
        self.asked.load(SeqCst)
    }
}

impl<'a> Hint for Says<'a> {
    ghost says = { λ hint next. Unit {0} };

    fn next(&self, into: &mut [u8; LONGEST_HINT]) -> usize {
        self.asked.fetch_add(1, SeqCst);
        let length = self.payload.len();
        if length > LONGEST_HINT {
            return 0;
        }
        into[..length].copy_from_slice(self.payload);
        length
    }
}

/// What an append answers, where another payload is likely to come next, if the payload is not too long for a journal.
pub(super) fn append<D: Disk>(
    alloc: Global,
    journal: &mut Journal<D>,
    payload: &[u8],
    next: &[u8],
) -> Option<Result<u32, JournalFault>> {
    if payload.len() > GREATEST_PAYLOAD as usize {
        return None;
    }
    Some(if next.is_empty() {
        journal.append(alloc, payload)
    } else {
        journal.append_hinted(alloc, payload, &Says::new(next))
    })
}

/// What a mending answers.
pub(super) fn mend<D: Disk>(journal: &mut Journal<D>) -> Result<Mended, JournalFault> {
    journal.mend()
}

/// How many records there are.
pub(super) fn count<D: Disk>(journal: &Journal<D>) -> u32 {
    journal.count()
}

/// The payload of the record of this number, if there is one.
fn payload<D: Disk>(
    alloc: Global,
    journal: &mut Journal<D>,
    number: u32,
) -> Option<Result<Vec<u8>, JournalFault>> {
    if number < 1 || number > journal.count() {
        return None;
    }
    Some(journal.payload(alloc, number))
}

/// Whether the record of this number has this payload.
pub(super) fn holds<D: Disk>(
    alloc: Global,
    journal: &mut Journal<D>,
    number: u32,
    bytes: &[u8],
) -> bool {
    match payload(alloc, journal, number) {
        Some(Ok(found)) => found.as_slice() == bytes,
        _ => false,
    }
}

fn fails<D: Disk>(alloc: Global, journal: &mut Journal<D>, number: u32) -> bool {
    match payload(alloc, journal, number) {
        Some(Err(_)) => true,
        _ => false,
    }
}

/// Whether a step goes as it says.
fn goes<D: Disk>(alloc: Global, journal: &mut Journal<D>, step: Step) -> bool {
    match step {
        Step::Reserves(records) => reserve(alloc, journal, records),
        Step::Appends(payload, answer) => append(alloc, journal, payload, &[]) == Some(answer),
        Step::Lays(payload, next, answer) => append(alloc, journal, payload, next) == Some(answer),
        Step::Mends(answer) => mend(journal) == answer,
        Step::Counts(records) => count(journal) == records,
        Step::Holds(number, payload) => holds(alloc, journal, number, payload),
        Step::Fails(number) => fails(alloc, journal, number),
    }
}

/// The number, from 0, of the first step that goes otherwise, or that of all of them.
pub(super) fn first_other<D: Disk>(
    alloc: Global,
    journal: &mut Journal<D>,
    steps: &[Step],
) -> usize {
    let mut number: usize = 0;
    for step in steps {
        if !goes(alloc, journal, *step) {
            break;
        }
        number = number.saturating_add(1);
    }
    number
}
