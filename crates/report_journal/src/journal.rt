//! A journal of payloads, each on the disk before it is acknowledged.
ghost use Rattle.std.specs.Prelude.{◌≡◌, ℕ, ◌+◌, ◌-◌, ◌≤◌, ◌<◌, ◌↔◌, ◌++◌, List, [], ◌∷◌, length, vec_len, vec_capacity, slice_get, max, IsTrue, IfOk, OnOk, OnErr, IfErr, IfSome, None, Some};
ghost use Rattle.house_io.specs.Disks.{IsLater, IfDiskTells, IfDiskTold};
ghost use Rattle.house_io.specs.Moments.{IsSettled};
ghost use Rattle.lot_base.specs.declared.limits.TheConstants.{GREATEST_PAYLOAD, GREATEST_FILE};
ghost use Rattle.report_journal.specs.Calls.{OnlyReads, CountsFaults, CountsReading, Appends, Writes, IsReady, Mends, MendEnds, MendLeaves, KeepsAll, Forms, FailsToForm, Attaches};
ghost use Rattle.report_journal.specs.Format.{IsHeader, IsUnformed};
ghost use Rattle.report_journal.specs.Journals.{IsKept, HasAhead, payload_at};
ghost use Rattle.report_journal.specs.Puts.{IsAsked};
ghost use Rattle.report_journal.specs.declared.spellings.TheConstants.{LONGEST_RECORD};
ghost use Rattle.report_journal.specs.Scans.{IsFormed, IsScan, IsInOrder};

use crate::faults::{JournalFault, Mended, NotFormed};
use crate::headers::{Header, head_bytes};
use crate::hints::{Hint, NoHint};
use crate::places::Place;
use crate::scanning::Scanned;
use crate::spellings::{LONGEST_RECORD, begins_with_record, fill_record};
use crate::steps::{form_file, put_record, settle_gate};
use house_io::{Disk, Failed};
use lot_base::NoMemory;
use lot_base::limits::GREATEST_FILE;
use std::alloc::Global;
use std::marker::Model;

/// A journal on a disk. Where the disk tells, its file stands for the journal's contents, and at most one payload is in
/// doubt.
#[derive(Drop)]
pub struct Journal<D: Disk> {
    /// On it lies the journal's file, and nothing else.
    disk: D,
    /// What the file begins with, after its own gate: of version 1 or 2.
    header: Header,
    /// Where the payloads that count lie, record 1 first. One in doubt is not among them.
    places: Vec<Place>,
    /// The gate that ends the list.
    end: u32,
    /// The bytes of the record that was put last, after its gate, and what was written after it.
    buffer: Vec<u8>,
    /// From where on the buffer's bytes lie after the gate that ends the list. None where that is not known.
    ahead: Option<u32>,
    /// The length of the payload in doubt, which the record has: that of an append that failed on the disk and was not mended.
    pending: Option<u32>,
    /// How many more records there is room for.
    spare: u64,
    /// Up to where the file has bytes, as far as the journal's calls have found or written them.
    laid: u32,
}

impl<D: Disk> Model for Journal<D> {
    ghost use Rattle.std.specs.Prelude.{vec_capacity, IsTrue};
    ghost use Rattle.house_io.specs.Disks.{IfDiskTells, told_moments};
    ghost use Rattle.report_journal.specs.Journals.{JournalOf, said, in_doubt, IsWithin, IsKept, LiesAhead};

    ghost Value = { JournalOf D };

    ghost view = { λ j. record {
      disk = j.disk;
      contents = said j.header j.places.items (told_moments (D.shown j.disk)).now.read;
      places = j.places.items;
      end = j.end;
      pending = in_doubt j.buffer.items j.pending;
      spare = j.spare;
      laid = j.laid;
    } };

    ghost invariant = { λ j. IsWithin j.header j.places.items j.end j.spare j.buffer.items (vec_capacity j.places) (vec_capacity j.buffer)
        j.pending
        × IfDiskTells (D.shown j.disk) (λ moments. IsKept (said j.header j.places.items moments.now.read) j.places.items j.end
        (in_doubt j.buffer.items j.pending) moments × LiesAhead j.ahead j.buffer.items j.end moments.now.read)
        × IsTrue (D.shown j.disk).claimed };
}

impl<D: Disk> Journal<D> {
    /// How many payloads count.
    pub fn count(&self) -> u32
        ensures payloads { result ≡ length self.now.contents.payloads }
        ensures places { result ≡ length self.now.places }
        // What the type keeps.
        ensures kept { IfDiskTells (D.shown self.now.disk) (λ moments. IsKept self.now.contents self.now.places self.now.end
            self.now.pending moments) }
        ensures claimed { IsTrue (D.shown self.now.disk).claimed }
        ensures limit { self.now.end + 1 ≤ GREATEST_FILE }
        ensures header { IsHeader self.now.contents.header }
    {
        self.places.len() as u32
    }

    /// Gives the disk back. Takes no memory.
    pub fn into_disk(self) -> D
        ensures { result ≡ self.disk }
    {
        let Journal {
            disk,
            header: _,
            places: _,
            end: _,
            buffer: _,
            ahead: _,
            pending: _,
            spare: _,
            laid: _,
        } = self;
        disk
    }
}

impl<D: Disk> Journal<D> {
    /// Takes room for so many more records, where there is less. Where there is enough it takes no memory.
    pub fn reserve(&mut self, _alloc: Global, records: u32) -> Result<(), NoMemory>
        ensures ok { OnOk result (self.new ≡ record self.old { spare = max self.old.spare records }) }
        ensures err { OnErr result (self.new ≡ self.old) }
        ensures enough { OnErr result (self.old.spare < records) }
    {
        let records = records as u64;
        if records <= self.spare {
            return Ok(());
        }
        // One place more than those spare: that of the record in doubt.
        make_room(&mut self.places, &mut self.buffer, records as usize + 1)?;
        self.spare = records;
        Ok(())
    }

    /// Adds a record and answers its number, from 1. At `Ok` every image has it. After `DiskFault` it is in doubt until a
    /// mend succeeds. Its memory is taken before the first write; where a record is spare it takes none.
    pub fn append(&mut self, alloc: Global, payload: &[u8]) -> Result<u32, JournalFault>
        requires { length payload.now ≤ GREATEST_PAYLOAD }
        ensures answer { Appends payload.now self.old self.new result }
        ensures writes { Writes D.shown payload.now [] self.old self.new result }
        ensures later { IsLater (D.shown self.old.disk) (D.shown self.new.disk) }
        ensures faults { CountsFaults (D.shown self.old.disk).faults (D.shown self.new.disk).faults result }
    {
        self.append_hinted(alloc, payload, &NoHint)
    }

    /// Appends so, and asks the hint for the payload that is likely to be appended next. From 4,096 bytes on a journal writes the next record
    /// after this one, where both are short: where it comes, its gate alone is left to open, with one sync in place of two. Where it does not
    /// come, what lies there is nothing. Such a journal also writes zeros where its file would end: a sync of bytes that a file has is the
    /// shorter.
    pub fn append_hinted<H: Hint>(
        &mut self,
        alloc: Global,
        payload: &[u8],
        hint: &H,
    ) -> Result<u32, JournalFault>
        requires { length payload.now ≤ GREATEST_PAYLOAD }
        ensures answer { Appends payload.now self.old self.new result }
        ensures writes { (next : List ℕ) × IsAsked (H.says hint.now) next result
            × Writes D.shown payload.now next self.old self.new result }
        ensures later { IsLater (D.shown self.old.disk) (D.shown self.new.disk) }
        ensures faults { CountsFaults (D.shown self.old.disk).faults (D.shown self.new.disk).faults result }
    {
        if self.pending.is_some() {
            return Err(JournalFault::NotMended);
        }
        let needed = self.end + 6 + payload.len() as u32;
        if needed > GREATEST_FILE {
            return Err(JournalFault::Full(needed));
        }
        match self.reserve(alloc, 1) {
            Err(NoMemory) => Err(JournalFault::NoMemory),
            Ok(()) => self.put(payload, hint),
        }
    }

    /// Adds a record that fits and for which there is room. Takes no memory.
    fn put<H: Hint>(&mut self, payload: &[u8], hint: &H) -> Result<u32, JournalFault>
        requires short { length payload.now ≤ GREATEST_PAYLOAD }
        requires ready { IsReady payload.now self.old }
        requires spare { 1 ≤ self.old.spare }
        ensures answer { Appends payload.now self.old self.new result }
        ensures writes { (next : List ℕ) × IsAsked (H.says hint.now) next result
            × Writes D.shown payload.now next self.old self.new result }
        ensures later { IsLater (D.shown self.old.disk) (D.shown self.new.disk) }
        ensures faults { CountsFaults (D.shown self.old.disk).faults (D.shown self.new.disk).faults result }
    {
        let size = payload.len() as u32;
        let lies_there = is_ahead(&self.buffer, self.ahead, payload);
        fill_record(&mut self.buffer, payload);
        match put_record(
            &mut self.disk,
            self.end,
            self.laid,
            payload,
            &mut self.buffer,
            lies_there,
            hint,
        ) {
            Err(Failed) => {
                self.ahead = None;
                self.pending = Some(size);
                self.spare -= 1;
                Err(JournalFault::DiskFault)
            }
            Ok(()) => {
                let place = Place {
                    at: self.end + 5,
                    length: size,
                };
                push_reserved(&mut self.places, place);
                self.ahead = Some(size + 5);
                self.laid = self.laid.max(self.end + 1 + self.buffer.len() as u32);
                self.end = self.end + 5 + size;
                self.spare -= 1;
                Ok(self.places.len() as u32)
            }
        }
    }
}

impl<D: Disk> Journal<D> {
    /// Counts or drops the record in doubt: it counts where its gate is open after a sync, and is opened once more. Takes no memory.
    pub fn mend(&mut self) -> Result<Mended, JournalFault>
        ensures answer { Mends self.old self.new result }
        ensures laid { self.new.laid ≡ self.old.laid }
        ensures end { IfDiskTold (D.shown self.old.disk) (D.shown self.new.disk)
            (λ before after. MendEnds self.old.pending self.old.contents self.new.contents self.old.end before after result) }
        ensures moments { IfDiskTold (D.shown self.old.disk) (D.shown self.new.disk)
            (MendLeaves self.old.pending self.old.contents self.old.end) }
        ensures later { IsLater (D.shown self.old.disk) (D.shown self.new.disk) }
        ensures faults { CountsFaults (D.shown self.old.disk).faults (D.shown self.new.disk).faults result }
    {
        let Some(length) = self.pending else {
            return Ok(Mended::Nothing);
        };
        // What lies after the gate may not be on the disk either.
        self.ahead = None;
        match settle_gate(&mut self.disk, self.end as u64) {
            Err(Failed) => Err(JournalFault::DiskFault),
            Ok(false) => {
                self.pending = None;
                self.spare += 1;
                Ok(Mended::Dropped)
            }
            Ok(true) => {
                let place = Place {
                    at: self.end + 5,
                    length,
                };
                push_reserved(&mut self.places, place);
                self.end = self.end + 5 + length;
                self.pending = None;
                Ok(Mended::Counted)
            }
        }
    }
}

impl<D: Disk> Journal<D> {
    /// The payload of this number, from 1.
    pub fn payload(&mut self, alloc: Global, number: u32) -> Result<Vec<u8>, JournalFault>
        requires { (1 ≤ number) × (number ≤ length self.old.contents.payloads) }
        ensures payload { IfOk result (λ payload. IfDiskTells (D.shown self.new.disk)
            (λ _. slice_get self.old.contents.payloads (number - 1) ≡ Some payload.items)) }
        ensures long { IfOk result (λ payload. IfSome (slice_get self.old.places (number - 1))
            (λ place. length payload.items ≡ place.length)) }
        ensures keeps { KeepsAll D.shown self.old self.new }
        ensures reads { OnlyReads D.shown self.old.disk self.new.disk }
        ensures faults { CountsReading (D.shown self.old.disk).faults (D.shown self.new.disk).faults result }
    {
        let place = self.places[number as usize - 1];
        read_payload(alloc, &mut self.disk, place)
    }
}

impl<D: Disk> Journal<D> {
    /// The journal that a scan found. Takes no memory.
    pub fn attach(disk: D, scan: Scanned) -> Journal<D>
        requires claimed { IsTrue (D.shown disk).claimed }
        requires formed { IsFormed scan }
        requires in_order { IsInOrder scan }
        requires scanned { IfDiskTells (D.shown disk) (λ moments. IsSettled moments.now × IsScan scan moments.now.read) }
        ensures { Attaches D.shown disk scan result }
    {
        let Scanned::Formed {
            header,
            records,
            end,
        } = scan
        else {
            unreachable!()
        };
        let places = records.into_vec();
        let buffer = Vec::new(*places.allocator());
        Journal {
            disk,
            header,
            places,
            end,
            buffer,
            ahead: None,
            pending: None,
            spare: 0,
            laid: end + 1,
        }
    }

    /// Forms an unformed file. Its memory is taken before the first write.
    pub fn form(alloc: Global, disk: D, header: &Header) -> Result<Journal<D>, NotFormed<D>>
        requires claimed { IsTrue (D.shown disk).claimed }
        requires header { IsHeader header.now }
        requires unformed { IfDiskTells (D.shown disk) (λ moments. IsSettled moments.now × IsUnformed moments.now.read) }
        ensures ok { IfOk result (λ j. Forms D.shown header.now disk j) }
        ensures err { IfErr result (λ e. FailsToForm D.shown header.now disk e.disk e.fault) }
    {
        let Ok(bytes) = head_bytes(alloc, header) else {
            return Err(NotFormed {
                disk,
                fault: JournalFault::NoMemory,
            });
        };
        let mut disk = disk;
        match form_file(&mut disk, &bytes) {
            Err(Failed) => Err(NotFormed {
                disk,
                fault: JournalFault::DiskFault,
            }),
            Ok(()) => {
                let end = header.first_gate();
                Ok(Journal {
                    disk,
                    header: *header,
                    places: Vec::new(alloc),
                    end,
                    buffer: Vec::new(alloc),
                    ahead: None,
                    pending: None,
                    spare: 0,
                    laid: end + 1,
                })
            }
        }
    }
}

/// Makes room for so many more places, and for the bytes of the longest record. What is kept stays, whatever is answered.
fn make_room(places: &mut Vec<Place>, buffer: &mut Vec<u8>, more: usize) -> Result<(), NoMemory>
    ensures places { (places.new.items ≡ places.old.items) × (vec_capacity places.old ≤ vec_capacity places.new) }
    ensures buffer { (buffer.new.items ≡ buffer.old.items) × (vec_capacity buffer.old ≤ vec_capacity buffer.new) }
    ensures room_places { OnOk result (length places.old.items + more ≤ vec_capacity places.new) }
    ensures room_buffer { OnOk result (LONGEST_RECORD ≤ vec_capacity buffer.new) }
{
    let rest = LONGEST_RECORD.saturating_sub(buffer.len());
    match buffer.reserve(rest) {
        Err(_) => Err(NoMemory),
        Ok(()) => match places.reserve(more) {
            Err(_) => Err(NoMemory),
            Ok(()) => Ok(()),
        },
    }
}

/// Whether the record of a payload lies after the gate that ends the list.
fn is_ahead(buffer: &[u8], ahead: Option<u32>, payload: &[u8]) -> bool
    requires { length payload.now ≤ GREATEST_PAYLOAD }
    ensures { IsTrue result ↔ HasAhead ahead buffer.now payload.now }
{
    match ahead {
        None => false,
        Some(from) => match buffer.split_at_checked(from as usize) {
            None => false,
            Some((_, behind)) => begins_with_record(behind, payload),
        },
    }
}

/// Takes no memory.
fn push_reserved(places: &mut Vec<Place>, place: Place)
    requires { vec_len places.old < vec_capacity places.old }
    ensures places { places.new.items ≡ places.old.items ++ place ∷ [] }
    ensures room { vec_capacity places.old ≤ vec_capacity places.new }
{
    let _in_room = places.push(place);
}

/// Reads a payload at its place; bytes that a disk has not are 0.
pub fn read_payload<D: Disk>(
    alloc: Global,
    disk: &mut D,
    place: Place,
) -> Result<Vec<u8>, JournalFault>
    ensures long { IfOk result (λ payload. length payload.items ≡ place.length) }
    ensures payload { IfOk result (λ payload. IfDiskTold (D.shown disk.old) (D.shown disk.new)
        (λ before _. length (payload_at before.now.read place) ≡ place.length → payload.items ≡ payload_at before.now.read place)) }
    ensures reads { OnlyReads D.shown disk.old disk.new }
    ensures faults { CountsReading (D.shown disk.old).faults (D.shown disk.new).faults result }
{
    let mut payload = vec![in alloc; 0; place.length as usize]?;
    disk.read_at(place.at as u64, &mut payload)?;
    Ok(payload)
}
