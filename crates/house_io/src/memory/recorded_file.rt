//! A file in memory that keeps a record of its calls, and so tells what a crash at any moment might have left.
ghost use Rattle.std.specs.Prelude.{◌≡◌, ◌+◌, ◌-◌, ◌<◌, ◌≤◌, ◌++◌, [], ◌∷◌, ◌↔◌, List, ℕ, length, take, drop, min, max, vec_len, vec_capacity, replicate, IsTrue, IfOk, OnOk};
ghost use Rattle.house_io.specs.Moments.{Moment, IsImage, Torn, overlaid, opened, wrote, synced_at};
ghost use Rattle.house_io.specs.Calls.{replay, total, tore, room_for};
ghost use Rattle.house_io.specs.Ranges.{latest_first};
ghost use Rattle.house_io.specs.Fills.{filled_with, image_of};

use lot_base::NoMemory;
use std::alloc::{AllocError, Global};

/// A call that changed what a crash may leave.
#[derive(Clone, Copy)]
pub enum Call {
    /// A whole write, by its offset and length.
    Write(u64, u64),
    /// A write that failed and changed no byte that a read gives, by its offset and length.
    Tear(u64, u64),
    /// A good sync.
    Sync,
}

/// What was written at an offset since the last sync.
#[derive(Clone, Copy)]
pub struct Range {
    /// Its offset.
    pub at: u64,
    /// How many bytes the write had, whether it was whole or failed.
    pub length: u64,
}

/// What a crash leaves of the ranges that were written since the last good sync.
#[derive(Clone, Copy, Debug, PartialEq, Eq)]
pub enum Fill {
    /// Their bytes of then, and the length of then.
    Old,
    /// What was written.
    New,
    /// This byte throughout.
    Byte(u8),
}

/// A file in memory. It tells its moments as long as its room suffices. They are the start and the record of the calls, replayed.
#[derive(Drop)]
pub struct RecordedFile {
    /// What the file held at first.
    pub(crate) start: Vec<u8>,
    /// What a read gives.
    pub(crate) bytes: Vec<u8>,
    /// All that was written, piece after piece.
    pub(crate) written: Vec<u8>,
    /// The record: the calls that changed what a crash may leave, in order.
    pub(crate) calls: Vec<Call>,
    /// What the file held at the last good sync.
    pub(crate) synced: Vec<u8>,
    /// Where it was written since the last good sync, in order.
    pub(crate) ranges: Vec<Range>,
    /// How many bytes may be written yet, those of gaps among them.
    pub(crate) room: usize,
    /// How many calls may be recorded yet.
    pub(crate) calls_left: usize,
    /// It tells its moments: its room has sufficed so far.
    pub(crate) told: bool,
    // What is kept beside the record is what the record comes to.
    ghost read: { IsTrue told → bytes.items ≡ (replay calls.items written.items (opened start.items)).now.read },
    ghost whole: { IsTrue told → total calls.items ≡ length written.items },
    ghost settled: { IsTrue told → synced.items ≡ (replay calls.items written.items (opened start.items)).now.synced },
    ghost since: { IsTrue told → latest_first ranges.items [] ≡ (replay calls.items written.items (opened start.items)).now.ranges },
    // What a read gives is one of the images.
    ghost readable: { IsImage (replay calls.items written.items (opened start.items)).now
        (replay calls.items written.items (opened start.items)).now.read },
    // Each list has the capacity that the room may yet ask of it, so no call takes memory.
    ghost bytes_room: { vec_len bytes + room ≤ vec_capacity bytes },
    ghost written_room: { vec_len written + room ≤ vec_capacity written },
    ghost calls_room: { vec_len calls + calls_left ≤ vec_capacity calls },
    ghost synced_room: { vec_len bytes + room ≤ vec_capacity synced },
    ghost ranges_room: { vec_len ranges + calls_left ≤ vec_capacity ranges },
}

impl RecordedFile {
    ghost use Rattle.house_io.specs.Recorded.{moments_of, Takes};

    /// A file with these bytes, all of them on the disk, and room for so many more and so many calls.
    pub fn new(alloc: Global, bytes: Vec<u8>, room: u32) -> Result<RecordedFile, NoMemory>
        ensures told { IfOk result (λ f. IsTrue f.told) }
        ensures moments { IfOk result (λ f. moments_of f ≡ opened bytes.items) }
        ensures room { IfOk result (λ f. (f.room ≡ room) × (f.calls_left ≡ room)) }
    {
        let room = room as usize;
        let start = bytes.as_slice().to_vec(alloc)?;
        let mut bytes = bytes;
        bytes.reserve(room)?;
        let mut synced = bytes.as_slice().to_vec(alloc)?;
        synced.reserve(room)?;
        let ranges = Vec::with_capacity(alloc, room)?;
        let written = Vec::with_capacity(alloc, room)?;
        let calls = Vec::with_capacity(alloc, room)?;
        Ok(RecordedFile {
            start,
            bytes,
            written,
            calls,
            synced,
            ranges,
            room,
            calls_left: room,
            told: true,
        })
    }

    /// The same file once more, with the room that is left.
    pub(crate) fn again(&self, alloc: Global) -> Result<RecordedFile, NoMemory>
        ensures told { IfOk result (λ f. f.told ≡ self.now.told) }
        ensures moments { IfOk result (λ f. moments_of f ≡ moments_of self.now) }
        ensures room { IfOk result (λ f. (f.room ≡ self.now.room) × (f.calls_left ≡ self.now.calls_left)) }
    {
        let start = copy_of(alloc, &self.start)?;
        let bytes = wide_copy(alloc, &self.bytes, self.bytes.capacity())?;
        let written = wide_copy(alloc, &self.written, self.written.capacity())?;
        let calls = wide_copy(alloc, &self.calls, self.calls.capacity())?;
        let synced = wide_copy(alloc, &self.synced, self.synced.capacity())?;
        let ranges = wide_copy(alloc, &self.ranges, self.ranges.capacity())?;
        Ok(RecordedFile {
            start,
            bytes,
            written,
            calls,
            synced,
            ranges,
            room: self.room,
            calls_left: self.calls_left,
            told: self.told,
        })
    }

    /// Fills a front of the buffer from this offset on.
    pub fn read_at(&self, at: u64, into: &mut [u8]) -> usize
        ensures count { result ≡ min (length into.old) (length self.now.bytes.items - at) }
        ensures bytes { take result into.new ≡ take result (drop at self.now.bytes.items) }
    {
        if at >= self.bytes.len() as u64 {
            return 0;
        }
        let rest = &self.bytes[at as usize..];
        let count = into.len().min(rest.len());
        into[..count].copy_from_slice(&rest[..count]);
        count
    }

    /// Takes no memory.
    pub fn write_at(&mut self, at: u64, from: &[u8])
        ensures takes { Takes (room_for at (length from.now) (length self.old.bytes.items)) self.old self.new }
        ensures written { IsTrue self.new.told → moments_of self.new ≡ wrote at from.now (moments_of self.old) }
    {
        let gap = at.saturating_sub(self.bytes.len() as u64);
        if !self.has_room(gap, from.len()) {
            self.told = false;
            return;
        }
        overwrite(&mut self.bytes, at as usize, from);
        extend(&mut self.written, from);
        push_call(&mut self.calls, Call::Write(at, from.len() as u64));
        push_range(&mut self.ranges, at, from.len());
        self.room -= from.len() + gap as usize;
        self.calls_left -= 1;
    }

    /// Records a write that failed. Takes no memory.
    pub fn tear(&mut self, at: u64, length: usize)
        ensures takes { Takes 0 self.old self.new }
        ensures torn { IsTrue self.new.told → moments_of self.new ≡ tore at length (moments_of self.old) }
    {
        if !self.has_room(0, 0) {
            self.told = false;
            return;
        }
        push_call(&mut self.calls, Call::Tear(at, length as u64));
        push_range(&mut self.ranges, at, length);
        self.calls_left -= 1;
    }

    /// Takes no memory.
    pub fn sync(&mut self)
        ensures takes { Takes 0 self.old self.new }
        ensures synced { IsTrue self.new.told → moments_of self.new ≡ synced_at (moments_of self.old) }
    {
        if !self.has_room(0, 0) {
            self.told = false;
            return;
        }
        push_call(&mut self.calls, Call::Sync);
        // The file of this sync, and then no ranges since (must-fail `a_sync_keeps_the_old_file`).
        copy_over(&mut self.synced, &self.bytes);
        forget(&mut self.ranges);
        self.calls_left -= 1;
    }

    /// An image: what a crash now may leave, with this in the ranges that were written since the last good sync.
    pub fn image(&self, alloc: Global, fill: Fill) -> Result<Vec<u8>, NoMemory>
        ensures image { IfOk result (λ image. IsTrue self.now.told → IsImage (moments_of self.now).now image.items) }
        ensures fills { IfOk result (λ image. IsTrue self.now.told → image.items ≡ image_of fill (moments_of self.now).now) }
    {
        match fill {
            Fill::Old => copy_of(alloc, &self.synced),
            Fill::New => copy_of(alloc, &self.bytes),
            Fill::Byte(byte) => filled(alloc, &self.bytes, &self.ranges, byte),
        }
    }

    /// Whether one more call may be recorded, which takes a gap and so many bytes.
    fn has_room(&self, gap: u64, length: usize) -> bool
        ensures { IsTrue result ↔ (IsTrue self.now.told × (length + gap ≤ self.now.room) × (1 ≤ self.now.calls_left)) }
    {
        self.told
            && self.calls_left >= 1
            && length <= self.room
            && gap <= (self.room - length) as u64
    }
}

fn copy_of(alloc: Global, bytes: &[u8]) -> Result<Vec<u8>, NoMemory>
    ensures { IfOk result (λ copy. copy.items ≡ bytes.now) }
{
    Ok(bytes.to_vec(alloc)?)
}

/// A copy with at least such a capacity.
fn wide_copy<T: Copy>(alloc: Global, items: &[T], capacity: usize) -> Result<Vec<T>, NoMemory>
    ensures items { IfOk result (λ copy. copy.items ≡ items.now) }
    ensures long { IfOk result (λ copy. vec_len copy ≡ length items.now) }
    ensures capacity { IfOk result (λ copy. capacity ≤ vec_capacity copy) }
{
    let mut copy = Vec::with_capacity(alloc, capacity)?;
    copy.extend_from_slice(items)?;
    Ok(copy)
}

/// The file with this byte throughout these ranges.
fn filled(alloc: Global, bytes: &[u8], ranges: &[Range], byte: u8) -> Result<Vec<u8>, NoMemory>
    ensures image { IfOk result (λ image. (m : Moment) → IsImage m bytes.now → latest_first ranges.now [] ≡ m.ranges
        → IsImage m image.items) }
    ensures filled { IfOk result (λ image. image.items ≡ filled_with byte (latest_first ranges.now []) bytes.now) }
{
    let mut image = copy_of(alloc, bytes)?;
    for range in ranges {
        fill_range(alloc, &mut image, *range, byte)?;
    }
    Ok(image)
}

/// Puts this byte throughout a range.
fn fill_range(alloc: Global, image: &mut Vec<u8>, range: Range, byte: u8) -> Result<(), AllocError>
    ensures torn { OnOk result (Torn range.at range.length image.old.items image.new.items) }
    ensures filled { OnOk result (image.new.items ≡ overlaid image.old.items range.at (replicate range.length byte)) }
{
    let at = range.at as usize;
    let piece = vec![in alloc; byte; range.length as usize]?;
    let Some(end) = at.checked_add(piece.len()) else {
        return Err(AllocError);
    };
    image.reserve(end.saturating_sub(image.len()))?;
    overwrite(image, at, &piece);
    Ok(())
}

/// Fills up with zeros. Takes no memory.
fn lengthen(bytes: &mut Vec<u8>, end: usize)
    requires { end ≤ vec_capacity bytes.old }
    ensures filled { bytes.new.items ≡ bytes.old.items ++ replicate (end - length bytes.old.items) 0 }
    ensures long { vec_len bytes.new ≡ max (vec_len bytes.old) end }
    ensures capacity { vec_capacity bytes.old ≤ vec_capacity bytes.new }
{
    if end > bytes.len() {
        let _ = bytes.resize(end, 0);
    }
}

/// Takes no memory.
fn overwrite(bytes: &mut Vec<u8>, at: usize, from: &[u8])
    requires { at + length from.now ≤ vec_capacity bytes.old }
    ensures bytes { bytes.new.items ≡ overlaid bytes.old.items at from.now }
    ensures long { vec_len bytes.new ≡ max (vec_len bytes.old) (at + length from.now) }
    ensures capacity { vec_capacity bytes.old ≤ vec_capacity bytes.new }
{
    let end = at + from.len();
    lengthen(bytes, end);
    bytes[at..end].copy_from_slice(from);
}

/// Takes no memory.
fn push_call(calls: &mut Vec<Call>, call: Call)
    requires { vec_len calls.old < vec_capacity calls.old }
    ensures calls { calls.new.items ≡ calls.old.items ++ call ∷ [] }
    ensures long { vec_len calls.new ≡ vec_len calls.old + 1 }
    ensures capacity { vec_capacity calls.old ≤ vec_capacity calls.new }
{
    let _ = calls.push(call);
}

/// Takes no memory.
fn push_range(ranges: &mut Vec<Range>, at: u64, length: usize)
    requires { vec_len ranges.old < vec_capacity ranges.old }
    ensures ranges { ranges.new.items ≡ ranges.old.items ++ record { at = at; length = length } ∷ [] }
    ensures long { vec_len ranges.new ≡ vec_len ranges.old + 1 }
    ensures capacity { vec_capacity ranges.old ≤ vec_capacity ranges.new }
{
    let _ = ranges.push(Range {
        at,
        length: length as u64,
    });
}

/// Takes no memory.
fn forget(ranges: &mut Vec<Range>)
    ensures ranges { ranges.new.items ≡ [] }
    ensures long { vec_len ranges.new ≡ 0 }
    ensures capacity { vec_capacity ranges.old ≤ vec_capacity ranges.new }
{
    ranges.clear();
}

/// Puts these bytes in the place of those that are there. Takes no memory.
fn copy_over(bytes: &mut Vec<u8>, from: &[u8])
    requires { length from.now ≤ vec_capacity bytes.old }
    ensures bytes { bytes.new.items ≡ from.now }
    ensures capacity { vec_capacity bytes.old ≤ vec_capacity bytes.new }
{
    bytes.clear();
    extend(bytes, from);
}

/// Takes no memory.
fn extend(bytes: &mut Vec<u8>, from: &[u8])
    requires { vec_len bytes.old + length from.now ≤ vec_capacity bytes.old }
    ensures bytes { bytes.new.items ≡ bytes.old.items ++ from.now }
    ensures long { vec_len bytes.new ≡ vec_len bytes.old + length from.now }
    ensures capacity { vec_capacity bytes.old ≤ vec_capacity bytes.new }
{
    let _ = bytes.extend_from_slice(from);
}
