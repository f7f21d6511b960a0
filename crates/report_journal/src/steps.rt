//! The steps of a journal's calls on its disk: each writes a piece and syncs it.
ghost use Rattle.std.specs.Prelude.{◌≡◌, ℕ, ◌+◌, ◌^◌, ◌<◌, ◌≤◌, ◌↔◌, ◌⊎◌, List, [], ◌∷◌, ◌++◌, length, drop, vec_capacity, slice_index, IsTrue, IfOk, OnOk};
ghost use Rattle.house_io.specs.Disks.{IsLater, IfDiskTells, IfDiskTold};
ghost use Rattle.house_io.specs.Faults.{HasCause};
ghost use Rattle.lot_base.specs.declared.limits.TheConstants.{GREATEST_PAYLOAD, GREATEST_FILE};
ghost use Rattle.house_io.specs.Moments.{settled, IsSettled, overlaid, synced_at, Torn, AtEach};
ghost use Rattle.report_journal.specs.Format.{Contents, StandsFor, IsUnformed, body};
ghost use Rattle.report_journal.specs.Padding.{put_of};
ghost use Rattle.report_journal.specs.Puts.{IsSettledTo, HasRecord, LieAt, Opens, IsAsked, TornTwice, IsStage, empty, IsUnformedOrEmpty, IsShut, IsHead, IsSynced, IsReopened};
ghost use Rattle.report_journal.specs.declared.headers.Header.{Header};
ghost use Rattle.report_journal.specs.declared.spellings.TheConstants.{OPEN, LONGEST_RECORD};

use crate::hints::Hint;
use crate::spellings::{OPEN, SHORTEST_FORMED, SHUT, lay_after};
use house_io::{Disk, Failed};

/// Writes and syncs.
pub fn write_synced<D: Disk>(disk: &mut D, at: u64, bytes: &[u8]) -> Result<(), Failed>
    requires claimed { IsTrue (D.shown disk.old).claimed }
    requires file { IfDiskTells (D.shown disk.old) (λ moments. IsSettledTo at moments.now) }
    ensures done { OnOk result (IfDiskTold (D.shown disk.old) (D.shown disk.new)
        (λ before after. after.now ≡ settled (overlaid before.now.read at bytes.now))) }
    ensures moments { IfDiskTold (D.shown disk.old) (D.shown disk.new)
        (λ before after. AtEach (Torn at (length bytes.now) before.now.read) before after) }
    ensures later { IsLater (D.shown disk.old) (D.shown disk.new) }
    ensures cause { HasCause (D.shown disk.old).faults (D.shown disk.new).faults result }
{
    // The sync comes after the write and before the answer: without it a crash could take back what a caller goes on to
    // acknowledge (must-fail/acknowledged_before_the_sync.edit).
    disk.write_at(at, bytes)?;
    disk.sync()?;
    Ok(())
}

/// Writes the bytes after the closed gate, and then opens the gate.
fn put_after_gate<D: Disk>(disk: &mut D, gate: u64, bytes: &[u8]) -> Result<(), Failed>
    requires claimed { IsTrue (D.shown disk.old).claimed }
    requires room { gate < 2 ^ 63 }
    requires file { IfDiskTells (D.shown disk.old) (λ moments. IsSettledTo (gate + 1) moments.now) }
    ensures done { OnOk result (IfDiskTold (D.shown disk.old) (D.shown disk.new)
        (λ before after. after.now ≡ settled (overlaid before.now.read gate (OPEN ∷ bytes.now)))) }
    ensures moments { IfDiskTold (D.shown disk.old) (D.shown disk.new)
        (λ before after. AtEach (IsStage gate bytes.now before.now.read) before after) }
    ensures range { IfDiskTold (D.shown disk.old) (D.shown disk.new)
        (λ before after. AtEach (Torn gate (1 + length bytes.now) before.now.read) before after) }
    ensures later { IsLater (D.shown disk.old) (D.shown disk.new) }
    ensures cause { HasCause (D.shown disk.old).faults (D.shown disk.new).faults result }
{
    // The bytes are on the disk before the gate is open, as those of a record are: the other way round a crash could leave an open gate, and
    // after it no header (must-fail/the_header_after_its_gate.edit).
    write_synced(disk, gate + 1, bytes)?;
    write_synced(disk, gate, &[OPEN])
}

/// Writes the bytes of a record after its closed gate, unless they lie there.
fn write_record<D: Disk>(
    disk: &mut D,
    gate: u64,
    bytes: &[u8],
    lies_there: bool,
) -> Result<(), Failed>
    requires claimed { IsTrue (D.shown disk.old).claimed }
    requires room { gate < 2 ^ 63 }
    requires file { IfDiskTells (D.shown disk.old) (λ moments. IsSettledTo (gate + 1) moments.now) }
    requires there { IsTrue lies_there → IfDiskTells (D.shown disk.old) (λ moments. LieAt (gate + 1) bytes.now moments.now.read) }
    ensures done { OnOk result (IfDiskTold (D.shown disk.old) (D.shown disk.new)
        (λ before after. after.now ≡ settled (overlaid before.now.read (gate + 1) bytes.now))) }
    ensures moments { IfDiskTold (D.shown disk.old) (D.shown disk.new)
        (λ before after. AtEach (Torn (gate + 1) (length bytes.now) before.now.read) before after) }
    ensures later { IsLater (D.shown disk.old) (D.shown disk.new) }
    ensures cause { HasCause (D.shown disk.old).faults (D.shown disk.new).faults result }
{
    if lies_there {
        return Ok(());
    }
    write_synced(disk, gate + 1, bytes)
}

/// Opens the gate, and writes bytes at an offset after it, if there are any, with one sync.
fn open_and_lay<D: Disk>(disk: &mut D, gate: u64, from: u64, bytes: &[u8]) -> Result<(), Failed>
    requires claimed { IsTrue (D.shown disk.old).claimed }
    requires file { IfDiskTells (D.shown disk.old) (λ moments. IsSettledTo gate moments.now × IsSettledTo from moments.now) }
    ensures done { OnOk result (IfDiskTold (D.shown disk.old) (D.shown disk.new)
        (λ before after. after.now ≡ settled (overlaid (overlaid before.now.read gate (OPEN ∷ [])) from bytes.now))) }
    ensures moments { IfDiskTold (D.shown disk.old) (D.shown disk.new)
        (λ before after. AtEach (TornTwice gate 1 from (length bytes.now) before.now.read) before after) }
    ensures later { IsLater (D.shown disk.old) (D.shown disk.new) }
    ensures cause { HasCause (D.shown disk.old).faults (D.shown disk.new).faults result }
{
    if bytes.is_empty() {
        return write_synced(disk, gate, &[OPEN]);
    }
    disk.write_at(gate, &[OPEN])?;
    disk.write_at(from, bytes)?;
    disk.sync()?;
    Ok(())
}

/// Opens the gate of a record that lies there, and writes what comes after it.
fn open_record<D: Disk>(disk: &mut D, gate: u64, payload: &[u8], bytes: &[u8]) -> Result<(), Failed>
    requires claimed { IsTrue (D.shown disk.old).claimed }
    requires room { (gate < 2 ^ 63) × (length payload.now ≤ GREATEST_PAYLOAD) }
    requires spelled { HasRecord payload.now bytes.now }
    requires there { IfDiskTells (D.shown disk.old) (λ moments. IsSettledTo (gate + 1) moments.now
        × HasRecord payload.now (drop (gate + 1) moments.now.read)) }
    ensures opens { Opens D.shown gate payload.now bytes.now disk.old disk.new result }
    ensures later { IsLater (D.shown disk.old) (D.shown disk.new) }
    ensures cause { HasCause (D.shown disk.old).faults (D.shown disk.new).faults result }
{
    let size = payload.len() + 5;
    open_and_lay(disk, gate, gate + 1 + size as u64, bytes.split_at(size).1)
}

/// Puts the record of a payload, which the buffer has, at the closed gate of a file that has bytes up to `laid`, with what is written after
/// it. Where the record lies there already, its gate is left to open: then one sync is for that and for what is written after it. The buffer
/// gets what is written after it.
pub fn put_record<D: Disk, H: Hint>(
    disk: &mut D,
    gate: u32,
    laid: u32,
    payload: &[u8],
    bytes: &mut Vec<u8>,
    lies_there: bool,
    hint: &H,
) -> Result<(), Failed>
    requires claimed { IsTrue (D.shown disk.old).claimed }
    requires fits { (gate + 6 + length payload.now ≤ GREATEST_FILE) × (length payload.now ≤ GREATEST_PAYLOAD) }
    requires buffer { (bytes.old.items ≡ body payload.now ++ 0 ∷ []) × (LONGEST_RECORD ≤ vec_capacity bytes.old) }
    requires there { IfDiskTells (D.shown disk.old) (λ moments. IsSettledTo (gate + 1) moments.now
        × (IsTrue lies_there → HasRecord payload.now (drop (gate + 1) moments.now.read))) }
    ensures puts { (next : List ℕ) × IsAsked (H.says hint.now) next result
        × OnOk result (bytes.new.items ≡ put_of gate laid payload.now next)
        × Opens D.shown gate payload.now (put_of gate laid payload.now next) disk.old disk.new result }
    ensures buffer { HasRecord payload.now bytes.new.items × (gate + 1 + length bytes.new.items ≤ GREATEST_FILE)
        × (vec_capacity bytes.old ≤ vec_capacity bytes.new) }
    ensures later { IsLater (D.shown disk.old) (D.shown disk.new) }
    ensures cause { HasCause (D.shown disk.old).faults (D.shown disk.new).faults result }
{
    // The record is synced before its gate is opened, here or with the gate before it, so that a crash finds an open gate and the whole record,
    // or a closed one. The other way round it could find an open gate and no record (must-fail/gate_first.edit), and before another record an
    // open gate would count what nobody appended (must-fail/a_gate_is_opened_before_another_record.edit).
    write_record(disk, gate as u64, bytes, lies_there)?;
    // What comes next is asked after that sync, since it may be told while it runs.
    lay_after(bytes, gate, laid, payload, hint);
    open_record(disk, gate as u64, payload, bytes)
}

/// Closes the first gate of an unformed file that is too short.
pub fn shut_gate<D: Disk>(disk: &mut D) -> Result<(), Failed>
    requires claimed { IsTrue (D.shown disk.old).claimed }
    requires file { IfDiskTells (D.shown disk.old) (λ moments. IsSettled moments.now × IsUnformed moments.now.read) }
    ensures done { OnOk result (IfDiskTells (D.shown disk.new) (λ moments. IsSettled moments.now × IsShut moments.now.read)) }
    ensures moments { IfDiskTold (D.shown disk.old) (D.shown disk.new) (AtEach IsUnformed) }
    ensures written { OnOk result (IfDiskTold (D.shown disk.old) (D.shown disk.new)
        (λ before after. (after.now.read ≡ before.now.read) ⊎ (after.now.read ≡ overlaid before.now.read 0 (0 ∷ [])))) }
    ensures range { IfDiskTold (D.shown disk.old) (D.shown disk.new) (λ before after. AtEach (Torn 0 1 before.now.read) before after) }
    ensures later { IsLater (D.shown disk.old) (D.shown disk.new) }
    ensures cause { HasCause (D.shown disk.old).faults (D.shown disk.new).faults result }
{
    if disk.size()? >= SHORTEST_FORMED as u64 {
        return Ok(());
    }
    write_synced(disk, 0, &[SHUT])
}

/// Writes the header after the closed first gate, and then opens the gate.
pub fn put_header<D: Disk>(disk: &mut D, bytes: &[u8]) -> Result<(), Failed>
    requires claimed { IsTrue (D.shown disk.old).claimed }
    requires file { IfDiskTells (D.shown disk.old) (λ moments. IsSettled moments.now × IsShut moments.now.read) }
    ensures formed { OnOk result (IfDiskTells (D.shown disk.new) (λ moments. (header : Header) → IsHead header bytes.now
        → StandsFor (empty header) moments.now.read)) }
    ensures moments { IfDiskTold (D.shown disk.old) (D.shown disk.new)
        (λ before after. (header : Header) → IsHead header bytes.now → AtEach (IsUnformedOrEmpty header) before after) }
    ensures done { OnOk result (IfDiskTold (D.shown disk.old) (D.shown disk.new)
        (λ before after. after.now ≡ settled (overlaid before.now.read 0 (OPEN ∷ bytes.now)))) }
    ensures range { IfDiskTold (D.shown disk.old) (D.shown disk.new)
        (λ before after. AtEach (Torn 0 (1 + length bytes.now) before.now.read) before after) }
    ensures later { IsLater (D.shown disk.old) (D.shown disk.new) }
    ensures cause { HasCause (D.shown disk.old).faults (D.shown disk.new).faults result }
{
    put_after_gate(disk, 0, bytes)
}

/// Forms an unformed file.
pub fn form_file<D: Disk>(disk: &mut D, bytes: &[u8]) -> Result<(), Failed>
    requires claimed { IsTrue (D.shown disk.old).claimed }
    requires file { IfDiskTells (D.shown disk.old) (λ moments. IsSettled moments.now × IsUnformed moments.now.read) }
    ensures formed { OnOk result (IfDiskTells (D.shown disk.new) (λ moments. (header : Header) → IsHead header bytes.now
        → StandsFor (empty header) moments.now.read)) }
    ensures moments { IfDiskTold (D.shown disk.old) (D.shown disk.new)
        (λ before after. (header : Header) → IsHead header bytes.now → AtEach (IsUnformedOrEmpty header) before after) }
    ensures done { OnOk result (IfDiskTold (D.shown disk.old) (D.shown disk.new)
        (λ before after. after.now ≡ settled (overlaid before.now.read 0 (OPEN ∷ bytes.now)))) }
    ensures range { IfDiskTold (D.shown disk.old) (D.shown disk.new)
        (λ before after. AtEach (Torn 0 (1 + length bytes.now) before.now.read) before after) }
    ensures later { IsLater (D.shown disk.old) (D.shown disk.new) }
    ensures cause { HasCause (D.shown disk.old).faults (D.shown disk.new).faults result }
{
    // A short file may begin with an open gate by chance: were that not closed first, the bytes of the header would make it a
    // file with an open gate and a torn header (must-fail/a_short_file_is_not_shut.edit). `put_header` requires a closed one.
    shut_gate(disk)?;
    put_header(disk, bytes)
}

/// Syncs, and then reads whether the gate is open.
fn is_open_now<D: Disk>(disk: &mut D, gate: u64) -> Result<bool, Failed>
    ensures moments { IfDiskTold (D.shown disk.old) (D.shown disk.new) IsSynced }
    ensures synced { OnOk result (IfDiskTold (D.shown disk.old) (D.shown disk.new) (λ before after. after ≡ synced_at before)) }
    ensures open { IfOk result (λ is_open. IfDiskTold (D.shown disk.old) (D.shown disk.new)
        (λ before _. IsTrue is_open ↔ (slice_index before.now.read gate ≡ OPEN))) }
    ensures within { IfOk result (λ is_open. IfDiskTold (D.shown disk.old) (D.shown disk.new)
        (λ before _. IsTrue is_open → gate + 1 ≤ length before.now.read)) }
    ensures later { IsLater (D.shown disk.old) (D.shown disk.new) }
    ensures cause { HasCause (D.shown disk.old).faults (D.shown disk.new).faults result }
{
    disk.sync()?;
    let mut byte = [0];
    let count = disk.read_at(gate, &mut byte)?;
    Ok(count == 1 && byte[0] == OPEN)
}

/// Syncs, and then reads whether the gate is open. One that is open is opened once more: where a sync has failed a kernel may take for written
/// what the disk has not, read it, and sync it no more.
pub fn settle_gate<D: Disk>(disk: &mut D, gate: u64) -> Result<bool, Failed>
    requires { IsTrue (D.shown disk.old).claimed }
    ensures moments { IfDiskTold (D.shown disk.old) (D.shown disk.new) (IsReopened gate) }
    ensures settled { OnOk result (IfDiskTold (D.shown disk.old) (D.shown disk.new)
        (λ before after. IsSettled after.now × (after.now.read ≡ before.now.read))) }
    ensures open { IfOk result (λ is_open. IfDiskTold (D.shown disk.old) (D.shown disk.new)
        (λ before _. IsTrue is_open ↔ (slice_index before.now.read gate ≡ OPEN))) }
    ensures later { IsLater (D.shown disk.old) (D.shown disk.new) }
    ensures cause { HasCause (D.shown disk.old).faults (D.shown disk.new).faults result }
{
    let is_open = is_open_now(disk, gate)?;
    if is_open {
        // A closed gate is not written: bytes after it may be torn, and a crash could leave it open before them.
        write_synced(disk, gate, &[OPEN])?;
    }
    Ok(is_open)
}
