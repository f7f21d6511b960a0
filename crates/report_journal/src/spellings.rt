//! The bytes of gates and records. Numbers are big-endian.
ghost use Rattle.std.specs.Prelude.{◌≡◌, ◌+◌, ℕ, ◌≤◌, ◌↔◌, ◌++◌, ◌∷◌, List, [], length, vec_capacity, IsTrue};
ghost use Rattle.lot_base.specs.declared.limits.TheConstants.{GREATEST_PAYLOAD, GREATEST_FILE};
ghost use Rattle.report_journal.specs.Format.{body};
ghost use Rattle.report_journal.specs.Padding.{put_of};
ghost use Rattle.report_journal.specs.Puts.{HasRecord};
ghost use Rattle.report_journal.specs.declared.spellings.TheConstants.{LONGEST_RECORD};

use crate::hints::{Hint, LONGEST_HINT};
use crate::padding::{lays_next, pad_after};
use byte_numbers::number_bytes;
use lot_base::limits::GREATEST_PAYLOAD;

/// A gate with this byte is open; with any other it is closed.
pub const OPEN: u8 = 0xa5;

/// The byte with which a closed gate is written.
pub const SHUT: u8 = 0;

/// The bytes of the longest record after its gate: a length, a payload and a closed gate.
pub const LONGEST_RECORD: usize = GREATEST_PAYLOAD as usize + 5;

/// The bytes of the shortest file that is formed: its gate, a header of version 1, and the gate of record 1.
pub const SHORTEST_FORMED: usize = 42;

/// Fills the buffer with the record of a payload, after its gate. Takes no memory.
pub fn fill_record(bytes: &mut Vec<u8>, payload: &[u8])
    requires short { length payload.now ≤ GREATEST_PAYLOAD }
    requires room { LONGEST_RECORD ≤ vec_capacity bytes.old }
    ensures record { bytes.new.items ≡ body payload.now ++ 0 ∷ [] }
    ensures room { vec_capacity bytes.old ≤ vec_capacity bytes.new }
{
    bytes.clear();
    push_record(bytes, payload);
}

/// Puts after the record of a payload, put at this gate of a file that has bytes up to `laid`, what is written after it: the record that
/// is hinted at, and zeros. Takes no memory.
pub fn lay_after<H: Hint>(bytes: &mut Vec<u8>, gate: u32, laid: u32, payload: &[u8], hint: &H)
    requires fits { gate + 6 + length payload.now ≤ GREATEST_FILE }
    requires record { bytes.old.items ≡ body payload.now ++ 0 ∷ [] }
    requires room { LONGEST_RECORD ≤ vec_capacity bytes.old }
    ensures behind { (next : List ℕ) × H.says hint.now next × (bytes.new.items ≡ put_of gate laid payload.now next) }
    ensures long { gate + 1 + length bytes.new.items ≤ GREATEST_FILE }
    ensures room { vec_capacity bytes.old ≤ vec_capacity bytes.new }
{
    let mut next = [0; LONGEST_HINT];
    let length = hint.next(&mut next);
    push_after(bytes, gate, laid, payload, &next[..length]);
}

/// Puts after it what is written where `next` is the payload that is likely to come next. Takes no memory.
fn push_after(bytes: &mut Vec<u8>, gate: u32, laid: u32, payload: &[u8], next: &[u8])
    requires fits { gate + 6 + length payload.now ≤ GREATEST_FILE }
    requires record { bytes.old.items ≡ body payload.now ++ 0 ∷ [] }
    requires room { LONGEST_RECORD ≤ vec_capacity bytes.old }
    ensures behind { bytes.new.items ≡ put_of gate laid payload.now next.now }
    ensures long { gate + 1 + length bytes.new.items ≤ GREATEST_FILE }
    ensures room { vec_capacity bytes.old ≤ vec_capacity bytes.new }
{
    let mut size = payload.len() as u32;
    if lays_next(gate, size, next.len()) {
        push_record(bytes, next);
        size += next.len() as u32 + 5;
    }
    let pad = pad_after(gate, laid, size);
    let _zeros = bytes.resize(size as usize + 5 + pad as usize, SHUT);
}

/// Pushes a payload's length, the payload and a closed gate into a buffer that has room for them. Takes no memory.
fn push_record(bytes: &mut Vec<u8>, payload: &[u8])
    requires short { length payload.now ≤ GREATEST_PAYLOAD }
    requires room { length bytes.old.items + length payload.now + 5 ≤ vec_capacity bytes.old }
    ensures record { bytes.new.items ≡ bytes.old.items ++ body payload.now ++ 0 ∷ [] }
    ensures room { vec_capacity bytes.old ≤ vec_capacity bytes.new }
{
    let _length = bytes.extend_from_slice(&number_bytes(payload.len() as u32));
    let _payload = bytes.extend_from_slice(payload);
    let _gate = bytes.push(SHUT);
}

/// Whether bytes begin with the record of a payload, after its gate, and a closed gate.
pub fn begins_with_record(bytes: &[u8], payload: &[u8]) -> bool
    requires { length payload.now ≤ GREATEST_PAYLOAD }
    ensures { IsTrue result ↔ HasRecord payload.now bytes.now }
{
    let Some(behind_length) = bytes.strip_prefix(&number_bytes(payload.len() as u32)) else {
        return false;
    };
    match behind_length.strip_prefix(payload) {
        None => false,
        Some(behind) => behind.starts_with(&[SHUT]),
    }
}
