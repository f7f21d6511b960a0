//! A reader of a stream of frames that comes in pieces.
ghost use Rattle.std.specs.Prelude.{◌≡◌, ◌≤◌, ◌<◌, ◌+◌, ◌%◌, ◌^◌, ◌++◌, [], ℕ, length, drop, map, IfOk, OnOk, IfErr, OnErr, IsSome, None, MatchOption};
ghost use Rattle.std.specs.List.{AllByRecursion};
ghost use Rattle.report_wire.specs.Frames.{IsSent, IsPartial, IsFault, stream_of, Reads};
ghost use Rattle.report_wire.specs.Reading.{IsFound, sent_of, fresh, fault_of, needs_of};

use crate::frames::{Frame, WireFault, WireKind};
use byte_numbers::number_of;
use lot_base::NoMemory;
use lot_base::limits::GREATEST_PAYLOAD;
use std::alloc::Global;
use std::marker::{Model, PhantomData};

/// What stands at the front of some bytes: a message and the length of its frame, less than a frame, or a fault.
#[derive(Drop)]
pub(crate) enum Found<M> {
    /// A whole message, and how many bytes its frame takes up.
    Message(M, usize),
    /// The front of a frame.
    Partial,
    /// No frame, whatever follows.
    Fault(WireKind),
}

/// What stands at the front.
fn next_frame<F: Frame>(alloc: Global, bytes: &[u8]) -> Result<Found<F>, NoMemory>
    ensures { IfOk result (λ found. IsFound F.direction F.kind_of F.payload_of found bytes.now) }
{
    if bytes.len() < 4 {
        return Ok(Found::Partial);
    }
    let length = number_of(&bytes[..4]);
    if length > GREATEST_PAYLOAD {
        return Ok(Found::Fault(WireKind::TooLong(length)));
    }
    if bytes.len() < 5 {
        return Ok(Found::Partial);
    }
    let kind = bytes[4];
    if !F::is_kind(kind) {
        return Ok(Found::Fault(WireKind::UnknownKind(kind)));
    }
    if !F::allows(kind, length) {
        return Ok(Found::Fault(WireKind::BadPayload { kind, length }));
    }
    let size = 5 + length as usize;
    if bytes.len() < size {
        return Ok(Found::Partial);
    }
    match F::read(alloc, kind, &bytes[5..size])? {
        Some(message) => Ok(Found::Message(message, size)),
        None => Ok(Found::Fault(WireKind::BadPayload { kind, length })),
    }
}

/// The messages at the front of some bytes, the length of their frames, the bytes after them, and the fault that stands there.
#[derive(Drop)]
pub(crate) struct Front<F> {
    /// In the order in which they stand there.
    pub frames: Vec<F>,
    /// How many bytes the frames of these messages take up.
    pub length: usize,
    /// The bytes after those frames.
    pub rest: Vec<u8>,
    /// What is wrong with the rest. None where it is less than a frame.
    pub fault: Option<WireKind>,
}

/// Reads the messages at the front.
fn read_front<F: Frame>(alloc: Global, bytes: &[u8]) -> Result<Front<F>, NoMemory>
    ensures size { IfOk result (λ r. length (stream_of (map (sent_of F.kind_of F.payload_of) r.frames.items) []) ≡ r.length) }
    ensures reads { IfOk result (λ r. Reads F.direction bytes.now (map (sent_of F.kind_of F.payload_of) r.frames.items) r.rest.items
        r.fault) }
{
    let mut frames = Vec::new(alloc);
    let mut at = 0;
    let fault = loop {
        let (message, size) = match next_frame::<F>(alloc, &bytes[at..])? {
            Found::Message(message, size) => (message, size),
            Found::Partial => break None,
            Found::Fault(fault) => break Some(fault),
        };
        if frames.push(message).is_err() {
            return Err(NoMemory);
        }
        at += size;
    };
    Ok(Front {
        frames,
        length: at,
        rest: rest_from(alloc, bytes, at)?,
        fault,
    })
}

/// Reads the messages at the front of what is kept and a piece. Where nothing is kept, they are read off the piece where it lies.
fn read_front_with<F: Frame>(alloc: Global, kept: &[u8], piece: &[u8]) -> Result<Front<F>, NoMemory>
    ensures size { IfOk result (λ r. length (stream_of (map (sent_of F.kind_of F.payload_of) r.frames.items) []) ≡ r.length) }
    ensures reads { IfOk result (λ r. Reads F.direction (kept.now ++ piece.now)
        (map (sent_of F.kind_of F.payload_of) r.frames.items) r.rest.items r.fault) }
{
    if kept.is_empty() {
        return read_front(alloc, piece);
    }
    let bytes = joined(alloc, kept, piece)?;
    read_front(alloc, &bytes)
}

/// Reads the frames of one direction off a stream, seen as what it keeps.
#[derive(Drop)]
pub struct Reader<F: Frame> {
    /// Where the memory for the rest and for the messages comes from.
    alloc: Global,
    /// How many bytes of the stream came before the rest, modulo 2^64.
    place: u64,
    /// What came and is no whole frame yet. Once a fault was met, the bytes from the fault on.
    rest: Vec<u8>,
    /// What is wrong at the front of the rest. None until a fault was met; then nothing more is read.
    fault: Option<WireKind>,
    /// Says in its type which direction's messages are read. It holds nothing.
    of: PhantomData<F>,
}

impl<F: Frame> Model for Reader<F> {
    ghost use Rattle.std.specs.Prelude.{MatchOption};
    ghost use Rattle.report_wire.specs.Frames.{IsPartial, IsFault};
    ghost use Rattle.report_wire.specs.Reading.{ReaderState};

    ghost Value = { ReaderState };

    ghost view = { λ r. record { place = r.place; rest = r.rest.items; fault = r.fault } };

    ghost invariant = { λ r. MatchOption r.fault (IsPartial F.direction r.rest.items) (λ f. IsFault F.direction f r.rest.items) };
}

/// The messages that became whole, and the fault that stands after them.
#[derive(Drop)]
pub struct Feed<F> {
    /// In the order in which they came. None after a fault.
    pub frames: Vec<F>,
    /// The fault that ends the stream, with its place. It is told anew at each feed from the one that met it on.
    pub fault: Option<WireFault>,
}

impl<F: Frame> Reader<F> {
    /// A reader before the first piece.
    pub fn new(alloc: Global) -> Reader<F>
        ensures { result ≡ fresh }
    {
        Reader {
            alloc,
            place: 0,
            rest: Vec::new(alloc),
            fault: None,
            of: PhantomData,
        }
    }

    /// How many bytes are kept that are no whole frame.
    pub fn rest(&self) -> u32
        ensures value { result ≡ length self.now.rest % 2 ^ 32 }
        ensures kept { self.now.fault ≡ None → (result ≡ length self.now.rest) × IsPartial F.direction self.now.rest }
    {
        (self.rest.len() & 0xffff_ffff) as u32
    }

    /// How many bytes the next frame still needs, as far as they are known. A piece of no more makes at most that frame whole, and
    /// then nothing is kept.
    pub fn needs(&self) -> u32
        requires { self.now.fault ≡ None }
        ensures value { result ≡ needs_of self.now.rest }
        ensures some { 0 < result }
        ensures partial { IsPartial F.direction self.now.rest }
    {
        let held = self.rest.len();
        if held < 5 {
            return 5 - held as u32;
        }
        5 + number_of(&self.rest[..4]) - held as u32
    }

    /// Takes the next piece of the stream, and gives the messages that became whole. After a fault there is no more than that
    /// fault. Want of memory changes nothing.
    pub fn feed(&mut self, piece: &[u8]) -> Result<Feed<F>, NoMemory>
        ensures err { OnErr result (self.new ≡ self.old) }
        ensures broken { IfOk result (λ f. IsSome self.old.fault → (self.new ≡ self.old) × (f.frames.items ≡ [])) }
        ensures reads { IfOk result (λ f. self.old.fault ≡ None
            → Reads F.direction (self.old.rest ++ piece.now) (map (sent_of F.kind_of F.payload_of) f.frames.items) self.new.rest
            self.new.fault) }
        ensures place { IfOk result (λ f. self.old.fault ≡ None
            → self.new.place ≡ (self.old.place + length (stream_of (map (sent_of F.kind_of F.payload_of) f.frames.items) [])) % 2 ^ 64) }
        ensures fault { IfOk result (λ f. f.fault ≡ fault_of self.new) }
    {
        if let Some(kind) = self.fault {
            return Ok(Feed {
                frames: Vec::new(self.alloc),
                fault: Some(WireFault {
                    place: self.place,
                    kind,
                }),
            });
        }
        let front = read_front_with(self.alloc, &self.rest, piece)?;
        let Front {
            frames,
            length,
            rest,
            fault,
        } = front;
        self.rest = rest;
        self.place = self.place.wrapping_add(length as u64);
        self.fault = fault;
        Ok(Feed {
            frames,
            fault: fault_at(self.place, fault),
        })
    }
}

/// A fault with its place.
fn fault_at(place: u64, fault: Option<WireKind>) -> Option<WireFault>
    ensures { result ≡ fault_of (record { place = place; rest = []; fault = fault }) }
{
    match fault {
        Some(kind) => Some(WireFault { place, kind }),
        None => None,
    }
}

/// One piece after another.
fn joined(alloc: Global, first: &[u8], second: &[u8]) -> Result<Vec<u8>, NoMemory>
    ensures { IfOk result (λ v. v.items ≡ first.now ++ second.now) }
{
    let Ok(mut bytes) = first.to_vec(alloc) else {
        return Err(NoMemory);
    };
    if bytes.extend_from_slice(second).is_err() {
        return Err(NoMemory);
    }
    Ok(bytes)
}

/// The bytes from a place on.
fn rest_from(alloc: Global, bytes: &[u8], at: usize) -> Result<Vec<u8>, NoMemory>
    requires { at ≤ length bytes.now }
    ensures { IfOk result (λ v. v.items ≡ drop at bytes.now) }
{
    match bytes[at..].to_vec(alloc) {
        Ok(rest) => Ok(rest),
        Err(_) => Err(NoMemory),
    }
}
