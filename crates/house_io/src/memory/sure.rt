//! A source and a sink in memory that never fail.
ghost use Rattle.std.specs.Prelude.{◌≡◌, ◌≤◌, ◌<◌, ◌+◌, ℕ, List, [], Option, Some, None, length, drop, min, vec_len, vec_capacity, if◌then◌else◌, IsOk, IfOk, IsOkAnd, IfSome};
ghost use Rattle.house_io.specs.Faults.{HasCause};
ghost use Rattle.house_io.specs.Told.{IfTold};
ghost use Rattle.house_io.specs.Sources.{Pulls, Takes};
ghost use Rattle.house_io.specs.Sinks.{IsPart, Pushes};
ghost use Rattle.house_io.specs.SureForms.{Kept, Keeps, empty_sink};

use crate::{Failed, Sink, Source};
use lot_base::NoMemory;
use std::alloc::Global;
use std::marker::Model;

/// A source of some bytes that never fails, seen as the list of those that are left.
#[derive(Drop)]
pub struct SureSource {
    /// All its bytes.
    bytes: Vec<u8>,
    /// How many of them were taken.
    at: usize,
}

impl Model for SureSource {
    ghost Value = { List ℕ };

    ghost view = { λ source. drop source.at source.bytes.items };
}

impl SureSource {
    /// A source of these bytes. It needs no memory of its own.
    pub fn new(_alloc: Global, bytes: Vec<u8>) -> Result<SureSource, NoMemory>
        ensures { IsOkAnd result (λ source. source ≡ bytes.items) }
    {
        Ok(SureSource::whole(bytes))
    }

    /// A source of these bytes.
    pub(crate) fn whole(bytes: Vec<u8>) -> SureSource
        ensures { result ≡ bytes.items }
    {
        SureSource { bytes, at: 0 }
    }
}

impl Source for SureSource {
    ghost left = { λ source. Some source };

    ghost faults = { λ _. 0 };

    fn pull(&mut self, into: &mut [u8]) -> Result<usize, Failed>
        ensures sure { result ≡ Ok (min (length self.old) (length into.new)) }
        ensures bytes { Pulls result into.new self.old self.new }
    {
        Ok(take_front(&self.bytes, &mut self.at, into))
    }
}

/// Copies what is left from a place on, as much as the buffer holds, and moves the place after it.
fn take_front(bytes: &[u8], at: &mut usize, into: &mut [u8]) -> usize
    ensures count { result ≡ min (length (drop at.old bytes.now)) (length into.new) }
    ensures bytes { Takes result into.new (drop at.old bytes.now) (drop at.new bytes.now) }
{
    if *at >= bytes.len() {
        return 0;
    }
    let rest = &bytes[*at..];
    let count = rest.len().min(into.len());
    into[..count].copy_from_slice(&rest[..count]);
    *at += count;
    count
}

/// A sink that never fails, seen as the bytes that it was given and the room that is left. Where a piece passes
/// its room, it takes the piece without keeping it, and from then on tells nothing.
#[derive(Drop)]
pub struct SureSink {
    /// The bytes that it kept.
    bytes: Vec<u8>,
    /// How many more it keeps.
    room: usize,
    /// Its room was passed, and it tells nothing.
    overflowed: bool,
}

impl Model for SureSink {
    ghost Value = { Kept };

    ghost view = { λ sink. record {
      written = (if sink.overflowed then None else Some sink.bytes.items);
      room = sink.room;
    } };

    ghost invariant = { λ sink. vec_len sink.bytes + sink.room ≤ vec_capacity sink.bytes };
}

impl SureSink {
    /// An empty sink with room for so many bytes.
    pub fn new(alloc: Global, room: u32) -> Result<SureSink, NoMemory>
        ensures { IfOk result (λ sink. sink ≡ empty_sink room) }
    {
        let room = room as usize;
        let bytes = Vec::with_capacity(alloc, room)?;
        Ok(SureSink {
            bytes,
            room,
            overflowed: false,
        })
    }

    /// An empty sink without room.
    pub(crate) fn without_room(alloc: Global) -> SureSink
        ensures { result ≡ empty_sink 0 }
    {
        SureSink {
            bytes: Vec::new(alloc),
            room: 0,
            overflowed: false,
        }
    }

    /// The bytes that it kept.
    pub fn written(&self) -> &[u8]
        ensures { IfSome self.now.written (λ bytes. result.now ≡ bytes) }
    {
        &self.bytes
    }
}

impl Sink for SureSink {
    ghost written = { λ sink. sink.written };

    ghost faults = { λ _. 0 };

    fn push(&mut self, from: &[u8]) -> Result<usize, Failed>
        ensures sure { result ≡ Ok (length from.now) }
        ensures kept { Keeps self.old from.now self.new }
    {
        if from.len() <= self.room {
            self.bytes.extend_from_slice(from).unwrap();
            self.room -= from.len();
        } else {
            self.overflowed = true;
            self.room = 0;
        }
        Ok(from.len())
    }
}
