//! A source and a sink in memory of which chosen calls fail.
ghost use Rattle.std.specs.Prelude.{◌≡◌, ◌≤◌, ◌↔◌, ℕ, List, [], Option, Some, length, min, IsOk, IsErr, IfOk, OnOk, OnErr, IsOkAnd, IfSome};
ghost use Rattle.house_io.specs.Faults.{HasCause, faults_after};
ghost use Rattle.house_io.specs.Told.{IfTold};
ghost use Rattle.house_io.specs.Sources.{Pulls};
ghost use Rattle.house_io.specs.Sinks.{IsPart, Pushes};
ghost use Rattle.house_io.specs.SureForms.{Keeps};
ghost use Rattle.house_io.specs.ListForms.{ListedSource, ListedSink, IsToFail, counted, fresh_source, fresh_sink};

use crate::memory::failing::FailingCalls;
use crate::{Failed, Sink, Source, SureSink, SureSource};
use lot_base::NoMemory;
use std::alloc::Global;
use std::marker::Model;

/// A source of some bytes, of which chosen calls fail. Such a call takes nothing.
#[derive(Drop)]
pub struct ListSource {
    /// The bytes that are left.
    source: SureSource,
    /// Which pulls fail.
    plan: FailingCalls,
    /// How often it has failed.
    faults: u64,
}

impl Model for ListSource {
    ghost Value = { ListedSource };

    ghost view = { λ s. record { left = s.source; plan = s.plan; faults = s.faults } };
}

impl ListSource {
    /// A source of these bytes, of which the calls with these numbers fail. It needs no memory of its own.
    pub fn new(_alloc: Global, bytes: Vec<u8>, failing: Vec<u64>) -> Result<ListSource, NoMemory>
        ensures { IsOkAnd result (λ source. source ≡ fresh_source bytes.items failing.items) }
    {
        Ok(ListSource::whole(bytes, failing))
    }

    /// A source of these bytes, of which the calls with these numbers fail.
    pub(crate) fn whole(bytes: Vec<u8>, failing: Vec<u64>) -> ListSource
        ensures { result ≡ fresh_source bytes.items failing.items }
    {
        ListSource {
            source: SureSource::whole(bytes),
            plan: FailingCalls::new(failing),
            faults: 0,
        }
    }

    /// How often it has failed.
    pub(crate) fn faults(&self) -> u64
        ensures { result ≡ self.now.faults }
    {
        self.faults
    }
}

impl Source for ListSource {
    ghost left = { λ s. Some s.left };

    ghost faults = { λ s. s.faults };

    fn pull(&mut self, into: &mut [u8]) -> Result<usize, Failed>
        ensures count { IfOk result (λ count. count ≡ min (length self.old.left) (length into.new)) }
        ensures bytes { Pulls result into.new self.old.left self.new.left }
        ensures fails { IsErr result ↔ IsToFail self.old.plan }
        ensures plan { self.new.plan ≡ counted self.old.plan }
        ensures faults { self.new.faults ≡ faults_after result self.old.faults }
    {
        if self.plan.next_fails() {
            self.faults = self.faults.saturating_add(1);
            return Err(Failed);
        }
        self.source.pull(into)
    }
}

/// A sink of which chosen calls fail. Such a call writes nothing. Where a piece passes the room, the sink takes it
/// without keeping it, and from then on tells nothing.
#[derive(Drop)]
pub struct ListSink {
    /// What it kept, and its room.
    sink: SureSink,
    /// Which pushes fail.
    plan: FailingCalls,
    /// How often it has failed.
    faults: u64,
}

impl Model for ListSink {
    ghost Value = { ListedSink };

    ghost view = { λ s. record { kept = s.sink; plan = s.plan; faults = s.faults } };
}

impl ListSink {
    /// An empty sink with room for so many bytes, of which the calls with these numbers fail.
    pub fn new(alloc: Global, room: u32, failing: Vec<u64>) -> Result<ListSink, NoMemory>
        ensures { IfOk result (λ sink. sink ≡ fresh_sink room failing.items) }
    {
        let sink = SureSink::new(alloc, room)?;
        Ok(ListSink {
            sink,
            plan: FailingCalls::new(failing),
            faults: 0,
        })
    }

    /// The bytes that it kept.
    pub fn written(&self) -> &[u8]
        ensures { IfSome self.now.kept.written (λ bytes. result.now ≡ bytes) }
    {
        self.sink.written()
    }
}

impl Sink for ListSink {
    ghost written = { λ s. s.kept.written };

    ghost faults = { λ s. s.faults };

    fn push(&mut self, from: &[u8]) -> Result<usize, Failed>
        ensures whole { IfOk result (λ count. count ≡ length from.now) }
        ensures kept { OnOk result (Keeps self.old.kept from.now self.new.kept) }
        ensures unchanged { OnErr result (self.new.kept ≡ self.old.kept) }
        ensures fails { IsErr result ↔ IsToFail self.old.plan }
        ensures plan { self.new.plan ≡ counted self.old.plan }
        ensures faults { self.new.faults ≡ faults_after result self.old.faults }
    {
        if self.plan.next_fails() {
            self.faults = self.faults.saturating_add(1);
            return Err(Failed);
        }
        self.sink.push(from)
    }
}
