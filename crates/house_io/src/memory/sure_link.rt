//! A link in memory that never fails.
ghost use Rattle.std.specs.Prelude.{◌≡◌, ◌≤◌, ◌<◌, ◌+◌, [], ℕ, List, Ok, length, min, IsOk, IfOk, IfSome};
ghost use Rattle.house_io.specs.Sources.{Pulls};
ghost use Rattle.house_io.specs.SureForms.{Keeps};
ghost use Rattle.house_io.specs.LinkForms.{fresh_sure_link};

use crate::{Failed, Link, Sink, Source, SureSink, SureSource};
use lot_base::NoMemory;
use std::alloc::Global;
use std::marker::Model;

/// A link of some bytes that never fails, seen as those that are left and what it kept of those that were written. Where a
/// piece passes its room, it takes the piece without keeping it, and from then on tells nothing.
#[derive(Drop)]
pub struct SureLink {
    /// What comes in over the link: the bytes that are left to be pulled.
    source: SureSource,
    /// What went out over the link, as far as its room sufficed.
    sink: SureSink,
}

impl Model for SureLink {
    ghost use Rattle.house_io.specs.LinkForms.{SuredLink};

    ghost Value = { SuredLink };

    ghost view = { λ link. record { left = link.source; kept = link.sink } };
}

impl SureLink {
    /// A link of these bytes, with room for so many to be written.
    pub fn new(alloc: Global, bytes: Vec<u8>, room: u32) -> Result<SureLink, NoMemory>
        ensures { IfOk result (λ link. link ≡ fresh_sure_link bytes.items room) }
    {
        let sink = SureSink::new(alloc, room)?;
        Ok(SureLink {
            source: SureSource::whole(bytes),
            sink,
        })
    }

    /// A link without bytes, and without room.
    pub(crate) fn empty(alloc: Global) -> SureLink
        ensures { result ≡ fresh_sure_link [] 0 }
    {
        SureLink {
            source: SureSource::whole(Vec::new(alloc)),
            sink: SureSink::without_room(alloc),
        }
    }

    /// The bytes that were written and kept.
    pub fn written(&self) -> &[u8]
        ensures { IfSome self.now.kept.written (λ bytes. result.now ≡ bytes) }
    {
        self.sink.written()
    }
}

impl Link for SureLink {
    ghost use Rattle.house_io.specs.LinkForms.{link_bytes};

    ghost told = { λ link. link_bytes link.left link.kept };

    ghost faults = { λ _. 0 };

    fn pull(&mut self, into: &mut [u8]) -> Result<usize, Failed>
        ensures sure { result ≡ Ok (min (length self.old.left) (length into.new)) }
        ensures taken { Pulls result into.new self.old.left self.new.left }
        ensures kept { self.new.kept ≡ self.old.kept }
    {
        self.source.pull(into)
    }

    fn push(&mut self, from: &[u8]) -> Result<usize, Failed>
        ensures sure { result ≡ Ok (length from.now) }
        ensures kept { Keeps self.old.kept from.now self.new.kept }
        ensures left { self.new.left ≡ self.old.left }
    {
        self.sink.push(from)
    }
}
