//! A link in memory of which chosen calls fail.
ghost use Rattle.std.specs.Prelude.{◌≡◌, ◌≤◌, ◌<◌, ◌+◌, ◌↔◌, ℕ, List, length, min, IsErr, IfOk, OnOk, OnErr, IfSome};
ghost use Rattle.house_io.specs.Faults.{faults_after};
ghost use Rattle.house_io.specs.Sources.{Pulls};
ghost use Rattle.house_io.specs.SureForms.{Keeps};
ghost use Rattle.house_io.specs.ListForms.{IsToFail, counted};
ghost use Rattle.house_io.specs.LinkForms.{fresh_list_link, unfailed_link};

use crate::memory::failing::FailingCalls;
use crate::{Failed, Link, SureLink};
use lot_base::NoMemory;
use std::alloc::Global;
use std::marker::Model;

/// A link of which chosen calls fail, its pulls and pushes counted together. Such a call takes and writes nothing. Where a
/// piece passes the room, the link takes it without keeping it, and from then on tells nothing.
#[derive(Drop)]
pub struct ListLink {
    /// What is left, and what it kept.
    link: SureLink,
    /// Which calls fail.
    plan: FailingCalls,
    /// How often it has failed.
    faults: u64,
}

impl Model for ListLink {
    ghost use Rattle.house_io.specs.LinkForms.{ListedLink};

    ghost Value = { ListedLink };

    ghost view = { λ l. record { link = l.link; plan = l.plan; faults = l.faults } };
}

impl ListLink {
    /// A link of these bytes, with room for so many to be written, of which the calls with these numbers fail.
    pub fn new(
        alloc: Global,
        bytes: Vec<u8>,
        room: u32,
        failing: Vec<u64>,
    ) -> Result<ListLink, NoMemory>
        ensures { IfOk result (λ link. link ≡ fresh_list_link bytes.items room failing.items) }
    {
        let link = SureLink::new(alloc, bytes, room)?;
        Ok(ListLink {
            link,
            plan: FailingCalls::new(failing),
            faults: 0,
        })
    }

    /// The bytes that were written and kept.
    pub fn written(&self) -> &[u8]
        ensures { IfSome self.now.link.kept.written (λ bytes. result.now ≡ bytes) }
    {
        self.link.written()
    }

    /// The link with its count at 0.
    pub(crate) fn unfailed(self) -> ListLink
        ensures { result ≡ unfailed_link self }
    {
        let ListLink { link, plan, .. } = self;
        ListLink {
            link,
            plan,
            faults: 0,
        }
    }

    /// How often it has failed.
    pub(crate) fn faults(&self) -> u64
        ensures { result ≡ self.now.faults }
    {
        self.faults
    }

    /// Counts one call, and fails where it is to.
    fn begin(&mut self) -> Result<(), Failed>
        ensures fails { IsErr result ↔ IsToFail self.old.plan }
        ensures plan { self.new.plan ≡ counted self.old.plan }
        ensures faults { self.new.faults ≡ faults_after result self.old.faults }
        ensures link { self.new.link ≡ self.old.link }
    {
        if self.plan.next_fails() {
            self.faults = self.faults.saturating_add(1);
            return Err(Failed);
        }
        Ok(())
    }
}

impl Link for ListLink {
    ghost use Rattle.house_io.specs.LinkForms.{link_bytes};

    ghost told = { λ l. link_bytes l.link.left l.link.kept };

    ghost faults = { λ l. l.faults };

    fn pull(&mut self, into: &mut [u8]) -> Result<usize, Failed>
        ensures count { IfOk result (λ count. count ≡ min (length self.old.link.left) (length into.new)) }
        ensures taken { Pulls result into.new self.old.link.left self.new.link.left }
        ensures kept { self.new.link.kept ≡ self.old.link.kept }
        ensures fails { IsErr result ↔ IsToFail self.old.plan }
        ensures plan { self.new.plan ≡ counted self.old.plan }
        ensures faults { self.new.faults ≡ faults_after result self.old.faults }
    {
        match self.begin() {
            Ok(()) => self.link.pull(into),
            Err(Failed) => Err(Failed),
        }
    }

    fn push(&mut self, from: &[u8]) -> Result<usize, Failed>
        ensures whole { IfOk result (λ count. count ≡ length from.now) }
        ensures kept { OnOk result (Keeps self.old.link.kept from.now self.new.link.kept) }
        ensures unchanged { OnErr result (self.new.link ≡ self.old.link) }
        ensures left { self.new.link.left ≡ self.old.link.left }
        ensures fails { IsErr result ↔ IsToFail self.old.plan }
        ensures plan { self.new.plan ≡ counted self.old.plan }
        ensures faults { self.new.faults ≡ faults_after result self.old.faults }
    {
        match self.begin() {
            Ok(()) => self.link.push(from),
            Err(Failed) => Err(Failed),
        }
    }
}
