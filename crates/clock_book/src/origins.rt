//! What stays of a book for as long as it lives.
ghost use Rattle.std.specs.Prelude.{◌≡◌};
ghost use Rattle.house_io.specs.Disks.{is_told, told_moments};

use house_io::Disk;
use lot_base::Terms;
use report_journal::Journal;
use std::collections::LinkedList;
use std::marker::Model;
use std::snapshot::Snapshot;

/// What stays of a book for as long as it lives. No value of this type is made: it is plain data of the proofs.
pub struct Origin {
    /// Those of the auction.
    pub terms: Terms,
    /// The clock's number.
    pub clock: u8,
    /// The auction's digest.
    pub digest: [u8; 32],
    /// The moment after the sync with which the opening began, by the number of moments before it.
    pub synced: u64,
    /// What the file read then.
    pub read: LinkedList<u8>,
    /// How many reports it stood for.
    pub reports: u64,
    /// The moment at which the opening was answered, by the number of moments before it.
    pub answered: u64,
    /// The disk told its moments then.
    pub told: bool,
}

/// The origin of a book, with what the proofs know of its disk then.
pub(crate) struct Start<D: Disk> {
    /// Those of the auction.
    pub(crate) terms: Terms,
    /// The clock's number.
    pub(crate) clock: u8,
    /// The SHA-256 of the auction's file.
    pub(crate) digest: [u8; 32],
    /// The disk as it was after the sync and the reading with which the opening began.
    pub(crate) synced: Snapshot<D>,
    /// How many reports its file stood for then.
    pub(crate) reports: u64,
    /// The journal as it was when the opening was answered.
    pub(crate) answered: Snapshot<Journal<D>>,
}

impl<D: Disk> Model for Start<D> {
    ghost use Rattle.house_io.specs.Disks.{is_told, told_moments};
    ghost use Rattle.std.specs.Prelude.{length};
    ghost use Rattle.clock_book.specs.declared.origins.Origin.{Origin};

    ghost Value = { Origin };

    ghost view = { λ s. record {
      terms = s.terms;
      clock = s.clock;
      digest = s.digest;
      synced = length (told_moments (D.shown s.synced.value)).past;
      read = (told_moments (D.shown s.synced.value)).now.read;
      reports = s.reports;
      answered = length (told_moments (D.shown s.answered.value.disk)).past;
      told = is_told (D.shown s.answered.value.disk);
    } };
}

impl<D: Disk> Start<D> {
    /// The terms.
    pub(crate) fn terms(&self) -> &Terms
        ensures { result.now ≡ self.now.terms }
    {
        &self.terms
    }
}

impl<D: Disk> Drop for Start<D> {
    fn drop(self) {
        let Start {
            terms: _,
            clock: _,
            digest: _,
            synced: _,
            reports: _,
            answered: _,
        } = self;
    }
}
