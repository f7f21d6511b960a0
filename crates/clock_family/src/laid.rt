//! A desk that was laid for a clock.
ghost use Rattle.std.specs.Prelude.{◌≡◌};
ghost use Rattle.clock_family.specs.Opening.{IsUnused, IsGivenBack};

use crate::house_books::HouseBook;
use house_io::Disk;
use std::marker::Model;
use turn_desk::{Desk, Pass};

/// The desk of a clock, with its passes, in order.
pub(crate) struct Laid<D: Disk> {
    /// Where the book of the clock lies.
    pub(crate) desk: Desk<HouseBook<D>>,
    /// All passes of this desk, number 0 first.
    pub(crate) passes: Vec<Pass<HouseBook<D>>>,
}

impl<D: Disk> Model for Laid<D> {
    ghost use Rattle.turn_desk.specs.Passes.{AreAll};
    ghost use Rattle.clock_family.specs.Opening.{LaidOf};

    ghost Value = { LaidOf D };

    ghost view = { λ l. record { desk = l.desk; passes = l.passes.items } };

    ghost invariant = { λ l. AreAll l.desk.id l.passes.items };
}

impl<D: Disk> Laid<D> {
    /// The disk of the clock's book, to whose history nothing came.
    pub(crate) fn into_disk(self) -> D
        requires unused { IsUnused self }
        ensures given_back { IsGivenBack D.shown self.desk.book.origin self.desk.book.state.history result }
    {
        let Laid { desk, passes } = self;
        let book = desk.close(passes).into_book();
        let _kept = book.clock();
        let (_clock, disk) = book.into_parts();
        disk
    }

    /// The desk, and its passes.
    pub(crate) fn into_parts(self) -> (Desk<HouseBook<D>>, Vec<Pass<HouseBook<D>>>)
        ensures desk { result.0 ≡ self.desk }
        ensures passes { result.1.items ≡ self.passes }
    {
        let Laid { desk, passes } = self;
        (desk, passes)
    }
}
