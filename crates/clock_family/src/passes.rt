//! A pass of a clock's desk, with what the last offer by it left there.
ghost use Rattle.std.specs.Prelude.{◌≡◌};

use crate::house_books::HouseBook;
use clock::Look;
use house_io::Disk;
use std::marker::Model;
use turn_desk::Pass;

/// A pass of a clock's desk, seen as that pass.
pub(crate) struct ClockPass<D: Disk> {
    /// The pass.
    pub(crate) pass: Pass<HouseBook<D>>,
    /// What the clock shows in the history that the pass has seen, where the pass offered a report and has not looked since.
    pub(crate) shown: Option<Look>,
}

impl<D: Disk> Model for ClockPass<D> {
    ghost use Rattle.std.specs.Prelude.{IfSome};
    ghost use Rattle.clock_book.specs.declared.entries.Entry.{Entry};
    ghost use Rattle.clock_book.specs.declared.origins.Origin.{Origin};
    ghost use Rattle.turn_desk.specs.Passes.{Known};
    ghost use Rattle.clock_family.specs.Glances.{IsShownTo};

    ghost Value = { Known Entry Origin };

    ghost view = { λ c. c.pass };

    ghost invariant = { λ c. IfSome c.shown (IsShownTo c.pass) };
}

impl<D: Disk> Drop for ClockPass<D> {
    fn drop(self) {
        let ClockPass { pass: _, shown: _ } = self;
    }
}

impl<D: Disk> ClockPass<D> {
    /// A pass by which nothing was offered.
    pub(crate) fn new(pass: Pass<HouseBook<D>>) -> ClockPass<D>
        ensures { result ≡ pass }
    {
        ClockPass { pass, shown: None }
    }

    /// The pass.
    pub(crate) fn into_pass(self) -> Pass<HouseBook<D>>
        ensures { result ≡ self }
    {
        let ClockPass { pass, shown: _ } = self;
        pass
    }
}
