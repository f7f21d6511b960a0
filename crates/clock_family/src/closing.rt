//! What closing a house takes.
ghost use Rattle.std.specs.Prelude.{◌≡◌, length};
ghost use Rattle.clock_family.specs.Closing.{IsReserved};

use crate::house_books::HouseBook;
use clock_book::ClockBook;
use house_io::Disk;
use std::marker::Model;
use turn_desk::Pass;

/// Empty lists that closing a house fills.
pub(crate) struct Closing<D: Disk> {
    /// For how many passes each list has room.
    pub(crate) room: usize,
    /// A list of passes for each clock.
    pub(crate) lists: Vec<Vec<Pass<HouseBook<D>>>>,
    /// An empty list, with room for a book of each clock.
    pub(crate) books: Vec<ClockBook<D>>,
}

impl<D: Disk> Model for Closing<D> {
    ghost use Rattle.std.specs.Prelude.{length};
    ghost use Rattle.clock_family.specs.Houses.{ClosingOf};
    ghost use Rattle.clock_family.specs.Closing.{IsReserved};

    ghost Value = { ClosingOf };

    ghost view = { λ c. record { room = c.room; clocks = length c.lists.items } };

    ghost invariant = { λ c. IsReserved c.room c.lists.items c.books };
}

impl<D: Disk> Drop for Closing<D> {
    fn drop(self) {
        let Closing {
            room: _,
            lists: _,
            books,
        } = self;
        books.destroy_empty();
    }
}

impl<D: Disk> Closing<D> {
    /// The lists of passes, and the list of books.
    pub(crate) fn into_lists(self) -> (Vec<Vec<Pass<HouseBook<D>>>>, Vec<ClockBook<D>>)
        ensures reserved { IsReserved self.room result.0.items result.1 }
        ensures clocks { length result.0.items ≡ self.clocks }
    {
        let Closing {
            room: _,
            lists,
            books,
        } = self;
        (lists, books)
    }
}
