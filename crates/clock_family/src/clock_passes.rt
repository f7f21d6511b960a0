//! Takes the passes of one clock out of all passes of a house, and closes its desks.
ghost use Rattle.std.specs.Prelude.{◌≡◌, ℕ, ◌+◌, ◌<◌, ◌≤◌, length, slice_index_or, vec_len, vec_capacity};
ghost use Rattle.std.specs.List.{AllByRecursion};
ghost use Rattle.turn_desk.specs.Passes.{Opened, AreAll};
ghost use Rattle.clock_book.specs.Books.{BookOf};
ghost use Rattle.clock_family.specs.Closing.{IsReserved};
ghost use Rattle.clock_family.specs.Houses.{HousePassOf, AreClosed, column};
ghost use Rattle.clock_family.specs.Rows.{fronts, rows_of};

use crate::house_books::HouseBook;
use crate::houses::HousePass;
use clock_book::ClockBook;
use house_io::Disk;
use turn_desk::{Desk, Pass};

/// The last pass of each row, in order.
fn take_column<D: Disk>(
    rows: &mut Vec<HousePass<D>>,
    list: &mut Vec<Pass<HouseBook<D>>>,
    clock: usize,
)
    requires rows { AllByRecursion (λ (p : HousePassOf). length p.passes ≡ clock + 1) rows.old.items }
    requires empty { length list.old.items ≡ 0 }
    requires room { vec_len rows.old ≤ vec_capacity list.old }
    ensures list { list.new.items ≡ column clock rows.old.items }
    ensures count { vec_len rows.new ≡ vec_len rows.old }
    ensures rows { rows_of rows.new.items ≡ fronts clock (rows_of rows.old.items) }
{
    let mut row = 0;
    while row < rows.len() {
        let pass = rows[row].take_last();
        list.push_reserved(pass);
        row += 1;
    }
}

/// Closes all desks. The books come in the order of the desks.
pub(crate) fn close_all<D: Disk>(
    mut desks: Vec<Desk<HouseBook<D>>>,
    rows: &mut Vec<HousePass<D>>,
    mut lists: Vec<Vec<Pass<HouseBook<D>>>>,
    mut books: Vec<ClockBook<D>>,
) -> Vec<ClockBook<D>>
    requires rows { AllByRecursion (λ (p : HousePassOf). length p.passes ≡ length desks.items) rows.old.items }
    requires columns { (k : ℕ) (d : Opened (BookOf D)) → k < length desks.items
        → AreAll (slice_index_or desks.items k d).id (column k rows.old.items) }
    requires lists { length desks.items ≤ length lists.items }
    requires reserved { IsReserved (vec_len rows.old) lists.items books }
    ensures closed { AreClosed desks.items rows.old.items result.items }
{
    while let Some(desk) = desks.pop() {
        let mut list = lists.pop().unwrap();
        take_column(rows, &mut list, desks.len());
        let book = desk.close(list);
        books.push_reserved(book.into_book());
    }
    desks.destroy_empty();
    books.reverse();
    books
}
