//! A book goes from thread to thread: to the one whose turn it is.
ghost use Rattle.std.specs.Prelude.{◌≡◌};

use crate::books::ClockBook;
use house_io::Disk;

fn may_move<T: Send>(value: T) -> T
    ensures { result ≡ value }
{
    value
}

/// A book is `Send` where its disk is.
pub fn book_may_move<D: Disk + Send>(book: ClockBook<D>) -> ClockBook<D>
    ensures { result ≡ book }
{
    may_move(book)
}
