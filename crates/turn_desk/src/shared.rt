//! A desk is shared by threads, a pass goes to the thread that takes turns with it, and what it has seen to any other.
ghost use Rattle.std.specs.Prelude.{◌≡◌};

use crate::book::Book;
use crate::desk::{Desk, Pass, Witness};

fn may_move<T: Send>(value: T) -> T
    ensures { result ≡ value }
{
    value
}

fn may_share<T: Sync>(value: &T) -> &T
    ensures { result.now ≡ value.now }
{
    value
}

/// A desk is `Send` where its book is.
pub fn desk_may_move<B: Book + Send>(desk: Desk<B>) -> Desk<B>
    ensures { result ≡ desk }
{
    may_move(desk)
}

/// A desk is `Sync` where its book is `Send`: one thread at a time has the book.
pub fn desk_may_be_shared<B: Book + Send>(desk: &Desk<B>) -> &Desk<B>
    ensures { result.now ≡ desk.now }
{
    may_share(desk)
}

/// A pass is `Send` where its book is.
pub fn pass_may_move<B: Book + Send>(pass: Pass<B>) -> Pass<B>
    ensures { result ≡ pass }
{
    may_move(pass)
}

/// What a pass had seen is `Send` where its book is.
pub fn witness_may_move<B: Book + Send>(witness: Witness<B>) -> Witness<B>
    ensures { result ≡ witness }
{
    may_move(witness)
}
