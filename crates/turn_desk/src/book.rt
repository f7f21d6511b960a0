ghost use Rattle.std.specs.Prelude.{◌≡◌, ℕ, ◌%◌, ◌^◌, List, length};

/// What lies on a desk: a value with a history of entries.
pub trait Book {
    /// An entry of the history, as plain data.
    type Entry;

    /// What stays of a book for as long as it lives, as plain data.
    type Origin;

    /// The entries so far, the oldest first.
    ghost history: { Self → List Self.Entry };

    /// What no turn changes.
    ghost origin: { Self → Self.Origin };

    /// The number of entries of the history, modulo 2^64. It takes no memory.
    fn length(&self) -> u64
        ensures { result ≡ length (history self.now) % 2 ^ 64 };

    /// A number that a book of this origin has at this history. It may be read at the desk without a turn.
    ghost gauge: { Self.Origin → List Self.Entry → ℕ };

    /// The gauge of the book as it is. It takes no memory.
    fn gauge(&self) -> u64
        ensures { result ≡ gauge (origin self.now) (history self.now) };
}
