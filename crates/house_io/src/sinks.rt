//! Sinks for bytes, and writing a text whole.
ghost use Rattle.std.specs.Prelude.{◌≡◌, ◌≤◌, ◌<◌, ◌+◌, ℕ, List, Option, length, IfOk};
ghost use Rattle.house_io.specs.Faults.{HasCause};
ghost use Rattle.house_io.specs.Told.{IfTold};
ghost use Rattle.house_io.specs.Sinks.{Writes};

use crate::Failed;

/// Where bytes go.
pub trait Sink {
    ghost use Rattle.house_io.specs.Sinks.{IsPart, Pushes};

    /// The bytes that were written, where it tells them.
    ghost written: { Self → Option (List ℕ) };

    /// How often a call on it has failed.
    ghost faults: { Self → ℕ };

    /// Appends a front of `from` and answers its length, never 0 of a piece that is not empty. After `Failed` the
    /// bytes written are unchanged.
    fn push(&mut self, from: &[u8]) -> Result<usize, Failed>
        ensures part { IfOk result (λ count. IsPart count from.now) }
        ensures bytes { IfTold (written self.old) (written self.new) (Pushes result from.now) }
        ensures cause { HasCause (faults self.old) (faults self.new) result };
}

/// Appends the whole text, or fails after a front of it. It takes no memory.
pub fn write_whole<S: Sink>(sink: &mut S, text: &[u8]) -> Result<(), Failed>
    ensures bytes { IfTold (S.written sink.old) (S.written sink.new) (Writes result text.now) }
    ensures cause { HasCause (S.faults sink.old) (S.faults sink.new) result }
{
    let mut rest = text;
    while !rest.is_empty() {
        match sink.push(rest) {
            Ok(count) => rest = rest.split_at(count).1,
            Err(Failed) => return Err(Failed),
        }
    }
    Ok(())
}
