//! Links to and from somebody outside, and sending a text whole.
ghost use Rattle.std.specs.Prelude.{◌≡◌, ◌≤◌, ◌<◌, ◌+◌, ℕ, List, Option, length, IfOk};
ghost use Rattle.house_io.specs.Faults.{HasCause};
ghost use Rattle.house_io.specs.Told.{IfTold};
ghost use Rattle.house_io.specs.Links.{SendsWhole};

use crate::Failed;

/// Bytes to and from somebody outside.
pub trait Link {
    ghost use Rattle.house_io.specs.Sinks.{IsPart};
    ghost use Rattle.house_io.specs.Links.{LinkBytes, Receives, Sends};

    /// The bytes that are left and those that were written, where it tells them.
    ghost told: { Self → Option LinkBytes };

    /// How often a call on it has failed.
    ghost faults: { Self → ℕ };

    /// Fills a front of `into` and answers its length, which is 0 at the end. After that front `into` may hold
    /// anything. After `Failed` what is left is unchanged. What was written stays.
    fn pull(&mut self, into: &mut [u8]) -> Result<usize, Failed>
        ensures within { IfOk result (λ count. count ≤ length into.new) }
        ensures bytes { IfTold (told self.old) (told self.new) (Receives result into.new) }
        ensures cause { HasCause (faults self.old) (faults self.new) result };

    /// Appends a front of `from` and answers its length, never 0 of a piece that is not empty. After `Failed` the
    /// bytes written are unchanged. What is left stays.
    fn push(&mut self, from: &[u8]) -> Result<usize, Failed>
        ensures part { IfOk result (λ count. IsPart count from.now) }
        ensures bytes { IfTold (told self.old) (told self.new) (Sends result from.now) }
        ensures cause { HasCause (faults self.old) (faults self.new) result };
}

/// Sends the whole text, or fails after a front of it. It takes no memory.
pub fn send_whole<L: Link>(link: &mut L, text: &[u8]) -> Result<(), Failed>
    ensures bytes { IfTold (L.told link.old) (L.told link.new) (SendsWhole result text.now) }
    ensures cause { HasCause (L.faults link.old) (L.faults link.new) result }
{
    let mut rest = text;
    while !rest.is_empty() {
        match link.push(rest) {
            Ok(count) => rest = rest.split_at(count).1,
            Err(Failed) => return Err(Failed),
        }
    }
    Ok(())
}
