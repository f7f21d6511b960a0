//! Sources of bytes, and reading one to its end.
ghost use Rattle.std.specs.Prelude.{◌≡◌, ◌≤◌, ◌<◌, ◌+◌, ◌^◌, ℕ, List, Option, length, Err, IfOk};
ghost use Rattle.house_io.specs.Faults.{HasCause, Rose};
ghost use Rattle.house_io.specs.Told.{IfTold};
ghost use Rattle.house_io.specs.Reading.{Reads, StaysUnlessFailed};

use crate::Failed;
use std::alloc::{AllocError, Global};

/// Where bytes come from.
pub trait Source {
    ghost use Rattle.house_io.specs.Sources.{Pulls};

    /// The bytes that are left, where it tells them.
    ghost left: { Self → Option (List ℕ) };

    /// How often a call on it has failed.
    ghost faults: { Self → ℕ };

    /// Fills a front of `into` and answers its length, which is 0 at the end. After that front `into` may hold
    /// anything. After `Failed` what is left is unchanged.
    fn pull(&mut self, into: &mut [u8]) -> Result<usize, Failed>
        ensures within { IfOk result (λ count. count ≤ length into.new) }
        ensures bytes { IfTold (left self.old) (left self.new) (Pulls result into.new) }
        ensures cause { HasCause (faults self.old) (faults self.new) result };
}

/// Why a source was not read whole.
#[derive(Clone, Copy, Debug, PartialEq, Eq)]
pub enum ReadWhole {
    /// A pull failed.
    Failed,
    /// It has more bytes than were allowed.
    TooLong,
    /// There was no memory for its bytes.
    NoMemory,
}

/// The most bytes that one pull asks for.
const CHUNK: usize = 65_536;

/// Takes bytes until the end, or until one more than the limit was taken. Bytes that were taken stay taken,
/// whatever the answer.
pub fn read_whole<R: Source>(
    alloc: Global,
    source: &mut R,
    limit: u64,
) -> Result<Vec<u8>, ReadWhole>
    ensures short { IfOk result (λ text. length text.items ≤ limit) }
    ensures bytes { IfTold (R.left source.old) (R.left source.new) (Reads limit result) }
    ensures later { R.faults source.old ≤ R.faults source.new }
    ensures failed { result ≡ Err ReadWhole.Failed → Rose (R.faults source.old) (R.faults source.new) }
    ensures steady { StaysUnlessFailed result (R.faults source.old) (R.faults source.new) }
{
    // A piece is too long for the stack of a thread.
    match vec![in alloc; 0u8; CHUNK] {
        Ok(mut chunk) => read_pieces(alloc, source, limit, &mut chunk),
        Err(_) => Err(ReadWhole::NoMemory),
    }
}

/// The same, by pulls into this piece.
fn read_pieces<R: Source>(
    alloc: Global,
    source: &mut R,
    limit: u64,
    chunk: &mut [u8],
) -> Result<Vec<u8>, ReadWhole>
    requires { length chunk.old ≡ CHUNK }
    ensures short { IfOk result (λ text. length text.items ≤ limit) }
    ensures bytes { IfTold (R.left source.old) (R.left source.new) (Reads limit result) }
    ensures later { R.faults source.old ≤ R.faults source.new }
    ensures failed { result ≡ Err ReadWhole.Failed → Rose (R.faults source.old) (R.faults source.new) }
    ensures steady { StaysUnlessFailed result (R.faults source.old) (R.faults source.new) }
{
    let mut text = Vec::new(alloc);
    'pulls: while text.len() as u64 <= limit {
        let room = (limit - text.len() as u64).min(CHUNK as u64 - 1) as usize + 1;
        // The memory before the pull, so that what the pull takes has its place.
        if text.reserve(room).is_err() {
            return Err(ReadWhole::NoMemory);
        }
        match source.pull(&mut chunk[..room]) {
            Ok(0) => return Ok(text),
            Ok(count) => text.extend_from_slice(&chunk[..count]).unwrap(),
            Err(Failed) => return Err(ReadWhole::Failed),
        }
    }
    Err(ReadWhole::TooLong)
}
