//! What threads that are about to wait leave for who has the turn before theirs.
ghost use Rattle.std.specs.Prelude.{◌≤◌};
ghost use Rattle.turn_desk.specs.declared.notes.TheConstants.{LONGEST_NOTE};

use std::array;
use std::sync::atomic::AtomicU64;
use std::sync::atomic::Ordering::SeqCst;

/// The most bytes of a note.
pub const LONGEST_NOTE: usize = 120;

/// The words of a note: eight bytes in each.
const WORDS: usize = LONGEST_NOTE / 8;

/// How many notes are kept: one is written over by that which comes so many after it.
const KEPT: usize = 16;

/// How many numbers of notes are told apart.
const NUMBERS: u64 = 0x100_0000_0000_0000;

/// The last notes, each at its number modulo 16. No clause speaks of what they say: a note may be missing, or be written over while it is
/// read, so it is for its reader to guess with.
#[derive(Drop)]
pub(crate) struct Notes {
    /// The number of the next note.
    next: AtomicU64,
    /// The number of each, modulo `NUMBERS`, and in the low byte its length. It is written after the words and read before them, so that a
    /// note which is whole when it is taken is taken whole.
    heads: [AtomicU64; KEPT],
    /// The bytes of each, eight in a word, those of one note after those of the other.
    words: [AtomicU64; KEPT * WORDS],
}

impl Notes {
    /// No notes.
    pub(crate) fn new() -> Notes {
        Notes {
            next: AtomicU64::new(0),
            heads: array::from_fn(|_| AtomicU64::new(0)),
            words: array::from_fn(|_| AtomicU64::new(0)),
        }
    }

    /// Leaves the first `length` of these bytes, and answers the number of the note.
    pub(crate) fn leave(&self, note: &[u8; LONGEST_NOTE], length: usize) -> u64 {
        let number = self.next.fetch_add(1, SeqCst);
        let place = (number % KEPT as u64) as usize;
        if length > LONGEST_NOTE {
            return number;
        }
        for at in 0..WORDS {
            let from = 8 * at;
            if from < length {
                let bytes = [
                    note[from],
                    note[from + 1],
                    note[from + 2],
                    note[from + 3],
                    note[from + 4],
                    note[from + 5],
                    note[from + 6],
                    note[from + 7],
                ];
                self.words[place * WORDS + at].store(u64::from_be_bytes(bytes), SeqCst);
            }
        }
        self.heads[place].store(number % NUMBERS * 256 + length as u64, SeqCst);
        number
    }

    /// Takes the note of this number into the buffer, and answers its length: 0 where it is not there.
    pub(crate) fn take(&self, number: u64, into: &mut [u8; LONGEST_NOTE]) -> usize
        ensures { result ≤ LONGEST_NOTE }
    {
        let place = (number % KEPT as u64) as usize;
        let head = self.heads[place].load(SeqCst);
        let length = (head % 256) as usize;
        if head / 256 != number % NUMBERS || length > LONGEST_NOTE {
            return 0;
        }
        for at in 0..WORDS {
            let from = 8 * at;
            if from < length {
                let word = self.words[place * WORDS + at].load(SeqCst);
                into[from..from + 8].copy_from_slice(&word.to_be_bytes());
            }
        }
        length
    }
}
