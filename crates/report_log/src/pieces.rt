//! A log that is read piece by piece.
ghost use Rattle.std.specs.Prelude.{◌≡◌, ◌≤◌, ◌<◌, ◌+◌, ◌-◌, ℕ, List, [], ◌++◌, None, Err, length, take, drop, IfOk, OnOk};
ghost use Rattle.house_io.specs.Faults.{HasCause, Rose};
ghost use Rattle.house_io.specs.Told.{IfTold};
ghost use Rattle.house_io.specs.Sources.{Pulls};
ghost use Rattle.lot_base.specs.declared.auction_terms.Terms.{Terms as TermsValue};
ghost use Rattle.report_log.specs.Logs.{AreBytes};
ghost use Rattle.report_log.specs.Pieces.{HasRead};
ghost use Rattle.report_log.specs.Reading.{Gives, ReadsLog};

use crate::entries::{Stop, take_entries};
use clock::Clock;
use house_io::{Failed, Source};
use lot_base::limits::{GREATEST_FILE, GREATEST_PAYLOAD};
use lot_base::{NoMemory, Terms};
use std::alloc::Global;

/// The greatest length of a log.
const LIMIT: u64 = GREATEST_FILE as u64;

/// The most bytes that one pull asks for.
const PIECE: usize = 65_536;

/// Room for the front of an entry, and a piece after it.
const ROOM: usize = 4 + GREATEST_PAYLOAD as usize + PIECE;

/// Why a log gives no clock.
#[derive(Clone, Copy)]
pub enum LogFault {
    /// A pull failed.
    Failed,
    /// The log has more than 67,108,864 bytes.
    TooLong,
    /// The first faulty entry begins after so many bytes.
    Faulty(u64),
    /// Memory ran out.
    NoMemory,
}

/// What was made of the bytes of a log so far.
#[derive(Drop)]
struct LogReader {
    /// The clock of all bidders after the entries that were whole.
    clock: Clock,
    /// Where the first faulty entry begins, if one was found. What follows it is not judged.
    fault: Option<u64>,
}

impl LogReader {
    /// Takes the entries at the front of the bytes, the last of those so far, and answers how many it wants again, with more after them.
    fn take(
        &mut self,
        alloc: Global,
        terms: &Terms,
        bytes: &[u8],
        so_far: u64,
    ) -> Result<usize, NoMemory>
        requires terms { self.old.clock.history.terms ≡ terms.now }
        requires so_far { length bytes.now ≤ so_far }
        ensures terms { OnOk result (self.new.clock.history.terms ≡ terms.now) }
        ensures within { IfOk result (λ left. left ≤ length bytes.now) }
        ensures short { IfOk result (λ left. left < 4 + GREATEST_PAYLOAD) }
        ensures are_bytes { AreBytes bytes.now }
        ensures read { (read rest piece : List ℕ) → bytes.now ≡ rest ++ piece → so_far ≡ length (read ++ piece) →
            HasRead terms.now self.old.clock.history self.old.fault read rest →
            IfOk result (λ left. HasRead terms.now self.new.clock.history self.new.fault (read ++ piece)
            (drop (length bytes.now - left) bytes.now)) }
    {
        match self.fault {
            Some(_) => Ok(0),
            None => match take_entries(alloc, terms, &mut self.clock, bytes) {
                Err(NoMemory) => Err(NoMemory),
                Ok(Stop::Unfinished(left)) => Ok(left),
                Ok(Stop::Faulty(left)) => {
                    self.fault = Some(so_far - left as u64);
                    Ok(0)
                }
            },
        }
    }

    /// The clock of the whole log, of which so many bytes at the end are left.
    fn finish(self, so_far: u64, left: usize) -> Result<Clock, LogFault>
        requires { left ≤ so_far }
        ensures { (terms : TermsValue) (read rest : List ℕ) → so_far ≡ length read → left ≡ length rest →
            HasRead terms self.clock.history self.fault read rest → Gives terms result read }
    {
        match self.fault {
            Some(place) => Err(LogFault::Faulty(place)),
            None => {
                if left > 0 {
                    return Err(LogFault::Faulty(so_far - left as u64));
                }
                Ok(self.clock)
            }
        }
    }
}

/// Pulls at most so many bytes after those that the buffer holds.
fn pull_after<R: Source>(
    source: &mut R,
    buffer: &mut [u8],
    held: usize,
    room: usize,
) -> Result<usize, Failed>
    requires { held + room ≤ length buffer.old }
    ensures within { IfOk result (λ count. count ≤ room) }
    ensures bytes { IfTold (R.left source.old) (R.left source.new) (Pulls result (take room (drop held buffer.new))) }
    ensures kept { take held buffer.new ≡ take held buffer.old }
    ensures cause { HasCause (R.faults source.old) (R.faults source.new) result }
{
    source.pull(&mut buffer[held..held + room])
}

/// Moves the last bytes of the first `end` to the front of the buffer.
fn keep_end(buffer: &mut [u8], end: usize, left: usize)
    requires left { left ≤ end }
    requires end { end ≤ length buffer.old }
    ensures { take left buffer.new ≡ drop (end - left) (take end buffer.old) }
{
    buffer.copy_within(end - left..end, 0);
}

/// The clock of all bidders after the reports of a log, by pulls into this buffer. A log that is too long is answered as soon as
/// one byte more than the limit was taken.
fn read_pieces<R: Source>(
    alloc: Global,
    terms: &Terms,
    source: &mut R,
    clock: Clock,
    buffer: &mut [u8],
) -> Result<Clock, LogFault>
    requires room { length buffer.old ≡ ROOM }
    requires new { clock.history ≡ record { terms = terms.now; number = 0; reports = [] } }
    ensures read { ReadsLog terms.now result (R.left source.old) (R.left source.new) }
    ensures later { R.faults source.old ≤ R.faults source.new }
    ensures failed { result ≡ Err LogFault.Failed → Rose (R.faults source.old) (R.faults source.new) }
    ensures steady { (result ≡ Err LogFault.Failed → ⊥) → R.faults source.new ≡ R.faults source.old }
{
    let mut reader = LogReader { clock, fault: None };
    let mut so_far = 0;
    let mut held = 0;
    'pulls: while so_far <= LIMIT {
        let room = (LIMIT - so_far).min(PIECE as u64 - 1) as usize + 1;
        let count = match pull_after(source, buffer, held, room) {
            Err(Failed) => return Err(LogFault::Failed),
            Ok(0) => return reader.finish(so_far, held),
            Ok(count) => count,
        };
        let end = held + count;
        so_far += count as u64;
        let left = match reader.take(alloc, terms, &buffer[..end], so_far) {
            Err(NoMemory) => return Err(LogFault::NoMemory),
            Ok(left) => left,
        };
        keep_end(buffer, end, left);
        held = left;
    }
    Err(LogFault::TooLong)
}

/// The clock of all bidders after the reports of a log, which is all that is left of the source.
pub fn read_source<R: Source>(
    alloc: Global,
    terms: &Terms,
    source: &mut R,
) -> Result<Clock, LogFault>
    ensures read { ReadsLog terms.now result (R.left source.old) (R.left source.new) }
    ensures later { R.faults source.old ≤ R.faults source.new }
    ensures failed { result ≡ Err LogFault.Failed → Rose (R.faults source.old) (R.faults source.new) }
    ensures steady { (result ≡ Err LogFault.Failed → ⊥) → R.faults source.new ≡ R.faults source.old }
{
    let clock = match Clock::new(alloc, terms, 0) {
        Ok(clock) => clock,
        Err(NoMemory) => return Err(LogFault::NoMemory),
    };
    match vec![in alloc; 0u8; ROOM] {
        Ok(mut buffer) => read_pieces(alloc, terms, source, clock, &mut buffer),
        Err(_) => Err(LogFault::NoMemory),
    }
}
