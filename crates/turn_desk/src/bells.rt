//! Where threads sleep until their turn comes.
use std::array;
use std::sync::Wait;
use std::sync::atomic::Ordering::SeqCst;
use std::sync::atomic::{AtomicU32, AtomicU64};

/// The most tickets that are out at once: a desk has at most so many seats, and a seat holds one ticket at most.
const BELLS: usize = 64;

/// A bell for each ticket that is out, at its number modulo 64, so that the end of a turn wakes the two threads whose turns are next and no
/// other. No clause speaks of it.
///
/// No ring is lost. A thread asks what it has `heard` before it looks at the number that is served. Who ends a turn changes that number and
/// rings then. So where a thread saw the number of before, what it heard is of before too, and it does not fall asleep once the bell has rung.
#[derive(Drop)]
pub(crate) struct Bells {
    /// How often each has rung.
    rung: [AtomicU64; BELLS],
    /// How many threads sleep, or are about to.
    sleepers: AtomicU32,
}

impl Bells {
    /// Bells that have not rung.
    pub(crate) fn new() -> Bells {
        Bells {
            rung: array::from_fn(|_| AtomicU64::new(0)),
            sleepers: AtomicU32::new(0),
        }
    }

    /// The bell of a ticket.
    fn of(&self, ticket: u64) -> &AtomicU64 {
        &self.rung[(ticket % BELLS as u64) as usize]
    }

    /// How often the bell of the ticket has rung.
    pub(crate) fn heard(&self, ticket: u64) -> u64 {
        self.of(ticket).load(SeqCst)
    }

    /// Sleeps until the bell of the ticket rings, but not where it has rung since so much was heard, by the low 32 bits.
    pub(crate) fn sleep<T: Wait>(&self, rt: &T, ticket: u64, heard: u64) {
        self.sleepers.fetch_add(1, SeqCst);
        self.of(ticket).park(rt, (heard & 0xffff_ffff) as u32);
        self.sleepers.fetch_sub(1, SeqCst);
    }

    /// Rings the bell of the ticket. The kernel is asked to wake a thread only where one sleeps: a thread counts itself before it
    /// sleeps, and the bell has rung before the count is read, so either it is counted here or it does not fall asleep.
    pub(crate) fn ring(&self, ticket: u64) {
        let bell = self.of(ticket);
        bell.fetch_add(1, SeqCst);
        if self.sleepers.load(SeqCst) > 0 {
            bell.wake_all();
        }
    }
}
