//! Gates, links and doors that raise a flag, and wait for one.
ghost use Rattle.std.specs.Prelude.{None};

use house_io::{Door, Failed, Gate, Link, SureLink};
use std::sync::atomic::AtomicBool;
use std::sync::atomic::Ordering::SeqCst;

/// How often a gate looks for the flag that it waits for, before it gives up.
const LOOKS: u64 = 1_000_000_000;

/// After a welcome of seven bytes and a length in four, this one is the kind of the reply to a report.
const KIND_PLACE: usize = 11;

/// The kind of the reply that a report was taken.
const TAKEN: u8 = 0x13;

/// A gate that raises a flag when it is reached, and waits for another one, if it has one to wait for.
#[derive(Drop)]
pub struct FlagGate<'a> {
    /// Raised when the gate is reached.
    pub reached: &'a AtomicBool,
    /// The flag that the gate waits for, if it waits for one.
    pub awaited: Option<&'a AtomicBool>,
    /// Raised where the wait was given up.
    pub late: &'a AtomicBool,
}

/// Whether the flag is raised within so many looks.
fn is_raised_in_time(flag: &AtomicBool) -> bool {
    for _ in 0..LOOKS {
        if flag.load(SeqCst) {
            return true;
        }
    }
    false
}

impl<'a> Gate for FlagGate<'a> {
    fn reach(&mut self) {
        self.reached.store(true, SeqCst);
        if let Some(flag) = self.awaited {
            if !is_raised_in_time(flag) {
                self.late.store(true, SeqCst);
            }
        }
    }
}

/// A link in memory that raises a flag once the reply that a report was taken is pushed. It tells nothing.
#[derive(Drop)]
pub struct FlagLink<'a> {
    /// What is pulled comes from it, and what is pushed goes to it.
    pub link: SureLink,
    /// How many bytes were pushed.
    pub pushed: usize,
    /// Raised when the reply to the report is pushed and says that it was taken.
    pub taken: &'a AtomicBool,
}

impl<'a> Link for FlagLink<'a> {
    ghost told = { λ _. None };

    ghost faults = { λ _. 0 };

    fn pull(&mut self, into: &mut [u8]) -> Result<usize, Failed> {
        self.link.pull(into)
    }

    fn push(&mut self, from: &[u8]) -> Result<usize, Failed> {
        let result = self.link.push(from);
        if self.pushed <= KIND_PLACE {
            let place = KIND_PLACE - self.pushed;
            if place < from.len() && from[place] == TAKEN {
                self.taken.store(true, SeqCst);
            }
        }
        self.pushed = self.pushed.saturating_add(from.len());
        result
    }
}

/// A door with one such link. It tells nothing.
#[derive(Drop)]
pub struct FlagDoor<'a> {
    /// The link that it has yet to give. None once it was given.
    pub link: Option<FlagLink<'a>>,
    /// How often a link was asked for that was not there.
    pub faults: u64,
}

impl<'a> Door for FlagDoor<'a> {
    type Link = FlagLink<'a>;

    ghost told = { λ _. None };

    ghost faults = { λ door. door.faults };

    fn accept(&mut self) -> Result<FlagLink<'a>, Failed> {
        match self.link.take() {
            Some(link) => Ok(link),
            None => {
                self.faults = self.faults.saturating_add(1);
                Err(Failed)
            }
        }
    }

    fn hang_up(&mut self, _link: FlagLink<'a>) {}
}
