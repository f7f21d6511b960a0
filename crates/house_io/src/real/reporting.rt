//! Faults of the files in a folder, and of connections: each is counted, and said on standard error.
ghost use Rattle.std.specs.Prelude.{◌≡◌, ℕ, Ok, IfOk};
ghost use Rattle.house_io.specs.Faults.{faults_after, raised_by};

use crate::Failed;
use std::alloc::AllocError;
use std::io;
use std::marker::Model;
use std::sync::ArcStr;

/// A call on a file or on the net, as it is said where it fails.
#[derive(Clone, Copy, Debug, PartialEq, Eq)]
pub(crate) enum Call {
    /// A file is opened, or found absent.
    Open,
    /// The length of a file is asked.
    Size,
    /// Bytes of a file are read.
    Read,
    /// A file is opened for writing, made where it is absent, and locked.
    Claim,
    /// Bytes of a file are written.
    Write,
    /// A file's bytes are to be on the disk.
    Sync,
    /// Doors are opened at an address.
    Bind,
    /// An address is dialled.
    Connect,
    /// A door waits for a caller.
    Accept,
}

impl Call {
    fn word(self) -> &'static str {
        match self {
            Call::Open => "open",
            Call::Size => "size",
            Call::Read => "read",
            Call::Claim => "claim",
            Call::Write => "write",
            Call::Sync => "sync",
            Call::Bind => "bind",
            Call::Connect => "connect",
            Call::Accept => "accept",
        }
    }
}

/// Says on standard error that a call on a name has failed. Where that fails too nobody can be told.
pub(crate) fn say<R: Eprint>(rt: &R, name: &str, call: Call, error: &io::Error) {
    let word = call.word();
    let _unsaid = eprintln!(rt; "{name}: {word}: {error}");
}

/// Says on standard error that doors are open at an address.
pub(crate) fn say_open<R: Eprint>(rt: &R, address: &str) {
    let _unsaid = eprintln!(rt; "{address}: doors are open");
}

/// Counts the faults of a file that was opened, or of a connection or a door, and says them, seen as their count.
#[derive(Drop)]
pub(crate) struct Reporter {
    /// The name by which the file was opened, or the address as it was asked for. A door and its links share it.
    name: ArcStr,
    /// How often a call on it has failed, up to the last value of 64 bits.
    faults: u64,
    /// What was said last, where no call has gone well since: the call, and the system's number of its cause.
    said: Option<(Call, Option<i32>)>,
}

impl Model for Reporter {
    ghost Value = { ℕ };

    ghost view = { λ reporter. reporter.faults };
}

impl Reporter {
    /// One for what has this name, on which no call has failed yet.
    pub(crate) fn new(name: ArcStr) -> Reporter
        ensures { result ≡ 0 }
    {
        Reporter {
            name,
            faults: 0,
            said: None,
        }
    }

    /// Another for what has the same name, on which no call has failed yet. It takes no memory.
    pub(crate) fn anew(&self) -> Result<Reporter, AllocError>
        ensures { IfOk result (λ reporter. reporter ≡ 0) }
    {
        Ok(Reporter::new(self.name.clone()?))
    }

    /// How often a call has failed.
    pub(crate) fn faults(&self) -> u64
        ensures { result ≡ self.now }
    {
        self.faults
    }

    /// The name by which the file was opened, or the address.
    pub(crate) fn name(&self) -> &str {
        self.name.as_str()
    }

    /// A call went well: the next fault is said, whatever it is.
    pub(crate) fn went_well(&mut self)
        ensures { self.new ≡ self.old }
    {
        self.said = None;
    }

    /// Counts a call that failed, and says it, unless it said the same last.
    pub(crate) fn failed<R: Eprint>(&mut self, rt: &R, call: Call, error: &io::Error) -> Failed
        ensures { self.new ≡ raised_by self.old 1 }
    {
        let cause = Some((call, error.raw_os_error()));
        if self.said != cause {
            say(rt, self.name.as_str(), call, error);
        }
        self.said = cause;
        self.faults = self.faults.saturating_add(1);
        Failed
    }

    /// The same of a call that has ended, well or not.
    pub(crate) fn ended<R: Eprint, T: Drop>(
        &mut self,
        rt: &R,
        call: Call,
        outcome: io::Result<T>,
    ) -> Result<T, Failed>
        ensures answer { IfOk result (λ value. outcome ≡ Ok value) }
        ensures faults { self.new ≡ faults_after result self.old }
    {
        match outcome {
            Ok(value) => {
                self.went_well();
                Ok(value)
            }
            Err(error) => Err(self.failed(rt, call, &error)),
        }
    }
}
