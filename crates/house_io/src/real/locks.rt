//! The lock on a file that is open.
use std::fs::{File, TryLockError};
use std::io::{self, ErrorKind};

/// A file that can be locked.
pub trait LockFile {
    /// Takes the lock on the whole file for this opening of it, or fails at once where another opening has it. It is let go of where the file
    /// is closed, also by the end of the process.
    fn lock_now(&self) -> io::Result<()>;
}

impl LockFile for File {
    fn lock_now(&self) -> io::Result<()> {
        match self.try_lock() {
            Ok(()) => Ok(()),
            Err(TryLockError::WouldBlock) => Err(io::Error::new(
                ErrorKind::WouldBlock,
                "another program has it",
            )),
            Err(TryLockError::Error(error)) => Err(error),
        }
    }
}
