//! What a stand-in for the outside keeps of the calls that came, and which of them it fails.
use std::alloc::Global;
use std::fmt::Display;
use std::io::{self, ErrorKind};
use std::sync::{Arc, Mutex};

/// The calls that came, in order, and what was said on standard error.
#[derive(Drop)]
pub(crate) struct Notes<C> {
    /// The calls, in order.
    list: Mutex<Vec<C>>,
    /// What was said on standard error.
    said: Mutex<String>,
    /// The calls that fail, by their numbers from 0 on.
    failing: Vec<usize>,
    /// The system's number of the error by which they fail.
    code: i32,
    /// Where the lists take their memory.
    alloc: Global,
}

/// Notes of no calls yet, of which these are to fail by the error of this number.
pub(crate) fn notes_of<C: Drop>(
    alloc: Global,
    failing: &[usize],
    code: i32,
) -> Option<Arc<Notes<C>>> {
    let failing = failing.to_vec(alloc).ok()?;
    let notes = Notes {
        list: Mutex::new(Vec::new(alloc)),
        said: Mutex::new(String::new(alloc)),
        failing,
        code,
        alloc,
    };
    Arc::new(alloc, notes).ok()
}

impl<C: Copy + Drop> Notes<C> {
    /// Notes a call, and fails it where its turn has come.
    pub(crate) fn note(&self, call: C) -> io::Result<()> {
        let Some(mut list) = self.list.try_lock() else {
            return unsupported();
        };
        let number = list.len();
        let _if_room = list.push(call);
        if self.failing.contains(&number) {
            return Err(io::Error::from_raw_os_error(self.code));
        }
        Ok(())
    }

    /// Notes a call that nobody is to make, and fails it.
    pub(crate) fn note_other<T>(&self, call: C) -> io::Result<T> {
        let _is_noted = self.note(call);
        unsupported()
    }

    /// Keeps a line.
    pub(crate) fn say<D: Display + Drop>(&self, value: D) -> io::Result<()> {
        let Some(mut said) = self.said.try_lock() else {
            return unsupported();
        };
        let Ok(line) = format!(in self.alloc; "{value}\n") else {
            return unsupported();
        };
        let _if_room = said.push_str(line.as_str());
        Ok(())
    }

    /// The calls that came.
    pub(crate) fn taken(&self) -> Vec<C> {
        let mut taken = Vec::new(self.alloc);
        if let Some(list) = self.list.try_lock() {
            for call in list.iter() {
                let _if_room = taken.push(*call);
            }
        }
        taken
    }

    /// What was said, each line with its end.
    pub(crate) fn said(&self) -> String {
        let mut taken = String::new(self.alloc);
        if let Some(said) = self.said.try_lock() {
            let _if_room = taken.push_str(said.as_str());
        }
        taken
    }
}

/// How many hold the notes beside him who asks and the stand-in for the outside: the files or the connections that are open.
pub(crate) fn open_ones<C>(notes: &Arc<Notes<C>>) -> usize {
    Arc::strong_count(notes).saturating_sub(2)
}

pub(crate) fn unsupported<T>() -> io::Result<T> {
    Err(ErrorKind::Unsupported.into())
}
