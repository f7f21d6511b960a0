//! Where the payloads of a journal lie in its file.
ghost use Rattle.std.specs.Prelude.{◌≡◌};

use std::marker::Model;

/// Where a payload lies: its offset in the file, and its length in bytes.
#[derive(Clone, Copy, Debug, PartialEq, Eq)]
pub struct Place {
    /// The offset of its first byte. The gate of its record stands five bytes before.
    pub at: u32,
    /// At most 32,768 in a journal.
    pub length: u32,
}

/// The places of a journal's payloads, in order. Contracts see them as a list.
#[derive(Debug, Drop)]
pub struct Places {
    items: Vec<Place>,
}

impl Model for Places {
    ghost use Rattle.std.specs.Prelude.{List};
    ghost use Rattle.report_journal.specs.declared.places.Place.{Place};

    ghost Value = { List Place };

    ghost view = { λ p. p.items.items };
}

impl Places {
    /// Takes no memory.
    pub fn from_vec(items: Vec<Place>) -> Places
        ensures { result ≡ items.items }
    {
        Places { items }
    }

    /// Takes no memory.
    pub fn into_vec(self) -> Vec<Place>
        ensures { result.items ≡ self }
    {
        let Places { items } = self;
        items
    }

    /// The places as a slice.
    pub fn as_slice(&self) -> &[Place]
        ensures { result.now ≡ self.now }
    {
        &self.items
    }
}
