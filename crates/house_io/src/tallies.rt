//! Counts of faults by name.
ghost use Rattle.std.specs.Prelude.{◌≡◌, [], ℕ, List, length, take, OnOk, OnErr, Contains};
ghost use Rattle.house_io.specs.Shelves.{Adds, KeepsNames, with_name};
ghost use Rattle.house_io.specs.Counts.{NamedCount, count_of, names_of};

use crate::named::{Named, place_of};
use std::alloc::{AllocError, Global};
use std::marker::Model;

/// How often the calls on a name failed.
#[derive(Drop)]
pub(crate) struct Tally {
    /// What the calls were on: a name that a shelf was asked to open.
    name: String,
    /// How often they failed, up to the last value of 64 bits.
    faults: u64,
}

/// How often the calls on each of some names failed.
#[derive(Drop)]
pub(crate) struct Tallies {
    /// One for each name, in the order in which they were opened.
    list: Vec<Tally>,
}

impl Model for Tallies {
    ghost use Rattle.std.specs.Prelude.{List};
    ghost use Rattle.house_io.specs.Counts.{NamedCount};

    ghost Value = { List NamedCount };

    ghost use Rattle.house_io.specs.Tallies.{counts_in};

    ghost view = { λ tallies. counts_in tallies.list.items };
}

impl Tallies {
    /// No tallies.
    pub(crate) fn new(alloc: Global) -> Tallies
        ensures { result ≡ [] }
    {
        Tallies {
            list: Vec::new(alloc),
        }
    }

    /// Begins the tally of a name at 0, where it has none.
    pub(crate) fn begin(&mut self, alloc: Global, name: &str) -> Result<(), AllocError>
        ensures counts { (other : List ℕ) → count_of self.new other ≡ count_of self.old other }
        ensures named { OnOk result (Contains (names_of self.new) name.now) }
        ensures names { OnOk result (names_of self.new ≡ with_name name.now (names_of self.old)) }
        ensures kept { KeepsNames (names_of self.old) (names_of self.new) }
        ensures front { take (length self.old) self.new ≡ self.old }
        ensures unchanged { OnErr result (self.new ≡ self.old) }
    {
        if let Some(_) = place_of(&self.list, name) {
            return Ok(());
        }
        let name = String::from_str(alloc, name)?;
        self.list.push(Tally { name, faults: 0 })?;
        Ok(())
    }

    /// How many names have a tally.
    pub(crate) fn len(&self) -> usize
        ensures { result ≡ length self.now }
    {
        self.list.len()
    }

    /// Lets go of the tallies after the first so many.
    pub(crate) fn cut(&mut self, length: usize)
        ensures { self.new ≡ take length self.old }
    {
        self.list.truncate(length);
    }

    /// Adds so many faults to the tally of a name.
    pub(crate) fn raise(&mut self, name: &str, faults: u64)
        requires { Contains (names_of self.old) name.now }
        ensures added { Adds name.now faults (count_of self.old) (count_of self.new) }
        ensures names { names_of self.new ≡ names_of self.old }
        ensures kept { KeepsNames (names_of self.old) (names_of self.new) }
    {
        if let Some(place) = place_of(&self.list, name) {
            let tally = &mut self.list[place];
            tally.faults = tally.faults.saturating_add(faults);
        }
    }
}

impl Named for Tally {
    ghost use Rattle.std.specs.Prelude.{string_bytes};

    ghost name_of = { λ tally. string_bytes tally.name };

    fn name(&self) -> &str {
        &self.name
    }
}
