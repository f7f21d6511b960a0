//! Things that were given back, as far as places are free for them.
ghost use Rattle.std.specs.Prelude.{◌≡◌, ◌≤◌, ◌<◌, ◌+◌, ◌-◌, [], ℕ, List, length, max, vec_len, vec_capacity, IfOk, OnOk, OnErr};
ghost use Rattle.house_io.specs.LinkForms.{Placed, Places as KeepsThing};

use lot_base::NoMemory;
use std::alloc::Global;
use std::marker::Model;

/// Things that were given back, seen as their list and the number of places that are free for more.
#[derive(Drop)]
pub(crate) struct Places<T> {
    /// In the order in which they were given back.
    kept: Vec<T>,
    /// How many more may be kept without taking memory. At 0 a thing is dropped.
    free: usize,
}

impl<T> Model for Places<T> {
    ghost Value = { Placed T };

    ghost view = { λ places. record { kept = places.kept.items; free = places.free } };

    ghost invariant = { λ places. vec_len places.kept + places.free ≤ vec_capacity places.kept };
}

impl<T> Places<T> {
    /// No places.
    pub(crate) fn none(alloc: Global) -> Places<T>
        ensures { result ≡ record { kept = []; free = 0 } }
    {
        Places {
            kept: Vec::new(alloc),
            free: 0,
        }
    }

    /// Takes the memory of so many places more.
    pub(crate) fn reserve(&mut self, more: usize) -> Result<(), NoMemory>
        ensures kept { self.new.kept ≡ self.old.kept }
        ensures more { OnOk result (self.new.free ≡ self.old.free + more) }
        ensures unchanged { OnErr result (self.new ≡ self.old) }
    {
        let free = match self.free.checked_add(more) {
            Some(free) => free,
            None => return Err(NoMemory),
        };
        match self.kept.reserve(free) {
            Ok(()) => {
                self.free = free;
                Ok(())
            }
            Err(_) => Err(NoMemory),
        }
    }

    /// Lets go of so many places.
    pub(crate) fn release(&mut self, count: usize)
        requires { count ≤ self.old.free }
        ensures kept { self.new.kept ≡ self.old.kept }
        ensures free { self.new.free ≡ self.old.free - count }
    {
        self.free -= count;
    }

    /// Takes the memory of at least so many places.
    pub(crate) fn ensure(&mut self, count: usize) -> Result<(), NoMemory>
        ensures kept { self.new.kept ≡ self.old.kept }
        ensures free { OnOk result (self.new.free ≡ max self.old.free count) }
        ensures unchanged { OnErr result (self.new ≡ self.old) }
    {
        if count <= self.free {
            return Ok(());
        }
        self.reserve(count - self.free)
    }

    /// The things, in order.
    pub(crate) fn kept(&self) -> &[T]
        ensures { result.now ≡ self.now.kept }
    {
        &self.kept
    }
}

impl<T: Drop> Places<T> {
    /// Keeps a thing where a place is free, and else drops it.
    pub(crate) fn place(&mut self, thing: T)
        ensures { KeepsThing thing self.old self.new }
    {
        if self.free > 0 {
            self.kept.push_reserved(thing);
            self.free -= 1;
        }
    }
}
