//! Nets, on which doors are opened and links are dialled.
ghost use Rattle.std.specs.Prelude.{◌≡◌, ◌≤◌, ◌+◌, ℕ, List, Option, length, IfOk};
ghost use Rattle.std.specs.List.{AllByRecursion};

use crate::{Door, Link, Refusal};
use std::alloc::Global;

/// Where doors are opened and links are dialled. It counts its faults, and adds those of a door or a link that is given back.
pub trait Net {
    ghost use Rattle.house_io.specs.Faults.{raised_by};
    ghost use Rattle.house_io.specs.Told.{IfTold};
    ghost use Rattle.house_io.specs.Doors.{HasPlaces};
    ghost use Rattle.house_io.specs.NetsShown.{NetShown, net_shown};
    ghost use Rattle.house_io.specs.Nets.{NetLists, AsksDoors, Dials, TakesDoor, TakesLink, HasNetCause};

    type Link: Link;

    // A thread may own it.
    type Door: Door + Send;

    /// The doors and links to come, those that were given back, and the addresses that were asked, where it tells them.
    ghost told: { Self → Option (NetLists Self.Door Self.Link) };

    /// How often a call on it, or on what was given back to it, has failed.
    ghost faults: { Self → ℕ };

    /// All of this in one: what it tells, with its doors and links seen as what they tell, and the count.
    ghost shown: { Self → NetShown };

    /// Listens at an address, HOST:PORT, and gives so many doors on it, each with its count of faults at 0. Where too few
    /// are to come it fails, or gives doors without links in place of those that are missing.
    fn doors(
        &mut self,
        alloc: Global,
        address: &str,
        count: u32,
    ) -> Result<Vec<Self::Door>, Refusal>
        ensures lists { IfTold (told self.old) (told self.new) (AsksDoors Self.Door.Door.told address.now count result) }
        ensures count { IfOk result (λ doors. length doors.items ≡ count) }
        ensures places { IfOk result (λ doors. AllByRecursion (λ door. HasPlaces (Self.Door.Door.told door)) doors.items) }
        ensures fresh { IfOk result (λ doors. AllByRecursion (λ door. Self.Door.Door.faults door ≡ 0) doors.items) }
        ensures cause { HasNetCause (faults self.old) (faults self.new) result };

    /// Takes a door back, and keeps it where a place is free for it. It takes no memory.
    fn close_door(&mut self, door: Self::Door)
        ensures lists { IfTold (told self.old) (told self.new) (TakesDoor door) }
        ensures faults { faults self.new ≡ raised_by (faults self.old) (Self.Door.Door.faults door) };

    /// Connects to an address, HOST:PORT, and gives a link whose count of faults starts at 0. Where none is to come it fails,
    /// or gives a link without bytes.
    fn dial(&mut self, alloc: Global, address: &str) -> Result<Self::Link, Refusal>
        ensures lists { IfTold (told self.old) (told self.new) (Dials Self.Link.Link.told address.now result) }
        ensures fresh { IfOk result (λ link. Self.Link.Link.faults link ≡ 0) }
        ensures cause { HasNetCause (faults self.old) (faults self.new) result };

    /// Takes a link back, and keeps it where a place is free for it. It takes no memory.
    fn hang_up(&mut self, link: Self::Link)
        ensures lists { IfTold (told self.old) (told self.new) (TakesLink link) }
        ensures faults { faults self.new ≡ raised_by (faults self.old) (Self.Link.Link.faults link) };

    /// What it shows is what it tells, and its count.
    ghost shows: { (net : Self) → shown net ≡ net_shown told Self.Door.Door.told Self.Door.Link.Link.told Self.Door.Link.Link.faults
        Self.Link.Link.told faults net };
}
