//! Doors, at which links come in.
ghost use Rattle.std.specs.Prelude.{◌≡◌, ◌≤◌, ℕ, Option, IfOk};

use crate::{Failed, Link};

/// Where links come in, and where they are hung up again.
pub trait Door {
    ghost use Rattle.house_io.specs.Faults.{HasCause};
    ghost use Rattle.house_io.specs.Told.{IfTold};
    ghost use Rattle.house_io.specs.Doors.{DoorLinks, Accepts, HangsUp};

    // A thread may own it.
    type Link: Link + Send;

    /// The links to come and those that were hung up, where it tells them.
    ghost told: { Self → Option (DoorLinks Self.Link) };

    /// How often a call on it has failed.
    ghost faults: { Self → ℕ };

    /// Waits for a connection and gives the next link, whose count of faults starts at 0. Where none is to come it fails, or
    /// gives a link without bytes.
    fn accept(&mut self) -> Result<Self::Link, Failed>
        ensures links { IfTold (told self.old) (told self.new) (Accepts Self.Link.Link.told result) }
        ensures fresh { IfOk result (λ link. Self.Link.Link.faults link ≡ 0) }
        ensures cause { HasCause (faults self.old) (faults self.new) result };

    /// Takes a link back, and keeps it where a place is free for it. It takes no memory, and adds nothing to its count.
    fn hang_up(&mut self, link: Self::Link)
        ensures links { IfTold (told self.old) (told self.new) (HangsUp link) }
        ensures faults { faults self.new ≡ faults self.old };
}
