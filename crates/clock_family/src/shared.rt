//! A house is shared by threads, and a pass goes to the thread that takes turns with it.
ghost use Rattle.std.specs.Prelude.{◌≡◌};

use crate::houses::{House, HousePass};
use crate::seats::HouseSeat;
use house_io::Disk;

fn may_move<T: Send>(value: T) -> T
    ensures { result ≡ value }
{
    value
}

fn may_share<T: Sync>(value: &T) -> &T
    ensures { result.now ≡ value.now }
{
    value
}

/// A house is `Send` where its disks are.
pub fn house_may_move<D: Disk + Send>(house: House<D>) -> House<D>
    ensures { result ≡ house }
{
    may_move(house)
}

/// A house is `Sync` where its disks are `Send`: one thread at a time has the book of a clock.
pub fn house_may_be_shared<D: Disk + Send>(house: &House<D>) -> &House<D>
    ensures { result.now ≡ house.now }
{
    may_share(house)
}

/// A pass of a house is `Send` where its disks are.
pub fn pass_may_move<D: Disk + Send>(pass: HousePass<D>) -> HousePass<D>
    ensures { result ≡ pass }
{
    may_move(pass)
}

/// A seat of a house is `Send` where its disks are.
pub fn seat_may_move<'a, D: Disk + Send>(seat: HouseSeat<'a, D>) -> HouseSeat<'a, D>
    ensures { result ≡ seat.entry }
{
    may_move(seat)
}
