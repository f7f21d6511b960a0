//! What is given back once a house was served: its doors to the net, and the disks of its books.
ghost use Rattle.std.specs.Prelude.{◌≡◌, ◌≤◌, ◌+◌, List, length, map, true, false, All, vec_len, vec_capacity, IsTrue, IfOk};
ghost use Rattle.std.specs.List.{AllByRecursion};
ghost use Rattle.clock.specs.Reports.{histories};
ghost use Rattle.clock_book.specs.Books.{IsKept};
ghost use Rattle.house_run.specs.GivingBack.{HasTaken, CountsDoors};

use clock::Clock;
use clock_book::ClockBook;
use house_io::{Disk, Net};
use house_serve::{DoorLog, SessionEnd};
use std::collections::VecDeque;

/// Gives doors back to the net, in order.
pub(crate) fn close_doors<N: Net>(net: &mut N, doors: Vec<N::Door>)
    ensures lists { HasTaken N.Net doors.items net.old net.new }
    ensures faults { CountsDoors N.Net N.Door.Door (λ door. door) doors.items net.old net.new }
{
    let mut rest = VecDeque::from_vec(doors);
    while let Some(door) = rest.pop_front() {
        net.close_door(door);
    }
    rest.destroy_empty();
}

/// Gives the doors of these logs back to the net, in order, and keeps how the sessions at each ended.
pub(crate) fn close_logs<N: Net>(
    net: &mut N,
    logs: Vec<DoorLog<N::Door>>,
    ends: &mut Vec<Vec<SessionEnd>>,
)
    requires empty { length ends.old.items ≡ 0 }
    requires room { length logs.items ≤ vec_capacity ends.old }
    ensures lists { HasTaken N.Net (map (λ log. log.door) logs.items) net.old net.new }
    ensures faults { CountsDoors N.Net N.Door.Door (λ log. log.door) logs.items net.old net.new }
    ensures ends { map (λ v. v.items) ends.new.items ≡ map (λ log. log.ends.items) logs.items }
{
    let mut rest = VecDeque::from_vec(logs);
    while let Some(log) = rest.pop_front() {
        let DoorLog {
            door,
            ends: sessions,
            failed: _,
        } = log;
        net.close_door(door);
        ends.push_reserved(sessions);
    }
    rest.destroy_empty();
}

/// Whether a door failed.
pub(crate) fn has_failed<R>(logs: &[DoorLog<R>]) -> bool
    ensures none { result ≡ false → AllByRecursion (λ log. log.failed ≡ false) logs.now }
    ensures some { result ≡ true → AllByRecursion (λ log. log.failed ≡ false) logs.now → ⊥ }
{
    for log in logs {
        if log.failed {
            return true;
        }
    }
    false
}

/// Takes the clocks and the disks out of closed books, in order.
pub(crate) fn take_apart<D: Disk>(
    books: Vec<ClockBook<D>>,
    clocks: &mut Vec<Clock>,
    disks: &mut Vec<D>,
)
    requires empty { (length clocks.old.items ≡ 0) × (length disks.old.items ≡ 0) }
    requires room { (length books.items ≤ vec_capacity clocks.old) × (length books.items ≤ vec_capacity disks.old) }
    ensures clocks { histories clocks.new.items ≡ map (λ book. book.state.clock) books.items }
    ensures disks { disks.new.items ≡ map (λ book. book.disk) books.items }
    ensures kept { AllByRecursion (λ book. IsKept D.shown book) books.items }
{
    let mut rest = VecDeque::from_vec(books);
    while let Some(book) = rest.pop_front() {
        let _kept = book.clock();
        let (clock, disk) = book.into_parts();
        clocks.push_reserved(clock);
        disks.push_reserved(disk);
    }
    rest.destroy_empty();
}
