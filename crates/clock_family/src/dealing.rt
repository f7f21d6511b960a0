//! How the passes of the desks are dealt out to the passes of a house.
ghost use Rattle.std.specs.Prelude.{◌≡◌, ◌<◌, ◌≤◌, ◌+◌, map, length, IfOk};
ghost use Rattle.std.specs.List.{AllByRecursion};
ghost use Rattle.clock_book.specs.declared.entries.Entry.{Entry};
ghost use Rattle.clock_book.specs.declared.origins.Origin.{Origin};
ghost use Rattle.turn_desk.specs.Passes.{Known};
ghost use Rattle.std.specs.Prelude.{List};
ghost use Rattle.clock_family.specs.Closing.{IsSpare, IsRoomy, IsTray};
ghost use Rattle.clock_family.specs.Houses.{room_in};
ghost use Rattle.clock_family.specs.Opening.{LaidOf};
ghost use Rattle.clock_family.specs.Rows.{dealt, items_of, rows_of, AreDealt};

use crate::closing::Closing;
use crate::house_books::HouseBook;
use crate::houses::HousePass;
use crate::laid::Laid;
use crate::passes::ClockPass;
use house_io::Disk;
use std::alloc::{AllocError, Global};
use std::collections::VecDeque;
use turn_desk::{Desk, Pass};

/// So many empty lists, each with room for so many.
fn reserve_lists<P: Drop>(
    alloc: Global,
    count: usize,
    room: usize,
) -> Result<Vec<Vec<P>>, AllocError>
    ensures count { IfOk result (λ lists. length lists.items ≡ count) }
    ensures spare { IfOk result (λ lists. AllByRecursion (IsSpare room) lists.items) }
{
    let mut lists = Vec::with_capacity(alloc, count)?;
    for made in 0..count {
        let _ = made;
        let list = Vec::with_capacity(alloc, room)?;
        lists.push_reserved(list);
    }
    Ok(lists)
}

/// What opening a house fills.
pub(crate) struct Tray<D: Disk> {
    /// For each pass of the house an empty list, with room for a pass of each desk.
    pub(crate) rows: Vec<Vec<ClockPass<D>>>,
    /// An empty list, with room for a desk of each clock.
    pub(crate) desks: Vec<Desk<HouseBook<D>>>,
    /// An empty list, with room for each pass of the house.
    pub(crate) passes: Vec<HousePass<D>>,
    /// What closing the house takes, which goes to its first pass.
    pub(crate) closing: Closing<D>,
}

/// Takes the memory for a house of so many clocks and passes.
pub(crate) fn reserve<D: Disk>(
    alloc: Global,
    clocks: usize,
    passes: usize,
) -> Result<Tray<D>, AllocError>
    ensures tray { IfOk result (λ t. IsTray t.closing t.rows.items t.desks t.passes) }
    ensures clocks { IfOk result (λ t. t.closing.clocks ≡ clocks) }
    ensures passes { IfOk result (λ t. length t.rows.items ≡ passes) }
{
    let rows = reserve_lists(alloc, passes, clocks)?;
    let lists = reserve_lists(alloc, clocks, passes)?;
    let books = Vec::with_capacity(alloc, clocks)?;
    let closing = Closing {
        room: passes,
        lists,
        books,
    };
    let passes = Vec::with_capacity(alloc, passes)?;
    let desks = Vec::with_capacity(alloc, clocks)?;
    Ok(Tray {
        rows,
        desks,
        passes,
        closing,
    })
}

/// Puts one more pass after each row, in order.
fn deal_column<D: Disk>(
    mut passes: Vec<Pass<HouseBook<D>>>,
    rows: &mut Vec<Vec<ClockPass<D>>>,
    clock: usize,
    clocks: usize,
)
    requires count { length passes.items ≡ length rows.old.items }
    requires clock { clock < clocks }
    requires long { AllByRecursion (λ (r : List (Known Entry Origin)). length r ≡ clock) (items_of rows.old.items) }
    requires room { AllByRecursion (IsRoomy clocks) rows.old.items }
    ensures rows { items_of rows.new.items ≡ dealt (items_of rows.old.items) passes.items }
    ensures room { AllByRecursion (IsRoomy clocks) rows.new.items }
{
    while let Some(pass) = passes.pop() {
        rows[passes.len()].push_reserved(ClockPass::new(pass));
    }
    passes.destroy_empty();
}

/// Deals the passes of all desks out, and gives the desks.
pub(crate) fn deal<D: Disk>(
    laid: Vec<Laid<D>>,
    rows: &mut Vec<Vec<ClockPass<D>>>,
    mut desks: Vec<Desk<HouseBook<D>>>,
) -> Vec<Desk<HouseBook<D>>>
    requires passes { AllByRecursion (λ (l : LaidOf D). length l.passes ≡ length rows.old.items) laid.items }
    requires rows { AllByRecursion (IsSpare (length laid.items)) rows.old.items }
    requires desks { IsSpare (length laid.items) desks }
    ensures desks { result.items ≡ map (λ (l : LaidOf D). l.desk) laid.items }
    ensures dealt { AreDealt laid.items (items_of rows.new.items) }
    ensures count { length rows.new.items ≡ length rows.old.items }
{
    let clocks = laid.len();
    let mut clock = 0;
    let mut laid = VecDeque::from_vec(laid);
    while let Some(stand) = laid.pop_front() {
        let (desk, passes) = stand.into_parts();
        deal_column(passes, rows, clock, clocks);
        desks.push_reserved(desk);
        clock += 1;
    }
    laid.destroy_empty();
    desks
}

/// The passes of a house, of these rows, the first of which closes it.
pub(crate) fn gather<D: Disk>(
    rows: Vec<Vec<ClockPass<D>>>,
    mut passes: Vec<HousePass<D>>,
    closing: Closing<D>,
) -> Vec<HousePass<D>>
    requires some { 0 < length rows.items }
    requires long { AllByRecursion (λ (r : List (Known Entry Origin)). length r ≡ closing.clocks) (items_of rows.items) }
    requires passes { IsSpare (length rows.items) passes }
    requires room { closing.room ≡ length rows.items }
    ensures rows { rows_of result.items ≡ items_of rows.items }
    ensures room { room_in result.items ≡ length rows.items }
{
    for row in rows {
        passes.push_reserved(HousePass {
            passes: row,
            closing: None,
        });
    }
    passes[0].give_closing(closing);
    passes
}
