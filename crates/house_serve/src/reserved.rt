//! The lists by which passes and doors are brought to their booths and back. They are reserved first, so that serving takes none.
ghost use Rattle.std.specs.Prelude.{◌≡◌, ◌≤◌, [], All, map, length, vec_len, vec_capacity, IfOk};
ghost use Rattle.house_serve.specs.Booths.{log_of};

use crate::booths::Booth;
use crate::ends::SessionEnd;
use crate::houses::DoorLog;
use lot_base::NoMemory;
use std::alloc::Global;
use std::collections::VecDeque;

/// Lists that are empty, with room for an element of each door.
pub(crate) struct Reserved<P, R> {
    /// For each door an empty list, with room for the ends of its sessions.
    pub(crate) notes: Vec<Vec<SessionEnd>>,
    /// For the booths, each with a pass and its door.
    pub(crate) booths: Vec<Booth<P, R>>,
    /// For the passes, when they come back from the booths.
    pub(crate) rows: Vec<P>,
    /// For what became of the doors.
    pub(crate) logs: Vec<DoorLog<R>>,
}

/// Reserves the lists for so many doors.
pub(crate) fn reserve<P, R>(
    alloc: Global,
    doors: usize,
    sessions: u32,
) -> Result<Reserved<P, R>, NoMemory>
    ensures notes { IfOk result (λ r. (length r.notes.items ≡ doors)
        × All (λ e. (length e.items ≡ 0) × (vec_len e ≡ 0) × (sessions ≤ vec_capacity e)) r.notes.items) }
    ensures empty { IfOk result (λ r. (r.booths.items ≡ []) × (r.rows.items ≡ []) × (r.logs.items ≡ [])) }
    ensures room { IfOk result (λ r. (vec_capacity r.booths ≡ doors) × (vec_capacity r.rows ≡ doors) × (vec_capacity r.logs ≡ doors)) }
{
    let Ok(notes) = reserve_notes(alloc, doors, sessions) else {
        return Err(NoMemory);
    };
    let Ok(booths) = Vec::with_capacity(alloc, doors) else {
        return Err(NoMemory);
    };
    let Ok(rows) = Vec::with_capacity(alloc, doors) else {
        booths.destroy_empty();
        return Err(NoMemory);
    };
    let Ok(logs) = Vec::with_capacity(alloc, doors) else {
        rows.destroy_empty();
        booths.destroy_empty();
        return Err(NoMemory);
    };
    Ok(Reserved {
        notes,
        booths,
        rows,
        logs,
    })
}

/// For each door an empty list, with room for the ends of so many sessions.
fn reserve_notes(
    alloc: Global,
    doors: usize,
    sessions: u32,
) -> Result<Vec<Vec<SessionEnd>>, NoMemory>
    ensures count { IfOk result (λ notes. length notes.items ≡ doors) }
    ensures each { IfOk result (λ notes. All (λ e. (length e.items ≡ 0) × (vec_len e ≡ 0) × (sessions ≤ vec_capacity e)) notes.items) }
{
    let Ok(mut notes) = Vec::with_capacity(alloc, doors) else {
        return Err(NoMemory);
    };
    for _door in 0..doors {
        let Ok(ends) = Vec::with_capacity(alloc, sessions as usize) else {
            return Err(NoMemory);
        };
        notes.push_reserved(ends);
    }
    Ok(notes)
}

/// Brings each pass and its door to a booth, in order.
pub(crate) fn seat_all<P, R>(
    passes: Vec<P>,
    doors: Vec<R>,
    notes: Vec<Vec<SessionEnd>>,
    booths: Vec<Booth<P, R>>,
) -> Vec<Booth<P, R>>
    requires counts { (length doors.items ≡ length passes.items) × (length notes.items ≡ length passes.items) }
    requires empty { booths.items ≡ [] }
    requires room { length passes.items ≤ vec_capacity booths }
    ensures passes { map (λ c. c.pass) result.items ≡ passes.items }
    ensures doors { map (λ c. c.door) result.items ≡ doors.items }
    ensures notes { map (λ c. c.ends) result.items ≡ notes.items }
{
    let mut passes = VecDeque::from_vec(passes);
    let mut doors = VecDeque::from_vec(doors);
    let mut notes = VecDeque::from_vec(notes);
    let mut booths = booths;
    while let Some(pass) = passes.pop_front() {
        let door = doors.pop_front().unwrap();
        let ends = notes.pop_front().unwrap();
        booths.push_reserved(Booth {
            pass,
            door,
            ends,
            failed: false,
        });
    }
    passes.destroy_empty();
    doors.destroy_empty();
    booths
}

/// Brings the passes back from their booths, and what became of the doors, in order.
pub(crate) fn unseat_all<P, R>(
    booths: Vec<Booth<P, R>>,
    rows: Vec<P>,
    logs: Vec<DoorLog<R>>,
) -> (Vec<P>, Vec<DoorLog<R>>)
    requires empty { (rows.items ≡ []) × (logs.items ≡ []) }
    requires room { (length booths.items ≤ vec_capacity rows) × (length booths.items ≤ vec_capacity logs) }
    ensures passes { result.0.items ≡ map (λ c. c.pass) booths.items }
    ensures logs { result.1.items ≡ map log_of booths.items }
{
    let mut booths = VecDeque::from_vec(booths);
    let mut rows = rows;
    let mut logs = logs;
    while let Some(booth) = booths.pop_front() {
        let Booth {
            pass,
            door,
            ends,
            failed,
        } = booth;
        rows.push_reserved(pass);
        logs.push_reserved(DoorLog { door, ends, failed });
    }
    booths.destroy_empty();
    (rows, logs)
}
