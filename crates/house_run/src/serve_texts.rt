//! The text of a house that was served.
ghost use Rattle.std.specs.Prelude.{◌≡◌, ◌++◌, ◌≤◌, List, length, map, IfOk, OnOk};
ghost use Rattle.clock.specs.Reports.{histories};
ghost use Rattle.outcome_text.specs.Lines.{line, text_of};
ghost use Rattle.house_run.specs.ServeTexts.{door_lines, end_word, serve_text, session_lines, session_words};

use crate::commands::standing::standing_text;
use clock::Clock;
use house_serve::SessionEnd;
use lot_base::NoMemory;
use std::alloc::{AllocError, Global};

/// The text of how each session at each door ended, and of how the clocks stand.
pub(crate) fn serve_text(
    alloc: Global,
    doors: &[Vec<SessionEnd>],
    clocks: &[Clock],
) -> Result<Vec<u8>, NoMemory>
    ensures { IfOk result (λ text. text.items ≡ serve_text (map (λ ends. ends.items) doors.now) (histories clocks.now)) }
{
    let mut text = Vec::new(alloc);
    write_doors(alloc, &mut text, doors)?;
    let standings = standing_text(alloc, clocks)?;
    text.extend_from_slice(&standings)?;
    Ok(text)
}

/// Writes the lines of each door.
fn write_doors(
    alloc: Global,
    text: &mut Vec<u8>,
    doors: &[Vec<SessionEnd>],
) -> Result<(), AllocError>
    ensures { OnOk result (text.new.items ≡ text.old.items ++ text_of (door_lines 0 (map (λ ends. ends.items) doors.now))) }
{
    for (door, ends) in doors.iter().enumerate() {
        write_sessions(alloc, text, door, ends)?;
    }
    Ok(())
}

/// Writes the line of each session at a door.
fn write_sessions(
    alloc: Global,
    text: &mut Vec<u8>,
    door: usize,
    ends: &[SessionEnd],
) -> Result<(), AllocError>
    ensures { OnOk result (text.new.items ≡ text.old.items ++ text_of (session_lines door 1 ends.now)) }
{
    for (before, end) in ends.iter().enumerate() {
        let line = session_line(alloc, door, before + 1, end)?;
        text.extend_from_slice(&line)?;
    }
    Ok(())
}

/// The line of a session.
fn session_line(
    alloc: Global,
    door: usize,
    session: usize,
    end: &SessionEnd,
) -> Result<Vec<u8>, AllocError>
    ensures { IfOk result (λ text. text.items ≡ line (session_words door session end.now)) }
{
    let word = end_word(end);
    let text = format!(in alloc; "door {door} session {session} {word}\n")?;
    Ok(text.into_bytes())
}

/// How a session ended, in a word.
fn end_word(end: &SessionEnd) -> &'static str
    ensures { result.now ≡ end_word end.now }
{
    match end {
        SessionEnd::Quit => "quit",
        SessionEnd::Closed { .. } => "closed",
        SessionEnd::BadToken => "bad-token",
        SessionEnd::Wire(_) => "wire",
        SessionEnd::LinkFault => "link-fault",
        SessionEnd::Spent => "spent",
        SessionEnd::NoMemory => "no-memory",
    }
}
