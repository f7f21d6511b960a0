//! The top call.
ghost use Rattle.std.specs.Prelude.{◌≡◌, ℕ, All, List, Some};
ghost use Rattle.house_io.specs.Shelves.{NamedFile};
ghost use Rattle.command_line.specs.Words.{IsPlainWord, words_of};
ghost use Rattle.command_line.specs.CommandView.{command_as};
ghost use Rattle.house_run.specs.Commands.{needs_of};
ghost use Rattle.command_line.specs.Commands.{Command, IsJoined, IsParted, IsReady, Spells};
ghost use Rattle.house_run.specs.Ends.{RunEnds, CommandEnds, NothingFailed, AreGood, IsDoneOrNoMemory, as_seen};
ghost use Rattle.house_run.specs.Nets.{net_seen};
ghost use Rattle.command_line.specs.Positionals.{texts};
ghost use Rattle.house_run.specs.Seen.{outside, sink_seen};

use crate::commands::job;
use crate::delivery::{answer_usage, deliver, deliver_line};
use crate::ends::Ended;
use command_line::{CommandWords, Joined, Parted, join_words, part_words, read_words};
use house_io::{Net, Shelf, Sink};
use lot_base::NoMemory;
use std::alloc::Global;
use std::sync::Wait;
use std::thread::Threads;
use std::time::Clock;

/// Does what the words say, and writes one text: the job's where it was done, else a line that says how it ended, and nothing
/// where memory ran out. The words are those of the command line without the program's name. Each source that was opened is
/// closed again, and each link that was dialled is hung up.
pub fn run<T: Threads + Wait + Sync + Clock, H: Shelf, S: Sink, N: Net>(
    rt: &T,
    alloc: Global,
    words: &[String],
    shelf: &mut H,
    out: &mut S,
    net: &mut N,
) -> Ended
    ensures ends { RunEnds (words_of words.now) (outside H.Shelf shelf.old shelf.new) (net_seen N.Net net.old net.new)
        (sink_seen S.Sink out.old out.new) result }

    // A command over good files is done where no call on them, on the sink or on the net fails and nobody on the net ends it, or memory runs out.
    ensures complete { (command : Command) (files : List NamedFile) → Spells command (words_of words.now)
        → (as_seen command (outside H.Shelf shelf.old shelf.new)).shelf.files ≡ Some files → AreGood (needs_of command) files
        → NothingFailed (needs_of command) files (as_seen command (outside H.Shelf shelf.old shelf.new)) (net_seen N.Net net.old net.new)
        (sink_seen S.Sink out.old out.new) → IsDoneOrNoMemory result }
{
    run_words(rt, alloc, words, shelf, out, net)
}

/// The same, but for what follows where nothing fails.
fn run_words<T: Threads + Wait + Sync + Clock, H: Shelf, S: Sink, N: Net>(
    rt: &T,
    alloc: Global,
    words: &[String],
    shelf: &mut H,
    out: &mut S,
    net: &mut N,
) -> Ended
    ensures { RunEnds (words_of words.now) (outside H.Shelf shelf.old shelf.new) (net_seen N.Net net.old net.new)
        (sink_seen S.Sink out.old out.new) result }
{
    match join_words(alloc, words) {
        Ok(Some(joined)) => run_joined(rt, alloc, &joined, shelf, out, net),
        Ok(None) => answer_usage(out),
        Err(NoMemory) => deliver(out, b"", Ended::NoMemory),
    }
}

/// The same, of words with each option and its value in one.
fn run_joined<T: Threads + Wait + Sync + Clock, H: Shelf, S: Sink, N: Net>(
    rt: &T,
    alloc: Global,
    joined: &Joined,
    shelf: &mut H,
    out: &mut S,
    net: &mut N,
) -> Ended
    requires joined { (words : List (List ℕ)) × IsJoined words joined.now.name.now (words_of joined.now.words.items) }
    ensures { (words : List (List ℕ)) → IsJoined words joined.now.name.now (words_of joined.now.words.items)
        → RunEnds words (outside H.Shelf shelf.old shelf.new) (net_seen N.Net net.old net.new) (sink_seen S.Sink out.old out.new) result }
{
    match part_words(alloc, joined) {
        Ok(parted) => run_parted(rt, alloc, &parted, shelf, out, net),
        Err(_) => deliver(out, b"", Ended::NoMemory),
    }
}

/// The same, of words that were parted.
fn run_parted<T: Threads + Wait + Sync + Clock, H: Shelf, S: Sink, N: Net>(
    rt: &T,
    alloc: Global,
    parted: &Parted,
    shelf: &mut H,
    out: &mut S,
    net: &mut N,
) -> Ended
    requires plain { All (λ word. IsPlainWord word.now) parted.now.plain.items }
    requires some { (words : List (List ℕ)) × IsParted words parted.now.name.now (texts parted.now.plain.items)
        (texts parted.now.options.items) }
    ensures { (words : List (List ℕ)) → IsParted words parted.now.name.now (texts parted.now.plain.items) (texts parted.now.options.items)
        → RunEnds words (outside H.Shelf shelf.old shelf.new) (net_seen N.Net net.old net.new) (sink_seen S.Sink out.old out.new) result }
{
    match read_words(alloc, parted) {
        Ok(Some(command)) => run_command(rt, alloc, &command, shelf, out, net),
        Ok(None) => answer_usage(out),
        Err(NoMemory) => deliver(out, b"", Ended::NoMemory),
    }
}

/// Does the job of a command, and writes its text or the line of its end.
fn run_command<T: Threads + Wait + Sync + Clock, H: Shelf, S: Sink, N: Net>(
    rt: &T,
    alloc: Global,
    command: &CommandWords,
    shelf: &mut H,
    out: &mut S,
    net: &mut N,
) -> Ended
    requires ready { IsReady (command_as command.now) }
    ensures { CommandEnds (command_as command.now) (outside H.Shelf shelf.old shelf.new) (net_seen N.Net net.old net.new)
        (sink_seen S.Sink out.old out.new) result }
{
    match job(rt, alloc, command, shelf, net) {
        Ok(text) => deliver(out, &text, Ended::Done),
        Err(ended) => deliver_line(alloc, out, ended),
    }
}
