//! A run of the program, as the laws of lives speak of it.
ghost use Rattle.command_line.specs.Words.{words_of};
ghost use Rattle.house_lives.specs.Runs.{IsOneDone, IsOneLife, JoinsLives};
ghost use Rattle.house_run.specs.Nets.{net_seen};
ghost use Rattle.house_run.specs.Seen.{outside, sink_seen};

use house_io::{Net, Shelf, Sink};
use house_run::{Ended, run};
use std::alloc::Global;
use std::sync::Wait;
use std::thread::Threads;
use std::time::Clock;

/// Runs the program as its `main` does. Where the words are those of `serve`, and the shelf tells its files, the call is a life of the
/// laws, however it ended. Where lives led to the files with which it began, it is one more of them: so a list of lives is built call by
/// call. Where it is done, whatever the command, it is a run that was done.
pub fn live<T: Threads + Wait + Sync + Clock, H: Shelf, S: Sink, N: Net>(
    rt: &T,
    alloc: Global,
    words: &[String],
    shelf: &mut H,
    out: &mut S,
    net: &mut N,
) -> Ended
    ensures life { IsOneLife (words_of words.now) (outside H.Shelf shelf.old shelf.new) (net_seen N.Net net.old net.new)
        (sink_seen S.Sink out.old out.new) result }
    ensures done { IsOneDone (words_of words.now) (outside H.Shelf shelf.old shelf.new) (net_seen N.Net net.old net.new)
        (sink_seen S.Sink out.old out.new) result }
    ensures joins { JoinsLives (words_of words.now) (outside H.Shelf shelf.old shelf.new) (net_seen N.Net net.old net.new)
        (sink_seen S.Sink out.old out.new) result }
{
    run(rt, alloc, words, shelf, out, net)
}
