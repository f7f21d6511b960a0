//! The program: the words of the command line, the files of the working directory, standard output and the net over TCP, given to the
//! top call. It ends with the top call's status.
#![tactic(auto)]

use advice::advice;
use house_io::{FolderShelf, StdoutSink, TcpNet};
use house_run::{Ended, answer_usage, run};
use std::process::ExitCode;
use std::{env, io};

fn main(rt: HostRuntime) -> ExitCode {
    let mut out = StdoutSink::new(&rt);
    let ended = match words(&rt) {
        Ok(words) => {
            let mut shelf = FolderShelf::new(rt.alloc(), &rt);
            let mut net = TcpNet::new(&rt);
            let ended = run(&rt, rt.alloc(), &words, &mut shelf, &mut out, &mut net);
            if shelf.found_no_disk() {
                // Else a word that is mistyped reads as journals without reports. Where it cannot be said nobody can be told.
                let _unsaid = eprintln!(rt; "no journal was found");
            }
            advise(&rt, &words, &ended);
            ended
        }
        Err(error) if error.kind() == io::ErrorKind::OutOfMemory => {
            advise(&rt, &[], &Ended::NoMemory);
            Ended::NoMemory
        }
        // Words that are not UTF-8 are no command.
        Err(_) => {
            let ended = answer_usage(&mut out);
            advise(&rt, &[], &ended);
            ended
        }
    };
    ExitCode::from(ended.status())
}

/// Says on standard error what the end of a run of these words means, and what to do. Where it cannot be said nobody can be told.
fn advise(rt: &HostRuntime, words: &[String], ended: &Ended) {
    match advice(rt.alloc(), words, ended) {
        Ok(text) if !text.is_empty() => {
            let _unsaid = eprintln!(rt; "{text}");
        }
        _ => {}
    }
}

/// The words of the command line after the program's name.
fn words(rt: &HostRuntime) -> io::Result<Vec<String>> {
    let mut words = Vec::new(rt.alloc());
    for word in env::args(rt)?.skip(1) {
        words.push(word)?;
    }
    Ok(words)
}
