//! Publishes tables of persons: `tda` and its words answer a status and a report.
#![tactic(auto)]

use std::env::Env;
use std::io::ErrorKind;
use std::process::ExitCode;
use std::{env, io};
use tda_io::{DirInbox, DirOutbox};
use tda_tool::tool;

/// Want of memory.
const NO_MEMORY: u8 = 8;

/// There are no words.
const NO_WORDS: u8 = 9;

// The words of the command line, without the program's name.
fn words_of(rt: &(impl Env + AllocGlobal)) -> io::Result<Vec<String>> {
    let mut words = Vec::new(rt.alloc());
    for word in env::args(rt)?.skip(1) {
        words.push(word)?;
    }
    Ok(words)
}

fn main(rt: HostRuntime) -> ExitCode {
    let words = match words_of(&rt) {
        Ok(words) => words,
        Err(error) if error.kind() == ErrorKind::OutOfMemory => return ExitCode::from(NO_MEMORY),
        Err(_) => return ExitCode::from(NO_WORDS),
    };
    let mut inbox = DirInbox::new(&rt);
    let mut outbox = DirOutbox::new(&rt, rt.alloc());
    ExitCode::from(tool(rt.alloc(), &words, &mut inbox, &mut outbox))
}
