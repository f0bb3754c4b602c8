//! `labdesk`: signed laboratory records. What its words ask for is done over the files, the clock, chance, the network and
//! the streams of this machine.
#![tactic(auto)]

mod command_line;
mod copies;
mod laboratories;

use command_line::{UNTOLD, status_of};
use lab_program_files::{Host, Streams};
use lab_program_machine::{
    Console, HostVolume, Machine, Supposed, SystemChance, SystemClock, TerminalProgress,
};
use sqlite::Wary;
use std::io::{self, ErrorKind, Write};
use std::process::ExitCode;

/// What is printed about words that are no text, as clap prints a fault in words; and the status.
const NO_TEXT: &str = "error: invalid UTF-8 was detected in one or more arguments

Usage: labdesk <COMMAND>

For more information, try '--help'.
";

const NO_TEXT_STATUS: u8 = 2;

// Does what the words ask for, over files of which this is supposed, and answers the status.
fn run_on<S: Supposed>(rt: &HostRuntime, words: &[String], start: S) -> u8 {
    let mut host: Host<'_, Machine<'_, S>> = Host {
        alloc: rt.alloc(),
        net: rt,
        volume: HostVolume::new(rt, start),
        clock: SystemClock::new(rt),
        chance: SystemChance::new(rt),
        progress: TerminalProgress::new(rt),
    };
    let mut streams: Streams<Console> = Streams {
        output: rt.stdout(),
        errors: rt.stderr(),
    };
    status_of(&mut host, words, rt.stdin(), &mut streams)
}

// Tells why there are no words, and answers the status.
fn refuse_words(rt: &HostRuntime, error: &io::Error) -> u8 {
    let mut errors = rt.stderr();
    let (text, status) = match error.kind() {
        ErrorKind::InvalidData => (NO_TEXT, NO_TEXT_STATUS),
        _ => ("labdesk: memory\n", UNTOLD),
    };
    let _ = errors.write_all(text.as_bytes());
    status
}

// The words of the command line.
fn words_of(rt: &HostRuntime) -> io::Result<Vec<String>> {
    Ok(std::env::args(rt)?.collect(rt.alloc())?)
}

fn main(rt: HostRuntime) -> ExitCode {
    let status = match words_of(&rt) {
        Ok(words) => run_on(&rt, &words, Wary),
        Err(error) => refuse_words(&rt, &error),
    };
    ExitCode::from(status)
}
