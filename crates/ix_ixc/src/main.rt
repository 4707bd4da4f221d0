//! The program `ixc`: the words after its name, the real link, and standard output.
//!
//! Nothing is written to standard error. The program ends with the status of `ix_client::client`,
//! or with 9 where there is no memory for the words.
#![tactic(auto)]

mod link;

use ix_client::client;
use ix_outside::{Failed, Sink};
use ix_real::RealSink;
use link::RealLink;
use std::io::ErrorKind;
use std::process::ExitCode;
use std::rt::Env;
use std::{env, io};

fn main(rt: HostRuntime) -> ExitCode {
    let mut out = RealSink::new(&rt);
    match read_words(&rt) {
        Ok(words) => {
            let socket = words.first().map_or("", |word| word.as_str());
            let mut link = RealLink::new(&rt, socket);
            ExitCode::from(client(&words, &mut link, &mut out))
        }
        Err(error) if error.kind() == ErrorKind::OutOfMemory => {
            end(&mut out, b"refused memory\n", 9)
        }
        // Words that are no text. They aren't taken for no words, which would end with 0.
        Err(_) => end(&mut out, b"refused words\n", 2),
    }
}

/// The words after the program's name.
fn read_words(rt: &(impl Env + AllocGlobal)) -> io::Result<Vec<String>> {
    let mut words = Vec::new(rt.alloc());
    for word in env::args(rt)?.skip(1) {
        words.push(word)?;
    }
    Ok(words)
}

/// Puts the line, and gives the status, or 10 where that failed.
fn end(out: &mut impl Sink, line: &[u8], status: u8) -> ExitCode {
    match out.put(line) {
        Ok(()) => ExitCode::from(status),
        Err(Failed) => ExitCode::from(10),
    }
}
