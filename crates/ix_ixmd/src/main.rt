//! The program `ixmd`, which serves up to 64 connections at once, with a journal of the disk or in
//! etcd: the words after its name, and the real devices.
//!
//! A journal whose name begins with `etcd:` is kept by etcd under the keys that begin with the rest
//! of the name. The members stand in `ETCDCTL_ENDPOINTS`; it is 127.0.0.1:2379 where that isn't
//! set. Nothing is written to standard error. The program ends with the status of
//! `ix_manage::manage`, or with 9 where there is no memory for the words. Where etcd was asked in
//! vain, a last line of standard output says why.
#![tactic(auto)]

use ix_etcd::{EtcdSite, Trouble};
use ix_manage::manage;
use ix_outside::{Failed, Sink};
use ix_real::{RealFiles, RealSink};
use std::io::ErrorKind;
use std::process::ExitCode;
use std::rt::Env;
use std::{env, io};

/// The member that is asked where none is named.
const MEMBER: &str = "127.0.0.1:2379";

fn main(rt: HostRuntime) -> ExitCode {
    let named = env::var(&rt, "ETCDCTL_ENDPOINTS");
    let members = match &named {
        Ok(named) => named.as_str(),
        Err(_) => MEMBER,
    };
    let mut files = RealFiles::new(&rt);
    let mut site = EtcdSite::new(rt.alloc(), &rt, members);
    let mut out = RealSink::new(&rt);
    let words = match words(&rt) {
        Ok(words) => words,
        Err(error) if error.kind() == ErrorKind::OutOfMemory => {
            return refuse(&mut out, b"refused memory\n", 9);
        }
        // Words that are no text name no command.
        Err(_) => Vec::new(rt.alloc()),
    };
    let status = manage(rt.alloc(), &words, &mut files, &mut site, &mut out);
    match site.trouble() {
        Some(trouble) => refuse(&mut out, line_of(trouble), status),
        None => ExitCode::from(status),
    }
}

/// The words after the program's name.
fn words(rt: &(impl Env + AllocGlobal)) -> io::Result<Vec<String>> {
    let mut words = Vec::new(rt.alloc());
    for word in env::args(rt)?.skip(1) {
        words.push(word)?;
    }
    Ok(words)
}

/// Puts the line that says why the program ends, and gives the status.
fn refuse(out: &mut impl Sink, line: &[u8], status: u8) -> ExitCode {
    match out.put(line) {
        Ok(()) => ExitCode::from(status),
        Err(Failed) => ExitCode::from(10),
    }
}

/// The line that says why etcd was asked in vain.
fn line_of(trouble: Trouble) -> &'static [u8] {
    match trouble {
        Trouble::Endpoints => b"etcd endpoints\n",
        Trouble::Silent => b"etcd silent\n",
        Trouble::Full => b"etcd full\n",
        Trouble::Refused => b"etcd refused\n",
        Trouble::Damaged => b"etcd damaged\n",
        Trouble::Taken => b"etcd taken\n",
    }
}
