//! What a link does while its manager is started again, for runs in which memory is wanted then.
//!
//! Each line of standard input takes memory once. So with `rt try --fail-alloc N --cases`, where
//! the Nth allocation fails, the number of lines says which one that is of those behind them.
#![tactic(auto)]

mod links;

use ix_client::client;
use ix_real::RealSink;
use links::{Failing, link_over};
use std::alloc::{AllocError, Global};
use std::io;

/// How the manager of a link comes to be started again, and what fails for it. An ask of the second
/// client is call 2 of its link, whose reply is call 19 of the site; its confirm is call 3, whose
/// record is written by call 20.
const RUNS: &[(&str, Failing<'static>)] = &[
    (
        "an ask fails in front of its step",
        Failing {
            link: &[(2, false)],
            site: &[],
        },
    ),
    (
        "a confirm fails behind its step",
        Failing {
            link: &[(3, true)],
            site: &[],
        },
    ),
    (
        "the reply to an ask gets lost",
        Failing {
            link: &[],
            site: &[19],
        },
    ),
    (
        "the disk fails at a confirm",
        Failing {
            link: &[],
            site: &[20],
        },
    ),
];

fn main(rt: HostRuntime) -> io::Result<()> {
    for line in rt.lines(rt.alloc()) {
        let _ = line;
    }
    let words = words_of(rt.alloc())?;
    for (way, failing) in RUNS {
        println!(rt; "{way}")?;
        run(&rt, &words, *failing)?;
    }
    Ok(())
}

/// The words of a client that asks for `a`.
fn words_of(alloc: Global) -> Result<Vec<String>, AllocError> {
    let mut words = Vec::new(alloc);
    for word in ["s", "a", "5"] {
        words.push(String::from_str(alloc, word)?)?;
    }
    Ok(words)
}

/// What three clients put over a link on which this fails, what the link tells then, and what a
/// client puts over a new link on its file.
fn run(rt: &(impl Print + AllocGlobal), words: &[String], failing: Failing<'_>) -> io::Result<()> {
    let Some(told) = told_behind(rt, words, failing) else {
        println!(rt; "no link")?;
        return Ok(());
    };
    println!(rt; "manager {}, faults {}", told.has_manager, told.faults)?;
    let has_gone_on = match told.file {
        Some(file) => goes_on(rt, words, file),
        None => false,
    };
    if !has_gone_on {
        println!(rt; "no new link")?;
    }
    Ok(())
}

/// What a link tells behind its clients.
#[derive(Drop)]
struct Told {
    has_manager: bool,
    faults: u64,
    /// What its file holds, where there is memory for it.
    file: Option<Vec<u8>>,
}

/// Three clients, one after the other, over a link on which this fails. What the link tells then;
/// None where there is no link.
fn told_behind(
    rt: &(impl Print + AllocGlobal),
    words: &[String],
    failing: Failing<'_>,
) -> Option<Told> {
    let alloc: Global = rt.alloc();
    match link_over(alloc, Vec::new(alloc), failing) {
        Some(mut link) => {
            for _ in 0..3u8 {
                let _ = client(words, &mut link, &mut RealSink::new(rt));
            }
            Some(Told {
                has_manager: link.has_manager(),
                faults: link.faults(),
                file: link.site().image().to_vec(alloc).ok(),
            })
        }
        None => None,
    }
}

/// A client over a new link on this file, whose number is one above those that the file holds.
/// False where there is no link.
fn goes_on(rt: &(impl Print + AllocGlobal), words: &[String], file: Vec<u8>) -> bool {
    let nothing = Failing {
        link: &[],
        site: &[],
    };
    match link_over(rt.alloc(), file, nothing) {
        Some(mut link) => {
            let _ = client(words, &mut link, &mut RealSink::new(rt));
            true
        }
        None => false,
    }
}
