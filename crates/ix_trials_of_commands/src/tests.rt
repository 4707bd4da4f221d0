//! The top call over devices in memory.
ghost use Rattle.std.specs.Prelude.{◌≡◌, false};

use ix_manage::manage;
use ix_memory::{MemoryFiles, MemorySink, MemorySite};
use ix_outside::Site;
use std::alloc::{AllocError, Global};
use std::test::Fail;

mod serves;

// The status of a run, and what it put.
#[derive(Drop)]
struct Ended {
    status: u8,
    bytes: Vec<u8>,
}

// The most bytes that a run puts in a test.
const ROOM: usize = 1 << 20;

// The words of a command line.
fn words_of(alloc: Global, words: &[&str]) -> Result<Vec<String>, Fail> {
    let mut texts = Vec::new(alloc);
    for word in words {
        texts.push(String::from_str(alloc, word)?)?;
    }
    Ok(texts)
}

// The files `expression`, of `a - b`, and `actions`, an empty script.
fn files_of(alloc: Global) -> Result<MemoryFiles, Fail> {
    let mut files = Vec::new(alloc);
    for (name, bytes) in [
        ("expression", b"a - b".as_slice()),
        ("actions", b"".as_slice()),
    ] {
        let file = (String::from_str(alloc, name)?, bytes.to_vec(alloc)?);
        files.push(file).map_err(|_| AllocError)?;
    }
    Ok(MemoryFiles::new(files, Vec::new(alloc)))
}

// Runs `words` over these devices.
fn run_over(
    alloc: Global,
    words: &[String],
    files: &mut MemoryFiles,
    site: &mut MemorySite,
    out: &mut MemorySink,
) -> Result<Ended, Fail>
    requires { site.old.attached ≡ false }
{
    let status = manage(alloc, words, files, site, out);
    Ok(Ended {
        status,
        bytes: out.bytes().to_vec(alloc)?,
    })
}

// Runs `words` over these files and this site.
fn run_with(
    alloc: Global,
    words: &[String],
    files: &mut MemoryFiles,
    site: &mut MemorySite,
) -> Result<Ended, Fail>
    requires { site.old.attached ≡ false }
{
    let mut out = MemorySink::new(alloc, ROOM, Vec::new(alloc))?;
    run_over(alloc, words, files, site, &mut out)
}

// Runs `words` over this site, where the files are those of `files_of`.
fn run_at(alloc: Global, words: &[&str], site: &mut MemorySite) -> Result<Ended, Fail>
    requires { site.old.attached ≡ false }
{
    let words = words_of(alloc, words)?;
    let mut files = files_of(alloc)?;
    run_with(alloc, &words, &mut files, site)
}
