//! The keys of one file in etcd.
ghost use Rattle.std.specs.Prelude.{None};

use crate::answers::{read_blocks, read_commit, read_look};
use crate::gateway::{Gateway, Trouble};
use crate::texts::{blocks_text, commit_text, look_text};
use ix_blocks::{Block, Commit, Keys, Request, Seen, Unanswered};
use serde_json::Value;
use std::alloc::{AllocError, Global};
use std::net::{Net, TcpStream};
use std::rt::Clock;

/// The keys of the file of one name: `NAME/head`, and `NAME/block/N` with N in twenty digits.
///
/// A request is sent again until it is answered, for ten seconds. Blocks are read up to 128 in one
/// transaction, which compares the revision of the head, and those that weren't asked for are kept
/// for the calls that ask for them at the same revision. Where the head was put again meanwhile,
/// they are still the blocks as they were when it was at that revision.
#[derive(Drop)]
pub(crate) struct EtcdKeys<'a, R> {
    rt: &'a R,
    alloc: Global,
    gateway: Gateway,
    name: String,
    ahead: Vec<Block>,
    ahead_at: u64,
    trouble: Option<Trouble>,
}

impl<'a, R: Net<Stream = TcpStream> + Clock> EtcdKeys<'a, R> {
    /// Nothing was asked yet.
    pub(crate) fn new(alloc: Global, rt: &'a R, gateway: Gateway, name: String) -> Self {
        EtcdKeys {
            rt,
            alloc,
            gateway,
            name,
            ahead: Vec::new(alloc),
            ahead_at: 0,
            trouble: None,
        }
    }

    /// Why the last request that failed did.
    pub(crate) fn trouble(&self) -> Option<Trouble> {
        self.trouble
    }

    /// Asks until there is an answer. Where there was no memory for its text, nothing is asked.
    fn ask(&mut self, path: &str, text: Result<String, AllocError>) -> Result<Value, Unanswered> {
        let asked = match text {
            Ok(text) => self.gateway.insist(self.rt, path, &text),
            Err(_) => Err(Trouble::Silent),
        };
        match asked {
            Ok(answer) => Ok(answer),
            Err(trouble) => Err(self.fail(trouble)),
        }
    }

    /// A request failed for this reason.
    fn fail(&mut self, trouble: Trouble) -> Unanswered {
        self.trouble = Some(trouble);
        Unanswered
    }

    /// Reads the blocks from this number on.
    fn read_ahead(&mut self, number: usize, at: u64) -> Result<(), Unanswered> {
        self.ahead.clear();
        let text = blocks_text(self.alloc, &self.name, number, at);
        let answer = self.ask("/v3/kv/txn", text)?;
        let Some(blocks) = read_blocks(self.alloc, &answer) else {
            return Err(self.fail(Trouble::Taken));
        };
        self.ahead = blocks;
        self.ahead_at = at;
        Ok(())
    }

    /// Whether this block was read ahead at this revision.
    fn is_ahead(&self, number: usize, at: u64) -> bool {
        self.ahead_at == at && self.ahead.iter().any(|block| block.number == number)
    }
}

impl<R: Net<Stream = TcpStream> + Clock> Keys for EtcdKeys<'_, R> {
    ghost state = { λ _. None };

    fn look(&mut self) -> Result<Seen, Unanswered> {
        let text = look_text(self.alloc, &self.name);
        let answer = self.ask("/v3/kv/range", text)?;
        match read_look(self.alloc, &answer) {
            Some(seen) => Ok(seen),
            None => Err(self.fail(Trouble::Damaged)),
        }
    }

    fn block(&mut self, alloc: Global, number: usize, at: u64) -> Result<Vec<u8>, Unanswered> {
        if !self.is_ahead(number, at) {
            self.read_ahead(number, at)?;
        }
        let mut bytes = Vec::new(alloc);
        if let Some(block) = self.ahead.iter().find(|block| block.number == number) {
            let copied = bytes.extend_from_slice(&block.bytes);
            if copied.is_err() {
                return Err(self.fail(Trouble::Silent));
            }
        }
        Ok(bytes)
    }

    fn commit(&mut self, request: Request) -> Result<Commit, Unanswered> {
        self.ahead.clear();
        let text = commit_text(self.alloc, &self.name, &request);
        let answer = self.ask("/v3/kv/txn", text)?;
        match read_commit(self.alloc, &answer) {
            Some(commit) => Ok(commit),
            None => Err(self.fail(Trouble::Damaged)),
        }
    }
}
