//! A store of keys in memory, which loses, delays and repeats what is sent to it as it is told to.

ghost use Rattle.std.specs.Prelude.{◌≡◌, ◌<◌, ◌++◌, [], ◌∷◌, ℕ, length, slice_index, get_or};
ghost use Rattle.std.specs.Prelude.{Some, IfOk, OnOk, OnErr};
ghost use Rattle.ix_blocks.specs.Register.{apply, delete_from, put_blocks};
ghost use Rattle.ix_blocks.specs.inside.StoreCalls.{answer_of, TimePasses};
ghost use Rattle.ix_blocks.specs.inside.PlainBlocks.{plain_request};

use crate::{Commit, Head, Keys, Request, Seen, Unanswered};
use std::alloc::{AllocError, Global};

/// What comes to a store.
#[derive(Clone, Copy, Debug, PartialEq, Eq)]
pub enum Arrival {
    /// The transaction of this number, counted from 0 as they were sent. Nothing comes where none
    /// was sent under it yet.
    Sent(usize),
    /// A transaction on other keys.
    Elsewhere,
}

/// What happens in a call: these come, in order; and then the call is answered, or its answer is
/// lost. What a call itself sends comes once more where it is answered.
#[derive(Clone, Copy, Debug)]
pub struct Step<'a> {
    /// What comes first.
    pub comes: &'a [Arrival],
    /// Whether the call is answered.
    pub is_answered: bool,
}

/// The keys of one file in memory, in a store whose revision is 0 at first. Each call takes the
/// next step of a script; behind its end all calls are answered.
#[derive(Drop)]
pub struct MemoryKeys<'a> {
    head: Head,
    revision: u64,
    newest: u64,
    sent: Vec<Request>,
    applied: Vec<usize>,
    script: &'a [Step<'a>],
    calls: usize,
    ghost were_sent: { (place : ℕ) → place < length applied.items
        → slice_index applied.items place < length sent.items },
}

impl<'a> MemoryKeys<'a> {
    ghost use Rattle.ix_blocks.specs.inside.MemoryStore.{asks_nothing, fresh_store, store_of};

    /// No head and no block, and nothing was sent yet.
    pub fn new(alloc: Global, script: &'a [Step<'a>]) -> MemoryKeys<'a>
        ensures { store_of result ≡ fresh_store }
    {
        MemoryKeys {
            head: Head {
                owner: 0,
                sequence: 0,
                length: 0,
            },
            revision: 0,
            newest: 0,
            sent: Vec::new(alloc),
            applied: Vec::new(alloc),
            script,
            calls: 0,
        }
    }

    /// Takes the next step of the script: what comes in it comes. Whether the call is answered.
    fn begin(&mut self) -> bool
        ensures { TimePasses (store_of self.old) (store_of self.new) }
    {
        let step = step_at(self.script, self.calls);
        self.calls = self.calls.saturating_add(1);
        self.all_come(step.comes);
        step.is_answered
    }

    /// These come, in order.
    fn all_come(&mut self, arrivals: &[Arrival])
        ensures { TimePasses (store_of self.old) (store_of self.new) }
    {
        for arrival in arrivals.iter() {
            match *arrival {
                Arrival::Sent(which) => {
                    let _answer = self.come(which);
                }
                Arrival::Elsewhere => self.rise(),
            }
        }
    }

    /// A transaction comes on other keys.
    fn rise(&mut self)
        ensures { TimePasses (store_of self.old) (store_of self.new) }
    {
        if let Some(newest) = self.newest.checked_add(1) {
            self.newest = newest;
        }
    }

    /// The transaction of this number comes, unless none was sent under it yet.
    fn come(&mut self, which: usize) -> Result<Commit, Unanswered>
        ensures within { OnOk result (which < length (store_of self.old).sent) }
        ensures says { IfOk result (λ says. says
            ≡ answer_of (get_or (store_of self.old).sent which asks_nothing)
            (store_of self.old).register) }
        ensures register { OnOk result ((store_of self.new).register
            ≡ apply (get_or (store_of self.old).sent which asks_nothing)
            (store_of self.old).register) }
        ensures sent { (store_of self.new).sent ≡ (store_of self.old).sent }
        ensures err { OnErr result (store_of self.new ≡ store_of self.old) }
    {
        let Some(request) = self.sent.get(which) else {
            return Err(Unanswered);
        };
        if request.guard != self.revision {
            return Ok(Commit::Refused(Seen {
                head: self.head,
                revision: self.revision,
            }));
        }
        let head = request.head;
        let Some(newest) = self.newest.checked_add(1) else {
            return Err(Unanswered);
        };
        let Ok(()) = self.applied.push(which) else {
            return Err(Unanswered);
        };
        self.head = head;
        self.revision = newest;
        self.newest = newest;
        Ok(Commit::Applied(newest))
    }

    /// Sends a transaction, and gives its number.
    fn send(&mut self, request: Request) -> Result<usize, Unanswered>
        ensures number { IfOk result (λ which. which ≡ length (store_of self.old).sent) }
        ensures sent { OnOk result ((store_of self.new).sent
            ≡ (store_of self.old).sent ++ plain_request request ∷ []) }
        ensures register { OnOk result
            ((store_of self.new).register ≡ (store_of self.old).register) }
        ensures err { OnErr result (store_of self.new ≡ store_of self.old) }
    {
        let which = self.sent.len();
        let Ok(()) = self.sent.push(request) else {
            return Err(Unanswered);
        };
        Ok(which)
    }

    /// The bytes of a block as they are now.
    fn read(&self, alloc: Global, number: usize) -> Result<Vec<u8>, AllocError>
        ensures { IfOk result
            (λ bytes. bytes.items ≡ (store_of self.now).register.blocks number) }
    {
        let mut bytes: &[u8] = &[];
        for which in self.applied.iter() {
            if let Some(request) = self.sent.get(*which) {
                bytes = behind(request, number, bytes);
            }
        }
        Vec::from_slice(alloc, bytes)
    }
}

/// The step of this number of a script; behind its end nothing comes, and all is answered.
fn step_at<'a>(script: &'a [Step<'a>], number: usize) -> Step<'a> {
    match script.get(number) {
        Some(step) => *step,
        None => Step {
            comes: &[],
            is_answered: true,
        },
    }
}

/// The bytes of a block behind a transaction, which had these before it.
fn behind<'a>(request: &'a Request, number: usize, before: &'a [u8]) -> &'a [u8]
    ensures { result.now ≡ delete_from
        (put_blocks (λ n. before.now) (plain_request request.now).puts)
        (plain_request request.now).gone_from number }
{
    if let Some(from) = request.gone_from
        && number >= from
    {
        return &[];
    }
    let mut bytes = before;
    for block in request.puts.iter() {
        if block.number == number {
            bytes = &block.bytes;
        }
    }
    bytes
}

impl Keys for MemoryKeys<'_> {
    ghost use Rattle.ix_blocks.specs.inside.MemoryStore.{store_of};

    ghost state = { λ keys. Some (store_of keys) };

    fn look(&mut self) -> Result<Seen, Unanswered> {
        if !self.begin() {
            return Err(Unanswered);
        }
        Ok(Seen {
            head: self.head,
            revision: self.revision,
        })
    }

    fn block(&mut self, alloc: Global, number: usize, at: u64) -> Result<Vec<u8>, Unanswered> {
        if !self.begin() {
            return Err(Unanswered);
        }
        if self.revision != at {
            return Err(Unanswered);
        }
        let Ok(bytes) = self.read(alloc, number) else {
            return Err(Unanswered);
        };
        Ok(bytes)
    }

    fn commit(&mut self, request: Request) -> Result<Commit, Unanswered> {
        let Ok(which) = self.send(request) else {
            return Err(Unanswered);
        };
        if !self.begin() {
            return Err(Unanswered);
        }
        self.come(which)
    }
}
