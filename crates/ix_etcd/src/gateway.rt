//! Requests to the members of etcd, over one connection that is kept.
ghost use Rattle.std.specs.Prelude.{◌≡◌};
ghost use Rattle.ix_etcd.specs.inside.Status.{status_kind};

use crate::exchange::{Answer, Cut, exchange};
use crate::patience::{Deadline, Timed, pause_time, step_time};
use serde_json::Value;
use std::alloc::Global;
use std::net::{Net, SocketAddr, TcpStream};
use std::rt::Clock;
use std::{io, thread};

/// Why etcd didn't do what it was asked.
#[derive(Clone, Copy, Debug, PartialEq, Eq)]
pub enum Trouble {
    /// No member is named, or one is named by anything but its address.
    Endpoints,
    /// No member answered in time, or there was no memory to ask.
    Silent,
    /// It takes no more: mostly its quota is met.
    Full,
    /// It refuses the request as one that it doesn't understand or allow.
    Refused,
    /// The file isn't one of ours, or a block of it is missing or has another length.
    Damaged,
    /// Another manager has attached the file, or an earlier sync ended without an answer.
    Taken,
}

/// The members, and the connection to one of them. It is kept while that one answers; then the next
/// one is asked.
#[derive(Drop)]
pub(crate) struct Gateway {
    alloc: Global,
    members: Vec<SocketAddr>,
    turn: usize,
    stream: Option<TcpStream>,
}

impl Gateway {
    /// No member was asked yet.
    pub(crate) fn new(alloc: Global, members: Vec<SocketAddr>) -> Gateway {
        Gateway {
            alloc,
            members,
            turn: 0,
            stream: None,
        }
    }

    /// Asks one member after the other until one answers, for ten seconds. An answer that refuses
    /// is one, and isn't asked for again.
    pub(crate) fn insist<R: Net<Stream = TcpStream> + Clock>(
        &mut self,
        rt: &R,
        path: &str,
        body: &str,
    ) -> Result<Value, Trouble> {
        let deadline = Deadline::of_request(rt);
        for tries in 1..u64::MAX {
            if let Ok(answer) = self.ask(rt, deadline, path, body) {
                match judge(self.alloc, &answer) {
                    Judgement::Says(value) => return Ok(value),
                    Judgement::Refuses(trouble) => return Err(trouble),
                    Judgement::AsksElsewhere => {}
                }
            }
            self.move_on();
            if deadline.is_over(rt) {
                break;
            }
            if tries % (self.members.len() as u64).max(1) == 0 {
                thread::sleep(rt, pause_time());
            }
        }
        Err(Trouble::Silent)
    }

    /// Asks the member whose turn it is once. Its connection is kept only where it answers.
    fn ask<R: Net<Stream = TcpStream> + Clock>(
        &mut self,
        rt: &R,
        deadline: Deadline,
        path: &str,
        body: &str,
    ) -> Result<Answer, Cut> {
        let mut stream = match self.stream.take() {
            Some(stream) => stream,
            None => self.connect(rt)?,
        };
        let mut timed = Timed {
            stream: &mut stream,
            clock: rt,
            deadline,
        };
        let answer = exchange(self.alloc, &mut timed, path, body)?;
        self.stream = Some(stream);
        Ok(answer)
    }

    /// The next member has its turn.
    fn move_on(&mut self) {
        self.stream = None;
        self.turn = self.turn.wrapping_add(1);
    }

    /// Connects to the member whose turn it is.
    fn connect<R: Net<Stream = TcpStream>>(&self, rt: &R) -> io::Result<TcpStream> {
        let count = self.members.len().max(1);
        let Some(member) = self.members.get(self.turn % count) else {
            return Err(io::Error::from(io::ErrorKind::NotFound));
        };
        let stream = TcpStream::connect_timeout(rt, member, step_time())?;
        stream.set_nodelay(true)?;
        stream.set_read_timeout(Some(step_time()))?;
        stream.set_write_timeout(Some(step_time()))?;
        Ok(stream)
    }
}

/// What an answer is.
#[derive(Debug, Drop)]
enum Judgement {
    /// It says this.
    Says(Value),
    /// It refuses.
    Refuses(Trouble),
    /// It is of a member that can't answer now, or it is none.
    AsksElsewhere,
}

/// What kind of answer a status is.
#[derive(Clone, Copy, Debug, PartialEq, Eq)]
pub(crate) enum Kind {
    Says,
    Refuses(Trouble),
    AsksElsewhere,
}

/// What this status is: 200 says something; 429 is that nothing more is taken; any other from 400
/// to 499, but 408, refuses the request; all others are of a member that can't answer now.
pub(crate) fn status_kind(status: u16) -> Kind
    ensures { result ≡ status_kind status }
{
    if status == 200 {
        Kind::Says
    } else if status == 429 {
        Kind::Refuses(Trouble::Full)
    } else if status >= 400 && status < 500 && status != 408 {
        Kind::Refuses(Trouble::Refused)
    } else {
        Kind::AsksElsewhere
    }
}

/// What an answer is. One whose text is no JSON is none.
fn judge(alloc: Global, answer: &Answer) -> Judgement {
    match status_kind(answer.status) {
        Kind::Refuses(trouble) => Judgement::Refuses(trouble),
        Kind::AsksElsewhere => Judgement::AsksElsewhere,
        Kind::Says => match read_json(alloc, &answer.body) {
            Some(value) => Judgement::Says(value),
            None => Judgement::AsksElsewhere,
        },
    }
}

/// The value that a text of JSON stands for.
fn read_json(alloc: Global, body: &[u8]) -> Option<Value> {
    let text = std::str::from_utf8(body).ok()?;
    Value::from_str(alloc, text).ok()
}
