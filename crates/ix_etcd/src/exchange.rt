//! One request over a stream, and its answer.
ghost use Rattle.std.specs.Prelude.{◌≡◌};

use bytes::BytesMut;
use http1::{BodySize, Client, Event, Header, Limits};
use httparse::spans::EMPTY_HEADER_SPAN;
use std::alloc::{AllocError, AllocFailed, Global};
use std::io;
use std::io::{ErrorKind, Read, Write};

/// No answer came whole, or what came is none. The request may have taken place or not.
#[derive(Clone, Copy, Debug, PartialEq, Eq)]
pub(crate) struct Cut;

impl From<io::Error> for Cut {
    fn from(_: io::Error) -> Self {
        Cut
    }
}

impl From<AllocError> for Cut {
    fn from(_: AllocError) -> Self {
        Cut
    }
}

impl<T: Drop> From<AllocFailed<T>> for Cut {
    fn from(_: AllocFailed<T>) -> Self {
        Cut
    }
}

/// An answer: its status, and its body.
#[derive(Debug, Drop)]
pub(crate) struct Answer {
    pub(crate) status: u16,
    pub(crate) body: Vec<u8>,
}

/// Posts a body, and reads the answer whole.
pub(crate) fn exchange<S: Read + Write>(
    alloc: Global,
    stream: &mut S,
    path: &str,
    body: &str,
) -> Result<Answer, Cut> {
    let mut client = Client::new(Limits::default());
    let mut output = BytesMut::new(alloc);
    let host = Header {
        name: b"Host",
        value: b"etcd",
    };
    let size = BodySize::Known(body.len() as u64);
    let (Ok(()), Ok(()), Ok(())) = (
        client.write_request(&mut output, b"POST", path.as_bytes(), &[host], size),
        client.write_data(&mut output, body.as_bytes()),
        client.write_end(&mut output, &[]),
    ) else {
        return Err(Cut);
    };
    stream.write_all(output.as_slice())?;
    receive(alloc, stream, &mut client)
}

/// Reads an answer whole, in whatever pieces it comes.
fn receive<S: Read>(alloc: Global, stream: &mut S, client: &mut Client) -> Result<Answer, Cut> {
    let mut headers = [EMPTY_HEADER_SPAN; 32];
    let mut input = Vec::new(alloc);
    let mut answer = Answer {
        status: 0,
        body: Vec::new(alloc),
    };
    for _ in 0..u64::MAX {
        let Ok(progress) = client.read(&input, &mut headers) else {
            return Err(Cut);
        };
        match progress.event {
            Event::NeedMore | Event::Informational(_) => {}
            Event::Head(head) => answer.status = head.code,
            Event::Data(span) => answer.body.extend_from_slice(span.of(&input))?,
            Event::End(_) => return Ok(answer),
            _ => return Err(Cut),
        }
        let rest = input.len() - progress.consumed;
        input.copy_within(progress.consumed.., 0);
        input.truncate(rest);
        if progress.event == Event::NeedMore {
            read_more(stream, &mut input)?;
        }
    }
    Err(Cut)
}

/// Reads some bytes more. A read that was interrupted goes on.
fn read_more<S: Read>(stream: &mut S, input: &mut Vec<u8>) -> Result<(), Cut> {
    let mut piece = [0u8; 16384];
    for _ in 0..u64::MAX {
        match stream.read(&mut piece) {
            Ok(0) => return Err(Cut),
            Ok(count) => {
                input.extend_from_slice(&piece[..count])?;
                return Ok(());
            }
            Err(error) if error.kind() == ErrorKind::Interrupted => {}
            Err(_) => return Err(Cut),
        }
    }
    Err(Cut)
}
