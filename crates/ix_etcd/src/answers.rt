//! What the answers of the gateway say. Numbers stand as texts; a field that is 0, false or empty
//! is left out.

use base64::engine::general_purpose::STANDARD;
use ix_blocks::{Block, Commit, Head, Seen};
use serde_json::Value;
use std::alloc::Global;

/// The head that isn't there.
const NO_HEAD: Seen = Seen {
    head: Head {
        owner: 0,
        sequence: 0,
        length: 0,
    },
    revision: 0,
};

/// A number that stands as a text.
fn number(value: &Value, name: &str) -> Option<u64> {
    value.get(name)?.as_str()?.parse::<u64>().ok()
}

/// Bytes that stand in base64.
fn bytes(alloc: Global, value: &Value, name: &str) -> Option<Vec<u8>> {
    let text = value.get(name)?.as_str()?;
    STANDARD.decode(alloc, text.as_bytes()).ok()
}

/// The head that was looked for. None where the answer, or what stands there, isn't one.
pub(crate) fn read_look(alloc: Global, answer: &Value) -> Option<Seen> {
    answer.get("header")?;
    read_head(alloc, answer)
}

/// The head that a range found: no head where the range is empty.
fn read_head(alloc: Global, range: &Value) -> Option<Seen> {
    let Some(found) = range.get("kvs") else {
        return Some(NO_HEAD);
    };
    let found = found.get(0usize)?;
    let text = String::from_utf8(bytes(alloc, found, "value")?).ok()?;
    let mut words = text.as_str().split(' ');
    let head = Head {
        owner: words.next()?.parse::<u64>().ok()?,
        sequence: words.next()?.parse::<u64>().ok()?,
        length: words.next()?.parse::<u64>().ok()?,
    };
    if words.next().is_some() {
        return None;
    }
    Some(Seen {
        head,
        revision: number(found, "mod_revision")?,
    })
}

/// Whether the comparison of a transaction held.
fn succeeded(answer: &Value) -> bool {
    answer.get("succeeded").and_then(Value::as_bool) == Some(true)
}

/// The range that a transaction asked for first.
fn first_range(answer: &Value) -> Option<&Value> {
    answer.get("responses")?.get(0usize)?.get("response_range")
}

/// What was answered to a transaction that was sent. None where the answer isn't one.
pub(crate) fn read_commit(alloc: Global, answer: &Value) -> Option<Commit> {
    let revision = number(answer.get("header")?, "revision")?;
    if succeeded(answer) {
        return Some(Commit::Applied(revision));
    }
    Some(Commit::Refused(read_head(alloc, first_range(answer)?)?))
}

/// The blocks that were asked for. None where the head was put again, or where the answer, or what
/// stands there, isn't one.
pub(crate) fn read_blocks(alloc: Global, answer: &Value) -> Option<Vec<Block>> {
    if !succeeded(answer) {
        return None;
    }
    let range = first_range(answer)?;
    let mut blocks = Vec::new(alloc);
    if let Some(found) = range.get("kvs") {
        for one in found.as_array()?.iter() {
            blocks.push(read_block(alloc, one)?).ok()?;
        }
    }
    Some(blocks)
}

/// One block with its number. Its value is left out where it has no bytes.
fn read_block(alloc: Global, found: &Value) -> Option<Block> {
    let key = String::from_utf8(bytes(alloc, found, "key")?).ok()?;
    let number = key.as_str().rsplit('/').next()?.parse::<usize>().ok()?;
    let bytes = match found.get("value") {
        Some(_) => bytes(alloc, found, "value")?,
        None => Vec::new(alloc),
    };
    Some(Block { number, bytes })
}
