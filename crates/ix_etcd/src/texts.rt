//! The texts of requests to the gateway. Bytes stand in it in base64, and numbers as texts. A field
//! that it doesn't know it passes over, and takes 0 for one that is missing.

use base64::engine::general_purpose::STANDARD;
use ix_blocks::{Block, Head, Request};
use std::alloc::{AllocError, Global};

/// How many blocks are read at once.
const BLOCKS_AT_ONCE: usize = 128;

/// The key of the head of the file of this name.
fn head_key(alloc: Global, name: &str) -> Result<String, AllocError> {
    let plain = format!(in alloc; "{name}/head")?;
    STANDARD.encode(alloc, plain.as_bytes())
}

/// The key of a block. The keys of blocks are in the order of their numbers.
fn block_key(alloc: Global, name: &str, number: usize) -> Result<String, AllocError> {
    let plain = format!(in alloc; "{name}/block/{number:020}")?;
    STANDARD.encode(alloc, plain.as_bytes())
}

/// The range of the blocks from this number on: to the key behind those of all blocks.
fn blocks_from(alloc: Global, name: &str, number: usize) -> Result<String, AllocError> {
    let key = block_key(alloc, name, number)?;
    let plain = format!(in alloc; "{name}/block0")?;
    let end = STANDARD.encode(alloc, plain.as_bytes())?;
    format!(in alloc; "\"key\":\"{key}\",\"range_end\":\"{end}\"")
}

/// Asks for the head.
pub(crate) fn look_text(alloc: Global, name: &str) -> Result<String, AllocError> {
    let key = head_key(alloc, name)?;
    format!(in alloc; "{{\"key\":\"{key}\"}}")
}

/// The comparison of a transaction: the head was put last at this revision.
fn begin(alloc: Global, name: &str, revision: u64) -> Result<String, AllocError> {
    let key = head_key(alloc, name)?;
    let of_key = format!(in alloc; "\"key\":\"{key}\",\"mod_revision\":\"{revision}\"")?;
    format!(in alloc;
        "{{\"compare\":[{{\"target\":\"MOD\",\"result\":\"EQUAL\",{of_key}}}],\"success\":["
    )
}

/// Asks for the blocks from this number on, if the head was put last at this revision.
pub(crate) fn blocks_text(
    alloc: Global,
    name: &str,
    number: usize,
    revision: u64,
) -> Result<String, AllocError> {
    let mut text = begin(alloc, name, revision)?;
    let range = blocks_from(alloc, name, number)?;
    let item = format!(in alloc;
        "{{\"request_range\":{{{range},\"limit\":\"{BLOCKS_AT_ONCE}\"}}}}]}}"
    )?;
    text.push_str(&item)?;
    Ok(text)
}

/// Sends a transaction, and asks for the head where its guard doesn't fit.
pub(crate) fn commit_text(
    alloc: Global,
    name: &str,
    request: &Request,
) -> Result<String, AllocError> {
    let mut text = begin(alloc, name, request.guard)?;
    put_head(alloc, &mut text, name, &request.head)?;
    for block in request.puts.iter() {
        put_block(alloc, &mut text, name, block)?;
    }
    if let Some(from) = request.gone_from {
        delete_blocks(alloc, &mut text, name, from)?;
    }
    let look = look_text(alloc, name)?;
    let refused = format!(in alloc; "],\"failure\":[{{\"request_range\":{look}}}]}}")?;
    text.push_str(&refused)?;
    Ok(text)
}

/// One put of a transaction.
fn put_item(alloc: Global, key: &str, value: &str) -> Result<String, AllocError> {
    format!(in alloc; "{{\"request_put\":{{\"key\":\"{key}\",\"value\":\"{value}\"}}}}")
}

/// Puts the head in a transaction.
fn put_head(alloc: Global, text: &mut String, name: &str, head: &Head) -> Result<(), AllocError> {
    let key = head_key(alloc, name)?;
    let plain = format!(in alloc; "{} {} {}", head.owner, head.sequence, head.length)?;
    let value = STANDARD.encode(alloc, plain.as_bytes())?;
    let item = put_item(alloc, &key, &value)?;
    text.push_str(&item)
}

/// Puts a block in a transaction.
fn put_block(
    alloc: Global,
    text: &mut String,
    name: &str,
    block: &Block,
) -> Result<(), AllocError> {
    let key = block_key(alloc, name, block.number)?;
    let value = STANDARD.encode(alloc, &block.bytes)?;
    let item = put_item(alloc, &key, &value)?;
    text.push(',')?;
    text.push_str(&item)
}

/// Deletes the blocks from this number on in a transaction.
fn delete_blocks(
    alloc: Global,
    text: &mut String,
    name: &str,
    from: usize,
) -> Result<(), AllocError> {
    let range = blocks_from(alloc, name, from)?;
    let item = format!(in alloc; ",{{\"request_delete_range\":{{{range}}}}}")?;
    text.push_str(&item)
}
