//! Where the members of etcd are.

use std::alloc::{AllocError, Global};
use std::net::SocketAddr;

/// The members that a text with commas names: each an address with a port, as `127.0.0.1:2379`,
/// with `http://` in front of it or without. None where one of them is anything else: a name would
/// have to be looked up, which may take longer than a request.
pub(crate) fn read_endpoints(
    alloc: Global,
    text: &str,
) -> Result<Option<Vec<SocketAddr>>, AllocError> {
    let mut members = Vec::new(alloc);
    for part in text.split(',') {
        let place = part.strip_prefix("http://").unwrap_or(part);
        let Ok(member) = place.parse::<SocketAddr>() else {
            return Ok(None);
        };
        members.push(member)?;
    }
    Ok(Some(members))
}
