//! Links over sites in memory.
ghost use Rattle.std.specs.Prelude.{◌≡◌, false, IfOk};

use ix_client::ManagerLink;
use ix_memory::MemorySite;
use std::alloc::{AllocError, Global};

/// The expression of the manager: as many actions `a` as are asked for.
const TEXT: &[u8; 2] = b"*a";

/// What a site has room for: each call, and each byte that is sent or written.
const ROOM: usize = 1 << 12;

/// What fails: calls of a link, each behind its step where the pair says true, and calls of its
/// site.
#[derive(Clone, Copy)]
pub(crate) struct Failing<'a> {
    pub(crate) link: &'a [(u64, bool)],
    pub(crate) site: &'a [u64],
}

/// A link over this file on which this fails, where there is memory for it.
pub(crate) fn link_over(alloc: Global, file: Vec<u8>, failing: Failing<'_>) -> Option<ManagerLink> {
    let Ok(fail) = failing.link.to_vec(alloc) else {
        return None;
    };
    let Ok(site) = site_of(alloc, file, failing.site) else {
        return None;
    };
    match ix_parse::read(alloc, TEXT) {
        Ok(_) => ManagerLink::new(alloc, TEXT, 1000, site, fail).ok(),
        Err(_) => None,
    }
}

/// A site with this file, whose calls of these numbers fail.
fn site_of(alloc: Global, file: Vec<u8>, fail: &[u64]) -> Result<MemorySite, AllocError>
    ensures { IfOk result (λ s. s.attached ≡ false) }
{
    let fail = fail.to_vec(alloc)?;
    MemorySite::new(alloc, file, Vec::new(alloc), ROOM, fail, None)
}
