//! What an owner of a file in a store of keys knows, and what it learns from an answer.

ghost use Rattle.std.specs.Prelude.{◌≡◌, false, if◌then◌else◌};
ghost use Rattle.ix_blocks.specs.Owners.{learn, owns, ended};

/// What the head of a file says.
#[derive(Clone, Copy, Debug, PartialEq, Eq)]
pub struct Head {
    /// Who put it: the revision that its attach made. 0 if an attach put it.
    pub owner: u64,
    /// The number of that owner's sync. 0 if an attach put it.
    pub sequence: u64,
    /// How many bytes the file has.
    pub length: u64,
}

/// A head, and the revision of the store at which it was put last; 0 if it never was.
#[derive(Clone, Copy, Debug, PartialEq, Eq)]
pub struct Seen {
    /// What it says.
    pub head: Head,
    /// When it was put.
    pub revision: u64,
}

/// What the store answers to a transaction.
#[derive(Clone, Copy, Debug, PartialEq, Eq)]
pub enum Commit {
    /// It was applied, and made this revision.
    Applied(u64),
    /// Its guard isn't the revision at which the head was put last, as it is seen here.
    Refused(Seen),
}

/// What an owner knows: the revision that its attach made, the last that it was told it made, and
/// how many syncs it has sent.
#[derive(Clone, Copy, Debug, PartialEq, Eq)]
pub struct Claim {
    /// The revision of its attach.
    pub owner: u64,
    /// The guard of its next sync.
    pub revision: u64,
    /// How many syncs it has sent.
    pub sequence: u64,
}

impl Claim {
    /// What an owner knows whose attach made this revision.
    pub fn attached(revision: u64) -> Claim
        ensures { result ≡ record { owner = revision; revision = revision; sequence = 0 } }
    {
        Claim {
            owner: revision,
            revision,
            sequence: 0,
        }
    }

    /// Learns from the answer to its last sync whether it was applied. If not, another owner has
    /// attached, or an earlier sync that was given up was applied in its place; the claim stays.
    pub fn learn(&mut self, commit: &Commit) -> bool
        ensures learns { learn self.old commit.now ≡ (if result then owns self.new else ended) }
        ensures stays { result ≡ false → self.new ≡ self.old }
    {
        let revision = match commit {
            Commit::Applied(revision) => *revision,
            Commit::Refused(seen)
                if seen.head.owner == self.owner && seen.head.sequence == self.sequence => {
                seen.revision
            }
            Commit::Refused(_) => return false,
        };
        self.revision = revision;
        true
    }
}
