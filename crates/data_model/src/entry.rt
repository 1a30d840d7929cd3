// Entries, and their ranks.
ghost use Rattle.std.specs.Prelude.{◌≡◌};
ghost use Rattle.data_model.specs.Entry.{no_entry, rank_of};

use crate::parameters::Subspace;
use crate::path::Path;

// What decides which of two entries is newer: the first of these that differs.
#[derive(Clone, Copy, PartialEq, Eq, PartialOrd, Ord, Debug)]
pub struct Rank {
    pub timestamp: u64,
    pub payload_digest: [u8; 32],
    pub payload_length: u64,
}

#[repr(C)]
#[derive(Clone, Copy)]
pub struct Entry {
    pub namespace_id: [u8; 16],
    pub subspace_id: Subspace,
    pub path: Path,
    pub timestamp: u64,
    pub payload_length: u64,
    pub payload_digest: [u8; 32],
}

impl Entry {
    // The entry of an answer that shows none: every field 0.
    pub fn zero() -> Entry
        ensures { result ≡ no_entry }
    {
        Entry {
            namespace_id: [0; 16],
            subspace_id: Subspace { high: 0, low: 0 },
            path: Path::new_empty(),
            timestamp: 0,
            payload_length: 0,
            payload_digest: [0; 32],
        }
    }

    // What decides whether this entry is newer than another.
    #[tactic(auto, unfolding(crate::specs::Entry::rank_of))]
    pub fn rank(self) -> Rank
        ensures { result ≡ rank_of self }
    {
        let payload_digest = self.payload_digest;
        Rank {
            timestamp: self.timestamp,
            payload_digest,
            payload_length: self.payload_length,
        }
    }
}
