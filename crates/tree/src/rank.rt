// Which of two records is newer, or of a record and an entry, if any: by timestamp, then digest as bytes, then payload length. A key holds the
// timestamp, and a value the digest behind the length.
ghost use Rattle.std.specs.Prelude.{◌≡◌};
ghost use Rattle.data_model.specs.Entry.{rank_of, by_rank};
ghost use Rattle.data_model.specs.Refusal.{recency_says};
ghost use Rattle.tree.specs.Lent.{record_in, IsReadable};
ghost use Rattle.tree.specs.Address.{rank_at};

use crate::stored::Tree;
use crate::value::{payload_digest, payload_length};
use data_model::answer::Recency;
use data_model::checked::compare_ranks;
use data_model::entry::Entry;

impl<'a, 'd> Tree<'a, 'd> {
    // Whether record j is newer than record k, older or the same.
    pub fn compare_records(self, j: usize, k: usize) -> Recency
        requires { (IsReadable self j) × (IsReadable self k) }
        ensures { recency_says result ≡ by_rank (rank_at self.entry.order (record_in self.entry j)) (rank_at self.entry.order (record_in self.entry k)) }
    {
        let a = self.value_at(j);
        let b = self.value_at(k);
        compare_ranks(
            self.time_at(j),
            payload_digest(a),
            payload_length(a),
            self.time_at(k),
            payload_digest(b),
            payload_length(b),
        )
    }

    // Whether record k is newer than an entry, older or the same.
    pub fn compare_with(self, k: usize, e: Entry) -> Recency
        requires { IsReadable self k }
        ensures { recency_says result ≡ by_rank (rank_at self.entry.order (record_in self.entry k)) (rank_of e) }
    {
        self.compare_lent(k, &e)
    }

    // The same of an entry that is lent, so that a walk copies it for no record.
    pub(crate) fn compare_lent(self, k: usize, e: &Entry) -> Recency
        requires { IsReadable self k }
        ensures { recency_says result ≡ by_rank (rank_at self.entry.order (record_in self.entry k)) (rank_of e.now) }
    {
        let a = self.value_at(k);
        compare_ranks(
            self.time_at(k),
            payload_digest(a),
            payload_length(a),
            e.timestamp,
            &e.payload_digest,
            e.payload_length,
        )
    }
}
