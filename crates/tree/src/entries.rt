// What is asked of record k about an entry, or a subspace and path, told by its bytes: does it make the entry obsolete, does the entry
// remove it, does it stand there; and the marks of a whole walk: 1 for each record that a test holds of, 0 for the others. And whether the
// very entry is stored.
ghost use Rattle.std.specs.Prelude.{ℕ, ◌≤◌, ◌<◌, ◌^◌, ◌≡◌, true, List, length};
ghost use Rattle.laws.specs.Lists.{put};
ghost use Rattle.laws.specs.Sorted.{any};
ghost use Rattle.layout.specs.Marks.{marks_of};
ghost use Rattle.data_model.specs.Path.{field, Components, legal, components};
ghost use Rattle.data_model.specs.Entry.{entry_of};
ghost use Rattle.data_model.specs.declared.parameters.Subspace.{Subspace};
ghost use Rattle.key_laws.specs.KeyOrder.{Sized};
ghost use Rattle.tree.specs.Stored.{triple_of};
ghost use Rattle.tree.specs.Lent.{stored_in, contents_in, IsReadable, IsFormed, IsOrdered};
ghost use Rattle.tree.specs.Address.{address_key, open_key};
ghost use Rattle.tree.specs.Matching.{outdates, removes, repeats, stands_at};

use crate::address::{END, begins, write_address};
use crate::stored::{Tree, encode_key};
use data_model::answer::Recency;
use data_model::entry::Entry;
use data_model::parameters::Subspace;
use data_model::path::Path;
use keys::encode::KEY_MOST;
use layout::bytes::same;

impl<'a, 'd> Tree<'a, 'd> {
    // Whether record k makes the entry obsolete. `address`: the entry's. The entry is lent, so that a walk copies it for no record.
    fn outdates_at(self, k: usize, e: &Entry, address: &[u8]) -> bool
        requires { (IsReadable self k) × (address.now ≡ address_key e.now.subspace_id (components e.now.path)) × (Sized (triple_of (entry_of e.now))) }
        ensures { result ≡ outdates (entry_of e.now) (stored_in self.entry e.now.namespace_id k) }
    {
        begins(address, self.open_at(k)) && matches!(self.compare_lent(k, e), Recency::Newer)
    }

    // Whether the entry removes record k: where it covers it, and record k is older. `front`: the entry's address without its end.
    fn removes_at(self, k: usize, e: &Entry, front: &[u8]) -> bool
        requires { (IsReadable self k) × (front.now ≡ open_key e.now.subspace_id (components e.now.path)) × (Sized (triple_of (entry_of e.now))) }
        ensures { result ≡ removes (entry_of e.now) (stored_in self.entry e.now.namespace_id k) }
    {
        begins(self.address_at(k), front) && matches!(self.compare_lent(k, e), Recency::Older)
    }

    // Whether record k stands at the subspace and path that the bytes of `address` are of.
    fn stands_at(self, k: usize, address: &[u8]) -> bool
        requires { IsReadable self k }
        ensures { (namespace : List ℕ) (s : Subspace) (p : Components) → s.high < 2 ^ 64 → s.low < 2 ^ 64 → address.now ≡ address_key s p → result ≡ stands_at s p (stored_in self.entry namespace k) }
    {
        same(self.address_at(k), address)
    }

    // Marks what makes an entry obsolete, in a tree of its namespace.
    pub fn mark_outdating(self, e: Entry, marks: &mut [u8])
        requires { (IsFormed self) × (self.count ≤ length marks.old) × (legal field e.path ≡ true) }
        ensures { marks.new ≡ put (marks_of (outdates (entry_of e)) (contents_in self.entry e.namespace_id)) marks.old }
    {
        let mut key = [0u8; KEY_MOST];
        let n = write_address(e.subspace_id, e.path, &mut key);
        let address = &key[..n];
        self.mark_all(marks, |k| self.outdates_at(k, &e, address));
    }

    // Marks what an entry removes, in a tree of its namespace.
    // Kept (2): the walk of both is `mark_all`; the two differ in the bytes and in the test that they hand it.
    pub fn mark_removed(self, e: Entry, marks: &mut [u8])
        requires { (IsFormed self) × (self.count ≤ length marks.old) × (legal field e.path ≡ true) }
        ensures { marks.new ≡ put (marks_of (removes (entry_of e)) (contents_in self.entry e.namespace_id)) marks.old }
    {
        let mut key = [0u8; KEY_MOST];
        let n = write_address(e.subspace_id, e.path, &mut key);
        let front = &key[..n - END];
        self.mark_all(marks, |k| self.removes_at(k, &e, front));
    }

    // Marks what stands at a subspace and path, whatever the tree's namespace.
    pub fn mark_at(self, subspace: Subspace, path: Path, marks: &mut [u8])
        requires { (IsFormed self) × (self.count ≤ length marks.old) × (legal field path ≡ true) }
        ensures { (namespace : List ℕ) → marks.new ≡ put (marks_of (stands_at subspace (components path)) (contents_in self.entry namespace)) marks.old }
    {
        let mut key = [0u8; KEY_MOST];
        let n = write_address(subspace, path, &mut key);
        let address = &key[..n];
        self.mark_all(marks, |k| self.stands_at(k, address));
    }

    // Whether a tree of its namespace has the entry already, whatever the token, the available length and the origin: at its key, and of its rank.
    pub fn has_entry(self, e: Entry) -> bool
        requires { (IsOrdered self) × (legal field e.path ≡ true) }
        ensures { result ≡ any (repeats (entry_of e)) (contents_in self.entry e.namespace_id) }
    {
        let mut key = [0u8; KEY_MOST];
        let n = encode_key(self.order, e.subspace_id, e.path, e.timestamp, &mut key);
        match self.find(&key[..n]) {
            Ok(at) => matches!(self.compare_with(at, e), Recency::Same),
            Err(_) => false,
        }
    }
}
