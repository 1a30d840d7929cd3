// Where a key stands in a tree, by halving.
ghost use Rattle.std.specs.Prelude.{◌≡◌};
ghost use Rattle.tree.specs.Tree.{place_in, is_found, keys_below, has_key, has_record};
ghost use Rattle.tree.specs.Lent.{records_in, IsSearchable};

use crate::stored::Tree;
use layout::bytes::{less, same};

impl<'a, 'd> Tree<'a, 'd> {
    // How many keys are below a key.
    // Kept (3): the project's rule (no heap): the keys lie in the bytes where the directory says, and no slice of keys is there for `partition_point`.
    fn lower(self, key: &[u8]) -> usize
        requires { IsSearchable self }
        ensures { result ≡ keys_below key.now (records_in self.entry) }
    {
        let mut lo = 0;
        let mut hi = self.count;
        while lo < hi {
            let mid = lo + (hi - lo) / 2;
            if less(self.key_at(mid), key) {
                lo = mid + 1;
            } else {
                hi = mid;
            }
        }
        lo
    }

    // Where a key stands, or else where it would stand: either way as many keys are below it.
    pub fn find(self, key: &[u8]) -> Result<usize, usize>
        requires { IsSearchable self }
        ensures at { place_in result ≡ keys_below key.now (records_in self.entry) }
        ensures found { is_found result ≡ has_key key.now (records_in self.entry) }
    {
        let at = self.lower(key);
        if at < self.count && same(self.key_at(at), key) {
            Ok(at)
        } else {
            Err(at)
        }
    }

    // Whether a record of this key and this value is there.
    pub fn has_record(self, key: &[u8], value: &[u8]) -> bool
        requires { IsSearchable self }
        ensures { result ≡ has_record key.now value.now (records_in self.entry) }
    {
        match self.find(key) {
            Ok(at) => same(self.value_at(at), value),
            Err(_) => false,
        }
    }
}
