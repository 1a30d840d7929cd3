// The address of a record: the bytes of its subspace and path, which stand in one piece in both keys. Without its end it is open, and
// begins the addresses of all that the entry covers.
ghost use Rattle.std.specs.Prelude.{◌≡◌, true, false, ◌-◌, ◌≤◌, length, take, drop};
ghost use Rattle.laws.specs.Prefix.{same_number, prefix_of};
ghost use Rattle.data_model.specs.Path.{field, legal, components};
ghost use Rattle.keys.specs.Encode.{path_key, key_most};
ghost use Rattle.tree.specs.Lent.{record_in, IsReadable};
ghost use Rattle.tree.specs.Address.{address_key, triple_at, address_at, open_at};

use crate::stored::{KeyOrder, Tree, encode_key};
use data_model::parameters::Subspace;
use data_model::path::Path;
use keys::number::read_u64;
use layout::bytes::same;

// The bytes of a subspace, of a path's end, and of a timestamp.
pub const SUBSPACE: usize = 16;

pub const END: usize = 2;

const TIME: usize = 8;

impl<'a, 'd> Tree<'a, 'd> {
    // The address of record k, as a part of the tree.
    pub fn address_at(self, k: usize) -> &'a [u8]
        requires { IsReadable self k }
        ensures { result.now ≡ address_at self.entry.order (record_in self.entry k) }
    {
        let key = self.key_at(k);
        match self.order {
            KeyOrder::Spt => &key[..key.len() - TIME],
            KeyOrder::Tsp => &key[TIME..],
        }
    }

    // The open address of record k: without the end of its path.
    pub fn open_at(self, k: usize) -> &'a [u8]
        requires { IsReadable self k }
        ensures { result.now ≡ open_at self.entry.order (record_in self.entry k) }
    {
        let address = self.address_at(k);
        &address[..address.len() - END]
    }

    // The subspace of record k, read off its address.
    pub fn subspace_at(self, k: usize) -> Subspace
        requires { IsReadable self k }
        ensures { result ≡ (triple_at self.entry.order (record_in self.entry k)).subspace }
    {
        let address = self.address_at(k);
        Subspace {
            high: read_u64(address),
            low: read_u64(&address[8..]),
        }
    }

    // The bytes of record k's path, with their end.
    pub fn path_at(self, k: usize) -> &'a [u8]
        requires { IsReadable self k }
        ensures { result.now ≡ path_key (triple_at self.entry.order (record_in self.entry k)).path }
    {
        &self.address_at(k)[SUBSPACE..]
    }

    // The timestamp of record k.
    pub fn time_at(self, k: usize) -> u64
        requires { IsReadable self k }
        ensures { result ≡ (triple_at self.entry.order (record_in self.entry k)).timestamp }
    {
        let key = self.key_at(k);
        match self.order {
            KeyOrder::Spt => read_u64(&key[key.len() - TIME..]),
            KeyOrder::Tsp => read_u64(key),
        }
    }
}

// Addresses differ mostly in the last byte of the last component, which stands before its end: a difference there tells at once.
fn alike_near_end(address: &[u8], front: &[u8]) -> bool
    requires { length front.now ≤ length address.now }
    ensures { result ≡ false → prefix_of same_number front.now address.now ≡ false }
{
    let n = front.len();
    n < 3 || address[n - 3] == front[n - 3]
}

// Whether an address begins with these bytes.
pub fn begins(address: &[u8], front: &[u8]) -> bool
    ensures { result ≡ prefix_of same_number front.now address.now }
{
    let n = front.len();
    if address.len() < n {
        return false;
    }
    alike_near_end(address, front) && same(front, &address[..n])
}

// Writes an address at the front of the buffer, which has room for a key, and answers how many bytes.
pub fn write_address(subspace: Subspace, path: Path, out: &mut [u8]) -> usize
    requires { (legal field path ≡ true) × (key_most field ≤ length out.old) }
    ensures { (2 ≤ result) × (result ≤ key_most field) × (take result out.new ≡ address_key subspace (components path)) }
{
    encode_key(KeyOrder::Spt, subspace, path, 0, out) - TIME
}

// Writes the bytes of a path from `SUBSPACE` on, and answers where they end.
pub fn write_path(path: Path, out: &mut [u8]) -> usize
    requires { (legal field path ≡ true) × (key_most field ≤ length out.old) }
    ensures { (18 ≤ result) × (result ≤ key_most field) × (take (result - 16) (drop 16 out.new) ≡ path_key (components path)) }
{
    write_address(Subspace { high: 0, low: 0 }, path, out)
}
