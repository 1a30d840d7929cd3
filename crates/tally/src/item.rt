// An item of a tally: a subspace, how many entries it has, and the newest of their timestamps.
ghost use Rattle.std.specs.Prelude.{◌≡◌, List, ◌∷◌, ℕ, ◌+◌, ◌≤◌, ◌<◌, length, drop};
ghost use Rattle.laws.specs.Lists.{put};
ghost use Rattle.layout.specs.Layout.{records};
ghost use Rattle.data_model.specs.Path.{field};
ghost use Rattle.keys.specs.Encode.{be};
ghost use Rattle.tree.specs.Stored.{contents};
ghost use Rattle.tree.specs.Tree.{Ordered};
ghost use Rattle.tree.specs.declared.stored.KeyOrder.TheVariants.{Spt};
ghost use Rattle.tally.specs.Tally.{item_length, item_bytes, tally_of, later_of};

use data_model::parameters::Subspace;
use tree::by_value::same_subspace;
use tree::bytes::{write_subspace, write_u64};
use tree::stored::{KeyOrder, Tree};

// Where the count and the newest timestamp begin, and the bytes of an item.
const COUNT_AT: usize = 16;

const NEWEST_AT: usize = COUNT_AT + 4;

pub const ITEM: usize = NEWEST_AT + 8;

// Kept (6): the count is of entries that stand in a tree, and is written as a number.
#[derive(Clone, Copy)]
pub struct Item {
    pub subspace: Subspace,
    pub count: usize,
    pub newest: u64,
}

// Writes a number as 4 bytes, big-endian.
fn write_count(n: usize, out: &mut [u8])
    requires { 4 ≤ length out.old }
    ensures { out.new ≡ put (be 4 n) out.old }
{
    out[..4].copy_from_slice(&(n as u64).to_be_bytes()[4..]);
}

// Writes an item at the front of a buffer.
pub fn write_item(item: Item, out: &mut [u8])
    requires { item_length ≤ length out.old }
    ensures { out.new ≡ put (item_bytes item) out.old }
{
    write_subspace(item.subspace, out);
    write_count(item.count, &mut out[COUNT_AT..]);
    write_u64(item.newest, &mut out[NEWEST_AT..]);
}

// The later of two timestamps.
// Kept (4): the must-fail edit older_kept speaks of it.
#[tactic(auto, using(crate::proofs::RunLaws::later_max))]
fn later_of(a: u64, b: u64) -> u64
    ensures { result ≡ later_of a b }
{
    a.max(b)
}

// The item of the entries that stand together from record k of a tree on, read as subspace-first, with one subspace. It is the first item of the tally from there on.
pub fn item_at(tree: Tree, k: usize) -> Item
    requires { (Ordered Spt tree.count tree.dir.now tree.bytes.now) × (k < tree.count) }
    ensures { (1 ≤ result.count) × (k + result.count ≤ tree.entry.count) × ((ns : List ℕ) → tally_of (drop k (contents Spt field ns (records tree.entry.count tree.entry.dir.now tree.entry.bytes.now))) ≡ result ∷ tally_of (drop (k + result.count) (contents Spt field ns (records tree.entry.count tree.entry.dir.now tree.entry.bytes.now)))) }
{
    let spt = Tree {
        order: KeyOrder::Spt,
        count: tree.count,
        dir: tree.dir,
        bytes: tree.bytes,
    };
    let subspace = spt.subspace_at(k);
    let mut newest = spt.time_at(k);
    for end in k + 1..spt.count {
        let next = spt.subspace_at(end);
        if !same_subspace(next, subspace) {
            return Item {
                subspace,
                count: end - k,
                newest,
            };
        }
        newest = later_of(newest, spt.time_at(end));
    }
    Item {
        subspace,
        count: spt.count - k,
        newest,
    }
}
