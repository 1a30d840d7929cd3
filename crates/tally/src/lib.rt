// The tally of a store, in a lent buffer: for each subspace with entries, in ascending order, an item of 28 bytes with their number and the newest of their
// timestamps, and zeros behind. It is worked out from the subspace-first tree, where the entries of a subspace stand together. Of the store's layer: it asks
// for nothing but the tree, and calls the tree's functions.
#![tactic(auto)]

pub mod item;

ghost use Rattle.std.specs.Prelude.{◌≡◌, List, ℕ, ◌≤◌, length};
ghost use Rattle.laws.specs.Prefix.{same_number, same_list};
ghost use Rattle.layout.specs.Layout.{records};
ghost use Rattle.data_model.specs.Path.{field};
ghost use Rattle.tree.specs.Stored.{contents};
ghost use Rattle.tree.specs.Tree.{Ordered};
ghost use Rattle.tree.specs.declared.stored.KeyOrder.TheVariants.{Spt};
ghost use Rattle.tally.specs.Tally.{tally_room, tally_in};

use item::{ITEM, item_at, write_item};
use tree::bytes::zeros;
use tree::stored::Tree;

// Whether a buffer is the tally of a tree, read as subspace-first, whatever the namespace: its items, and zeros behind.
pub fn tally_is(tree: Tree, tally: &[u8]) -> bool
    requires { (Ordered Spt tree.count tree.dir.now tree.bytes.now) × (tally_room tree.count ≤ length tally.now) }
    ensures { (ns : List ℕ) → result ≡ same_list same_number tally.now (tally_in (length tally.now) (contents Spt field ns (records tree.entry.count tree.entry.dir.now tree.entry.bytes.now))) }
{
    let mut k = 0;
    let mut at = 0;
    // Kept (3): each step is as long as a run, which no range or iterator of the library gives.
    while k < tree.count {
        let item = item_at(tree, k);
        let mut bytes = [0u8; ITEM];
        write_item(item, &mut bytes);
        if tally[at..at + ITEM] != bytes[..] {
            return false;
        }
        k += item.count;
        at += ITEM;
    }
    zeros(tally, at)
}

// Writes the tally of a tree, read as subspace-first, whatever the namespace: its items, and zeros behind.
pub fn write_tally(tree: Tree, tally: &mut [u8])
    requires { (Ordered Spt tree.count tree.dir.now tree.bytes.now) × (tally_room tree.count ≤ length tally.old) }
    ensures { (ns : List ℕ) → tally.new ≡ tally_in (length tally.old) (contents Spt field ns (records tree.entry.count tree.entry.dir.now tree.entry.bytes.now)) }
{
    let mut k = 0;
    let mut at = 0;
    // Kept (3): each step is as long as a run, which no range or iterator of the library gives.
    while k < tree.count {
        let item = item_at(tree, k);
        write_item(item, &mut tally[at..]);
        k += item.count;
        at += ITEM;
    }
    tally[at..].fill(0);
}
