// The tests that every call on a store begins with: limit, room, well-formedness.
ghost use Rattle.std.specs.Prelude.{◌≡◌, true, ◌<◌, ◌^◌, length, leb};
ghost use Rattle.data_model.specs.Path.{field};
ghost use Rattle.data_model.specs.Refusal.{refused_with};
ghost use Rattle.tree.specs.declared.stored.KeyOrder.TheVariants.{Spt, Tsp};
ghost use Rattle.store.specs.Store.{tree_room, dir_room, tree_of, dir_of, well_formed_trees, well_formed_store};
ghost use Rattle.store.specs.Lent.{lent};
ghost use Rattle.store.specs.Refusal.{limit_ok, roomy, store_refusal};

use crate::state::{LIMIT_MOST, RECORD_MOST, Store};
use data_model::answer::Refusal;
use tree::stored::{KeyOrder, Tree};

// Whether a store may be opened for so many entries.
#[tactic(auto, unfolding(crate::specs::Refusal::limit_ok))]
pub fn limit_ok(limit: usize) -> bool
    ensures { result ≡ limit_ok limit }
{
    (1..=LIMIT_MOST).contains(&limit)
}

// Whether a tree of so many bytes has a limit's room, whatever the limit.
pub fn tree_fits(len: usize, limit: usize) -> bool
    ensures { result ≡ leb (tree_room field limit) len }
{
    limit <= len / RECORD_MOST
}

// Whether a directory of so many numbers has a limit's room, whatever the limit.
pub fn dir_fits(len: usize, limit: usize) -> bool
    ensures { result ≡ leb (dir_room limit) len }
{
    limit <= len / 2
}

// Whether two trees, subspace-first and time-first, are well-formed, hold the same, and no entry of theirs stands at another's place or prunes another.
fn well_formed_trees(namespace: [u8; 16], spt: Tree, tsp: Tree) -> bool
    requires { (spt.order ≡ Spt) × (tsp.order ≡ Tsp) × (tsp.count ≡ spt.count) × (length spt.bytes.now < 2 ^ 32) × (length tsp.bytes.now < 2 ^ 32) }
    ensures { result ≡ well_formed_trees field namespace spt.entry.count spt.entry.bytes.now spt.entry.dir.now tsp.entry.bytes.now tsp.entry.dir.now }
{
    spt.well_formed() && tsp.well_formed() && spt.within(tsp, namespace) && spt.apart()
}

impl<'a, 'b> Store<'a, 'b> {
    // Whether the four buffers have the limit's room.
    #[tactic(auto, unfolding(crate::specs::Refusal::roomy))]
    pub fn is_roomy(self) -> bool
        ensures { result ≡ roomy field self.entry.state.limit (lent self.entry) }
    {
        tree_fits(self.spt.len(), self.state.limit)
            && dir_fits(self.spt_dir.len(), self.state.limit)
            && tree_fits(self.tsp.len(), self.state.limit)
            && dir_fits(self.tsp_dir.len(), self.state.limit)
    }

    // The subspace-first tree, in the limit's room.
    pub fn spt(self) -> Tree<'a, 'b>
        requires { (limit_ok self.state.limit ≡ true) × (roomy field self.state.limit (lent self) ≡ true) }
        ensures { (result.order ≡ Spt) × (result.count ≡ self.entry.state.count) × (result.dir.now ≡ dir_of Spt (lent self.entry)) × (result.bytes.now ≡ tree_of field Spt (lent self.entry)) }
    {
        Tree {
            order: KeyOrder::Spt,
            count: self.state.count,
            dir: &self.spt_dir[..2 * self.state.limit],
            bytes: &self.spt[..RECORD_MOST * self.state.limit],
        }
    }

    // The time-first tree, in the limit's room.
    // Kept (2): the two read other fields of the store.
    pub fn tsp(self) -> Tree<'b, 'b>
        requires { (limit_ok self.state.limit ≡ true) × (roomy field self.state.limit (lent self) ≡ true) }
        ensures { (result.order ≡ Tsp) × (result.count ≡ self.entry.state.count) × (result.dir.now ≡ dir_of Tsp (lent self.entry)) × (result.bytes.now ≡ tree_of field Tsp (lent self.entry)) }
    {
        Tree {
            order: KeyOrder::Tsp,
            count: self.state.count,
            dir: &self.tsp_dir[..2 * self.state.limit],
            bytes: &self.tsp[..RECORD_MOST * self.state.limit],
        }
    }

    // Whether the count is within the limit, both trees are well-formed and hold the same, and no entry stands at another's place or prunes another.
    fn is_well_formed(self) -> bool
        requires { (limit_ok self.state.limit ≡ true) × (roomy field self.state.limit (lent self) ≡ true) }
        ensures { result ≡ well_formed_store field (lent self.entry) }
    {
        self.state.count <= self.state.limit
            && well_formed_trees(self.state.namespace_id, self.spt(), self.tsp())
    }

    // Whether the store is refused, with 1, 2 or 3. `rooms`: the call's other buffers have room too.
    pub fn check(self, rooms: bool) -> Result<(), Refusal>
        ensures { refused_with result ≡ store_refusal field (lent self.entry) rooms }
    {
        if !limit_ok(self.state.limit) {
            return Err(Refusal::BadLimit);
        }
        if !(self.is_roomy() && rooms) {
            return Err(Refusal::ShortBuffer);
        }
        if !self.is_well_formed() {
            return Err(Refusal::NotWellFormed);
        }
        Ok(())
    }
}
