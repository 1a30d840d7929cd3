// A store with its tally: the tests that ingestion and forgetting begin with, and the tally of what they leave.
ghost use Rattle.std.specs.Prelude.{◌≡◌, List, ℕ, ◌≤◌, length, take, leb};
ghost use Rattle.data_model.specs.Path.{field};
ghost use Rattle.data_model.specs.Refusal.{refused_with};
ghost use Rattle.tree.specs.Tree.{Ordered};
ghost use Rattle.tree.specs.declared.stored.KeyOrder.TheVariants.{Spt};
ghost use Rattle.tally.specs.Tally.{tally_room, tally_holding};
ghost use Rattle.store.specs.Store.{limit_most, tree_room, dir_room};
ghost use Rattle.store.specs.Lent.{lent_with};
ghost use Rattle.store.specs.Refusal.{tallied_refusal};
ghost use Rattle.store.specs.Change.{in_tree};

use crate::state::{RECORD_MOST, State, Store};
use data_model::answer::Refusal;
use tally::item::ITEM;
use tally::{tally_is, write_tally};
use tree::stored::{KeyOrder, Tree};

// Whether a tally of so many bytes has a limit's room, whatever the limit.
pub fn tally_fits(len: usize, limit: usize) -> bool
    ensures { result ≡ leb (tally_room limit) len }
{
    limit <= len / ITEM
}

// Whether a store that is lent with its tally is refused, with 1, 2, 3 or 10. `rooms`: the call's other buffers have room too.
pub fn check_tallied(store: Store, tally: &[u8], rooms: bool) -> Result<(), Refusal>
    ensures { refused_with result ≡ tallied_refusal field (lent_with store.entry tally.now) rooms }
{
    store.check(tally_fits(tally.len(), store.state.limit) && rooms)?;
    if !tally_is(store.spt(), &tally[..ITEM * store.state.limit]) {
        return Err(Refusal::WrongTally);
    }
    Ok(())
}

// Writes the tally of a store's subspace-first tree, in the limit's room.
// Kept (5): it is handed the two buffers of a store that was changed, of which no `Store` is made.
pub fn retally(state: State, spt: &[u8], spt_dir: &[u32], tally: &mut [u8])
    requires { (Ordered Spt state.count (take (dir_room state.limit) spt_dir.now) (take (tree_room field state.limit) spt.now)) × (state.count ≤ state.limit) × (state.limit ≤ limit_most) × (tree_room field state.limit ≤ length spt.now) × (dir_room state.limit ≤ length spt_dir.now) × (tally_room state.limit ≤ length tally.old) }
    ensures { (ns : List ℕ) → tally.new ≡ tally_holding state.limit (in_tree Spt ns state.count (take (dir_room state.limit) spt_dir.now) (take (tree_room field state.limit) spt.now)) tally.old }
{
    let tree = Tree {
        order: KeyOrder::Spt,
        count: state.count,
        dir: &spt_dir[..2 * state.limit],
        bytes: &spt[..RECORD_MOST * state.limit],
    };
    write_tally(tree, &mut tally[..ITEM * state.limit]);
}
