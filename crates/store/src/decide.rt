// Whether an entry that is not refused with 1 to 6 or 10 is outdated, stored already, prevented from pruning, in a full store, or taken.
ghost use Rattle.std.specs.Prelude.{◌≡◌, true, ℕ, ◌≤◌, length, Ok};
ghost use Rattle.layout.specs.Layout.{records};
ghost use Rattle.data_model.specs.Path.{field, legal};
ghost use Rattle.data_model.specs.Refusal.{said};
ghost use Rattle.data_model.specs.Entry.{entry_of};
ghost use Rattle.tree.specs.Stored.{contents};
ghost use Rattle.tree.specs.Matching.{removes};
ghost use Rattle.tree.specs.Tree.{Ordered};
ghost use Rattle.store.specs.Store.{limit_most};
ghost use Rattle.store.specs.Change.{Marked};
ghost use Rattle.store.specs.Ingest.{place_decided};
ghost use Rattle.store.specs.declared.decide.PlaceDecision.TheVariants as place;

use crate::state::LIMIT_MOST;
use data_model::answer::Refusal;
use data_model::entry::Entry;
use tree::marks::{count_marked, first_marked};
use tree::stored::Tree;

// What is decided of an entry that is not refused: it is outdated by the entry at a place, stored already, or taken with so many removed.
#[derive(Clone, Copy)]
pub enum PlaceDecision {
    Old(usize),
    Already,
    Take(usize),
}

// Whether the entry is refused, outdated, stored already or taken, over a tree of its namespace in its room. If it is taken, what it
// removes is marked.
pub fn decide(
    limit: usize,
    tree: Tree,
    entry: Entry,
    prevent_pruning: bool,
    removed: &mut [u8],
) -> Result<PlaceDecision, Refusal>
    requires { (Ordered tree.order tree.count tree.dir.now tree.bytes.now) × (tree.count ≤ limit_most) × (legal field entry.path ≡ true) × (tree.count ≤ length removed.old) }
    ensures decision { said result ≡ place_decided limit (contents tree.entry.order field entry.namespace_id (records tree.entry.count tree.entry.dir.now tree.entry.bytes.now)) (entry_of entry) prevent_pruning }
    ensures marks { (n : ℕ) → result ≡ Ok (place.Take n) → Marked (removes (entry_of entry)) (contents tree.entry.order field entry.namespace_id (records tree.entry.count tree.entry.dir.now tree.entry.bytes.now)) removed.new }
{
    let count = tree.count;
    let mut marks = [0u8; LIMIT_MOST];
    tree.mark_outdating(entry, &mut marks);
    let k = first_marked(&marks[..count], 0);
    if k < count {
        return Ok(PlaceDecision::Old(k));
    }
    if tree.has_entry(entry) {
        return Ok(PlaceDecision::Already);
    }
    tree.mark_removed(entry, removed);
    let n = count_marked(&removed[..count]);
    if prevent_pruning && 0 < n {
        return Err(Refusal::PruningPrevented);
    }
    if limit <= count - n {
        return Err(Refusal::Full);
    }
    Ok(PlaceDecision::Take(n))
}
