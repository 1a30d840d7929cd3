// Changes of one tree of a store, in its room: what an entry removes goes and it is filed; or what is marked goes.
// Kept (5): a clause of a function of this file could name what a struct of `&mut` leaves only by the numbers of its parts, as `t.exit.1.0.now`.
ghost use Rattle.std.specs.Prelude.{◌≡◌, true, not, List, ℕ, ◌≤◌, length, is_some, unwrap_or};
ghost use Rattle.laws.specs.Lists.{put};
ghost use Rattle.layout.specs.Marks.{marks_of};
ghost use Rattle.laws.specs.Sorted.{keep};
ghost use Rattle.data_model.specs.Path.{field, legal};
ghost use Rattle.data_model.specs.Entry.{entry_of};
ghost use Rattle.tree.specs.Stored.{Lawful, stored_of};
ghost use Rattle.tree.specs.Tree.{Formed, Whole};
ghost use Rattle.tree.specs.Matching.{removes, is_forgotten};
ghost use Rattle.store.specs.Store.{limit_most};
ghost use Rattle.store.specs.Ingest.{filed_in};
ghost use Rattle.store.specs.Change.{in_tree, Marked, Changed, FilesIn, forgets, LegalPaths};

use crate::state::{LIMIT_MOST, RECORD_MOST};
use data_model::area::Area;
use data_model::parameters::Subspace;
use data_model::path::Path;
use tree::by_value::no_flags;
use tree::edit::{insert_at, retain};
use tree::marks::unmark;
use tree::stored::{KeyOrder, LengthyAuthorisedEntry, Tree, encode_record};
use tree::value::VALUE;

// Files an entry in one tree of its namespace whose marks of what the entry removes are given: takes that out, puts its record in at its key's
// place, and answers the new count. What was handed in is then `Lawful`: its record stands there as bytes.
pub fn file_marked(
    order: KeyOrder,
    count: usize,
    tree: &mut [u8],
    dir: &mut [u32],
    a: LengthyAuthorisedEntry,
    removed: &[u8],
) -> usize
    requires { (FilesIn order a.entry.namespace_id count dir.old tree.old a) × (Marked (removes (entry_of a.entry)) (in_tree order a.entry.namespace_id count dir.old tree.old) removed.now) × (count ≤ length removed.now) }
    ensures changed { Changed order (filed_in order (stored_of a) (in_tree order a.entry.namespace_id count dir.old tree.old)) dir.old tree.old dir.new tree.new result }
    ensures lawful { Lawful field (stored_of a) }
{
    let left = retain(count, dir, tree, removed);
    let mut rec = [0u8; RECORD_MOST];
    let n = encode_record(order, a, &mut rec);
    let kept = Tree {
        order,
        count: left,
        dir,
        bytes: tree,
    };
    let at = match kept.find(&rec[..n - VALUE]) {
        Ok(at) | Err(at) => at,
    };
    insert_at(left, dir, tree, at, &rec[..n]);
    left + 1
}

// Files an entry in one tree of its namespace: marks what it removes there and files it by these marks.
pub fn file_in(
    order: KeyOrder,
    count: usize,
    tree: &mut [u8],
    dir: &mut [u32],
    a: LengthyAuthorisedEntry,
) -> usize
    requires { FilesIn order a.entry.namespace_id count dir.old tree.old a }
    ensures { Changed order (filed_in order (stored_of a) (in_tree order a.entry.namespace_id count dir.old tree.old)) dir.old tree.old dir.new tree.new result }
{
    let mut removed = [0u8; LIMIT_MOST];
    let whole = Tree {
        order,
        count,
        dir,
        bytes: tree,
    };
    whole.mark_removed(a.entry, &mut removed);
    file_marked(order, count, tree, dir, a, &removed)
}

// What a forgetting takes out: what stands at a subspace and path, or what an area includes and the protected area, if any, does not.
#[derive(Clone, Copy)]
pub enum Forgotten {
    At(Subspace, Path),
    Within(Area, Option<Area>),
}

// Marks what an area includes and the protected area, if any, does not.
fn mark_forgotten(tree: Tree, area: Area, protected: Option<Area>, marks: &mut [u8])
    requires { (Formed tree.order tree.count tree.dir.now tree.bytes.now) × (tree.count ≤ limit_most) × (tree.count ≤ length marks.old) × (legal field area.path ≡ true) × (legal field (unwrap_or protected area).path ≡ true) }
    ensures { (ns : List ℕ) → marks.new ≡ put (marks_of (is_forgotten area (is_some protected) (unwrap_or protected area)) (in_tree tree.entry.order ns tree.entry.count tree.entry.dir.now tree.entry.bytes.now)) marks.old }
{
    let ignore = no_flags();
    tree.mark_area(area, ignore, marks);
    if let Some(kept) = protected {
        let mut shield = [0u8; LIMIT_MOST];
        tree.mark_area(kept, ignore, &mut shield);
        unmark(marks, &shield[..tree.count]);
    }
}

impl Forgotten {
    // Marks what it takes out of a tree, whatever the tree's namespace.
    fn mark(self, tree: Tree, marks: &mut [u8])
        requires { (Formed tree.order tree.count tree.dir.now tree.bytes.now) × (tree.count ≤ limit_most) × (tree.count ≤ length marks.old) × (LegalPaths self) }
        ensures { (ns : List ℕ) → marks.new ≡ put (marks_of (forgets self) (in_tree tree.entry.order ns tree.entry.count tree.entry.dir.now tree.entry.bytes.now)) marks.old }
    {
        match self {
            Forgotten::At(subspace, path) => tree.mark_at(subspace, path, marks),
            Forgotten::Within(area, protected) => mark_forgotten(tree, area, protected, marks),
        }
    }
}

// Takes out what is to be forgotten, whatever the tree's namespace, and answers how many are left.
pub fn take_out(
    order: KeyOrder,
    count: usize,
    tree: &mut [u8],
    dir: &mut [u32],
    what: Forgotten,
) -> usize
    requires { (Whole order count dir.old tree.old) × (count ≤ limit_most) × (LegalPaths what) }
    ensures { (ns : List ℕ) → Changed order (keep (λ x. not (forgets what x)) (in_tree order ns count dir.old tree.old)) dir.old tree.old dir.new tree.new result }
{
    let mut marks = [0u8; LIMIT_MOST];
    let whole = Tree {
        order,
        count,
        dir,
        bytes: tree,
    };
    what.mark(whole, &mut marks);
    retain(count, dir, tree, &marks)
}
