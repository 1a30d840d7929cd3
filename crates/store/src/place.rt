// Where an entry stands in a tree, by its subspace and path.
ghost use Rattle.std.specs.Prelude.{◌≡◌, true, List, ℕ, ◌≤◌};
ghost use Rattle.data_model.specs.Path.{field, legal, components};
ghost use Rattle.tree.specs.Tree.{Formed};
ghost use Rattle.tree.specs.Matching.{stands_at};
ghost use Rattle.store.specs.Store.{limit_most};
ghost use Rattle.store.specs.Change.{in_tree, first_place};

use crate::state::LIMIT_MOST;
use data_model::parameters::Subspace;
use data_model::path::Path;
use tree::marks::first_marked;
use tree::stored::Tree;

// The place in a tree of the first entry at a subspace and path, if there is one, whatever the tree's namespace.
pub fn place_at(tree: Tree, subspace: Subspace, path: Path) -> Option<usize>
    requires { (Formed tree.order tree.count tree.dir.now tree.bytes.now) × (tree.count ≤ limit_most) × (legal field path ≡ true) }
    ensures { (ns : List ℕ) → result ≡ first_place (stands_at subspace (components path)) (in_tree tree.entry.order ns tree.entry.count tree.entry.dir.now tree.entry.bytes.now) }
{
    let mut marks = [0u8; LIMIT_MOST];
    tree.mark_at(subspace, path, &mut marks);
    let k = first_marked(&marks[..tree.count], 0);
    if k < tree.count { Some(k) } else { None }
}
