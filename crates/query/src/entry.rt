// The entry at a subspace and path.
// Kept (5): `IsFormed tree`, `tree.count ≤ limit_most`: as in tree/src/stored, the functions there are for trees that are yet to be tested too.
ghost use Rattle.std.specs.Prelude.{◌≡◌, true, ◌≤◌, Ok};
ghost use Rattle.data_model.specs.Path.{field, legal, components};
ghost use Rattle.store.specs.Store.{limit_most};
ghost use Rattle.store.specs.Lent.{lent};
ghost use Rattle.query.specs.Lookup.{entry_told, found_in, entry_found};
ghost use Rattle.tree.specs.Lent.{IsFormed, contents_in};

use crate::check::read_refusal;
use data_model::answer::Refusal;
use data_model::parameters::Subspace;
use data_model::path::Path;
use data_model::query_ignore_params::QueryIgnoreParams;
use store::place::place_at;
use store::state::Store;
use tree::by_value::is_legal;
use tree::matching::let_through;
use tree::stored::{LengthyAuthorisedEntry, Tree};

// What stands at a place of a tree, if the flags let it through.
fn find_entry(
    tree: Tree,
    namespace: [u8; 16],
    subspace: Subspace,
    path: Path,
    ignore: QueryIgnoreParams,
) -> Option<LengthyAuthorisedEntry>
    requires { (IsFormed tree) × (tree.count ≤ limit_most) × (legal field path ≡ true) }
    ensures { entry_told (Ok result) ≡ found_in subspace (components path) ignore (contents_in tree.entry namespace) }
{
    let k = place_at(tree, subspace, path)?;
    let lengthy = tree.stored_at(namespace, k);
    let_through(ignore, lengthy).then_some(lengthy)
}

// The entry, its token, available length and origin; or none.
#[tactic(auto, using(crate::proofs::Tested::entry_refused))]
pub fn entry(
    store: Store,
    subspace: Subspace,
    path: Path,
    ignore: QueryIgnoreParams,
) -> Result<Option<LengthyAuthorisedEntry>, Refusal>
    ensures { entry_told result ≡ entry_found field (lent store.entry) subspace path ignore }
{
    read_refusal(store, is_legal(path))?;
    Ok(find_entry(
        store.spt(),
        store.state.namespace_id,
        subspace,
        path,
        ignore,
    ))
}
