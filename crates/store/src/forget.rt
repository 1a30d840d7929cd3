// Forgetting: the entry at a subspace and path, or what an area includes and a protected area, if any, does not.
// Kept (5): a clause of a function of this file could name what a struct of `&mut` leaves only by the numbers of its parts, as `t.exit.1.0.now`.
ghost use Rattle.std.specs.Prelude.{◌≡◌, true, cond, ◌&&◌, ◌≤◌, is_some, unwrap_or, replicate};
ghost use Rattle.laws.specs.Sorted.{any};
ghost use Rattle.data_model.specs.Path.{field, legal, components};
ghost use Rattle.data_model.specs.Refusal.{refused_with};
ghost use Rattle.tree.specs.Tree.{Formed};
ghost use Rattle.tree.specs.Apart.{no_address_twice};
ghost use Rattle.store.specs.Store.{store_of, limit_most, tallied_of};
ghost use Rattle.store.specs.Lent.{lent_with};
ghost use Rattle.store.specs.Refusal.{store_refusal};
ghost use Rattle.store.specs.Change.{in_tree, forgets, LegalPaths};
ghost use Rattle.store.specs.Forget.{store_without, unexpected, digest_in, forget_entry_refusal, entry_forgotten_says, forget_entry_outcome, entry_forgotten, forget_area_refusal, area_forgotten_says, forget_area_outcome, area_forgotten};

use crate::change::{Forgotten, take_out};
use crate::place::place_at;
use crate::state::{RECORD_MOST, State, Store};
use crate::tallied::{check_tallied, retally};
use data_model::answer::Refusal;
use data_model::area::Area;
use data_model::parameters::Subspace;
use data_model::path::Path;
use tree::by_value::is_legal;
use tree::stored::{KeyOrder, Tree};

// The state, and how many entries were forgotten.
#[derive(Clone, Copy)]
pub struct AreaForgotten {
    pub state: State,
    pub forgotten: usize,
}

// Whether an entry stands at the subspace and path, of another digest. Over a tree in its room.
fn is_other_digest(
    tree: Tree,
    namespace: [u8; 16],
    subspace: Subspace,
    path: Path,
    expected_digest: [u8; 32],
) -> bool
    requires { (Formed tree.order tree.count tree.dir.now tree.bytes.now) × (tree.count ≤ limit_most) × (legal field path ≡ true) × (no_address_twice (in_tree tree.order namespace tree.count tree.dir.now tree.bytes.now) ≡ true) }
    ensures { result ≡ any (unexpected subspace (components path) true expected_digest) (in_tree tree.entry.order namespace tree.entry.count tree.entry.dir.now tree.entry.bytes.now) }
{
    match place_at(tree, subspace, path) {
        Some(k) => tree.stored_at(namespace, k).entry.payload_digest != expected_digest,
        None => false,
    }
}

// Whether the forgetting of an entry is refused, with 1, 2, 3, 10, 4 or 9.
fn check_entry(
    store: Store,
    tally: &[u8],
    subspace: Subspace,
    path: Path,
    expected: Option<[u8; 32]>,
) -> Result<(), Refusal>
    ensures { refused_with result ≡ forget_entry_refusal field (lent_with store.entry tally.now) subspace path (is_some expected) (digest_in expected) }
{
    check_tallied(store, tally, true)?;
    if !is_legal(path) {
        return Err(Refusal::IllegalPath);
    }
    let Some(digest) = expected else {
        return Ok(());
    };
    if is_other_digest(
        store.spt(),
        store.state.namespace_id,
        subspace,
        path,
        digest,
    ) {
        return Err(Refusal::OtherDigest);
    }
    Ok(())
}

// Takes what is to be forgotten out of both trees of a store, and answers its state with what is left.
fn forget(
    state: State,
    spt: &mut [u8],
    spt_dir: &mut [u32],
    tsp: &mut [u8],
    tsp_dir: &mut [u32],
    what: Forgotten,
) -> State
    requires { (store_refusal field (store_of state spt.old spt_dir.old tsp.old tsp_dir.old) true ≡ 0) × (LegalPaths what) }
    ensures { store_of result spt.new spt_dir.new tsp.new tsp_dir.new ≡ store_without field (forgets what) (store_of state spt.old spt_dir.old tsp.old tsp_dir.old) }
{
    let n = state.count;
    let t = RECORD_MOST * state.limit;
    let d = 2 * state.limit;
    let left = take_out(KeyOrder::Spt, n, &mut spt[..t], &mut spt_dir[..d], what);
    take_out(KeyOrder::Tsp, n, &mut tsp[..t], &mut tsp_dir[..d], what);
    state.with_count(left)
}

// Forgets the entry at a subspace and path, and answers the state. An absent entry answers done, whatever digest was expected.
pub fn forget_entry(
    state: State,
    spt: &mut [u8],
    spt_dir: &mut [u32],
    tsp: &mut [u8],
    tsp_dir: &mut [u32],
    tally: &mut [u8],
    subspace: Subspace,
    path: Path,
    expected: Option<[u8; 32]>,
) -> Result<State, Refusal>
    ensures { forget_entry_outcome (entry_forgotten_says state result) spt.new spt_dir.new tsp.new tsp_dir.new tally.new ≡ entry_forgotten field (tallied_of state spt.old spt_dir.old tsp.old tsp_dir.old tally.old) subspace path (is_some expected) (digest_in expected) }
{
    let store = Store {
        state,
        spt,
        spt_dir,
        tsp,
        tsp_dir,
    };
    check_entry(store, tally, subspace, path, expected)?;
    let what = Forgotten::At(subspace, path);
    let after = forget(state, spt, spt_dir, tsp, tsp_dir, what);
    retally(after, spt, spt_dir, tally);
    Ok(after)
}

// Whether the forgetting of an area is refused, with 1, 2, 3, 10 or 4.
fn check_area(
    store: Store,
    tally: &[u8],
    area: Area,
    protected: Option<Area>,
) -> Result<(), Refusal>
    ensures { refused_with result ≡ forget_area_refusal field (lent_with store.entry tally.now) area (is_some protected) (unwrap_or protected area) }
{
    check_tallied(store, tally, true)?;
    if !(is_legal(area.path) && protected.is_none_or(|kept| is_legal(kept.path))) {
        return Err(Refusal::IllegalPath);
    }
    Ok(())
}

// Forgets what an area includes and the protected area, if any, does not, and answers the state and how many entries that were.
pub fn forget_area(
    state: State,
    spt: &mut [u8],
    spt_dir: &mut [u32],
    tsp: &mut [u8],
    tsp_dir: &mut [u32],
    tally: &mut [u8],
    area: Area,
    protected: Option<Area>,
) -> Result<AreaForgotten, Refusal>
    ensures { forget_area_outcome (area_forgotten_says state result) spt.new spt_dir.new tsp.new tsp_dir.new tally.new ≡ area_forgotten field (tallied_of state spt.old spt_dir.old tsp.old tsp_dir.old tally.old) area (is_some protected) (unwrap_or protected area) }
{
    let store = Store {
        state,
        spt,
        spt_dir,
        tsp,
        tsp_dir,
    };
    check_area(store, tally, area, protected)?;
    let what = Forgotten::Within(area, protected);
    let after = forget(state, spt, spt_dir, tsp, tsp_dir, what);
    retally(after, spt, spt_dir, tally);
    Ok(AreaForgotten {
        state: after,
        forgotten: state.count - after.count,
    })
}
