// How much of the payload of a stored entry has arrived: it is recorded, or forgotten, in both trees, and nothing else of the store changes. The public
// entries are `record_available_length` and `forget_payload`: they have no `requires`, and are lent neither a tally nor a prune list.
#![tactic(auto)]

ghost use Rattle.std.specs.Prelude.{◌≡◌, true, not, ◌&&◌, List, ℕ, ◌≤◌, length, is_some, Ok};
ghost use Rattle.laws.specs.Prefix.{same_number, same_list};
ghost use Rattle.laws.specs.Sorted.{keep};
ghost use Rattle.data_model.specs.Path.{field, legal, components};
ghost use Rattle.data_model.specs.Refusal.{refused_with};
ghost use Rattle.tree.specs.Tree.{Formed, Whole};
ghost use Rattle.tree.specs.Matching.{stands_at};
ghost use Rattle.tree.specs.Apart.{no_address_twice};
ghost use Rattle.tree.specs.declared.stored.KeyOrder.TheVariants.{Spt, Tsp};
ghost use Rattle.store.specs.Store.{store_of, limit_most, held, held_by, holding};
ghost use Rattle.store.specs.Lent.{lent};
ghost use Rattle.store.specs.Refusal.{store_refusal};
ghost use Rattle.store.specs.Forget.{digest_in};
ghost use Rattle.store.specs.Change.{in_tree};
ghost use Rattle.available.specs.Available.{arrived_at, StandsFirst, Arrived, entry_refusal, available_refusal, available_says, available_outcome, available_set};

use data_model::answer::Refusal;
use data_model::parameters::Subspace;
use data_model::path::Path;
use store::place::place_at;
use store::state::{RECORD_MOST, State, Store};
use tree::by_value::is_legal;
use tree::edit::set_available;
use tree::stored::{KeyOrder, Tree};

// Whether a digest is expected, and is not this one.
fn is_other(expected: Option<[u8; 32]>, own: [u8; 32]) -> bool
    ensures { result ≡ (is_some expected && not (same_list same_number own (digest_in expected))) }
{
    match expected {
        Some(digest) => own != digest,
        None => false,
    }
}

// Where the entry stands in a tree in its room; or 11, 9 or 12.
fn entry_place(
    tree: Tree,
    namespace: [u8; 16],
    subspace: Subspace,
    path: Path,
    expected: Option<[u8; 32]>,
    n: u64,
) -> Result<usize, Refusal>
    requires { (Formed tree.order tree.count tree.dir.now tree.bytes.now) × (tree.count ≤ limit_most) × (legal field path ≡ true) × (no_address_twice (in_tree tree.order namespace tree.count tree.dir.now tree.bytes.now) ≡ true) }
    ensures refusal_value { refused_with result ≡ entry_refusal subspace (components path) (is_some expected) (digest_in expected) n (in_tree tree.entry.order namespace tree.entry.count tree.entry.dir.now tree.entry.bytes.now) }
    ensures stands_first { (k : ℕ) → result ≡ Ok k → StandsFirst subspace (components path) k (in_tree tree.entry.order namespace tree.entry.count tree.entry.dir.now tree.entry.bytes.now) }
{
    let Some(place) = place_at(tree, subspace, path) else {
        return Err(Refusal::AbsentEntry);
    };
    let e = tree.stored_at(namespace, place).entry;
    if is_other(expected, e.payload_digest) {
        return Err(Refusal::OtherDigest);
    }
    if e.payload_length < n {
        return Err(Refusal::TooMuchAvailable);
    }
    Ok(place)
}

// Where the entry stands in the subspace-first tree; or 1, 2, 3, 4, 11, 9 or 12.
fn available_place(
    store: Store,
    subspace: Subspace,
    path: Path,
    expected: Option<[u8; 32]>,
    n: u64,
) -> Result<usize, Refusal>
    ensures refusal_value { refused_with result ≡ available_refusal field (lent store.entry) subspace path (is_some expected) (digest_in expected) n }
    ensures stands_first { (k : ℕ) → result ≡ Ok k → StandsFirst subspace (components path) k (held field Spt (lent store.entry)) }
{
    store.check(true)?;
    if !is_legal(path) {
        return Err(Refusal::IllegalPath);
    }
    entry_place(
        store.spt(),
        store.state.namespace_id,
        subspace,
        path,
        expected,
        n,
    )
}

// Writes the available length of what stands at a subspace and path in the time-first tree, in its room, where no more than one does.
fn set_in_tsp(count: usize, tsp: &mut [u8], tsp_dir: &[u32], subspace: Subspace, path: Path, n: u64)
    requires { (Whole Tsp count tsp_dir.now tsp.old) × (count ≤ limit_most) × (legal field path ≡ true) }
    ensures { (namespace : List ℕ) → length (keep (stands_at subspace (components path)) (in_tree Tsp namespace count tsp_dir.now tsp.old)) ≤ 1 → Arrived Tsp namespace count subspace (components path) n tsp_dir.now tsp.old tsp.new }
{
    let tree = Tree {
        order: KeyOrder::Tsp,
        count,
        dir: tsp_dir,
        bytes: tsp,
    };
    if let Some(k) = place_at(tree, subspace, path) {
        set_available(tsp_dir, tsp, k, n);
    }
}

// Writes the available length of what stands at a subspace and path in both trees of a store. `place`: where it stands in the subspace-first tree.
// Kept (5): a clause could name what a struct of `&mut` leaves only by the numbers of its parts, as `t.exit.1.0.now`.
fn set_both(
    state: State,
    spt: &mut [u8],
    spt_dir: &[u32],
    tsp: &mut [u8],
    tsp_dir: &[u32],
    subspace: Subspace,
    path: Path,
    place: usize,
    n: u64,
)
    requires { (store_refusal field (store_of state spt.old spt_dir.now tsp.old tsp_dir.now) true ≡ 0) × (legal field path ≡ true) × (StandsFirst subspace (components path) place (held field Spt (store_of state spt.old spt_dir.now tsp.old tsp_dir.now))) }
    ensures { store_of state spt.new spt_dir.now tsp.new tsp_dir.now ≡ holding field (arrived_at subspace (components path) n (held_by field (store_of state spt.old spt_dir.now tsp.old tsp_dir.now))) (store_of state spt.old spt_dir.now tsp.old tsp_dir.now) }
{
    let c = state.count;
    let t = RECORD_MOST * state.limit;
    let d = 2 * state.limit;
    set_available(&spt_dir[..d], &mut spt[..t], place, n);
    set_in_tsp(c, &mut tsp[..t], &tsp_dir[..d], subspace, path, n);
}

// Records how much of the payload of the entry at a subspace and path is available, in both trees: any length from 0 to the payload length. The state stays.
// Kept (5): a clause could name what a struct of `&mut` leaves only by the numbers of its parts, as `t.exit.1.0.now`.
pub fn record_available_length(
    state: State,
    spt: &mut [u8],
    spt_dir: &[u32],
    tsp: &mut [u8],
    tsp_dir: &[u32],
    subspace: Subspace,
    path: Path,
    expected: Option<[u8; 32]>,
    available: u64,
) -> Result<(), Refusal>
    ensures { available_outcome (available_says state result) spt.new spt_dir.now tsp.new tsp_dir.now ≡ available_set field (store_of state spt.old spt_dir.now tsp.old tsp_dir.now) subspace path (is_some expected) (digest_in expected) available }
{
    let store = Store {
        state,
        spt,
        spt_dir,
        tsp,
        tsp_dir,
    };
    let place = available_place(store, subspace, path, expected, available)?;
    set_both(
        state, spt, spt_dir, tsp, tsp_dir, subspace, path, place, available,
    );
    Ok(())
}

// Forgets the payload of the entry at a subspace and path: nothing of it is available then, in both trees. Nothing being available, it is done too. The state
// stays.
// Kept (5): a clause could name what a struct of `&mut` leaves only by the numbers of its parts, as `t.exit.1.0.now`.
pub fn forget_payload(
    state: State,
    spt: &mut [u8],
    spt_dir: &[u32],
    tsp: &mut [u8],
    tsp_dir: &[u32],
    subspace: Subspace,
    path: Path,
    expected: Option<[u8; 32]>,
) -> Result<(), Refusal>
    ensures { available_outcome (available_says state result) spt.new spt_dir.now tsp.new tsp_dir.now ≡ available_set field (store_of state spt.old spt_dir.now tsp.old tsp_dir.now) subspace path (is_some expected) (digest_in expected) 0 }
{
    record_available_length(
        state, spt, spt_dir, tsp, tsp_dir, subspace, path, expected, 0,
    )
}
