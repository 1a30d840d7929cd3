// Opening a store.
// Kept (5): a clause of a function of this file could name what a struct of `&mut` leaves only by the numbers of its parts, as `t.exit.1.0.now`.
ghost use Rattle.std.specs.Prelude.{◌≡◌};
ghost use Rattle.data_model.specs.Path.{field};
ghost use Rattle.data_model.specs.Refusal.{refused_with};
ghost use Rattle.store.specs.Lent.{lent_with};
ghost use Rattle.store.specs.Open.{open_refusal, opened_says, open_outcome, opening};

use crate::check::limit_ok;
use crate::state::{RECORD_MOST, State, Store};
use crate::tallied::tally_fits;
use data_model::answer::Refusal;
use tally::item::ITEM;

// Whether an opening is refused, with 1 or 2. Nothing but the limit and how long the buffers are is looked at.
fn check_opening(store: Store, tally: &[u8]) -> Result<(), Refusal>
    ensures { refused_with result ≡ open_refusal field (lent_with store.entry tally.now) }
{
    let limit = store.state.limit;
    if !limit_ok(limit) {
        return Err(Refusal::BadLimit);
    }
    if !(store.is_roomy() && tally_fits(tally.len(), limit)) {
        return Err(Refusal::ShortBuffer);
    }
    Ok(())
}

// A store of no entries, for at most `limit` of them, and its tally, which has no item.
pub fn open(
    namespace: [u8; 16],
    limit: usize,
    spt: &mut [u8],
    spt_dir: &mut [u32],
    tsp: &mut [u8],
    tsp_dir: &mut [u32],
    tally: &mut [u8],
) -> Result<State, Refusal>
    ensures { open_outcome (opened_says result) spt.new spt_dir.new tsp.new tsp_dir.new tally.new ≡ opening field namespace limit spt.old spt_dir.old tsp.old tsp_dir.old tally.old }
{
    let state = State {
        namespace_id: namespace,
        count: 0,
        limit,
    };
    let store = Store {
        state,
        spt,
        spt_dir,
        tsp,
        tsp_dir,
    };
    check_opening(store, tally)?;
    let n = RECORD_MOST * limit;
    let m = 2 * limit;
    tree::edit::open(&mut spt_dir[..m], &mut spt[..n]);
    tree::edit::open(&mut tsp_dir[..m], &mut tsp[..n]);
    tally[..ITEM * limit].fill(0);
    Ok(state)
}
