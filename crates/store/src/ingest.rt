// Ingestion.
// Kept (5): a clause of a function of this file could name what a struct of `&mut` leaves only by the numbers of its parts, as `t.exit.1.0.now`.
ghost use Rattle.std.specs.Prelude.{◌≡◌, ℕ, ◌≤◌, length};
ghost use Rattle.laws.specs.Lists.{put};
ghost use Rattle.data_model.specs.Said.{says};
ghost use Rattle.data_model.specs.Path.{field};
ghost use Rattle.data_model.specs.Refusal.{refused_with};
ghost use Rattle.data_model.specs.Entry.{entry_of};
ghost use Rattle.tree.specs.Stored.{Lawful};
ghost use Rattle.tree.specs.Matching.{removes};
ghost use Rattle.tree.specs.declared.stored.KeyOrder.TheVariants.{Spt};
ghost use Rattle.store.specs.Store.{limit_most, store_of, held, tallied_of};
ghost use Rattle.store.specs.Lent.{lent, lent_with};
ghost use Rattle.store.specs.Change.{Marked};
ghost use Rattle.store.specs.Ingest.{succeeds, verdict_says, ingested_says, MayFile, filing, store_filed, pruned_pairs, ingest_refusal, ingest_outcome, ingested};

use crate::change::{file_in, file_marked};
use crate::check::dir_fits;
use crate::decide::{PlaceDecision, decide};
use crate::state::{LIMIT_MOST, RECORD_MOST, State, Store};
use crate::tallied::{check_tallied, retally};
use data_model::answer::Refusal;
use data_model::entry::Entry;
use data_model::entry_origin::EntryOrigin;
use tree::by_value::is_legal;
use tree::marks::write_pairs;
use tree::stored::{KeyOrder, LengthyAuthorisedEntry};

// What an ingestion that is not refused answers.
#[derive(Clone, Copy)]
pub enum Ingested {
    // The entry was stored, and so many were pruned: the state then.
    Success { state: State, pruned: usize },
    // A stored entry is newer: it, and its token.
    Obsolete { newer: Entry, token: [u8; 64] },
    // The very entry was stored already.
    Held,
}

// What an ingestion is handed: the entry, its authorisation token, whether pruning is prevented, and where the entry came from.
#[derive(Clone, Copy)]
pub struct Ingestion {
    pub entry: Entry,
    pub token: [u8; 64],
    pub prevent_pruning: bool,
    pub origin: EntryOrigin,
}

// Whether an ingestion is refused whatever is stored, with 1, 2, 3, 10, 4 or 6.
fn check_ingestion(store: Store, tally: &[u8], prune: &[u32], entry: Entry) -> Result<(), Refusal>
    ensures { refused_with result ≡ ingest_refusal field (lent_with store.entry tally.now) prune.now entry }
{
    check_tallied(store, tally, dir_fits(prune.len(), store.state.limit))?;
    if !is_legal(entry.path) {
        return Err(Refusal::IllegalPath);
    }
    if entry.namespace_id != store.state.namespace_id {
        return Err(Refusal::OtherNamespace);
    }
    Ok(())
}

// The whole answer, over the store's buffers and its tally shared. With a success, what the entry removes is marked.
fn ingest_answer(
    store: Store,
    tally: &[u8],
    prune: &[u32],
    ingestion: Ingestion,
    removed: &mut [u8],
) -> Result<Ingested, Refusal>
    requires { limit_most ≤ length removed.old }
    ensures answer { ingested_says store.entry.state result ≡ (ingested field (lent_with store.entry tally.now) prune.now ingestion).answer }
    ensures marks { (n : ℕ) → verdict_says result ≡ says (succeeds n) → Marked (removes (entry_of ingestion.entry)) (held field Spt (lent store.entry)) removed.new }
{
    check_ingestion(store, tally, prune, ingestion.entry)?;
    let tree = store.spt();
    let state = store.state;
    let d = decide(
        state.limit,
        tree,
        ingestion.entry,
        ingestion.prevent_pruning,
        removed,
    )?;
    Ok(match d {
        PlaceDecision::Old(k) => {
            let a = tree.stored_at(state.namespace_id, k);
            let token = a.token;
            Ingested::Obsolete {
                newer: a.entry,
                token,
            }
        }
        PlaceDecision::Already => Ingested::Held,
        PlaceDecision::Take(pruned) => Ingested::Success {
            state: state.with_count(state.count - pruned + 1),
            pruned,
        },
    })
}

// Files an entry in both trees, by the marks of what it removes from the subspace-first tree, and writes the pairs of that. The entry is then
// `Lawful`: its record stands there as bytes.
fn file(
    state: State,
    spt: &mut [u8],
    spt_dir: &mut [u32],
    tsp: &mut [u8],
    tsp_dir: &mut [u32],
    prune: &mut [u32],
    ingestion: Ingestion,
    removed: &[u8],
)
    requires { (MayFile field (store_of state spt.old spt_dir.old tsp.old tsp_dir.old) prune.old ingestion.entry) × (Marked (removes (entry_of ingestion.entry)) (held field Spt (store_of state spt.old spt_dir.old tsp.old tsp_dir.old)) removed.now) × (limit_most ≤ length removed.now) }
    ensures store { store_of (store_filed field (store_of state spt.old spt_dir.old tsp.old tsp_dir.old) (filing ingestion)).state spt.new spt_dir.new tsp.new tsp_dir.new ≡ store_filed field (store_of state spt.old spt_dir.old tsp.old tsp_dir.old) (filing ingestion) }
    ensures pairs { prune.new ≡ put (pruned_pairs field (store_of state spt.old spt_dir.old tsp.old tsp_dir.old) (entry_of ingestion.entry)) prune.old }
    ensures lawful { Lawful field (filing ingestion) }
{
    let count = state.count;
    let n = RECORD_MOST * state.limit;
    let m = 2 * state.limit;
    let token = ingestion.token;
    let a = LengthyAuthorisedEntry {
        entry: ingestion.entry,
        token,
        available: 0,
        origin: ingestion.origin,
    };
    write_pairs(&spt_dir[..m], &removed[..count], prune);
    file_marked(
        KeyOrder::Spt,
        count,
        &mut spt[..n],
        &mut spt_dir[..m],
        a,
        removed,
    );
    file_in(KeyOrder::Tsp, count, &mut tsp[..n], &mut tsp_dir[..m], a);
}

// Ingests an entry: the pairs of what it removed stand in the prune list, offset and length by turns.
pub fn ingest_entry_numbers(
    state: State,
    spt: &mut [u8],
    spt_dir: &mut [u32],
    tsp: &mut [u8],
    tsp_dir: &mut [u32],
    tally: &mut [u8],
    prune: &mut [u32],
    ingestion: Ingestion,
) -> Result<Ingested, Refusal>
    ensures { ingest_outcome (ingested_says state result) spt.new spt_dir.new tsp.new tsp_dir.new tally.new prune.new ≡ ingested field (tallied_of state spt.old spt_dir.old tsp.old tsp_dir.old tally.old) prune.old ingestion }
{
    let mut removed = [0u8; LIMIT_MOST];
    let store = Store {
        state,
        spt,
        spt_dir,
        tsp,
        tsp_dir,
    };
    let given = ingest_answer(store, tally, prune, ingestion, &mut removed)?;
    if let Ingested::Success { state: after, .. } = given {
        file(
            state, spt, spt_dir, tsp, tsp_dir, prune, ingestion, &removed,
        );
        retally(after, spt, spt_dir, tally);
    }
    Ok(given)
}
