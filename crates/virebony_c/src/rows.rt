// Ingestion over pair records: a row of two numbers, offset and length, lies in memory as C's record of the two.
ghost use Rattle.std.specs.Prelude.{◌≡◌, map};
ghost use Rattle.data_model.specs.Path.{field};
ghost use Rattle.store.specs.Store.{tallied_of};
ghost use Rattle.pairs.specs.Pairs.{pairs_ingested};
ghost use Rattle.plain.specs.Input.{ingestion_of};
ghost use Rattle.plain.specs.Rows.{pair_of};
ghost use Rattle.virebony.specs.Outcome.{pairs_left, told_pairs};

use data_model::entry::Entry;
use plain::change::PlainIngested;
use plain::input::PlainOrigin;
use store::state::State;

// Ingestion with the pruned pairs in a lent slice of pairs: answer, store, tally and pairs are those of `pairs::ingest_entry`.
#[unsafe(no_mangle)]
pub extern "C" fn vb_ingest_entry(
    state: State,
    spt: &mut [u8],
    spt_dir: &mut [u32],
    tsp: &mut [u8],
    tsp_dir: &mut [u32],
    tally: &mut [u8],
    prune: &mut [[u32; 2]],
    entry: Entry,
    token: &[u8; 64],
    prevent_pruning: u8,
    origin: PlainOrigin,
) -> PlainIngested
    ensures { pairs_left result spt.new spt_dir.new tsp.new tsp_dir.new tally.new (map pair_of prune.new) ≡ told_pairs (pairs_ingested field (tallied_of state spt.old spt_dir.old tsp.old tsp_dir.old tally.old) (map pair_of prune.old) (ingestion_of entry token.now prevent_pruning origin)) }
{
    virebony::rows::vb_ingest_entry(
        state,
        spt,
        spt_dir,
        tsp,
        tsp_dir,
        tally,
        prune,
        entry,
        token,
        prevent_pruning,
        origin,
    )
}
