// The calls that change a store: opening, ingestion over a prune list of numbers and of pairs by value, both forgettings, and how much of a payload has arrived.
ghost use Rattle.std.specs.Prelude.{◌≡◌};
ghost use Rattle.data_model.specs.Path.{field};
ghost use Rattle.store.specs.Store.{store_of, tallied_of};
ghost use Rattle.store.specs.Open.{open_outcome, opening};
ghost use Rattle.store.specs.Ingest.{ingested};
ghost use Rattle.store.specs.Forget.{forget_entry_outcome, entry_forgotten, forget_area_outcome, area_forgotten};
ghost use Rattle.pairs.specs.Pairs.{pairs_of, pairs_ingested};
ghost use Rattle.available.specs.Available.{available_outcome, available_set};
ghost use Rattle.plain.specs.Input.{is_yes, area_of, ingestion_of};
ghost use Rattle.plain.specs.Change.{opened_read, entry_forgotten_read, area_forgotten_read};
ghost use Rattle.virebony.specs.Outcome.{numbers_left, told_numbers, pairs_left, told_pairs, available_read};

use available::{forget_payload, record_available_length};
use data_model::entry::Entry;
use data_model::parameters::Subspace;
use data_model::path::Path;
use pairs::ingest_entry_by_value;
use plain::change::{
    PlainAreaForgotten, PlainAvailableRecorded, PlainEntryForgotten, PlainIngested,
    PlainNumbersIngested, PlainOpened, plain_area_forgotten, plain_available,
    plain_entry_forgotten, plain_ingested, plain_numbers,
};
use plain::input::{PlainArea, PlainOrigin, PlainPairs, given, ingestion_of};
use store::forget::{forget_area, forget_entry};
use store::ingest::ingest_entry_numbers;
use store::open::open;
use store::state::State;

// `store::open::open`: a store of no entries, for at most `limit` of them.
#[unsafe(no_mangle)]
pub extern "C" fn vb_open(
    namespace: &[u8; 16],
    limit: usize,
    spt: &mut [u8],
    spt_dir: &mut [u32],
    tsp: &mut [u8],
    tsp_dir: &mut [u32],
    tally: &mut [u8],
) -> PlainOpened
    ensures { open_outcome (opened_read result) spt.new spt_dir.new tsp.new tsp_dir.new tally.new ≡ opening field namespace.now limit spt.old spt_dir.old tsp.old tsp_dir.old tally.old }
{
    open(*namespace, limit, spt, spt_dir, tsp, tsp_dir, tally).into()
}

// `store::ingest::ingest_entry_numbers`: ingestion with the pruned pairs in a lent slice of numbers, offset and length by turns.
#[unsafe(no_mangle)]
pub extern "C" fn vb_ingest_entry_numbers(
    state: State,
    spt: &mut [u8],
    spt_dir: &mut [u32],
    tsp: &mut [u8],
    tsp_dir: &mut [u32],
    tally: &mut [u8],
    prune: &mut [u32],
    entry: Entry,
    token: &[u8; 64],
    prevent_pruning: u8,
    origin: PlainOrigin,
) -> PlainIngested
    ensures { numbers_left result spt.new spt_dir.new tsp.new tsp_dir.new tally.new prune.new ≡ told_numbers (ingested field (tallied_of state spt.old spt_dir.old tsp.old tsp_dir.old tally.old) prune.old (ingestion_of entry token.now prevent_pruning origin)) }
{
    let ingestion = ingestion_of(entry, *token, prevent_pruning, origin);
    let answer = ingest_entry_numbers(state, spt, spt_dir, tsp, tsp_dir, tally, prune, ingestion);
    plain_ingested(state, answer)
}

// `pairs::ingest_entry` itself, on a prune list of 1,024 pairs that goes in and comes back by value.
#[unsafe(no_mangle)]
pub extern "C" fn vb_ingest_entry_by_value(
    state: State,
    spt: &mut [u8],
    spt_dir: &mut [u32],
    tsp: &mut [u8],
    tsp_dir: &mut [u32],
    tally: &mut [u8],
    prune: PlainPairs,
    entry: Entry,
    token: &[u8; 64],
    prevent_pruning: u8,
    origin: PlainOrigin,
) -> PlainNumbersIngested
    ensures { pairs_left result.ingested spt.new spt_dir.new tsp.new tsp_dir.new tally.new (pairs_of result.numbers) ≡ told_pairs (pairs_ingested field (tallied_of state spt.old spt_dir.old tsp.old tsp_dir.old tally.old) prune.pairs (ingestion_of entry token.now prevent_pruning origin)) }
{
    let ingestion = ingestion_of(entry, *token, prevent_pruning, origin);
    let answer = ingest_entry_by_value(
        state,
        spt,
        spt_dir,
        tsp,
        tsp_dir,
        tally,
        prune.pairs,
        ingestion,
    );
    plain_numbers(state, answer)
}

// `store::forget::forget_entry`: drops the entry at a subspace and path; with `expects`, only if its digest is the one expected.
#[tactic(auto, using(crate::proofs::GivenLaws::entry_given))]
#[unsafe(no_mangle)]
pub extern "C" fn vb_forget_entry(
    state: State,
    spt: &mut [u8],
    spt_dir: &mut [u32],
    tsp: &mut [u8],
    tsp_dir: &mut [u32],
    tally: &mut [u8],
    subspace: Subspace,
    path: Path,
    expects: u8,
    expected_digest: &[u8; 32],
) -> PlainEntryForgotten
    ensures { forget_entry_outcome (entry_forgotten_read result) spt.new spt_dir.new tsp.new tsp_dir.new tally.new ≡ entry_forgotten field (tallied_of state spt.old spt_dir.old tsp.old tsp_dir.old tally.old) subspace path (is_yes expects) expected_digest.now }
{
    let expected = given(expects, *expected_digest);
    let answer = forget_entry(
        state, spt, spt_dir, tsp, tsp_dir, tally, subspace, path, expected,
    );
    plain_entry_forgotten(state, answer)
}

// `store::forget::forget_area`: drops what an area includes and, with `protects`, the protected area does not.
#[tactic(auto, using(crate::proofs::GivenLaws::area_given))]
#[unsafe(no_mangle)]
pub extern "C" fn vb_forget_area(
    state: State,
    spt: &mut [u8],
    spt_dir: &mut [u32],
    tsp: &mut [u8],
    tsp_dir: &mut [u32],
    tally: &mut [u8],
    area: PlainArea,
    protects: u8,
    protected: PlainArea,
) -> PlainAreaForgotten
    ensures { forget_area_outcome (area_forgotten_read result) spt.new spt_dir.new tsp.new tsp_dir.new tally.new ≡ area_forgotten field (tallied_of state spt.old spt_dir.old tsp.old tsp_dir.old tally.old) (area_of area) (is_yes protects) (area_of protected) }
{
    let kept = given(protects, protected.into());
    let answer = forget_area(state, spt, spt_dir, tsp, tsp_dir, tally, area.into(), kept);
    plain_area_forgotten(state, answer)
}

// `available::record_available_length`: records how much of the payload of the entry at a subspace and path is available; with `expects`, only if its
// digest is the one expected.
#[tactic(auto, using(crate::proofs::GivenLaws::available_given))]
#[unsafe(no_mangle)]
pub extern "C" fn vb_record_available_length(
    state: State,
    spt: &mut [u8],
    spt_dir: &[u32],
    tsp: &mut [u8],
    tsp_dir: &[u32],
    subspace: Subspace,
    path: Path,
    expects: u8,
    expected_digest: &[u8; 32],
    available: u64,
) -> PlainAvailableRecorded
    ensures { available_outcome (available_read result) spt.new spt_dir.now tsp.new tsp_dir.now ≡ available_set field (store_of state spt.old spt_dir.now tsp.old tsp_dir.now) subspace path (is_yes expects) expected_digest.now available }
{
    let expected = given(expects, *expected_digest);
    let answer = record_available_length(
        state, spt, spt_dir, tsp, tsp_dir, subspace, path, expected, available,
    );
    plain_available(state, answer)
}

// `available::forget_payload`: records that nothing of the payload of the entry at a subspace and path is available; with `expects`, only if its digest is
// the one expected.
#[tactic(auto, using(crate::proofs::GivenLaws::available_given))]
#[unsafe(no_mangle)]
pub extern "C" fn vb_forget_payload(
    state: State,
    spt: &mut [u8],
    spt_dir: &[u32],
    tsp: &mut [u8],
    tsp_dir: &[u32],
    subspace: Subspace,
    path: Path,
    expects: u8,
    expected_digest: &[u8; 32],
) -> PlainAvailableRecorded
    ensures { available_outcome (available_read result) spt.new spt_dir.now tsp.new tsp_dir.now ≡ available_set field (store_of state spt.old spt_dir.now tsp.old tsp_dir.now) subspace path (is_yes expects) expected_digest.now 0 }
{
    let expected = given(expects, *expected_digest);
    let answer = forget_payload(state, spt, spt_dir, tsp, tsp_dir, subspace, path, expected);
    plain_available(state, answer)
}
