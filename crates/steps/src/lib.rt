// Each public call that opens or changes a store is a step of demand 3's lists, and whatever a program can hand to it is a value there. The functions here call
// the real ones, or are handed what these are handed; they have no `requires`, and ensure it. Nothing calls them.
// Kept (1): a list's calls, of which the theorems of demand 3 speak, have a yes or no beside a digest or an area, so that `.._is_value` is of every such pair.
// Kept (2): each function is of one call of the store, whose name it has.
// Kept (5): a clause could name what a struct of `&mut` leaves only by the numbers of its parts, as `t.exit.1.0.now`.
#![tactic(auto)]

ghost use Rattle.std.specs.Prelude.{ℕ, ◌<◌, ◌^◌, List, ◌≡◌, is_some, unwrap_or};
ghost use Rattle.data_model.specs.Path.{field};
ghost use Rattle.data_model.specs.Origin.{origin_session};
ghost use Rattle.key_laws.specs.Bytes.{Bytes};
ghost use Rattle.store.specs.Store.{tallied_of};
ghost use Rattle.store.specs.Open.{opened_says};
ghost use Rattle.store.specs.Ingest.{ingested_says};
ghost use Rattle.store.specs.Forget.{entry_forgotten_says, area_forgotten_says, digest_in};
ghost use Rattle.available.specs.Available.{available_says};
ghost use Rattle.pairs.specs.Pairs.{numbers_of, pruned_count};
ghost use Rattle.call_laws.specs.Calls.{IsValue, ingest, forget_entry, forget_area, record_available, forget_payload, ingest_verdict, number_verdict};
ghost use Rattle.call_laws.specs.Outcomes.{outcome, opens, outcome_of, opening_of};

use available::{forget_payload, record_available_length};
use data_model::answer::Refusal;
use data_model::area::Area;
use data_model::entry_origin::EntryOrigin;
use data_model::parameters::Subspace;
use data_model::path::Path;
use pairs::{NumbersIngested, Pair, ingest_entry_by_value};
use store::forget::{AreaForgotten, forget_area, forget_entry};
use store::ingest::{Ingested, Ingestion, ingest_entry_numbers};
use store::open::open;
use store::state::{LIMIT_MOST, State};

// `open` is what opens a list.
pub fn open_listed(
    namespace: [u8; 16],
    limit: usize,
    spt: &mut [u8],
    spt_dir: &mut [u32],
    tsp: &mut [u8],
    tsp_dir: &mut [u32],
    tally: &mut [u8],
) -> Result<State, Refusal>
    ensures { outcome_of (number_verdict (opened_says result).refusal) 0 (opened_says result).state spt.new spt_dir.new tsp.new tsp_dir.new tally.new ≡ opens field (opening_of namespace limit spt.old spt_dir.old tsp.old tsp_dir.old tally.old) }
{
    open(namespace, limit, spt, spt_dir, tsp, tsp_dir, tally)
}

// `ingest_entry_numbers` is an ingestion of a list.
pub fn numbers_listed(
    state: State,
    spt: &mut [u8],
    spt_dir: &mut [u32],
    tsp: &mut [u8],
    tsp_dir: &mut [u32],
    tally: &mut [u8],
    prune: &mut [u32],
    ingestion: Ingestion,
) -> Result<Ingested, Refusal>
    ensures { outcome_of (ingest_verdict (ingested_says state result).verdict) (pruned_count (ingested_says state result).verdict) (ingested_says state result).state spt.new spt_dir.new tsp.new tsp_dir.new tally.new ≡ outcome field (tallied_of state spt.old spt_dir.old tsp.old tsp_dir.old tally.old) (ingest (record { prune = prune.entry.now; handed = ingestion })) }
{
    ingest_entry_numbers(state, spt, spt_dir, tsp, tsp_dir, tally, prune, ingestion)
}

// `pairs::ingest_entry`, as `ingest_entry_by_value` calls it, is an ingestion of a list: the prune list is the pairs' numbers.
pub fn pairs_listed(
    state: State,
    spt: &mut [u8],
    spt_dir: &mut [u32],
    tsp: &mut [u8],
    tsp_dir: &mut [u32],
    tally: &mut [u8],
    pairs: [Pair; LIMIT_MOST],
    ingestion: Ingestion,
) -> NumbersIngested
    ensures { outcome_of (ingest_verdict (ingested_says state result.ingested).verdict) (pruned_count (ingested_says state result.ingested).verdict) (ingested_says state result.ingested).state spt.new spt_dir.new tsp.new tsp_dir.new tally.new ≡ outcome field (tallied_of state spt.old spt_dir.old tsp.old tsp_dir.old tally.old) (ingest (record { prune = numbers_of pairs; handed = ingestion })) }
{
    ingest_entry_by_value(state, spt, spt_dir, tsp, tsp_dir, tally, pairs, ingestion)
}

// `forget_entry` is a forgetting of a list.
pub fn entry_listed(
    state: State,
    spt: &mut [u8],
    spt_dir: &mut [u32],
    tsp: &mut [u8],
    tsp_dir: &mut [u32],
    tally: &mut [u8],
    subspace: Subspace,
    path: Path,
    expected: Option<[u8; 32]>,
) -> Result<State, Refusal>
    ensures { outcome_of (number_verdict (entry_forgotten_says state result).refusal) 0 (entry_forgotten_says state result).state spt.new spt_dir.new tsp.new tsp_dir.new tally.new ≡ outcome field (tallied_of state spt.old spt_dir.old tsp.old tsp_dir.old tally.old) (forget_entry (record { subspace = subspace; path = path; expects = is_some expected; digest = digest_in expected })) }
{
    forget_entry(
        state, spt, spt_dir, tsp, tsp_dir, tally, subspace, path, expected,
    )
}

// `record_available_length` is a recording of a list, whatever the tally, which it is not lent and which stays.
pub fn recording_listed(
    state: State,
    spt: &mut [u8],
    spt_dir: &[u32],
    tsp: &mut [u8],
    tsp_dir: &[u32],
    subspace: Subspace,
    path: Path,
    expected: Option<[u8; 32]>,
    available: u64,
) -> Result<(), Refusal>
    ensures { (tally : List ℕ) → outcome_of (number_verdict (available_says state result).refusal) 0 (available_says state result).state spt.new spt_dir.now tsp.new tsp_dir.now tally ≡ outcome field (tallied_of state spt.old spt_dir.now tsp.old tsp_dir.now tally) (record_available (record { target = record { subspace = subspace; path = path; expects = is_some expected; digest = digest_in expected }; available = available })) }
{
    record_available_length(
        state, spt, spt_dir, tsp, tsp_dir, subspace, path, expected, available,
    )
}

// `forget_payload` is one of a list, whatever the tally, which it is not lent and which stays.
pub fn payload_listed(
    state: State,
    spt: &mut [u8],
    spt_dir: &[u32],
    tsp: &mut [u8],
    tsp_dir: &[u32],
    subspace: Subspace,
    path: Path,
    expected: Option<[u8; 32]>,
) -> Result<(), Refusal>
    ensures { (tally : List ℕ) → outcome_of (number_verdict (available_says state result).refusal) 0 (available_says state result).state spt.new spt_dir.now tsp.new tsp_dir.now tally ≡ outcome field (tallied_of state spt.old spt_dir.now tsp.old tsp_dir.now tally) (forget_payload (record { subspace = subspace; path = path; expects = is_some expected; digest = digest_in expected })) }
{
    forget_payload(state, spt, spt_dir, tsp, tsp_dir, subspace, path, expected)
}

// `forget_area` is a forgetting of a list.
pub fn area_listed(
    state: State,
    spt: &mut [u8],
    spt_dir: &mut [u32],
    tsp: &mut [u8],
    tsp_dir: &mut [u32],
    tally: &mut [u8],
    area: Area,
    protected: Option<Area>,
) -> Result<AreaForgotten, Refusal>
    ensures { outcome_of (number_verdict (area_forgotten_says state result).refusal) (area_forgotten_says state result).forgotten (area_forgotten_says state result).state spt.new spt_dir.new tsp.new tsp_dir.new tally.new ≡ outcome field (tallied_of state spt.old spt_dir.old tsp.old tsp_dir.old tally.old) (forget_area (record { area = area; protects = is_some protected; protected = unwrap_or protected area })) }
{
    forget_area(state, spt, spt_dir, tsp, tsp_dir, tally, area, protected)
}

fn yes() -> bool {
    true
}

// Whether a slice's numbers are below 256: they are.
fn is_bytes(s: &[u8]) -> bool
    ensures { Bytes s.now }
{
    yes()
}

// Whether an origin's session is a number of 64 bits: it is.
fn session_is_number(origin: EntryOrigin) -> bool
    ensures { origin_session origin < 2 ^ 64 }
{
    origin.session() <= 0xffff_ffff_ffff_ffff
}

// Whether what an ingestion is handed is a value: it is, whatever the prune list.
pub fn ingestion_is_value(ingestion: Ingestion) -> bool
    ensures { (prune : List ℕ) → IsValue field (ingest (record { prune = prune; handed = ingestion })) }
{
    session_is_number(ingestion.origin) & is_bytes(&ingestion.entry.path.bytes)
}

// Whether what the forgetting of an entry is handed is a value: it is.
pub fn entry_forgetting_is_value(
    subspace: Subspace,
    path: Path,
    expects: bool,
    digest: [u8; 32],
) -> bool
    ensures { IsValue field (forget_entry (record { subspace = subspace; path = path; expects = expects; digest = digest })) }
{
    true
}

// Whether what the forgetting of an area is handed is a value: it is.
pub fn area_forgetting_is_value(area: Area, protects: bool, protected: Area) -> bool
    ensures { IsValue field (forget_area (record { area = area; protects = protects; protected = protected })) }
{
    true
}

// Whether what a recording, or the forgetting of one, is handed is a value: it is.
pub fn recording_is_value(
    subspace: Subspace,
    path: Path,
    expects: bool,
    digest: [u8; 32],
    available: u64,
) -> bool
    ensures value { IsValue field (record_available (record { target = record { subspace = subspace; path = path; expects = expects; digest = digest }; available = available })) }
    ensures value_2 { IsValue field (forget_payload (record { subspace = subspace; path = path; expects = expects; digest = digest })) }
{
    true
}
