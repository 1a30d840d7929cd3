// The thin ingest layer: the pruned pairs go to a lent slice of pair records, over the store's core on numbers. Only the pairs are lent.
// Kept (5): a clause could name what a struct of `&mut` leaves only by the numbers of its parts, as `t.exit.1.0.now`.
// Kept (6): the numbers are an array for the most pairs there can be, since there is no heap; how many count is the answer's.
#![tactic(auto)]

ghost use Rattle.std.specs.Prelude.{◌≡◌, ◌*◌, ◌≤◌, length, take, replicate};
ghost use Rattle.laws.specs.Lists.{put};
ghost use Rattle.data_model.specs.Path.{field};
ghost use Rattle.store.specs.Store.{limit_most, tallied_of};
ghost use Rattle.store.specs.Ingest.{verdict_says, ingested_says, ingest_outcome, ingested};
ghost use Rattle.pairs.specs.Pairs.{pairs_of, numbers_of, pruned_count, numbers_used, pairs_outcome, pairs_ingested};

use data_model::answer::Refusal;
use store::ingest::{Ingested, Ingestion, ingest_entry_numbers};
use store::state::{LIMIT_MOST, State};

// Offset and length of a record.
#[repr(C)]
#[derive(Clone, Copy)]
pub struct Pair {
    pub offset: u32,
    pub length: u32,
}

// The most numbers of a prune list: two for each entry.
pub const NUMBERS_MOST: usize = 2 * LIMIT_MOST;

// The core's answer, and the numbers of the pairs that it pruned.
#[derive(Clone, Copy)]
pub struct NumbersIngested {
    pub ingested: Result<Ingested, Refusal>,
    pub numbers: [u32; NUMBERS_MOST],
}

// How many pairs an answer says that were pruned: none, unless it is a success.
pub fn pruned_count(ingested: Result<Ingested, Refusal>) -> usize
    ensures { result ≡ pruned_count (verdict_says ingested) }
{
    match ingested {
        Ok(Ingested::Success { pruned, .. }) => pruned,
        _ => 0,
    }
}

// How many numbers a prune list of some pairs has, as far as an entry may need them.
#[tactic(auto, unfolding(crate::specs::Pairs::numbers_used))]
fn numbers_used(pairs: usize) -> usize
    ensures { (result ≡ numbers_used pairs) × (result ≤ 2 * limit_most) }
{
    2 * pairs.min(LIMIT_MOST)
}

// The core, on as many numbers as the pairs have room for: its refusal 2 is theirs.
pub fn ingest_with_room(
    state: State,
    spt: &mut [u8],
    spt_dir: &mut [u32],
    tsp: &mut [u8],
    tsp_dir: &mut [u32],
    tally: &mut [u8],
    room: usize,
    ingestion: Ingestion,
) -> NumbersIngested
    ensures { ingest_outcome (ingested_says state result.ingested) spt.new spt_dir.new tsp.new tsp_dir.new tally.new (take (numbers_used room) result.numbers) ≡ ingested field (tallied_of state spt.old spt_dir.old tsp.old tsp_dir.old tally.old) (replicate (numbers_used room) 0) ingestion }
{
    let mut numbers = [0u32; NUMBERS_MOST];
    let n = numbers_used(room);
    let ingested = ingest_entry_numbers(
        state,
        spt,
        spt_dir,
        tsp,
        tsp_dir,
        tally,
        &mut numbers[..n],
        ingestion,
    );
    NumbersIngested { ingested, numbers }
}

// An answer, and the numbers of its pairs.
fn in_numbers(ingested: Result<Ingested, Refusal>, pairs: [Pair; LIMIT_MOST]) -> NumbersIngested
    ensures { (result.ingested ≡ ingested) × (result.numbers ≡ numbers_of pairs) }
{
    let mut numbers = [0u32; NUMBERS_MOST];
    for k in 0..LIMIT_MOST {
        numbers[2 * k] = pairs[k].offset;
        numbers[2 * k + 1] = pairs[k].length;
    }
    NumbersIngested { ingested, numbers }
}

// The first n pairs are those that the numbers spell.
fn write_pairs(numbers: [u32; NUMBERS_MOST], pairs: &mut [Pair], n: usize)
    requires { (n ≤ limit_most) × (n ≤ length pairs.old) }
    ensures { pairs.new ≡ put (pairs_of (take (2 * n) numbers)) pairs.old }
{
    for k in 0..n {
        pairs[k] = Pair {
            offset: numbers[2 * k],
            length: numbers[2 * k + 1],
        };
    }
}

// Ingests an entry: offset and length of each record that it removed stand in the lent pairs.
pub fn ingest_entry(
    state: State,
    spt: &mut [u8],
    spt_dir: &mut [u32],
    tsp: &mut [u8],
    tsp_dir: &mut [u32],
    tally: &mut [u8],
    pairs: &mut [Pair],
    ingestion: Ingestion,
) -> Result<Ingested, Refusal>
    ensures { pairs_outcome (ingested_says state result) spt.new spt_dir.new tsp.new tsp_dir.new tally.new pairs.new ≡ pairs_ingested field (tallied_of state spt.old spt_dir.old tsp.old tsp_dir.old tally.old) pairs.old ingestion }
{
    let r = ingest_with_room(
        state,
        spt,
        spt_dir,
        tsp,
        tsp_dir,
        tally,
        pairs.len(),
        ingestion,
    );
    write_pairs(r.numbers, pairs, pruned_count(r.ingested));
    r.ingested
}

// `ingest_entry` on pairs by value, for callers that can lend no slice of structs: the programs that are run.
pub fn ingest_entry_by_value(
    state: State,
    spt: &mut [u8],
    spt_dir: &mut [u32],
    tsp: &mut [u8],
    tsp_dir: &mut [u32],
    tally: &mut [u8],
    pairs: [Pair; LIMIT_MOST],
    ingestion: Ingestion,
) -> NumbersIngested
    ensures { pairs_outcome (ingested_says state result.ingested) spt.new spt_dir.new tsp.new tsp_dir.new tally.new (pairs_of result.numbers) ≡ pairs_ingested field (tallied_of state spt.old spt_dir.old tsp.old tsp_dir.old tally.old) pairs ingestion }
{
    let mut lent = pairs;
    let ingested = ingest_entry(
        state, spt, spt_dir, tsp, tsp_dir, tally, &mut lent, ingestion,
    );
    in_numbers(ingested, lent)
}
