// A line carried out: read, and ingested if it says an entry.
ghost use Rattle.std.specs.Prelude.{◌≡◌};
ghost use Rattle.data_model.specs.Path.{field};
ghost use Rattle.store.specs.Store.{tallied_of};
ghost use Rattle.store.specs.Ingest.{ingested_says};
ghost use Rattle.listing.specs.Carry.{entry_of_line, ingestion_of_line, answer_of, answer_without, line_outcome, line_carried};

use data_model::answer::Refusal;
use data_model::entry::Entry;
use data_model::entry_origin::EntryOrigin;
use data_model::parameters::Subspace;
use store::ingest::{Ingested, Ingestion, ingest_entry_numbers};
use store::state::State;
use text::entry_line::{EntryLine, read_line};
use text::path::FieldError;

// What a line is answered.
#[derive(Clone, Copy, PartialEq, Eq, Debug)]
pub enum Answer {
    // The entry was stored.
    Ok,
    // A newer entry stands in its place.
    Obsolete,
    // The entry is held already.
    Held,
    // The line is not of the form.
    Bad,
    // Kept (1): `answer_of` of the specs is handed a `Said`, whose refusal is a number, and from a number no `Refusal` can be had.
    Refused(u8),
}

// The answer to a line, and the state that it leaves.
#[derive(Clone, Copy)]
pub struct Carried {
    pub answer: Answer,
    pub state: State,
}

// The entry of a line, in namespace 0.
fn entry_of(e: EntryLine) -> Entry
    ensures { result ≡ entry_of_line e }
{
    Entry {
        namespace_id: [0; 16],
        subspace_id: Subspace {
            high: 0,
            low: u64::from(e.subspace),
        },
        path: e.path,
        timestamp: e.timestamp,
        payload_length: e.payload_length,
        payload_digest: [e.digest; 32],
    }
}

// What is ingested of a line: its entry with token 0, filed as local, and pruning is not prevented.
fn ingestion_of_line(e: EntryLine) -> Ingestion
    ensures { result ≡ ingestion_of_line e }
{
    Ingestion {
        entry: entry_of(e),
        token: [0; 64],
        prevent_pruning: false,
        origin: EntryOrigin::Local,
    }
}

// The answer to an ingestion, and the state that it leaves of the one handed in.
#[tactic(auto, unfolding(crate::specs::Carry::answer_of))]
fn outcome_of(ingested: Result<Ingested, Refusal>, handed: State) -> Carried
    ensures { (result.answer ≡ answer_of (ingested_says handed ingested).verdict) × (result.state ≡ (ingested_says handed ingested).state) }
{
    match ingested {
        Ok(Ingested::Success { state, .. }) => Carried {
            answer: Answer::Ok,
            state,
        },
        Ok(Ingested::Obsolete { .. }) => Carried {
            answer: Answer::Obsolete,
            state: handed,
        },
        Ok(Ingested::Held) => Carried {
            answer: Answer::Held,
            state: handed,
        },
        Err(refusal) => Carried {
            answer: Answer::Refused(u8::from(refusal)),
            state: handed,
        },
    }
}

// The answer to a line that says no entry.
#[tactic(auto, unfolding(crate::specs::Carry::answer_without))]
fn answer_without(why: FieldError) -> Answer
    ensures { result ≡ answer_without why }
{
    match why {
        FieldError::Illegal => Answer::Refused(u8::from(Refusal::IllegalPath)),
        FieldError::Bad => Answer::Bad,
    }
}

// Kept (5): the store's buffers are lent one by one: a clause could name what a struct of `&mut` leaves only by the numbers of its parts.

// Pruning is never prevented; tokens are 0; every entry is filed as local.
pub fn carry_out(
    line: &[u8],
    state: State,
    spt: &mut [u8],
    spt_dir: &mut [u32],
    tsp: &mut [u8],
    tsp_dir: &mut [u32],
    tally: &mut [u8],
    prune: &mut [u32],
) -> Carried
    ensures { line_outcome result spt.new spt_dir.new tsp.new tsp_dir.new tally.new prune.new ≡ line_carried field (tallied_of state spt.old spt_dir.old tsp.old tsp_dir.old tally.old) prune.old line.now }
{
    match read_line(line) {
        Ok(e) => {
            let ingested = ingest_entry_numbers(
                state,
                spt,
                spt_dir,
                tsp,
                tsp_dir,
                tally,
                prune,
                ingestion_of_line(e),
            );
            outcome_of(ingested, state)
        }
        Err(why) => Carried {
            answer: answer_without(why),
            state,
        },
    }
}
