// Answers of the calls that change a store, told in plain values. `refusal` is 0, or the number of the refusal, and all else is then 0 or empty, but for the state that was handed in.
// Kept (1): C has no enum with values, so each answer here has the refusal's number, and what happened, beside its values.
// Kept (6): C is handed the whole prune list by value, since there is no heap.
// Kept (2): an exported function takes no generic struct, so answers of one form that the C header names apart are structs apart.
ghost use Rattle.std.specs.Prelude.{◌≡◌};
ghost use Rattle.store.specs.Open.{opened_says};
ghost use Rattle.store.specs.Ingest.{ingested_says};
ghost use Rattle.store.specs.Forget.{entry_forgotten_says, area_forgotten_says};
ghost use Rattle.plain.specs.Change.{opened_read, plain_ingested, plain_numbers, entry_forgotten_read, area_forgotten_read, plain_available};

use data_model::answer::Refusal;
use data_model::entry::Entry;
use pairs::{NUMBERS_MOST, NumbersIngested};
use store::forget::AreaForgotten;
use store::ingest::Ingested;
use store::state::State;

// Refusal 0 and the state; or the refusal and a state that is all 0.
#[repr(C)]
#[derive(Clone, Copy)]
pub struct PlainOpened {
    pub refusal: u8,
    pub state: State,
}

// Refusal 0 and how many entries were pruned; or obsolete, with the newer entry and its token; or held, the very entry being stored already; or the refusal. In each case the state.
#[repr(C)]
#[derive(Clone, Copy)]
pub struct PlainIngested {
    pub refusal: u8,
    pub obsolete: bool,
    pub held: bool,
    pub pruned: usize,
    pub state: State,
    pub newer: Entry,
    pub token: [u8; 64],
}

// An ingestion's answer and the whole prune list by value, two numbers a pair.
#[repr(C)]
#[derive(Clone, Copy)]
pub struct PlainNumbersIngested {
    pub ingested: PlainIngested,
    pub numbers: [u32; NUMBERS_MOST],
}

// Refusal 0 and the state; or the refusal and the state that was handed in.
#[repr(C)]
#[derive(Clone, Copy)]
pub struct PlainEntryForgotten {
    pub refusal: u8,
    pub state: State,
}

// Refusal 0, the state and how many entries were forgotten; or the refusal and the state that was handed in.
#[repr(C)]
#[derive(Clone, Copy)]
pub struct PlainAreaForgotten {
    pub refusal: u8,
    pub state: State,
    pub forgotten: usize,
}

// The refusal, 0 for none, and the state that was handed in.
#[repr(C)]
#[derive(Clone, Copy)]
pub struct PlainAvailableRecorded {
    pub refusal: u8,
    pub state: State,
}

// The answer of an opening.
impl From<Result<State, Refusal>> for PlainOpened {
    ghost from_gives = { λ answer plain. opened_read plain ≡ opened_says answer };

    fn from(answer: Result<State, Refusal>) -> PlainOpened {
        match answer {
            Ok(state) => PlainOpened { refusal: 0, state },
            Err(refusal) => PlainOpened {
                refusal: refusal.into(),
                state: State {
                    namespace_id: [0; 16],
                    count: 0,
                    limit: 0,
                },
            },
        }
    }
}

// The answer of an ingestion that was handed a state.
#[tactic(auto, unfolding(data_model::specs::Said::number_of))]
pub fn plain_ingested(state: State, answer: Result<Ingested, Refusal>) -> PlainIngested
    ensures { result ≡ plain_ingested (ingested_says state answer) }
{
    let none = PlainIngested {
        refusal: 0,
        obsolete: false,
        held: false,
        pruned: 0,
        state,
        newer: Entry::zero(),
        token: [0; 64],
    };
    match answer {
        Ok(Ingested::Success { state, pruned }) => PlainIngested {
            pruned,
            state,
            ..none
        },
        Ok(Ingested::Obsolete { newer, token }) => PlainIngested {
            obsolete: true,
            newer,
            token,
            ..none
        },
        Ok(Ingested::Held) => PlainIngested { held: true, ..none },
        Err(refusal) => PlainIngested {
            refusal: refusal.into(),
            ..none
        },
    }
}

// The answer of an ingestion over pairs by value that was handed a state.
pub fn plain_numbers(state: State, answer: NumbersIngested) -> PlainNumbersIngested
    ensures { result ≡ plain_numbers state answer }
{
    let numbers = answer.numbers;
    PlainNumbersIngested {
        ingested: plain_ingested(state, answer.ingested),
        numbers,
    }
}

// The answer of the forgetting of an entry that was handed a state.
pub fn plain_entry_forgotten(state: State, answer: Result<State, Refusal>) -> PlainEntryForgotten
    ensures { entry_forgotten_read result ≡ entry_forgotten_says state answer }
{
    match answer {
        Ok(state) => PlainEntryForgotten { refusal: 0, state },
        Err(refusal) => PlainEntryForgotten {
            refusal: refusal.into(),
            state,
        },
    }
}

// The answer of the forgetting of an area that was handed a state.
pub fn plain_area_forgotten(
    state: State,
    answer: Result<AreaForgotten, Refusal>,
) -> PlainAreaForgotten
    ensures { area_forgotten_read result ≡ area_forgotten_says state answer }
{
    match answer {
        Ok(left) => PlainAreaForgotten {
            refusal: 0,
            state: left.state,
            forgotten: left.forgotten,
        },
        Err(refusal) => PlainAreaForgotten {
            refusal: refusal.into(),
            state,
            forgotten: 0,
        },
    }
}

// The answer of a call about an available length that was handed a state.
pub fn plain_available(state: State, answer: Result<(), Refusal>) -> PlainAvailableRecorded
    ensures { result ≡ plain_available state answer }
{
    match answer {
        Ok(()) => PlainAvailableRecorded { refusal: 0, state },
        Err(refusal) => PlainAvailableRecorded {
            refusal: refusal.into(),
            state,
        },
    }
}
