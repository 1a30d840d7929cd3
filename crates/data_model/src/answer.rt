// Answers, and why a call of any layer is refused.
ghost use Rattle.std.specs.Prelude.{◌≡◌};
ghost use Rattle.data_model.specs.Refusal.{refusal_number, ordering_says, recency_says};

use std::cmp::Ordering;

// Why a call is refused, in the order of the numbers that document 01 gives.
#[derive(Clone, Copy, PartialEq, Eq, Debug)]
pub enum Refusal {
    // The limit is outside 1 to 1,024.
    BadLimit = 1,
    // A lent buffer is too short.
    ShortBuffer = 2,
    // The store handed in is not well-formed.
    NotWellFormed = 3,
    // A path handed in is illegal.
    IllegalPath = 4,
    // A key handed in is none that the encoder of its order writes.
    NoKey = 5,
    // An entry names another namespace than the store's.
    OtherNamespace = 6,
    // Pruning is prevented, and an entry would be removed.
    PruningPrevented = 7,
    // The entries left after pruning already number the limit.
    Full = 8,
    // The stored entry's digest is not the one expected.
    OtherDigest = 9,
    // The tally handed in is not the one its store gives.
    WrongTally = 10,
    // No entry stands at the subspace and path.
    AbsentEntry = 11,
    // An available length is above the payload length.
    TooMuchAvailable = 12,
}

// The number of a refusal, from 1 to 12.
impl From<Refusal> for u8 {
    ghost from_gives = { λ refusal n. n ≡ refusal_number refusal };

    fn from(refusal: Refusal) -> u8 {
        refusal as u8
    }
}

// How the first of two entries stands to the second.
#[derive(Clone, Copy, PartialEq, Eq, Debug)]
pub enum Recency {
    Newer,
    Older,
    Same,
}

// The case for each order of two ranks, which is the order of the first of their parts that differs: the greater is the newer.
impl From<Ordering> for Recency {
    ghost from_gives = { λ order recency. recency_says recency ≡ ordering_says order };

    fn from(order: Ordering) -> Recency {
        match order {
            Ordering::Less => Recency::Older,
            Ordering::Equal => Recency::Same,
            Ordering::Greater => Recency::Newer,
        }
    }
}
