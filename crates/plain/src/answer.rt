// Answers about values and of the calls that only read, told in plain values. `refusal` is 0, or the number of the refusal, and all else is then 0 or empty.
// Kept (1): C has no enum with values, so each answer here has the refusal's number, and a yes or no, beside its value.
// Kept (2): an exported function takes no generic struct, so answers of one form that the C header names apart are structs apart.
ghost use Rattle.std.specs.Prelude.{◌≡◌};
ghost use Rattle.data_model.specs.Refusal.{said, said_by, ordering_says, recency_says};
ghost use Rattle.query.specs.Count.{count_told};
ghost use Rattle.plain.specs.Answer.{plain_answer, plain_compared, plain_entries_compared, plain_above, plain_listed, plain_counted};

use data_model::answer::{Recency, Refusal};
use data_model::path::Path;
use std::cmp::Ordering;

// Refusal 0 and whether it holds; or the refusal.
#[repr(C)]
#[derive(Clone, Copy)]
pub struct PlainAnswer {
    pub refusal: u8,
    pub yes: bool,
}

// Refusal 0 and how the first compares with the second, equal if neither is true; or the refusal.
#[repr(C)]
#[derive(Clone, Copy)]
pub struct PlainCompared {
    pub refusal: u8,
    pub less: bool,
    pub greater: bool,
}

// Refusal 0 and how the first entry stands to the second, the same if neither is true; or the refusal.
#[repr(C)]
#[derive(Clone, Copy)]
pub struct PlainEntriesCompared {
    pub refusal: u8,
    pub newer: bool,
    pub older: bool,
}

// Refusal 0 and whether there is such a path, and it; or the refusal and all else 0.
#[repr(C)]
#[derive(Clone, Copy)]
pub struct PlainAbove {
    pub refusal: u8,
    pub found: bool,
    pub path: Path,
}

// Refusal 0 and whether a step of a listing gave a record, being else finished; or the refusal.
#[repr(C)]
#[derive(Clone, Copy)]
pub struct PlainListed {
    pub refusal: u8,
    pub found: bool,
}

// Refusal 0 and the count; or the refusal and 0.
#[repr(C)]
#[derive(Clone, Copy)]
pub struct PlainCounted {
    pub refusal: u8,
    pub count: usize,
}

// The answer to a question about paths.
impl From<Result<bool, Refusal>> for PlainAnswer {
    ghost from_gives = { λ answer plain. plain ≡ plain_answer (said answer) };

    fn from(answer: Result<bool, Refusal>) -> PlainAnswer {
        match answer {
            Ok(yes) => PlainAnswer { refusal: 0, yes },
            Err(refusal) => PlainAnswer {
                refusal: refusal.into(),
                yes: false,
            },
        }
    }
}

// The answer of a comparison.
impl From<Result<Ordering, Refusal>> for PlainCompared {
    ghost from_gives = { λ answer plain. plain ≡ plain_compared (said_by ordering_says answer) };

    #[tactic(auto, unfolding(laws::specs::Order::is_less, laws::specs::Order::is_greater))]
    fn from(answer: Result<Ordering, Refusal>) -> PlainCompared {
        match answer {
            Ok(order) => PlainCompared {
                refusal: 0,
                less: order.is_lt(),
                greater: order.is_gt(),
            },
            Err(refusal) => PlainCompared {
                refusal: refusal.into(),
                less: false,
                greater: false,
            },
        }
    }
}

// The answer of a comparison of two entries.
impl From<Result<Recency, Refusal>> for PlainEntriesCompared {
    ghost from_gives = { λ answer plain. plain ≡ plain_entries_compared (said_by recency_says answer) };

    #[tactic(auto, unfolding(laws::specs::Order::is_less, laws::specs::Order::is_greater))]
    fn from(answer: Result<Recency, Refusal>) -> PlainEntriesCompared {
        match answer {
            Ok(recency) => PlainEntriesCompared {
                refusal: 0,
                newer: matches!(recency, Recency::Newer),
                older: matches!(recency, Recency::Older),
            },
            Err(refusal) => PlainEntriesCompared {
                refusal: refusal.into(),
                newer: false,
                older: false,
            },
        }
    }
}

// The answer to the question which path is the least above what a path prefixes.
impl From<Result<Option<Path>, Refusal>> for PlainAbove {
    ghost from_gives = { λ answer plain. plain ≡ plain_above (said answer) };

    fn from(answer: Result<Option<Path>, Refusal>) -> PlainAbove {
        match answer {
            Ok(Some(path)) => PlainAbove {
                refusal: 0,
                found: true,
                path,
            },
            Ok(None) => PlainAbove {
                refusal: 0,
                found: false,
                path: Path::new_empty(),
            },
            Err(refusal) => PlainAbove {
                refusal: refusal.into(),
                found: false,
                path: Path::new_empty(),
            },
        }
    }
}

// The answer of a listing's step.
impl From<Result<bool, Refusal>> for PlainListed {
    ghost from_gives = { λ answer plain. plain ≡ plain_listed (said answer) };

    fn from(answer: Result<bool, Refusal>) -> PlainListed {
        match answer {
            Ok(found) => PlainListed { refusal: 0, found },
            Err(refusal) => PlainListed {
                refusal: refusal.into(),
                found: false,
            },
        }
    }
}

// The answer of a count.
impl From<Result<usize, Refusal>> for PlainCounted {
    ghost from_gives = { λ answer plain. plain ≡ plain_counted (count_told answer) };

    fn from(answer: Result<usize, Refusal>) -> PlainCounted {
        match answer {
            Ok(count) => PlainCounted { refusal: 0, count },
            Err(refusal) => PlainCounted {
                refusal: refusal.into(),
                count: 0,
            },
        }
    }
}
