// The answer of a lookup, told in plain values.
ghost use Rattle.std.specs.Prelude.{◌≡◌};
ghost use Rattle.query.specs.Lookup.{no_lengthy, entry_told};
ghost use Rattle.plain.specs.Found.{plain_origin, plain_lengthy, plain_found};

use crate::input::PlainOrigin;
use data_model::answer::Refusal;
use data_model::entry::Entry;
use data_model::entry_origin::EntryOrigin;
use tree::stored::LengthyAuthorisedEntry;

// An entry as it is stored: with its token, how much of its payload is available, and where it came from.
#[repr(C)]
#[derive(Clone, Copy)]
pub struct PlainLengthyEntry {
    pub entry: Entry,
    pub token: [u8; 64],
    pub available: u64,
    pub origin: PlainOrigin,
}

// Refusal 0, whether there is an entry, and it as it is stored; all else is 0 where there is none or the call is refused.
// Kept (1): C has no enum with values, so the refusal's number, and whether there is an entry, stand beside it.
#[repr(C)]
#[derive(Clone, Copy)]
pub struct PlainEntryFound {
    pub refusal: u8,
    pub found: bool,
    pub lengthy: PlainLengthyEntry,
}

// An origin in plain values: 1 and the session for remote, 0 and 0 for local.
impl From<EntryOrigin> for PlainOrigin {
    ghost from_gives = { λ origin plain. plain ≡ plain_origin origin };

    fn from(origin: EntryOrigin) -> PlainOrigin {
        PlainOrigin {
            remote: origin.kind(),
            session: origin.session(),
        }
    }
}

// An entry as it is stored, its origin in plain values.
impl From<LengthyAuthorisedEntry> for PlainLengthyEntry {
    ghost from_gives = { λ stored plain. plain ≡ plain_lengthy stored };

    fn from(stored: LengthyAuthorisedEntry) -> PlainLengthyEntry {
        let token = stored.token;
        PlainLengthyEntry {
            entry: stored.entry,
            token,
            available: stored.available,
            origin: stored.origin.into(),
        }
    }
}

// What is told where no entry is found: all 0, which is a local origin.
#[tactic(auto, unfolding(data_model::specs::Origin::origin_kind, data_model::specs::Origin::origin_session))]
fn no_lengthy() -> PlainLengthyEntry
    ensures { result ≡ plain_lengthy no_lengthy }
{
    PlainLengthyEntry {
        entry: Entry::zero(),
        token: [0; 64],
        available: 0,
        origin: PlainOrigin {
            remote: 0,
            session: 0,
        },
    }
}

// The answer of a lookup.
impl From<Result<Option<LengthyAuthorisedEntry>, Refusal>> for PlainEntryFound {
    ghost from_gives = { λ answer plain. plain ≡ plain_found (entry_told answer) };

    fn from(answer: Result<Option<LengthyAuthorisedEntry>, Refusal>) -> PlainEntryFound {
        match answer {
            Ok(Some(stored)) => PlainEntryFound {
                refusal: 0,
                found: true,
                lengthy: stored.into(),
            },
            Ok(None) => PlainEntryFound {
                refusal: 0,
                found: false,
                lengthy: no_lengthy(),
            },
            Err(refusal) => PlainEntryFound {
                refusal: refusal.into(),
                found: false,
                lengthy: no_lengthy(),
            },
        }
    }
}
