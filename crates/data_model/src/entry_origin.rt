// Where an entry came from.
ghost use Rattle.std.specs.Prelude.{◌≡◌};
ghost use Rattle.data_model.specs.Origin.{origin_kind, origin_session, origin_of, is_origin};

// The numbers of the two kinds.
// Kept (1): a stored value may hold any byte here, and whether it is one of these is the answer of `is_origin`.
pub const LOCAL: u8 = 0;

pub const REMOTE: u8 = 1;

// An entry was filed here; or it came from another source, in the session with this number.
#[derive(Clone, Copy, PartialEq, Eq, Debug)]
pub enum EntryOrigin {
    Local,
    Remote(u64),
}

// Whether a kind and a session number are those of an origin: local with number 0, or remote with any number.
#[tactic(auto, unfolding(crate::specs::Origin::is_origin))]
pub fn is_origin(kind: u8, session: u64) -> bool
    ensures { result ≡ is_origin kind session }
{
    if kind == LOCAL {
        session == 0
    } else {
        kind == REMOTE
    }
}

// Kept (4): `new`, `kind` and `session` are public entries, and a stored value and C hold the two numbers apart: a tuple by `From` would be taken apart at once.
impl EntryOrigin {
    // The origin of a kind and a session number: local if the kind says so, else remote.
    #[tactic(auto, unfolding(crate::specs::Origin::origin_of))]
    pub fn new(kind: u8, session: u64) -> EntryOrigin
        ensures { result ≡ origin_of kind session }
    {
        if kind == LOCAL {
            EntryOrigin::Local
        } else {
            EntryOrigin::Remote(session)
        }
    }

    // The number of its kind.
    #[tactic(auto, unfolding(crate::specs::Origin::origin_kind))]
    pub fn kind(self) -> u8
        ensures { result ≡ origin_kind self }
    {
        match self {
            EntryOrigin::Local => LOCAL,
            EntryOrigin::Remote(_) => REMOTE,
        }
    }

    // The number of its session, which is 0 for local.
    #[tactic(auto, unfolding(crate::specs::Origin::origin_session))]
    pub fn session(self) -> u64
        ensures { result ≡ origin_session self }
    {
        match self {
            EntryOrigin::Local => 0,
            EntryOrigin::Remote(session) => session,
        }
    }
}
