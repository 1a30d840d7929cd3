// The state of a store, by value; and a store that is lent to be read.
ghost use Rattle.std.specs.Prelude.{◌≡◌};
ghost use Rattle.key_laws.specs.Bytes.{Bytes};
ghost use Rattle.store.specs.Store.{state_with};

use keys::encode::KEY_MOST;
use tree::value::VALUE;

// The most entries that a store may be opened for, and the most bytes of a record.
pub const LIMIT_MOST: usize = 1024;

pub const RECORD_MOST: usize = KEY_MOST + VALUE;

// Kept (6): 01 fixes the state, a namespace, a count and a limit, and C sees it.
#[repr(C)]
#[derive(Clone, Copy)]
pub struct State {
    pub namespace_id: [u8; 16],
    pub count: usize,
    pub limit: usize,
}

impl State {
    // The same state with another count.
    pub fn with_count(self, count: usize) -> State
        ensures { result ≡ state_with self count }
    {
        State { count, ..self }
    }
}

// Kept (5): `limit_ok` and `roomy` stay clauses of `spt` and `tsp`: the test of a store is handed one that may have no room.
// A store that is lent to be read: its state, and of each of its two trees the bytes and the directory. A record that a call gives lives as long as the subspace-first bytes. It promises only what the type says of any bytes.
#[derive(Clone, Copy)]
pub struct Store<'a, 'b> {
    pub state: State,
    pub spt: &'a [u8],
    pub spt_dir: &'b [u32],
    pub tsp: &'b [u8],
    pub tsp_dir: &'b [u32],
    ghost spt_fits: { Bytes spt.now },
    ghost tsp_fits: { Bytes tsp.now },
}
