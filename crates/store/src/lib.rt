// The store: two trees of the same entries in lent buffers, one in subspace-first and one in time-first order. The public entries are
// `open::open`, `ingest::ingest_entry_numbers`, `forget::forget_entry` and `forget::forget_area`: they have no `requires`. `check` is for
// them and for the calls that only read, `tallied` for those that are lent the store's tally; `decide` and `change` are the store's own.
#![tactic(auto)]

mod change;
pub mod check;
mod decide;
pub mod forget;
pub mod ingest;
pub mod open;
pub mod place;
pub mod state;
pub mod tallied;
