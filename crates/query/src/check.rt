// What the calls that only read begin with: their tests.
ghost use Rattle.std.specs.Prelude.{◌≡◌, true};
ghost use Rattle.data_model.specs.Path.{field};
ghost use Rattle.data_model.specs.Refusal.{refused_with};
ghost use Rattle.store.specs.Lent.{lent};
ghost use Rattle.query.specs.Reading.{read_refusal, is_remembered, list_refusal};

use data_model::answer::Refusal;
use store::state::Store;
use tree::stored::{KeyOrder, is_key};

// Refused with 1, 2, 3 or 4. `paths`: the paths that are looked at are legal.
#[tactic(auto, using(store::proofs::CheckLaws::early, crate::proofs::Tested::second_refused), unfolding(crate::specs::Reading::read_refusal, store::specs::Refusal::unless))]
pub fn read_refusal(store: Store, paths: bool) -> Result<(), Refusal>
    ensures { refused_with result ≡ read_refusal field (lent store.entry) paths }
{
    store.check(true)?;
    if paths {
        Ok(())
    } else {
        Err(Refusal::IllegalPath)
    }
}

// Whether a listing may remember these bytes: at its start no bytes, else a key that the subspace-first encoder writes.
#[tactic(auto, using(crate::proofs::StartLaws::remember_empty, crate::proofs::StartLaws::remember_key))]
fn is_remembered(last: &[u8]) -> bool
    ensures { result ≡ is_remembered field last.now }
{
    last.is_empty() || is_key(KeyOrder::Spt, last)
}

// What a step of a listing begins with: refused with 1, 2, 3, 4 or 5. `paths`: the paths that are looked at are legal. `last`: the key that the listing remembers.
#[tactic(auto, using(store::proofs::CheckLaws::early, crate::proofs::Tested::second_refused), unfolding(crate::specs::Reading::list_refusal, store::specs::Refusal::unless))]
pub fn list_refusal(store: Store, paths: bool, last: &[u8]) -> Result<(), Refusal>
    ensures { refused_with result ≡ list_refusal field (lent store.entry) paths last.now }
{
    read_refusal(store, paths)?;
    if is_remembered(last) {
        Ok(())
    } else {
        Err(Refusal::NoKey)
    }
}
