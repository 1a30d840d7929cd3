// A step of a listing, over the records in their order: from the first key above the remembered one on, the first that matches, and where its record lies.
ghost use Rattle.std.specs.Prelude.{◌≡◌, true, List, ℕ, ◌*◌, ◌≤◌, length, Ok};
ghost use Rattle.data_model.specs.Path.{field};
ghost use Rattle.tree.specs.declared.stored.KeyOrder.TheVariants.{Spt};
ghost use Rattle.store.specs.Store.{limit_most};
ghost use Rattle.store.specs.Lent.{lent};
ghost use Rattle.query.specs.Listing.{part_told, step_in, not_above, place_among, step_at, step_told, group_listed, area_listed, range_listed};
ghost use Rattle.tree.specs.Lent.{IsOrdered, IsSearchable, records_in};

use crate::answer::Part;
use crate::check::list_refusal;
use crate::grouping::Grouping;
use data_model::answer::Refusal;
use data_model::area::Area;
use data_model::query_ignore_params::QueryIgnoreParams;
use data_model::range_3d::Range3d;
use store::state::{LIMIT_MOST, Store};
use tree::marks::first_marked;
use tree::stored::{Tree, record_length, record_offset};

// How many records have keys that are not above the remembered one: from the place of that number on a listing goes on.
fn place_above(tree: Tree, last: &[u8]) -> usize
    requires { IsSearchable tree }
    ensures { (result ≡ not_above last.now (records_in tree.entry)) × (result ≤ tree.entry.count) }
{
    match tree.find(last) {
        Ok(at) => at + 1,
        Err(at) => at,
    }
}

// The place of a grouping's least match above the remembered key, in the subspace-first tree in its room; the count if there is none.
fn next_in<G: Grouping>(tree: Tree, group: G, ignore: QueryIgnoreParams, last: &[u8]) -> usize
    requires { (tree.order ≡ Spt) × (IsOrdered tree) × (tree.count ≤ limit_most) × (G.legal group ≡ true) }
    ensures { (ns : List ℕ) → result ≡ place_among (records_in tree.entry) (step_in field ns (G.lists group ignore) last.now (records_in tree.entry)) }
{
    let mut marks = [0u8; LIMIT_MOST];
    group.mark(tree, ignore, &mut marks);
    first_marked(&marks[..tree.count], place_above(tree, last))
}

// The step that gives the record of a place; the count's place has none.
#[tactic(auto, using(crate::proofs::GivenLaws::at_record, crate::proofs::GivenLaws::at_none))]
fn step_at(tree: Tree, place: usize) -> Option<Part>
    requires { 2 * tree.count ≤ length tree.dir.now }
    ensures { part_told (Ok result) ≡ step_at tree.entry.count tree.entry.dir.now place }
{
    if place < tree.count {
        Some(Part {
            offset: record_offset(tree.dir, place),
            length: record_length(tree.dir, place),
        })
    } else {
        None
    }
}

// A step of a grouping's listing: where the record lies that it gives, in the subspace-first tree; nothing where the listing is finished.
#[tactic(auto, using(crate::proofs::GivenLaws::step_refused))]
pub fn group_step<G: Grouping>(
    store: Store,
    group: G,
    ignore: QueryIgnoreParams,
    last: &[u8],
) -> Result<Option<Part>, Refusal>
    ensures { part_told result ≡ step_told field (lent store.entry) (group_listed field (lent store.entry) (G.legal group) (G.lists group ignore) last.now) }
{
    list_refusal(store, group.is_legal(), last)?;
    let tree = store.spt();
    Ok(step_at(tree, next_in(tree, group, ignore, last)))
}

// A step of an area's listing: for the calls of `listing`, and for a caller that cannot be handed a part.
pub fn area_step(
    store: Store,
    area: Area,
    ignore: QueryIgnoreParams,
    last: &[u8],
) -> Result<Option<Part>, Refusal>
    ensures { part_told result ≡ step_told field (lent store.entry) (area_listed field (lent store.entry) area ignore last.now) }
{
    group_step(store, area, ignore, last)
}

// A step of a 3d range's listing: for the calls of `listing`, and for a caller that cannot be handed a part.
pub fn range_step(
    store: Store,
    range: Range3d,
    ignore: QueryIgnoreParams,
    last: &[u8],
) -> Result<Option<Part>, Refusal>
    ensures { part_told result ≡ step_told field (lent store.entry) (range_listed field (lent store.entry) range ignore last.now) }
{
    group_step(store, range, ignore, last)
}
