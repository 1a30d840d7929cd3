// Listings, in key order. A listing remembers the last key that it gave, at its start the empty key; a step answers the record of the least matching key above that
// one, in the store as it then is.
ghost use Rattle.std.specs.Prelude.{◌≡◌, ◌+◌, ◌≤◌, length, take, drop, IfOk, IfSome};
ghost use Rattle.laws.specs.Parts.{PartBegins};
ghost use Rattle.data_model.specs.Path.{field};
ghost use Rattle.data_model.specs.Refusal.{said};
ghost use Rattle.tree.specs.Stored.{key_of};
ghost use Rattle.store.specs.Lent.{lent};
ghost use Rattle.query.specs.Listing.{record_said, is_found, part_of, offset_of, group_listed, area_listed, range_listed, area_part, range_part, area_offset, range_offset};

use crate::answer::Part;
use crate::grouping::Grouping;
use crate::step::group_step;
use data_model::answer::Refusal;
use data_model::area::Area;
use data_model::query_ignore_params::QueryIgnoreParams;
use data_model::range_3d::Range3d;
use store::state::Store;
use tree::value::VALUE;

// A part of the tree, as it lies.
fn part_of<'a>(spt: &'a [u8], part: Part) -> &'a [u8]
    requires { part.offset + part.length ≤ length spt.now }
    ensures result_value { result.now ≡ take part.length (drop part.offset spt.now) }
    ensures part_begins { PartBegins spt.entry.ref_ptr result.ref_ptr part.offset }
{
    let end = part.offset + part.length;
    &spt[part.offset..end]
}

// A grouping's listing, which remembers the last key that it gave, at its start the empty one: the record of the least matching key above that one, as a part of the
// subspace-first tree; none where the listing is finished.
#[tactic(auto, using(crate::proofs::GivenLaws::given_refused, crate::proofs::GivenLaws::given_none))]
pub fn query_group<'a, G: Grouping>(
    store: Store<'a, '_>,
    group: G,
    ignore: QueryIgnoreParams,
    last: &[u8],
) -> Result<Option<&'a [u8]>, Refusal>
    ensures record { record_said result ≡ (group_listed field (lent store.entry) (G.legal group) (G.lists group ignore) last.now) }
    ensures part_begins { IfOk result (λ given. IfSome given (λ part. PartBegins store.entry.spt.ref_ptr part.ref_ptr (offset_of field (lent store.entry) (group_listed field (lent store.entry) (G.legal group) (G.lists group ignore) last.now)))) }
{
    match group_step(store, group, ignore, last)? {
        Some(part) => Ok(Some(part_of(store.spt, part))),
        None => Ok(None),
    }
}

// An area's listing, which remembers the last key that it gave, at its start the empty one: the record of the least matching key above that one, as a part of the
// subspace-first tree; nothing where the listing is finished or the call is refused.
// Kept (1): README and docs/STATEMENTS name this call and `query_area_found`, which C has apart; `query_group` is both in one.
pub fn query_area<'a>(
    store: Store<'a, '_>,
    area: Area,
    ignore: QueryIgnoreParams,
    last: &[u8],
) -> &'a [u8]
    ensures result_value { result.now ≡ area_part field (lent store.entry) area ignore last.now }
    ensures part_begins { PartBegins store.entry.spt.ref_ptr result.ref_ptr (area_offset field (lent store.entry) area ignore last.now) }
{
    match query_group(store, area, ignore, last) {
        Ok(Some(part)) => part,
        _ => &store.spt[..0],
    }
}

// Whether `query_area` finds a record, its listing being else finished.
pub fn query_area_found(
    store: Store,
    area: Area,
    ignore: QueryIgnoreParams,
    last: &[u8],
) -> Result<bool, Refusal>
    ensures { said result ≡ is_found (area_listed field (lent store.entry) area ignore last.now) }
{
    Ok(query_group(store, area, ignore, last)?.is_some())
}

// A 3d range's listing, which remembers the last key that it gave, at its start the empty one: the record of the least matching key above that one, as a part of the
// subspace-first tree; nothing where the listing is finished or the call is refused.
// Kept (1): README and docs/STATEMENTS name this call and `query_range_found`, which C has apart; `query_group` is both in one.
pub fn query_range<'a>(
    store: Store<'a, '_>,
    range: Range3d,
    ignore: QueryIgnoreParams,
    last: &[u8],
) -> &'a [u8]
    ensures result_value { result.now ≡ range_part field (lent store.entry) range ignore last.now }
    ensures part_begins { PartBegins store.entry.spt.ref_ptr result.ref_ptr (range_offset field (lent store.entry) range ignore last.now) }
{
    match query_group(store, range, ignore, last) {
        Ok(Some(part)) => part,
        _ => &store.spt[..0],
    }
}

// Whether `query_range` finds a record, its listing being else finished.
pub fn query_range_found(
    store: Store,
    range: Range3d,
    ignore: QueryIgnoreParams,
    last: &[u8],
) -> Result<bool, Refusal>
    ensures { said result ≡ is_found (range_listed field (lent store.entry) range ignore last.now) }
{
    Ok(query_group(store, range, ignore, last)?.is_some())
}

// The key of a record, which is all before its value: what a listing remembers of a record that it gave. Of what is shorter than a value, nothing.
pub fn record_key<'a>(rec: &'a [u8]) -> &'a [u8]
    ensures result_value { result.now ≡ key_of rec.now }
    ensures part_begins { PartBegins rec.entry.ref_ptr result.ref_ptr 0 }
{
    &rec[..rec.len().saturating_sub(VALUE)]
}
