// The calls that only read a store: lookup, listings, counts, areas of interest.
ghost use Rattle.std.specs.Prelude.{◌≡◌, take, drop};
ghost use Rattle.data_model.specs.Path.{field};
ghost use Rattle.tree.specs.Stored.{key_of};
ghost use Rattle.store.specs.Store.{store_of};
ghost use Rattle.query.specs.Lookup.{entry_found};
ghost use Rattle.query.specs.Listing.{is_found, area_listed, area_part, area_offset, range_listed, range_part, range_offset};
ghost use Rattle.query.specs.Count.{area_counted, summarised};
ghost use Rattle.query.specs.Interest.{interest_range};
ghost use Rattle.plain.specs.Input.{area_of, range_of, interest_of, ignore_of};
ghost use Rattle.plain.specs.Answer.{plain_listed, plain_counted};
ghost use Rattle.plain.specs.Found.{plain_found};
ghost use Rattle.plain.specs.RangeAnswer.{plain_interest_range};
ghost use Rattle.plain.specs.Part.{plain_part};

use data_model::parameters::Subspace;
use data_model::path::Path;
use plain::answer::{PlainCounted, PlainListed};
use plain::found::PlainEntryFound;
use plain::input::{PlainArea, PlainIgnore, PlainInterest, PlainRange};
use plain::part::PlainPart;
use plain::range_answer::PlainAreaRange;
use query::count::{count_area, summarise};
use query::entry::entry;
use query::interest::area_of_interest_to_range;
use query::listing::{query_area_found, query_range_found, record_key};
use query::step::{area_step, range_step};
use store::state::{State, Store};

// `query::entry::entry`: the entry at a subspace and path, its token, available length and origin; or none.
#[unsafe(no_mangle)]
pub extern "C" fn vb_find_entry(
    state: State,
    spt: &[u8],
    spt_dir: &[u32],
    tsp: &[u8],
    tsp_dir: &[u32],
    subspace: Subspace,
    path: Path,
    ignore: PlainIgnore,
) -> PlainEntryFound
    ensures { result ≡ plain_found (entry_found field (store_of state spt.now spt_dir.now tsp.now tsp_dir.now) subspace path (ignore_of ignore)) }
{
    let store = Store {
        state,
        spt,
        spt_dir,
        tsp,
        tsp_dir,
    };
    entry(store, subspace, path, ignore.into()).into()
}

// `query::listing::query_area_found`: whether a step of an area's listing gives a record, or the listing is finished, or the refusal. `last` is the key that it remembers.
#[unsafe(no_mangle)]
pub extern "C" fn vb_query_area_found(
    state: State,
    spt: &[u8],
    spt_dir: &[u32],
    tsp: &[u8],
    tsp_dir: &[u32],
    area: PlainArea,
    ignore: PlainIgnore,
    last: &[u8],
) -> PlainListed
    ensures { result ≡ plain_listed (is_found (area_listed field (store_of state spt.now spt_dir.now tsp.now tsp_dir.now) (area_of area) (ignore_of ignore) last.now)) }
{
    let store = Store {
        state,
        spt,
        spt_dir,
        tsp,
        tsp_dir,
    };
    query_area_found(store, area.into(), ignore.into(), last).into()
}

// The part that `query::listing::query_area` answers, as offset and length in the caller's subspace-first tree; finished or refused it is 0 and 0.
#[unsafe(no_mangle)]
pub extern "C" fn vb_query_area(
    state: State,
    spt: &[u8],
    spt_dir: &[u32],
    tsp: &[u8],
    tsp_dir: &[u32],
    area: PlainArea,
    ignore: PlainIgnore,
    last: &[u8],
) -> PlainPart
    ensures value { result ≡ plain_part (area_offset field (store_of state spt.now spt_dir.now tsp.now tsp_dir.now) (area_of area) (ignore_of ignore) last.now) (area_part field (store_of state spt.now spt_dir.now tsp.now tsp_dir.now) (area_of area) (ignore_of ignore) last.now) }
    ensures spt_value { take result.length (drop result.offset spt.now) ≡ area_part field (store_of state spt.now spt_dir.now tsp.now tsp_dir.now) (area_of area) (ignore_of ignore) last.now }
{
    let store = Store {
        state,
        spt,
        spt_dir,
        tsp,
        tsp_dir,
    };
    area_step(store, area.into(), ignore.into(), last).into()
}

// `query::listing::query_range_found`: whether a step of a 3d range's listing gives a record, or the listing is finished, or the refusal. `last` is the key that it remembers.
#[unsafe(no_mangle)]
pub extern "C" fn vb_query_range_found(
    state: State,
    spt: &[u8],
    spt_dir: &[u32],
    tsp: &[u8],
    tsp_dir: &[u32],
    range: PlainRange,
    ignore: PlainIgnore,
    last: &[u8],
) -> PlainListed
    ensures { result ≡ plain_listed (is_found (range_listed field (store_of state spt.now spt_dir.now tsp.now tsp_dir.now) (range_of range) (ignore_of ignore) last.now)) }
{
    let store = Store {
        state,
        spt,
        spt_dir,
        tsp,
        tsp_dir,
    };
    query_range_found(store, range.into(), ignore.into(), last).into()
}

// The part that `query::listing::query_range` answers, as offset and length in the caller's subspace-first tree; finished or refused it is 0 and 0.
#[unsafe(no_mangle)]
pub extern "C" fn vb_query_range(
    state: State,
    spt: &[u8],
    spt_dir: &[u32],
    tsp: &[u8],
    tsp_dir: &[u32],
    range: PlainRange,
    ignore: PlainIgnore,
    last: &[u8],
) -> PlainPart
    ensures value { result ≡ plain_part (range_offset field (store_of state spt.now spt_dir.now tsp.now tsp_dir.now) (range_of range) (ignore_of ignore) last.now) (range_part field (store_of state spt.now spt_dir.now tsp.now tsp_dir.now) (range_of range) (ignore_of ignore) last.now) }
    ensures spt_value { take result.length (drop result.offset spt.now) ≡ range_part field (store_of state spt.now spt_dir.now tsp.now tsp_dir.now) (range_of range) (ignore_of ignore) last.now }
{
    let store = Store {
        state,
        spt,
        spt_dir,
        tsp,
        tsp_dir,
    };
    range_step(store, range.into(), ignore.into(), last).into()
}

// The part that `query::listing::record_key` answers: a record's key, as offset, which is 0, and length in the bytes that were handed in. Of fewer bytes than a value has, nothing.
#[unsafe(no_mangle)]
pub extern "C" fn vb_record_key(rec: &[u8]) -> PlainPart
    ensures value { result ≡ plain_part 0 (key_of rec.now) }
    ensures rec_value { take result.length (drop result.offset rec.now) ≡ key_of rec.now }
{
    PlainPart {
        offset: 0,
        length: record_key(rec).len(),
    }
}

// `query::count::count_area`: how many entries an area includes.
#[unsafe(no_mangle)]
pub extern "C" fn vb_count_area(
    state: State,
    spt: &[u8],
    spt_dir: &[u32],
    tsp: &[u8],
    tsp_dir: &[u32],
    area: PlainArea,
) -> PlainCounted
    ensures { result ≡ plain_counted (area_counted field (store_of state spt.now spt_dir.now tsp.now tsp_dir.now) (area_of area)) }
{
    let store = Store {
        state,
        spt,
        spt_dir,
        tsp,
        tsp_dir,
    };
    count_area(store, area.into()).into()
}

// `query::count::summarise`, its size: how many entries a 3d range includes.
#[unsafe(no_mangle)]
pub extern "C" fn vb_summarise(
    state: State,
    spt: &[u8],
    spt_dir: &[u32],
    tsp: &[u8],
    tsp_dir: &[u32],
    range: PlainRange,
) -> PlainCounted
    ensures { result ≡ plain_counted (summarised field (store_of state spt.now spt_dir.now tsp.now tsp_dir.now) (range_of range)) }
{
    let store = Store {
        state,
        spt,
        spt_dir,
        tsp,
        tsp_dir,
    };
    summarise(store, range.into()).into()
}

// `query::interest::area_of_interest_to_range`: the 3d range of an area of interest: the area's own, its times starting at that of the entry that broke a limit.
#[tactic(auto, using(crate::proofs::DoorLaws::interest_plain))]
#[unsafe(no_mangle)]
pub extern "C" fn vb_area_of_interest_to_range(
    state: State,
    spt: &[u8],
    spt_dir: &[u32],
    tsp: &[u8],
    tsp_dir: &[u32],
    interest: PlainInterest,
) -> PlainAreaRange
    ensures { result ≡ plain_interest_range (interest_range field (store_of state spt.now spt_dir.now tsp.now tsp_dir.now) (interest_of interest)) }
{
    let store = Store {
        state,
        spt,
        spt_dir,
        tsp,
        tsp_dir,
    };
    area_of_interest_to_range(store, interest.into()).into()
}
