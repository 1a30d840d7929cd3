// At the end: how many entries there are, and each of them in key order.
ghost use Rattle.std.specs.Prelude.{◌≡◌, true, ◌≤◌, length};
ghost use Rattle.laws.specs.Lists.{put};
ghost use Rattle.data_model.specs.Path.{field};
ghost use Rattle.tree.specs.declared.stored.KeyOrder.TheVariants.{Spt};
ghost use Rattle.store.specs.Store.{held};
ghost use Rattle.store.specs.Lent.{lent};
ghost use Rattle.store.specs.Refusal.{store_refusal};
ghost use Rattle.listing.specs.List.{list_text, list_text_most, every_entry};

use crate::say::{write_line, write_numbered};
use data_model::area::{Area, AreaSubspace};
use data_model::path::Path;
use data_model::query_ignore_params::QueryIgnoreParams;
use data_model::range::{Range, RangeEnd};
use query::count::count_area;
use query::listing::{query_area, record_key};
use store::state::Store;

// The area that includes every entry.
fn everything() -> Area
    ensures { result ≡ every_entry }
{
    Area {
        subspace: AreaSubspace::Any,
        path: Path::new_empty(),
        times: Range {
            start: 0,
            end: RangeEnd::Open,
        },
    }
}

// The list of a store that is not refused, into a buffer with room for one of its limit. There are as many matches as were counted; the key of the last one is remembered.
pub fn write_list(store: Store, out: &mut [u8]) -> usize
    requires { (store_refusal field (lent store) true ≡ 0) × (list_text_most store.state.limit ≤ length out.old) }
    ensures { (result ≡ length (list_text (held field Spt (lent store.entry)))) × (result ≤ length out.old) × (out.new ≡ put (list_text (held field Spt (lent store.entry))) out.old) }
{
    let area = everything();
    let ignore = QueryIgnoreParams::default();
    let count = count_area(store, area).unwrap_or(0);
    let mut at = write_numbered(b"list ", count as u64, out);
    let mut last: &[u8] = &[];
    for _ in 0..count {
        let rec = query_area(store, area, ignore, last);
        at += write_line(rec, &mut out[at..]);
        last = record_key(rec);
    }
    at
}
