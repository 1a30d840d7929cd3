// The 3d range of an area of interest.
ghost use Rattle.std.specs.Prelude.{◌≡◌, true, List, ℕ, ◌≤◌};
ghost use Rattle.data_model.specs.Path.{field, legal};
ghost use Rattle.store.specs.Store.{limit_most};
ghost use Rattle.store.specs.Lent.{lent};
ghost use Rattle.query.specs.Interest.{range_told, interest_time, interest_range};
ghost use Rattle.tree.specs.Lent.{IsFormed, contents_in};

use crate::check::read_refusal;
use data_model::answer::Refusal;
use data_model::area::Area;
use data_model::area_of_interest::AreaOfInterest;
use data_model::range::Range;
use data_model::range_3d::Range3d;
use store::state::{LIMIT_MOST, Store};
use tree::by_value::{area_range, is_legal, no_flags};
use tree::stored::Tree;

// Over a tree: where the times start. Nothing is ignored.
fn interest_time(tree: Tree, aoi: AreaOfInterest) -> u64
    requires { (IsFormed tree) × (tree.count ≤ limit_most) × (legal field aoi.area.path ≡ true) }
    ensures { (ns : List ℕ) → result ≡ interest_time aoi (contents_in tree.entry ns) }
{
    let mut marks = [0u8; LIMIT_MOST];
    tree.mark_area(aoi.area, no_flags(), &mut marks);
    tree.interest_start(
        &marks[..tree.count],
        aoi.area.times.start,
        aoi.max_count,
        aoi.max_size,
    )
}

// The 3d range of an area of interest: its area's, the times starting where the limits have it.
#[tactic(auto, using(crate::proofs::Tested::interest_refused))]
pub fn area_of_interest_to_range(store: Store, aoi: AreaOfInterest) -> Result<Range3d, Refusal>
    ensures { range_told result ≡ interest_range field (lent store.entry) aoi }
{
    read_refusal(store, is_legal(aoi.area.path))?;
    let range = area_range(aoi.area)?;
    Ok(Range3d {
        times: Range {
            start: interest_time(store.tsp(), aoi),
            ..range.times
        },
        ..range
    })
}
