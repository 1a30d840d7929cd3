// Counts: of an area, and of a 3d range.
// Kept (5): `IsFormed tree`, `tree.count ≤ limit_most`: as in tree/src/stored, the functions there are for trees that are yet to be tested too.
ghost use Rattle.std.specs.Prelude.{◌≡◌, true, List, ℕ, ◌≤◌, length};
ghost use Rattle.laws.specs.Sorted.{keep};
ghost use Rattle.data_model.specs.Path.{field};
ghost use Rattle.store.specs.Store.{limit_most};
ghost use Rattle.store.specs.Lent.{lent};
ghost use Rattle.query.specs.Reading.{read_refusal};
ghost use Rattle.query.specs.Count.{count_told, counted, area_counted, summarised};
ghost use Rattle.tree.specs.Lent.{IsFormed, contents_in};

use crate::check::read_refusal;
use crate::grouping::Grouping;
use data_model::answer::Refusal;
use data_model::area::Area;
use data_model::range_3d::Range3d;
use store::state::{LIMIT_MOST, Store};
use tree::by_value::no_flags;
use tree::marks::count_marked;
use tree::stored::Tree;

// How many records of a tree a grouping includes. Nothing is ignored.
fn count_in<G: Grouping>(tree: Tree, group: G) -> usize
    requires { (IsFormed tree) × (tree.count ≤ limit_most) × (G.legal group ≡ true) }
    ensures { (ns : List ℕ) → result ≡ length (keep (G.includes group) (contents_in tree.entry ns)) }
{
    let mut marks = [0u8; LIMIT_MOST];
    group.mark(tree, no_flags(), &mut marks);
    count_marked(&marks[..tree.count])
}

// How many entries a grouping includes.
#[tactic(auto, using(crate::proofs::Tested::count_refused))]
pub fn count_group<G: Grouping>(store: Store, group: G) -> Result<usize, Refusal>
    ensures { count_told result ≡ counted field (lent store.entry) (read_refusal field (lent store.entry) (G.legal group)) (G.includes group) }
{
    read_refusal(store, group.is_legal())?;
    Ok(count_in(store.spt(), group))
}

// How many entries an area includes.
pub fn count_area(store: Store, area: Area) -> Result<usize, Refusal>
    ensures { count_told result ≡ area_counted field (lent store.entry) area }
{
    count_group(store, area)
}

// The size part of a summary: how many entries a 3d range includes.
pub fn summarise(store: Store, range: Range3d) -> Result<usize, Refusal>
    ensures { count_told result ≡ summarised field (lent store.entry) range }
{
    count_group(store, range)
}
