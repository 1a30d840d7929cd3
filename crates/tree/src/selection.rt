// The one walk that marks what lies in an area or a 3d range, and its test of a record, told by the record's bytes.
ghost use Rattle.std.specs.Prelude.{◌&&◌, ◌≡◌, List, ℕ, ◌≤◌, length};
ghost use Rattle.laws.specs.Lists.{put};
ghost use Rattle.layout.specs.Marks.{marks_of};
ghost use Rattle.data_model.specs.Path.{field};
ghost use Rattle.data_model.specs.Area.{area_subspace};
ghost use Rattle.data_model.specs.Range.{subspaces_include};
ghost use Rattle.tree.specs.Stored.{stored};
ghost use Rattle.tree.specs.Lent.{record_in, stored_in, contents_in, IsInBounds, IsReadable, IsFormed};
ghost use Rattle.tree.specs.Matching.{let_through};
ghost use Rattle.tree.specs.declared.stored.KeyOrder.{KeyOrder as AnyOrder};
ghost use Rattle.tree.specs.Selection.{area_selection, range_selection, selects_path, selects, selects_listed};

use crate::address::begins;
use crate::matching::lets_through;
use crate::stored::Tree;
use crate::value::{available, payload_length};
use data_model::area::{Area, AreaSubspace};
use data_model::parameters::Subspace;
use data_model::query_ignore_params::QueryIgnoreParams;
use data_model::range::{Range, RangeEnd};
use data_model::range_3d::Range3d;
use layout::bytes::less;

// Which paths are selected: those that begin with the bytes `low`, those from `low` on, or those from `low` on up to and without `high`.
// `low` and `high` are handed beside it.
// Kept (5): a reference is more than its bytes, so that with `low` and `high` in it no equation could say what a selection is (`result ≡ area_selection area ignore`).
#[derive(Clone, Copy)]
pub enum PathsSelected {
    Under,
    From,
    Between,
}

// What is selected, but for the bytes of its paths: subspaces that are both `own` and in `subspaces`, times, paths, and what the flags let
// through.
#[derive(Clone, Copy)]
pub struct Selection {
    pub own: AreaSubspace,
    pub subspaces: Range<Subspace>,
    pub times: Range<u64>,
    pub paths: PathsSelected,
    pub ignore: QueryIgnoreParams,
}

impl Selection {
    // What an area and flags select, but for the bytes of the area's path.
    pub fn of_area(area: Area, ignore: QueryIgnoreParams) -> Selection
        ensures { result ≡ area_selection area ignore }
    {
        Selection {
            own: area.subspace,
            subspaces: Range {
                start: Subspace { high: 0, low: 0 },
                end: RangeEnd::Open,
            },
            times: area.times,
            paths: PathsSelected::Under,
            ignore,
        }
    }

    // What a 3d range and flags select, but for the bytes of the range's paths.
    // Kept (2): each field is read off another one in the two.
    pub fn of_range(range: Range3d, ignore: QueryIgnoreParams) -> Selection
        ensures { result ≡ range_selection range ignore }
    {
        Selection {
            own: AreaSubspace::Any,
            subspaces: range.subspaces,
            times: range.times,
            paths: match range.paths.end {
                RangeEnd::Closed(_) => PathsSelected::Between,
                RangeEnd::Open => PathsSelected::From,
            },
            ignore,
        }
    }

    // Whether entries of a subspace are selected.
    #[tactic(auto, using(data_model::proofs::Derived::subspaces_included))]
    fn includes_subspace(self, subspace: Subspace) -> bool
        ensures { result ≡ (area_subspace self.own subspace && subspaces_include self.subspaces subspace) }
    {
        self.own.includes(subspace) && self.subspaces.includes(subspace)
    }
}

// Whether the bytes of a path begin with `low`, or stand from `low` on, or between `low` and `high`.
#[tactic(auto, unfolding(crate::specs::Selection::selects_path))]
fn in_paths(path: &[u8], paths: PathsSelected, low: &[u8], high: &[u8]) -> bool
    ensures { result ≡ selects_path paths low.now high.now path.now }
{
    match paths {
        PathsSelected::Under => begins(path, low),
        PathsSelected::From => !less(path, low),
        PathsSelected::Between => !less(path, low) && less(path, high),
    }
}

impl<'a, 'd> Tree<'a, 'd> {
    // Whether the flags let record k through. Its value is read only if a flag is set.
    fn let_through_at(self, k: usize, ignore: QueryIgnoreParams) -> bool
        requires { IsInBounds self k }
        ensures { (order : AnyOrder) (ns : List ℕ) → result ≡ let_through ignore (stored order field ns (record_in self.entry k)) }
    {
        if !ignore.ignore_incomplete_payloads && !ignore.ignore_empty_payloads {
            return true;
        }
        let value = self.value_at(k);
        lets_through(ignore, available(value), payload_length(value))
    }

    // Whether record k is selected, whatever its namespace and the flags.
    fn is_selected_at(self, k: usize, selection: Selection, low: &[u8], high: &[u8]) -> bool
        requires { IsReadable self k }
        ensures { (ns : List ℕ) → result ≡ selects selection low.now high.now (stored_in self.entry ns k) }
    {
        if !in_paths(self.path_at(k), selection.paths, low, high) {
            return false;
        }
        selection.includes_subspace(self.subspace_at(k))
            && selection.times.includes(self.time_at(k))
    }

    // Whether record k is selected and the flags let it through.
    #[tactic(auto, unfolding(crate::specs::Selection::selects_listed))]
    fn is_listed_at(self, k: usize, selection: Selection, low: &[u8], high: &[u8]) -> bool
        requires { IsReadable self k }
        ensures { (ns : List ℕ) → result ≡ selects_listed selection low.now high.now (stored_in self.entry ns k) }
    {
        self.is_selected_at(k, selection, low, high) && self.let_through_at(k, selection.ignore)
    }

    // Marks what is selected and let through.
    pub fn mark_selected(self, selection: Selection, low: &[u8], high: &[u8], marks: &mut [u8])
        requires { (IsFormed self) × (self.count ≤ length marks.old) }
        ensures { (ns : List ℕ) → marks.new ≡ put (marks_of (selects_listed selection low.now high.now) (contents_in self.entry ns)) marks.old }
    {
        self.mark_all(marks, |k| self.is_listed_at(k, selection, low, high));
    }
}
