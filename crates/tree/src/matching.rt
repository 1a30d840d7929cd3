// The marks of a whole walk by an area or a range: 1 for each record that a test holds of, 0 for the others.
ghost use Rattle.std.specs.Prelude.{◌≡◌, true, List, ℕ, ◌≤◌, length};
ghost use Rattle.laws.specs.Lists.{put};
ghost use Rattle.layout.specs.Marks.{marks_of};
ghost use Rattle.data_model.specs.Path.{field, legal};
ghost use Rattle.data_model.specs.Range.{legal_range};
ghost use Rattle.tree.specs.Stored.{Stored, stored_of};
ghost use Rattle.tree.specs.Lent.{contents_in, IsFormed};
ghost use Rattle.tree.specs.Matching.{let_through, listed_in_area, listed_in_range};

use crate::address::{END, SUBSPACE, write_path};
use crate::selection::Selection;
use crate::stored::{LengthyAuthorisedEntry, Tree};
use data_model::area::Area;
use data_model::query_ignore_params::QueryIgnoreParams;
use data_model::range::RangeEnd;
use data_model::range_3d::Range3d;
use keys::encode::KEY_MOST;

// Whether the flags let through what has so many bytes of its payload available, and so long a payload.
#[tactic(auto, unfolding(crate::specs::Matching::let_through))]
pub(crate) fn lets_through(ignore: QueryIgnoreParams, available: u64, length: u64) -> bool
    ensures { (x : Stored) → available ≡ x.available → length ≡ x.entry.rank.payload_length → result ≡ let_through ignore x }
{
    if ignore.ignore_incomplete_payloads && available < length {
        return false;
    }
    !ignore.ignore_empty_payloads || length != 0
}

// Whether the flags let an entry through.
pub fn let_through(ignore: QueryIgnoreParams, a: LengthyAuthorisedEntry) -> bool
    ensures { result ≡ let_through ignore (stored_of a) }
{
    lets_through(ignore, a.available, a.entry.payload_length)
}

impl<'a, 'd> Tree<'a, 'd> {
    // Marks what an area includes and the flags let through.
    pub fn mark_area(self, area: Area, ignore: QueryIgnoreParams, marks: &mut [u8])
        requires { (IsFormed self) × (self.count ≤ length marks.old) × (legal field area.path ≡ true) }
        ensures { (ns : List ℕ) → marks.new ≡ put (marks_of (listed_in_area area ignore) (contents_in self.entry ns)) marks.old }
    {
        let mut key = [0u8; KEY_MOST];
        let n = write_path(area.path, &mut key) - END;
        let selection = Selection::of_area(area, ignore);
        self.mark_selected(selection, &key[SUBSPACE..n], &[], marks);
    }

    // Marks what a 3d range includes and the flags let through.
    // Kept (2): the walk of both is `mark_selected`; an area has one path to write and a range two.
    pub fn mark_range(self, range: Range3d, ignore: QueryIgnoreParams, marks: &mut [u8])
        requires { (IsFormed self) × (self.count ≤ length marks.old) × (legal_range field range.paths ≡ true) }
        ensures { (ns : List ℕ) → marks.new ≡ put (marks_of (listed_in_range range ignore) (contents_in self.entry ns)) marks.old }
    {
        let mut low = [0u8; KEY_MOST];
        let n = write_path(range.paths.start, &mut low);
        let mut high = [0u8; KEY_MOST];
        let m = match range.paths.end {
            RangeEnd::Closed(end) => write_path(end, &mut high),
            RangeEnd::Open => SUBSPACE,
        };
        let selection = Selection::of_range(range, ignore);
        self.mark_selected(selection, &low[SUBSPACE..n], &high[SUBSPACE..m], marks);
    }
}
