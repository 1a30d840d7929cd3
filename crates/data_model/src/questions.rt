// The public questions about paths, entries, ranges and areas: each looks whether the paths are legal, and asks `checked` or `above`.
// Kept (4): a path may be illegal, and then the comparisons here answer 4, which `Ord` and `PartialEq` cannot.
ghost use Rattle.std.specs.Prelude.{◌≡◌, ◌&&◌};
ghost use Rattle.data_model.specs.Path.{field, legal, components, by_components, same_path, is_prefix};
ghost use Rattle.data_model.specs.Above.{above_answer};
ghost use Rattle.data_model.specs.Entry.{entry_of, rank_of, by_rank, prunes};
ghost use Rattle.data_model.specs.Range.{legal_range, paths_include};
ghost use Rattle.data_model.specs.Range3d.{range_includes};
ghost use Rattle.data_model.specs.Area.{area_includes};
ghost use Rattle.data_model.specs.Refusal.{said, said_by, answered, ordering_says, recency_says};

use crate::above::least_above;
use crate::answer::{Recency, Refusal};
use crate::area::Area;
use crate::checked;
use crate::entry::Entry;
use crate::parameters::Subspace;
use crate::path::{Path, both_legal};
use crate::range::Range;
use crate::range_3d::Range3d;
use std::cmp::Ordering;

impl Path {
    // How two paths compare: component by component, each by its bytes; refused if one is illegal.
    pub fn cmp(self, other: Path) -> Result<Ordering, Refusal>
        ensures { said_by ordering_says result ≡ answered (legal field self && legal field other) (by_components (components self) (components other)) }
    {
        if !both_legal(self, other) {
            return Err(Refusal::IllegalPath);
        }
        Ok(checked::cmp(self, other))
    }

    // Whether two paths have the same components; refused if one is illegal.
    pub fn eq(self, other: Path) -> Result<bool, Refusal>
        ensures { said result ≡ answered (legal field self && legal field other) (same_path (components self) (components other)) }
    {
        if !both_legal(self, other) {
            return Err(Refusal::IllegalPath);
        }
        Ok(checked::eq(self, other))
    }

    // Whether this path's components are the first of the other's; refused if one is illegal.
    pub fn is_prefix_of(self, other: Path) -> Result<bool, Refusal>
        ensures { said result ≡ answered (legal field self && legal field other) (is_prefix (components self) (components other)) }
    {
        if !both_legal(self, other) {
            return Err(Refusal::IllegalPath);
        }
        Ok(checked::is_prefix_of(self, other))
    }

    // Whether the other path's components are the first of this one's; refused if one is illegal.
    pub fn is_prefixed_by(self, other: Path) -> Result<bool, Refusal>
        ensures { said result ≡ answered (legal field other && legal field self) (is_prefix (components other) (components self)) }
    {
        other.is_prefix_of(self)
    }

    // The least legal path above this one that this one does not prefix; refused if this one is illegal.
    #[tactic(auto, unfolding(crate::specs::Above::above_answer))]
    pub fn greater_but_not_prefixed(self) -> Result<Option<Path>, Refusal>
        ensures { said result ≡ above_answer field self }
    {
        if !self.is_legal() {
            return Err(Refusal::IllegalPath);
        }
        Ok(least_above(self))
    }
}

impl Entry {
    // Whether this entry is newer than the other, older or the same: by timestamp, then digest as bytes, then payload length; refused if a path is illegal.
    pub fn compare(self, other: Entry) -> Result<Recency, Refusal>
        ensures { said_by recency_says result ≡ answered (legal field self.path && legal field other.path) (by_rank (rank_of self) (rank_of other)) }
    {
        if !both_legal(self.path, other.path) {
            return Err(Refusal::IllegalPath);
        }
        Ok(self.rank().compare(other.rank()))
    }

    // Whether this entry prunes the other: of one namespace and subspace, its path the other's or a prefix of it, and newer; refused if a path is illegal.
    pub fn prunes(self, other: Entry) -> Result<bool, Refusal>
        ensures { said result ≡ answered (legal field self.path && legal field other.path) (prunes (entry_of self) (entry_of other)) }
    {
        if !both_legal(self.path, other.path) {
            return Err(Refusal::IllegalPath);
        }
        Ok(checked::prunes(self, other))
    }

    // Whether the other entry prunes this one; refused if a path is illegal.
    pub fn is_pruned_by(self, other: Entry) -> Result<bool, Refusal>
        ensures { said result ≡ answered (legal field other.path && legal field self.path) (prunes (entry_of other) (entry_of self)) }
    {
        other.prunes(self)
    }
}

impl Range<Path> {
    // Whether the range holds the path: not below the start, and below the end where there is one; refused if a path that is looked at is illegal.
    pub fn includes(self, value: Path) -> Result<bool, Refusal>
        ensures { said result ≡ answered (legal_range field self && legal field value) (paths_include self (components value)) }
    {
        if !self.is_legal_with(value) {
            return Err(Refusal::IllegalPath);
        }
        Ok(checked::range_includes_path(self, value))
    }
}

impl Range3d {
    // Whether the range holds an entry of this subspace, path and timestamp; refused if a path that is looked at is illegal.
    pub fn includes_triplet(
        self,
        subspace: Subspace,
        path: Path,
        timestamp: u64,
    ) -> Result<bool, Refusal>
        ensures { said result ≡ answered (legal_range field self.paths && legal field path) (range_includes self subspace (components path) timestamp) }
    {
        if !self.paths.is_legal_with(path) {
            return Err(Refusal::IllegalPath);
        }
        Ok(checked::range_includes(self, subspace, path, timestamp))
    }
}

impl Area {
    // Whether the area holds an entry of this subspace, path and timestamp; refused if a path is illegal.
    pub fn includes_triplet(
        self,
        subspace: Subspace,
        path: Path,
        timestamp: u64,
    ) -> Result<bool, Refusal>
        ensures { said result ≡ answered (legal field self.path && legal field path) (area_includes self subspace (components path) timestamp) }
    {
        if !both_legal(self.path, path) {
            return Err(Refusal::IllegalPath);
        }
        Ok(checked::area_includes(self, subspace, path, timestamp))
    }
}
