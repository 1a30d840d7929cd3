// For the layers above, and below the public entries: questions about paths that are legal already.
// Kept (5): `legal field p`: a path is what C hands in, and the contracts of the public entries and the theorem `unseen` say of such a path whether it is legal; these functions are public too, so that no type may say it for them.
ghost use Rattle.std.specs.Prelude.{◌≡◌, true, length};
ghost use Rattle.data_model.specs.Path.{field, legal, legal_ends, cut, components, by_bytes, by_components, same_path, is_prefix};
ghost use Rattle.laws.specs.Prefix.{same_list, same_number};
ghost use Rattle.data_model.specs.Entry.{covers, entry_of, by_rank, prunes};
ghost use Rattle.data_model.specs.Range.{legal_range, paths_include};
ghost use Rattle.data_model.specs.Range3d.{range_includes};
ghost use Rattle.data_model.specs.Area.{area_includes};
ghost use Rattle.data_model.specs.Refusal.{ordering_says, recency_says};

use crate::answer::Recency;
use crate::area::Area;
use crate::entry::{Entry, Rank};
use crate::parameters::Subspace;
use crate::path::Path;
use crate::range::{Range, RangeEnd};
use crate::range_3d::Range3d;
use std::cmp::Ordering;

// How bytes compare: by the first that differs, a beginning being less.
#[tactic(auto, using(crate::proofs::Derived::bytes_order))]
pub fn compare_bytes(a: &[u8], b: &[u8]) -> Ordering
    ensures { ordering_says result ≡ by_bytes a.now b.now }
{
    a.cmp(b)
}

// How components compare that end at the ends given.
fn compare_components(a: &[u8], a_ends: &[usize], b: &[u8], b_ends: &[usize]) -> Ordering
    requires { (legal_ends (length a.now) (length a.now) 0 a_ends.now ≡ true) × (legal_ends (length b.now) (length b.now) 0 b_ends.now ≡ true) }
    ensures { ordering_says result ≡ by_components (cut a.now 0 a_ends.now) (cut b.now 0 b_ends.now) }
{
    let mut a_from = 0;
    let mut b_from = 0;
    for i in 0..a_ends.len().min(b_ends.len()) {
        let order = compare_bytes(&a[a_from..a_ends[i]], &b[b_from..b_ends[i]]);
        if order != Ordering::Equal {
            return order;
        }
        a_from = a_ends[i];
        b_from = b_ends[i];
    }
    a_ends.len().cmp(&b_ends.len())
}

// How two paths compare: component by component, each by its bytes.
// Kept (4): an order that is derived would look at the bytes and ends behind the last component too, which 01 never looks at.
pub fn cmp(p: Path, q: Path) -> Ordering
    requires { (legal field p ≡ true) × (legal field q ≡ true) }
    ensures { ordering_says result ≡ by_components (components p) (components q) }
{
    compare_components(&p.bytes, &p.ends[..p.count], &q.bytes, &q.ends[..q.count])
}

// Whether two paths have the same components.
pub fn eq(p: Path, q: Path) -> bool
    requires { (legal field p ≡ true) × (legal field q ≡ true) }
    ensures { result ≡ same_path (components p) (components q) }
{
    cmp(p, q) == Ordering::Equal
}

// The first path's components are as many of the second's.
pub fn is_prefix_of(p: Path, q: Path) -> bool
    requires { (legal field p ≡ true) × (legal field q ≡ true) }
    ensures { result ≡ is_prefix (components p) (components q) }
{
    p.count <= q.count
        && compare_components(&p.bytes, &p.ends[..p.count], &q.bytes, &q.ends[..p.count])
            == Ordering::Equal
}

// Which of two entries is newer, their ranks given by timestamp, digest and payload length: by the first of these that differs.
// Kept (5): the parts of a rank that lies in a store are read one by one; a struct for them would be a second `Rank` with a reference in it.
pub fn compare_ranks(
    time: u64,
    digest: &[u8],
    length: u64,
    other_time: u64,
    other_digest: &[u8],
    other_length: u64,
) -> Recency
    ensures { recency_says result ≡ by_rank (record { timestamp = time; payload_digest = digest.now; payload_length = length }) (record { timestamp = other_time; payload_digest = other_digest.now; payload_length = other_length }) }
{
    Recency::from((time, digest, length).cmp(&(other_time, other_digest, other_length)))
}

impl Rank {
    // Whether an entry of this rank is newer than one of the other, older or the same: by timestamp, then digest as bytes, then payload length.
    #[tactic(auto, using(crate::proofs::Derived::rank_order))]
    pub fn compare(self, other: Rank) -> Recency
        ensures { recency_says result ≡ by_rank self other }
    {
        Recency::from(self.cmp(&other))
    }
}

// Whether the first covers the second: of one namespace and subspace, its path the other's or a prefix of it.
#[tactic(auto, using(crate::proofs::Derived::bytes_same), unfolding(crate::specs::Entry::covers, crate::specs::Entry::entry_of, crate::specs::Subspace::same_subspace, laws::specs::Prefix::same_number))]
pub fn covers(a: Entry, b: Entry) -> bool
    requires { (legal field a.path ≡ true) × (legal field b.path ≡ true) }
    ensures { result ≡ covers (entry_of a) (entry_of b) }
{
    a.namespace_id == b.namespace_id
        && a.subspace_id == b.subspace_id
        && is_prefix_of(a.path, b.path)
}

// Whether the first prunes the second: it covers the second and is newer.
pub fn prunes(a: Entry, b: Entry) -> bool
    requires { (legal field a.path ≡ true) × (legal field b.path ≡ true) }
    ensures { result ≡ prunes (entry_of a) (entry_of b) }
{
    covers(a, b) && a.rank().compare(b.rank()) == Recency::Newer
}

// Whether the range holds the path: not below the start, and below the end where there is one.
pub fn range_includes_path(range: Range<Path>, path: Path) -> bool
    requires { (legal_range field range ≡ true) × (legal field path ≡ true) }
    ensures { result ≡ paths_include range (components path) }
{
    cmp(path, range.start) != Ordering::Less
        && match range.end {
            RangeEnd::Closed(end) => cmp(path, end) == Ordering::Less,
            RangeEnd::Open => true,
        }
}

// Whether the range holds an entry of this subspace, path and timestamp.
pub fn range_includes(range: Range3d, subspace: Subspace, path: Path, timestamp: u64) -> bool
    requires { (legal_range field range.paths ≡ true) × (legal field path ≡ true) }
    ensures { result ≡ range_includes range subspace (components path) timestamp }
{
    range.subspaces.includes(subspace)
        && range.times.includes(timestamp)
        && range_includes_path(range.paths, path)
}

// Whether the area holds an entry of this subspace, path and timestamp.
pub fn area_includes(area: Area, subspace: Subspace, path: Path, timestamp: u64) -> bool
    requires { (legal field area.path ≡ true) × (legal field path ≡ true) }
    ensures { result ≡ area_includes area subspace (components path) timestamp }
{
    area.subspace.includes(subspace)
        && area.times.includes(timestamp)
        && is_prefix_of(area.path, path)
}
