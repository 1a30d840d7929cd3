// The data model: paths, entries, areas and 3d ranges. No store is looked at.
ghost use Rattle.std.specs.Prelude.{◌≡◌, ◌&&◌};
ghost use Rattle.data_model.specs.Path.{field, legal, components, by_components, same_path, is_prefix};
ghost use Rattle.data_model.specs.Above.{above_answer};
ghost use Rattle.data_model.specs.Entry.{entry_of, rank_of, by_rank, prunes};
ghost use Rattle.data_model.specs.Range.{legal_range};
ghost use Rattle.data_model.specs.Range3d.{range_includes};
ghost use Rattle.data_model.specs.Area.{area_includes, area_range_answer};
ghost use Rattle.data_model.specs.Refusal.{answered};
ghost use Rattle.plain.specs.Input.{area_of, range_of};
ghost use Rattle.plain.specs.Answer.{plain_answer, plain_compared, plain_entries_compared, plain_above};
ghost use Rattle.plain.specs.RangeAnswer.{byte_of, plain_area_range};

use data_model::area::Area;
use data_model::entry::Entry;
use data_model::parameters::Subspace;
use data_model::path::Path;
use data_model::range_3d::Range3d;
use plain::answer::{PlainAbove, PlainAnswer, PlainCompared, PlainEntriesCompared};
use plain::input::{PlainArea, PlainRange};
use plain::range_answer::PlainAreaRange;

// `Path::is_legal`: whether a path has at most 8 components, each at most 64 bytes, at most 128 in all, and ends that do not descend.
#[unsafe(no_mangle)]
pub extern "C" fn vb_path_is_legal(p: Path) -> u8
    ensures { result ≡ byte_of (legal field p) }
{
    p.is_legal().into()
}

// `Path::cmp`: how the first path compares with the second, component by component.
#[unsafe(no_mangle)]
pub extern "C" fn vb_path_cmp(p: Path, q: Path) -> PlainCompared
    ensures { result ≡ plain_compared (answered (legal field p && legal field q) (by_components (components p) (components q))) }
{
    p.cmp(q).into()
}

// `Path::eq`: whether two paths have the same components.
#[unsafe(no_mangle)]
pub extern "C" fn vb_path_eq(p: Path, q: Path) -> PlainAnswer
    ensures { result ≡ plain_answer (answered (legal field p && legal field q) (same_path (components p) (components q))) }
{
    p.eq(q).into()
}

// `Path::is_prefix_of`: whether the first path is the second or a beginning of it, by whole components.
#[unsafe(no_mangle)]
pub extern "C" fn vb_path_is_prefix_of(p: Path, q: Path) -> PlainAnswer
    ensures { result ≡ plain_answer (answered (legal field p && legal field q) (is_prefix (components p) (components q))) }
{
    p.is_prefix_of(q).into()
}

// `Path::greater_but_not_prefixed`: the least legal path above a path that the path does not prefix; or none.
#[unsafe(no_mangle)]
pub extern "C" fn vb_path_greater_but_not_prefixed(p: Path) -> PlainAbove
    ensures { result ≡ plain_above (above_answer field p) }
{
    p.greater_but_not_prefixed().into()
}

// `Entry::compare`: whether the first entry is newer than the second, older or the same, by timestamp, then digest, then payload length.
#[unsafe(no_mangle)]
pub extern "C" fn vb_entry_compare(a: Entry, b: Entry) -> PlainEntriesCompared
    ensures { result ≡ plain_entries_compared (answered (legal field a.path && legal field b.path) (by_rank (rank_of a) (rank_of b))) }
{
    a.compare(b).into()
}

// `Entry::prunes`: whether the first entry prunes the second, being newer at its path or a prefix of it.
#[unsafe(no_mangle)]
pub extern "C" fn vb_entry_prunes(a: Entry, b: Entry) -> PlainAnswer
    ensures { result ≡ plain_answer (answered (legal field a.path && legal field b.path) (prunes (entry_of a) (entry_of b))) }
{
    a.prunes(b).into()
}

// `Entry::is_pruned_by`: whether the second entry prunes the first.
#[unsafe(no_mangle)]
pub extern "C" fn vb_entry_is_pruned_by(a: Entry, b: Entry) -> PlainAnswer
    ensures { result ≡ plain_answer (answered (legal field b.path && legal field a.path) (prunes (entry_of b) (entry_of a))) }
{
    a.is_pruned_by(b).into()
}

// `Area::includes_triplet`: whether an area includes a subspace, path and timestamp.
#[unsafe(no_mangle)]
pub extern "C" fn vb_area_includes_triplet(
    area: PlainArea,
    subspace: Subspace,
    path: Path,
    timestamp: u64,
) -> PlainAnswer
    ensures { result ≡ plain_answer (answered (legal field area.path && legal field path) (area_includes (area_of area) subspace (components path) timestamp)) }
{
    Area::from(area)
        .includes_triplet(subspace, path, timestamp)
        .into()
}

// `Range3d::includes_triplet`: whether a 3d range includes a subspace, path and timestamp.
#[unsafe(no_mangle)]
pub extern "C" fn vb_range_includes_triplet(
    range: PlainRange,
    subspace: Subspace,
    path: Path,
    timestamp: u64,
) -> PlainAnswer
    ensures { result ≡ plain_answer (answered (legal_range field (range_of range).paths && legal field path) (range_includes (range_of range) subspace (components path) timestamp)) }
{
    Range3d::from(range)
        .includes_triplet(subspace, path, timestamp)
        .into()
}

// `Range3d::try_from`: the 3d range that includes what an area includes.
#[unsafe(no_mangle)]
pub extern "C" fn vb_area_to_range(area: PlainArea) -> PlainAreaRange
    ensures { result ≡ plain_area_range (area_range_answer field (area_of area)) }
{
    Range3d::try_from(Area::from(area)).into()
}
