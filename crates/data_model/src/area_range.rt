// The 3d range of an area.
ghost use Rattle.std.specs.Prelude.{◌≡◌, true};
ghost use Rattle.data_model.specs.Path.{field, legal, components};
ghost use Rattle.data_model.specs.Above.{above};
ghost use Rattle.data_model.specs.Area.{subspaces_of, paths_up_to, area_range_answer};
ghost use Rattle.data_model.specs.Refusal.{said};

use crate::above::{canonical, least_above};
use crate::answer::Refusal;
use crate::area::{Area, AreaSubspace};
use crate::parameters::Subspace;
use crate::path::Path;
use crate::range::{Range, RangeEnd};
use crate::range_3d::Range3d;

// The subspaces of an area: open from the first, or the one alone.
#[tactic(auto, unfolding(crate::specs::Area::subspaces_of))]
fn subspaces_of(subspace: AreaSubspace) -> Range<Subspace>
    ensures { result ≡ subspaces_of subspace }
{
    match subspace {
        AreaSubspace::Any => Range {
            start: Subspace { high: 0, low: 0 },
            end: RangeEnd::Open,
        },
        AreaSubspace::Id(id) => Range {
            start: id,
            end: id.successor(),
        },
    }
}

// The paths of an area: from its path up to the least legal path above that it does not prefix.
#[inline(always)]
fn paths_of(path: Path) -> Range<Path>
    requires { legal field path ≡ true }
    ensures { result ≡ paths_up_to (components path) (above field (components path)) }
{
    Range {
        start: canonical(path),
        end: match least_above(path) {
            Some(end) => RangeEnd::Closed(end),
            None => RangeEnd::Open,
        },
    }
}

// The 3d range that holds what an area holds; refused if the area's path is illegal.
impl TryFrom<Area> for Range3d {
    type Error = Refusal;

    ghost try_from_gives = { λ area result. said result ≡ area_range_answer field area };

    #[inline(always)]
    #[tactic(auto, unfolding(crate::specs::Area::area_range_answer, crate::specs::Area::area_range))]
    fn try_from(area: Area) -> Result<Range3d, Refusal> {
        if !area.path.is_legal() {
            return Err(Refusal::IllegalPath);
        }
        Ok(Range3d {
            subspaces: subspaces_of(area.subspace),
            paths: paths_of(area.path),
            times: area.times,
        })
    }
}
