// Areas.
ghost use Rattle.std.specs.Prelude.{◌≡◌};
ghost use Rattle.data_model.specs.Area.{area_subspace};

use crate::parameters::Subspace;
use crate::path::Path;
use crate::range::Range;

#[derive(Clone, Copy, PartialEq, Eq, Debug)]
pub enum AreaSubspace {
    Any,
    Id(Subspace),
}

#[derive(Clone, Copy)]
pub struct Area {
    pub subspace: AreaSubspace,
    pub path: Path,
    pub times: Range<u64>,
}

impl AreaSubspace {
    #[tactic(auto, unfolding(crate::specs::Area::area_subspace, crate::specs::Subspace::same_subspace, laws::specs::Prefix::same_number))]
    pub fn includes(self, subspace: Subspace) -> bool
        ensures { result ≡ area_subspace self subspace }
    {
        match self {
            AreaSubspace::Any => true,
            AreaSubspace::Id(id) => id == subspace,
        }
    }
}
