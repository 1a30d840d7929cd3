// Values of the data model and questions about them, for the store: each an equation with the data model's definition.
// Kept (2): 01 wants store proofs over tree contracts alone, so that what the store needs of `data_model` has a function and a contract here.
// Kept (4): `same_subspace` for the same reason.
ghost use Rattle.std.specs.Prelude.{◌≡◌};
ghost use Rattle.data_model.specs.Path.{field, legal};
ghost use Rattle.data_model.specs.Subspace.{same_subspace};
ghost use Rattle.data_model.specs.Ignore.{no_flags};
ghost use Rattle.data_model.specs.Range.{legal_range};
ghost use Rattle.data_model.specs.Refusal.{said};
ghost use Rattle.data_model.specs.Area.{area_range_answer};

use data_model::answer::Refusal;
use data_model::area::Area;
use data_model::parameters::Subspace;
use data_model::path::Path;
use data_model::query_ignore_params::QueryIgnoreParams;
use data_model::range::Range;
use data_model::range_3d::Range3d;

// Whether a path is legal.
pub fn is_legal(path: Path) -> bool
    ensures { result ≡ legal field path }
{
    path.is_legal()
}

// Whether the paths of a range that are looked at are legal.
pub fn is_legal_range(range: Range<Path>) -> bool
    ensures { result ≡ legal_range field range }
{
    range.is_legal()
}

// The 3d range of an area, or the refusal of its path.
pub fn area_range(area: Area) -> Result<Range3d, Refusal>
    ensures { said result ≡ area_range_answer field area }
{
    Range3d::try_from(area)
}

// Whether two subspaces are the same.
#[tactic(auto, unfolding(data_model::specs::Subspace::same_subspace, laws::specs::Prefix::same_number))]
pub fn same_subspace(a: Subspace, b: Subspace) -> bool
    ensures { result ≡ same_subspace a b }
{
    a == b
}

// The flags that ignore nothing.
pub fn no_flags() -> QueryIgnoreParams
    ensures { result ≡ no_flags }
{
    QueryIgnoreParams::default()
}
