// 3d ranges.
ghost use Rattle.std.specs.Prelude.{◌≡◌};
ghost use Rattle.data_model.specs.Area.{empty_range};

use crate::parameters::Subspace;
use crate::path::Path;
use crate::range::{Range, RangeEnd};

#[derive(Clone, Copy)]
pub struct Range3d {
    pub subspaces: Range<Subspace>,
    pub paths: Range<Path>,
    pub times: Range<u64>,
}

impl Range3d {
    // The range that includes nothing: every field 0.
    pub fn empty() -> Range3d
        ensures { result ≡ empty_range }
    {
        let zero = Subspace { high: 0, low: 0 };
        Range3d {
            subspaces: Range {
                start: zero,
                end: RangeEnd::Closed(zero),
            },
            paths: Range {
                start: Path::new_empty(),
                end: RangeEnd::Closed(Path::new_empty()),
            },
            times: Range {
                start: 0,
                end: RangeEnd::Closed(0),
            },
        }
    }
}
