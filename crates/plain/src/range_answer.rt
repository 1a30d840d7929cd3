// 3d ranges that are answered, told in plain values.
ghost use Rattle.std.specs.Prelude.{◌≡◌};
ghost use Rattle.data_model.specs.Refusal.{said};
ghost use Rattle.plain.specs.RangeAnswer.{plain_end, plain_times, plain_subspaces, plain_paths, plain_range, plain_area_range};

use crate::input::{PlainPaths, PlainRange, PlainSubspaces, PlainTimes};
use data_model::answer::Refusal;
use data_model::parameters::Subspace;
use data_model::path::Path;
use data_model::range::{Range, RangeEnd};
use data_model::range_3d::Range3d;

// Refusal 0 and the range; or the refusal and the range that includes nothing.
// Kept (1): C has no enum with values, so the refusal's number stands beside the range.
#[repr(C)]
#[derive(Clone, Copy)]
pub struct PlainAreaRange {
    pub refusal: u8,
    pub range: PlainRange,
}

// The end of a range, told as `none` if it is open, and 1 if it is open, else 0.
#[inline(always)]
fn plain_end<T: Copy>(end: RangeEnd<T>, none: T) -> (T, u8)
    ensures { result ≡ plain_end end none }
{
    match end {
        RangeEnd::Closed(end) => (end, 0),
        RangeEnd::Open => (none, 1),
    }
}

// A range of times, an open end told as 0.
impl From<Range<u64>> for PlainTimes {
    ghost from_gives = { λ range plain. plain ≡ plain_times range };

    fn from(range: Range<u64>) -> PlainTimes {
        let (end, open) = plain_end(range.end, 0);
        PlainTimes {
            start: range.start,
            end,
            open,
        }
    }
}

// A range of subspaces, an open end told as 0.
impl From<Range<Subspace>> for PlainSubspaces {
    ghost from_gives = { λ range plain. plain ≡ plain_subspaces range };

    fn from(range: Range<Subspace>) -> PlainSubspaces {
        let (end, open) = plain_end(range.end, Subspace { high: 0, low: 0 });
        PlainSubspaces {
            start: range.start,
            end,
            open,
        }
    }
}

// A range of paths, an open end told as the path of no components.
impl From<Range<Path>> for PlainPaths {
    ghost from_gives = { λ range plain. plain ≡ plain_paths range };

    #[inline(always)]
    fn from(range: Range<Path>) -> PlainPaths {
        let (end, open) = plain_end(range.end, Path::new_empty());
        PlainPaths {
            start: range.start,
            end,
            open,
        }
    }
}

// A 3d range.
impl From<Range3d> for PlainRange {
    ghost from_gives = { λ range plain. plain ≡ plain_range range };

    #[inline(always)]
    fn from(range: Range3d) -> PlainRange {
        PlainRange {
            subspaces: range.subspaces.into(),
            paths: range.paths.into(),
            times: range.times.into(),
        }
    }
}

// The 3d range of an area or of an area of interest, or the refusal.
impl From<Result<Range3d, Refusal>> for PlainAreaRange {
    ghost from_gives = { λ answer plain. plain ≡ plain_area_range (said answer) };

    #[inline(always)]
    fn from(answer: Result<Range3d, Refusal>) -> PlainAreaRange {
        match answer {
            Ok(range) => PlainAreaRange {
                refusal: 0,
                range: range.into(),
            },
            Err(refusal) => PlainAreaRange {
                refusal: refusal.into(),
                range: Range3d::empty().into(),
            },
        }
    }
}
