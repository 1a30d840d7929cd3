// Ranges of times, of subspaces and of paths.
ghost use Rattle.std.specs.Prelude.{◌≡◌, ◌&&◌};
ghost use Rattle.data_model.specs.Path.{field, legal};
ghost use Rattle.data_model.specs.Subspace.{next_subspace};
ghost use Rattle.data_model.specs.Refusal.{order_by};
ghost use Rattle.data_model.specs.Range.{includes, end_says, legal_range};

use crate::parameters::Subspace;
use crate::path::Path;

// Where a range ends: before a value, or nowhere.
#[derive(Clone, Copy, PartialEq, Eq, Debug)]
pub enum RangeEnd<T> {
    Closed(T),
    Open,
}

// The values from a start up to an end.
#[derive(Clone, Copy, PartialEq, Eq, Debug)]
pub struct Range<T> {
    pub start: T,
    pub end: RangeEnd<T>,
}

impl Subspace {
    // The end of the range that holds this subspace alone.
    #[tactic(auto, unfolding(crate::specs::Subspace::next_subspace))]
    pub fn successor(self) -> RangeEnd<Subspace>
        ensures { result ≡ next_subspace self }
    {
        if self.low < u64::MAX {
            RangeEnd::Closed(Subspace {
                high: self.high,
                low: self.low + 1,
            })
        } else if self.high < u64::MAX {
            RangeEnd::Closed(Subspace {
                high: self.high + 1,
                low: 0,
            })
        } else {
            RangeEnd::Open
        }
    }
}

impl<T: Ord + Copy> Range<T> {
    // Whether the range holds the value: not below the start, and below the end where there is one.
    #[tactic(auto, unfolding(crate::specs::Range::includes, crate::specs::Range::before_end, crate::specs::Range::end_says, laws::specs::Order::is_less))]
    pub fn includes(self, value: T) -> bool
        ensures { result ≡ includes (order_by T.cmp) self.start (end_says self.end) value }
    {
        self.start <= value
            && match self.end {
                RangeEnd::Closed(end) => value < end,
                RangeEnd::Open => true,
            }
    }
}

impl Range<Path> {
    // Whether the paths that are looked at are legal.
    #[tactic(auto, unfolding(crate::specs::Range::legal_range, crate::specs::Range::legal_end))]
    pub fn is_legal(self) -> bool
        ensures { result ≡ legal_range field self }
    {
        self.start.is_legal()
            && match self.end {
                RangeEnd::Closed(end) => end.is_legal(),
                RangeEnd::Open => true,
            }
    }

    // Whether the range's paths that are looked at, and `value`, are legal.
    pub fn is_legal_with(self, value: Path) -> bool
        ensures { result ≡ (legal_range field self && legal field value) }
    {
        self.is_legal() && value.is_legal()
    }
}
