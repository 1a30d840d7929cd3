// From which time on an area of interest takes entries.
ghost use Rattle.std.specs.Prelude.{◌≡◌, false, ◌||◌, ℕ, ◌+◌, length, List, reverse};
ghost use Rattle.layout.specs.Marks.{selected};
ghost use Rattle.tree.specs.Lent.{contents_in, IsFormed};
ghost use Rattle.tree.specs.Interest.{breaks, add_size, interest_from};

use crate::stored::Tree;
use crate::value::payload_length;

// The greatest number means no limit.
// Kept (1): the C interface and the definition `no_limit` have the greatest number for no limit, so an option would only be made from it here.
pub const NO_LIMIT: u64 = u64::MAX;

// Whether so much more breaks a limit.
fn breaks(limit: u64, n: u64, more: u64) -> bool
    ensures { result ≡ breaks limit (n + more) }
{
    limit != NO_LIMIT && (limit < more || limit - more < n)
}

// Whether one more match, with so much payload, breaks one of the two limits.
fn breaks_one(max_count: u64, max_size: u64, n: u64, size: u64, length: u64) -> bool
    ensures { result ≡ (breaks max_count (n + 1) || breaks max_size (size + length)) }
{
    breaks(max_count, n, 1) || breaks(max_size, size, length)
}

// The payloads so far: no sum is kept where there is no limit.
fn add_size(max_size: u64, size: u64, length: u64) -> u64
    requires { breaks max_size (size + length) ≡ false }
    ensures { result ≡ add_size max_size size length }
{
    if max_size == NO_LIMIT {
        0
    } else {
        size + length
    }
}

impl<'a, 'd> Tree<'a, 'd> {
    // Walks the marked records from the last: the time of the first that breaks a limit, else of the least, else `start`.
    pub fn interest_start(self, marks: &[u8], start: u64, max_count: u64, max_size: u64) -> u64
        requires { (IsFormed self) × (length marks.now ≡ self.count) }
        ensures { (ns : List ℕ) → result ≡ interest_from max_count max_size 0 0 start (reverse (selected marks.now (contents_in self.entry ns))) }
    {
        let mut n: u64 = 0;
        let mut size: u64 = 0;
        let mut time = start;
        for k in (0..self.count).rev() {
            if marks[k] == 1 {
                let length = payload_length(self.value_at(k));
                time = self.time_at(k);
                if breaks_one(max_count, max_size, n, size, length) {
                    return time;
                }
                n += 1;
                size = add_size(max_size, size, length);
            }
        }
        time
    }
}
