// A prune list as rows of two numbers, offset and length: a row lies in memory as C's record of the two.
ghost use Rattle.std.specs.Prelude.{◌≡◌, map, ◌*◌, ◌≤◌, length, take};
ghost use Rattle.laws.specs.Lists.{put};
ghost use Rattle.store.specs.Store.{limit_most};
ghost use Rattle.pairs.specs.Pairs.{pairs_of};
ghost use Rattle.plain.specs.Rows.{pair_of};

use pairs::NUMBERS_MOST;

// The first n rows become the pairs that the numbers spell.
pub fn write_rows(numbers: [u32; NUMBERS_MOST], rows: &mut [[u32; 2]], n: usize)
    requires { (n ≤ limit_most) × (n ≤ length rows.old) }
    ensures { map pair_of rows.new ≡ put (pairs_of (take (2 * n) numbers)) (map pair_of rows.old) }
{
    for k in 0..n {
        rows[k] = [numbers[2 * k], numbers[2 * k + 1]];
    }
}
