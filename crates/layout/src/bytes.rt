// Moves, clearings and comparisons of runs of bytes.
ghost use Rattle.std.specs.Prelude.{◌≡◌, ◌+◌, ◌≤◌, length, drop};
ghost use Rattle.std.specs.List.{list_all};
ghost use Rattle.laws.specs.Order.{is_less, by_number, by_elements};
ghost use Rattle.laws.specs.Prefix.{same_number, same_list};
ghost use Rattle.layout.specs.Buffers.{moved, cleared, written, all_zero};

// Moves n bytes from `from` down to `to`. What stands there already is not touched.
pub fn shift_down(buf: &mut [u8], from: usize, to: usize, n: usize)
    requires { (to ≤ from) × (from + n ≤ length buf.old) }
    ensures { buf.new ≡ moved from to n buf.old }
{
    if from != to {
        buf.copy_within(from..from + n, to);
    }
}

// Moves n bytes from `from` up to `to`.
pub fn shift_up(buf: &mut [u8], from: usize, to: usize, n: usize)
    requires { (from ≤ to) × (to + n ≤ length buf.old) }
    ensures { buf.new ≡ moved from to n buf.old }
{
    buf.copy_within(from..from + n, to);
}

// Zeroes the bytes from `from` up to `to`.
pub fn clear(buf: &mut [u8], from: usize, to: usize)
    requires { (from ≤ to) × (to ≤ length buf.old) }
    ensures { buf.new ≡ cleared from to buf.old }
{
    buf[from..to].fill(0);
}

// Writes all of src from `at` on.
pub fn write(buf: &mut [u8], at: usize, src: &[u8])
    requires { at + length src.now ≤ length buf.old }
    ensures { buf.new ≡ written at src.now buf.old }
{
    buf[at..at + src.len()].copy_from_slice(src);
}

// Whether the bytes from `from` on are zero.
pub fn zeros(buf: &[u8], from: usize) -> bool
    requires { from ≤ length buf.now }
    ensures { result ≡ all_zero (drop from buf.now) }
{
    all_are(&buf[from..], 0)
}

// Whether all elements are the value. There is no early way out, so that this is compiled to wide compares.
pub(crate) fn all_are<T: Copy + PartialEq>(elements: &[T], value: T) -> bool
    ensures { result ≡ list_all (λ x. T.eq x value) elements.now }
{
    let mut ok = true;
    for x in elements {
        ok &= *x == value;
    }
    ok
}

// Whether a stands before b: the first difference decides, and a beginning stands before the whole.
// Kept (4): the crates above know bytes by these two words and their clauses, over the papers' orders.
pub fn less(a: &[u8], b: &[u8]) -> bool
    ensures { result ≡ is_less (by_elements by_number a.now b.now) }
{
    // Where `<` goes one byte at a time, `cmp` skips groups of bytes that are the same.
    a.cmp(&b).is_lt()
}

// Whether a and b are the same bytes.
pub fn same(a: &[u8], b: &[u8]) -> bool
    ensures { result ≡ same_list same_number a.now b.now }
{
    a == b
}
