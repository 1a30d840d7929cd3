// The least legal path above a path that the path does not prefix.
// Kept (5): `legal field p`, as in `checked`.
ghost use Rattle.std.specs.Prelude.{◌+◌, ◌-◌, ◌≤◌, ◌<◌, min, ◌≡◌, [], ◌∷◌, ◌++◌, true, ltb, length, take, replicate};
ghost use Rattle.data_model.specs.Path.{field, capacity, legal, components, path_of, last_end, value_of};
ghost use Rattle.data_model.specs.Above.{above, above_found, raised_at, RaisesByte};

use crate::path::{MCL, MPL, Path};

// The items, with the filler behind up to the array's length.
fn padded<T: Copy, const N: usize>(items: &[T], filler: T) -> [T; N]
    requires { length items.now ≤ N }
    ensures { result ≡ items.now ++ replicate (N - length items.now) filler }
{
    let mut out = [filler; N];
    out[..items.len()].copy_from_slice(items);
    out
}

// The first n ends and the first e bytes, with zeros behind.
#[tactic(auto, unfolding(crate::specs::Path::value_of))]
fn front(p: Path, n: usize, e: usize) -> Path
    requires { (n ≤ capacity.mcc) × (e ≤ capacity.mpl) }
    ensures { result ≡ value_of (take e p.bytes) (take n p.ends) n }
{
    Path {
        bytes: padded(&p.bytes[..e], 0),
        ends: padded(&p.ends[..n], 0),
        count: n,
    }
}

// The same with a byte and an end more.
fn raise(p: Path, n: usize, e: usize, b: u8) -> Path
    requires { (n < capacity.mcc) × (e < capacity.mpl) }
    ensures { result ≡ value_of (take e p.bytes ++ b ∷ []) (take n p.ends ++ (e + 1) ∷ []) (n + 1) }
{
    let mut r = front(p, n, e);
    r.bytes[e] = b;
    r.ends[n] = e + 1;
    r.count = n + 1;
    r
}

// Where the i-th component begins.
fn start(ends: &[usize], i: usize) -> usize
    requires { i ≤ length ends.now }
    ensures { result ≡ last_end 0 (take i ends.now) }
{
    if i == 0 { 0 } else { ends[i - 1] }
}

// The value that is handed out for a legal path: zeros behind.
pub fn canonical(p: Path) -> Path
    requires { legal field p ≡ true }
    ensures { result ≡ path_of (components p) }
{
    front(p, p.count, start(&p.ends, p.count))
}

// The last byte that can be raised.
fn last_below(c: &[u8]) -> Option<usize>
    ensures { RaisesByte c.now result }
{
    for j in (0..c.len()).rev() {
        if c[j] < 255 {
            return Some(j);
        }
    }
    None
}

// Whether the component between two places can have a byte more.
fn may_grow(from: usize, e: usize) -> bool
    requires { from ≤ e }
    ensures { result ≡ ltb (e - from) (min field.mcl (field.mpl - from)) }
{
    e - from < MCL && e < MPL
}

// The path with its i-th component replaced by the least one above it, and nothing behind.
fn raised_at(p: Path, i: usize) -> Option<Path>
    requires { (legal field p ≡ true) × (i < p.count) }
    ensures { result ≡ above_found (raised_at field (components p) i) }
{
    let e = p.ends[i];
    let from = start(&p.ends, i);
    if may_grow(from, e) {
        return Some(raise(p, i, e, 0));
    }
    let j = last_below(&p.bytes[from..e])?;
    Some(raise(p, i, from + j, p.bytes[from + j] + 1))
}

// The path with the last of its components replaced that can be.
pub fn least_above(p: Path) -> Option<Path>
    requires { legal field p ≡ true }
    ensures { result ≡ above_found (above field (components p)) }
{
    for i in (0..p.count).rev() {
        if let Some(above) = raised_at(p, i) {
            return Some(above);
        }
    }
    None
}
