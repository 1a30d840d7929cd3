// Whether bytes are a key: they are counted in stretches, and nothing is kept of what is read.
ghost use Rattle.std.specs.Prelude.{◌≡◌, true, ◌&&◌, ◌+◌, ◌-◌, ◌<◌, ◌≤◌, length, drop, leb};
ghost use Rattle.data_model.specs.Path.{field};
ghost use Rattle.keys.specs.Decode.{read_path, read_spt, read_tsp, was_read};
ghost use Rattle.keys.specs.Judge.{takes, fills, bit, marked, ended, closed, sound, others, endings, kept};

use crate::encode::{COMPONENT_END, ESCAPED_ZERO, PATH_END};
use data_model::path::{MCC, MCL, MPL};

// How many bytes are counted at once.
// Kept (5): `at + w < length k`: a stretch is read with the byte behind it, which a slice of the stretch would not hold.
const STRETCH: usize = 32;

// Of a stretch of bytes: whether each 00 stands before a 01 or a 02, how many bytes are not 00, and how many 00 stand before a 01.
#[derive(Clone, Copy)]
struct Counts {
    sound: bool,
    others: usize,
    ends: usize,
}

// Each byte is looked at with the next one only, whatever tokens they are parts of, so that many can be looked at together.
fn counts_of(k: &[u8], at: usize, w: usize) -> Counts
    requires { (at + w < length k.now) × (w ≤ 32) }
    ensures { result ≡ record { sound = sound w at k.now; others = others w at k.now; ends = endings w at k.now } }
{
    let mut ok = true;
    let mut n: u8 = 0;
    let mut e: u8 = 0;
    for j in 0..w {
        let a = k[at + j];
        let b = k[at + j + 1];
        ok = ok & ((a != 0) | ((b == COMPONENT_END[1]) | (b == ESCAPED_ZERO[1])));
        n += u8::from(a != 0);
        e += u8::from((a == COMPONENT_END[0]) & (b == COMPONENT_END[1]));
    }
    Counts {
        sound: ok,
        others: usize::from(n),
        ends: usize::from(e),
    }
}

// Counts up to a stretch of bytes, as `counts_of` does. A whole stretch is counted by a loop of its own, whose length is known, so that its bytes are
// looked at together.
fn counts_up_to(k: &[u8], at: usize, w: usize) -> Counts
    requires { (at + w < length k.now) × (w ≤ 32) }
    ensures { result ≡ record { sound = sound w at k.now; others = others w at k.now; ends = endings w at k.now } }
{
    if w == STRETCH {
        counts_of(k, at, STRETCH)
    } else {
        counts_of(k, at, w)
    }
}

// The bytes before the end of a component, or all of a stretch in which none ends: how many, and what is counted of them.
#[derive(Clone, Copy)]
struct Front {
    w: usize,
    counts: Counts,
}

// So many bytes in which no component ends, with what is counted of them.
fn front_of(w: usize, sound: bool, others: usize) -> Front
    ensures { result ≡ record { w = w; counts = record { sound = sound; others = others; ends = 0 } } }
{
    Front {
        w,
        counts: Counts {
            sound,
            others,
            ends: 0,
        },
    }
}

// Counts the bytes before the end of a component, at most w of them, in one pass.
fn counts_to_end(k: &[u8], at: usize, w: usize) -> Front
    requires { at + w < length k.now }
    ensures { (result.w ≤ w) × (endings result.w at k.now ≡ 0) × (result.w < w → ended (at + result.w) k.now ≡ true) × (result.counts ≡ record { sound = sound result.w at k.now; others = others result.w at k.now; ends = endings result.w at k.now }) }
{
    let mut ok = true;
    let mut n = 0;
    for j in 0..w {
        if k[at + j] != 0 {
            n += 1;
        } else if k[at + j + 1] == COMPONENT_END[1] {
            return front_of(j, ok, n);
        } else {
            ok = ok & (k[at + j + 1] == ESCAPED_ZERO[1]);
        }
    }
    front_of(w, ok, n)
}

// What counts on of a component behind a stretch: nothing if some component ended in it.
fn count_on(len: usize, ends: usize) -> usize
    ensures { result ≡ kept len ends }
{
    if ends == 0 { len } else { 0 }
}

// Whether a component of so many bytes may go on behind a stretch that is sound or not.
fn passes(sound: bool, len: usize) -> bool
    ensures { result ≡ (sound && leb len field.mcl) }
{
    sound & (len <= MCL)
}

// Whether a mark stands at a place.
fn has_mark(k: &[u8], at: usize, mark: [u8; 2]) -> bool
    requires { at + 2 ≤ length k.now }
    ensures { result ≡ marked mark at k.now }
{
    [k[at], k[at + 1]] == mark
}

// Whether a component ends at a place, and then the path.
fn closes(k: &[u8], at: usize) -> bool
    requires { at + 4 ≤ length k.now }
    ensures { result ≡ closed at k.now }
{
    has_mark(k, at, COMPONENT_END) & has_mark(k, at + 2, PATH_END)
}

// How far it is to the end of a component, at most w bytes.
fn to_end(k: &[u8], at: usize, w: usize) -> usize
    requires { at + w < length k.now }
    ensures { (result ≤ w) × (endings result at k.now ≡ 0) × (result < w → ended (at + result) k.now ≡ true) }
{
    for j in 0..w {
        if has_mark(k, at + j, COMPONENT_END) {
            return j;
        }
    }
    w
}

// Whether the first n bytes are a path, in stretches. Where each 00 stands before a 01 or a 02 it begins a token, so the bytes that are not
// 00, less a 01 for each end, are those of the components. A component counts with the whole of the stretch in which it begins, and
// with the whole of the last one: a path with a component of 32 bytes or more may be missed. Where it would be too long so, a stretch is counted
// up to where the component ends, and no further.
fn shows_path(k: &[u8], n: usize) -> bool
    requires { n ≤ length k.now }
    ensures { result ≡ true → takes n (read_path field k.now) ≡ true }
{
    if n < 4 {
        return false;
    }
    let stop = n - 4;
    let mut at = 0;
    let mut len = 0;
    let mut others = 0;
    let mut ends = 0;
    let mut left = stop;
    // Kept (3): a turn moves on by as many bytes as it counted, which no range tells beforehand.
    while STRETCH <= left {
        let c = counts_of(k, at, STRETCH);
        if passes(c.sound, len + c.others) {
            len = count_on(len, c.ends) + c.others;
            others += c.others;
            ends += c.ends;
            at += STRETCH;
            left -= STRETCH;
        } else {
            let w = to_end(k, at, STRETCH - 2);
            let d = counts_of(k, at, w);
            if !(passes(d.sound, len + d.others) & has_mark(k, at + w, COMPONENT_END)) {
                return false;
            }
            len = 0;
            others += d.others + 1;
            ends += 1;
            at += w + 2;
            left -= w + 2;
        }
    }
    let c = counts_of(k, at, left);
    others += c.others;
    ends += c.ends;
    passes(c.sound, len + c.others) & (ends < MCC) & (others <= MPL + ends) & closes(k, stop)
}

// Whether the bytes before `stop` and the two from there on are a path: each component is counted by itself.
fn is_path_to(k: &[u8], stop: usize) -> bool
    requires { stop + 2 ≤ length k.now }
    ensures { result ≡ takes (stop + 2) (read_path field k.now) }
{
    let mut at = 0;
    let mut len = 0;
    let mut total = 0;
    let mut ends = 0;
    // Kept (3): a turn moves on by as many bytes as it counted, which no range tells beforehand.
    while at < stop {
        let w = STRETCH.min(stop - at);
        let c = counts_up_to(k, at, w);
        if c.ends == 0 {
            if !passes(c.sound, len + c.others) {
                return false;
            }
            len += c.others;
            total += c.others;
            at += w;
        } else {
            let f = counts_to_end(k, at, w);
            if !passes(f.counts.sound, len + f.counts.others) {
                return false;
            }
            len = 0;
            total += f.counts.others;
            ends += 1;
            at += f.w + 2;
        }
    }
    (len == 0) & (total <= MPL) & (ends <= MCC) & has_mark(k, stop, PATH_END)
}

// Whether the first n bytes are a path: at a glance, else by each component.
fn is_path(k: &[u8], n: usize) -> bool
    requires { n ≤ length k.now }
    ensures { result ≡ takes n (read_path field k.now) }
{
    n >= 2 && (shows_path(k, n) || is_path_to(k, n - 2))
}

// Whether a key is a path with so many bytes before it and so many behind it.
fn is_key(key: &[u8], before: usize, behind: usize) -> bool
    requires { before + behind ≤ 24 }
    ensures { result ≡ fills before behind (length key.now) (read_path field (drop before key.now)) }
{
    key.len() >= before + behind && is_path(&key[before..], key.len() - before - behind)
}

// Whether the bytes are a subspace-first key that an encoder writes.
pub fn is_spt_key(key: &[u8]) -> bool
    ensures { result ≡ was_read (read_spt field key.now) }
{
    is_key(key, 16, 8)
}

// Whether the bytes are a time-first key that an encoder writes.
// Kept (2): what the two share is `is_key`; the order as a type is the tree's, above.
pub fn is_tsp_key(key: &[u8]) -> bool
    ensures { result ≡ was_read (read_tsp field key.now) }
{
    is_key(key, 24, 0)
}
