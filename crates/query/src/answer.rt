// What the calls that only read answer.

// A part of a lent tree: where it begins, and how many bytes it has.
#[derive(Clone, Copy, PartialEq, Eq, Debug)]
pub struct Part {
    pub offset: usize,
    pub length: usize,
}
