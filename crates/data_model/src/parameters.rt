// The parameters that the Rust leaves open, fixed: a subspace is 16 bytes, as two numbers with the high half first.

// Subspaces compare as these numbers, the high half first (`subspace_order`, `subspace_same`).
#[repr(C)]
#[derive(Clone, Copy, PartialEq, Eq, PartialOrd, Ord, Debug)]
pub struct Subspace {
    pub high: u64,
    pub low: u64,
}
