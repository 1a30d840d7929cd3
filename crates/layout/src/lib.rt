// Records in two lent buffers, one of bytes and one of pairs of offset and length: moves, clearings and comparisons of bytes, records taken
// out and put in, and marks on them. What a record holds is not known here. How records lie in the buffers is said in specs/, and its laws
// stand in proofs/.
#![tactic(auto)]

pub mod bytes;
pub mod directory;
pub mod edit;
pub mod marks;
