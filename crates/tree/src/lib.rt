// One tree: records in a lent byte buffer, key then value, in key order without gaps, and beside it a lent directory of pairs of offset
// and length. The tree takes its room from what it is lent. Its functions are for the store above it, and may ask what the store has
// tested already, as that a tree is well-formed.
#![tactic(auto)]

pub mod address;
pub mod apart;
pub mod by_value;
pub mod bytes;
pub mod edit;
pub mod entries;
pub mod interest;
pub mod marks;
pub mod matching;
pub mod rank;
pub mod search;
pub mod selection;
pub mod shape;
pub mod stored;
pub mod value;
pub mod within;
