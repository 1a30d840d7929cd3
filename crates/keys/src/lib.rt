// The two keys of an entry, with their decoders. The public entries have no `requires`; `number` is for the layers above.
#![tactic(auto)]

pub mod decode;
pub mod encode;
pub mod judge;
pub mod number;
pub mod token;
