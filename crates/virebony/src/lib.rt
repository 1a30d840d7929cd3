// The door: every call of the store, of its reading half and of the keys' layer that document 01 names, in a form that crosses to C and Rust
// (bindings/c/virebony.h); the static library `virebony_c` exports each. An export has no `requires`, and its contract is the equation of the call that it wraps. Plain structs go by value; an enum crosses as a number
// beside its values (crate `plain`); a returned part as offset and length. A yes or no that is handed in is a byte, and every byte but 0 means yes.
// Kept (1): C has no enum with values, so a yes or no that is handed in stands beside the value that it is about.
// Kept (2): a crate that exports is a static library, on which no crate can depend, so `virebony_c` has each function again.
// Kept (2): the C header has a name for each call, key order and grouping, so that exports that differ in these alone stand apart.
// Kept (5): C lends each buffer by itself, so an export has more parameters than a function of Rattle would.
#![tactic(auto)]

pub mod change;
pub mod key_bytes;
pub mod model;
pub mod reading;
pub mod rows;

ghost use Rattle.std.specs.Prelude.{◌≡◌};

// Raised with every change of an export, of its form or of what it answers; `VB_EDITION` of the header it was made with.
pub const EDITION: u32 = 7;

// The edition of the archive, to be compared with the header's.
#[unsafe(no_mangle)]
pub extern "C" fn vb_edition() -> u32
    ensures { result ≡ 7 }
{
    EDITION
}
