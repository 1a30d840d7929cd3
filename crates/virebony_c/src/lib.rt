// The library `virebony` for C, and for Rust through C's header bindings/c/virebony.h: a static library with an export for each of its functions. An export calls
// the function of its name and states its clauses again. It has no `requires`: C may hand in anything.
// Kept (1): C has no enum with values, as in `virebony`.
// Kept (5): C lends each buffer by itself.
// Kept (2): no crate can depend on a static library, so what C calls stands here again, over the library `virebony` that the programs use.
#![tactic(auto)]

pub mod change;
pub mod key_bytes;
pub mod model;
pub mod reading;
pub mod rows;

ghost use Rattle.std.specs.Prelude.{◌≡◌};

// The edition of the archive, to be compared with the header's.
#[unsafe(no_mangle)]
pub extern "C" fn vb_edition() -> u32
    ensures { result ≡ 7 }
{
    virebony::vb_edition()
}
