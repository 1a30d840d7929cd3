// Where a part of what a caller lent lies.
ghost use Rattle.std.specs.Prelude.{◌≡◌};
ghost use Rattle.query.specs.Listing.{part_told};
ghost use Rattle.plain.specs.Part.{plain_step};

use data_model::answer::Refusal;
use query::answer::Part;

// A part: so many bytes from an offset on.
#[repr(C)]
#[derive(Clone, Copy)]
pub struct PlainPart {
    pub offset: usize,
    pub length: usize,
}

// Where the record lies that a step of a listing gave; 0 and 0 where it gave none.
impl From<Result<Option<Part>, Refusal>> for PlainPart {
    ghost from_gives = { λ step plain. plain ≡ plain_step (part_told step) };

    fn from(step: Result<Option<Part>, Refusal>) -> PlainPart {
        match step {
            Ok(Some(part)) => PlainPart {
                offset: part.offset,
                length: part.length,
            },
            Ok(None) | Err(_) => PlainPart {
                offset: 0,
                length: 0,
            },
        }
    }
}
