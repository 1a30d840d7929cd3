// Answers about keys' bytes, told in plain values. `refusal` is 0, or the number of the refusal, and all else is then 0 or empty, but for a reader's position and what is left from it.
// Kept (1): C has no enum with values, so each answer here has the refusal's number beside its values.
ghost use Rattle.std.specs.Prelude.{◌≡◌};
ghost use Rattle.data_model.specs.Refusal.{said};
ghost use Rattle.key_reader.specs.Reader.{stepped_says};
ghost use Rattle.plain.specs.KeyAnswer.{plain_encoded, plain_decoded, plain_path_read, plain_stepped};

use data_model::answer::Refusal;
use data_model::parameters::Subspace;
use data_model::path::{COMPONENT_BYTES, Path};
use key_reader::Stepped;
use keys::decode::{EntryKey, Next, PathRead};

// Refusal 0 and how many bytes were written; or the refusal.
#[repr(C)]
#[derive(Clone, Copy)]
pub struct PlainEncoded {
    pub refusal: u8,
    pub length: usize,
}

// Refusal 0 and what a key stands for; or the refusal and all else 0.
#[repr(C)]
#[derive(Clone, Copy)]
pub struct PlainDecoded {
    pub refusal: u8,
    pub subspace: Subspace,
    pub path: Path,
    pub timestamp: u64,
}

// Refusal 0, a path and the position behind it; or the refusal and all else 0.
#[repr(C)]
#[derive(Clone, Copy)]
pub struct PlainPathRead {
    pub refusal: u8,
    pub path: Path,
    pub next: usize,
}

// Refusal 0, whether a component was taken (else the path's end), its length and bytes, the reader's position then and how many bytes are left; or the refusal, and the position as it was.
#[repr(C)]
#[derive(Clone, Copy)]
pub struct PlainStepped {
    pub refusal: u8,
    pub component: bool,
    pub length: usize,
    pub bytes: [u8; COMPONENT_BYTES],
    pub position: usize,
    pub left: usize,
}

// The answer of an encoder.
impl From<Result<usize, Refusal>> for PlainEncoded {
    ghost from_gives = { λ answer plain. plain ≡ plain_encoded (said answer) };

    fn from(answer: Result<usize, Refusal>) -> PlainEncoded {
        match answer {
            Ok(length) => PlainEncoded { refusal: 0, length },
            Err(refusal) => PlainEncoded {
                refusal: refusal.into(),
                length: 0,
            },
        }
    }
}

// The answer of a decoder of keys.
impl From<Result<EntryKey, Refusal>> for PlainDecoded {
    ghost from_gives = { λ answer plain. plain ≡ plain_decoded (said answer) };

    fn from(answer: Result<EntryKey, Refusal>) -> PlainDecoded {
        match answer {
            Ok(key) => PlainDecoded {
                refusal: 0,
                subspace: key.subspace,
                path: key.path,
                timestamp: key.timestamp,
            },
            Err(refusal) => PlainDecoded {
                refusal: refusal.into(),
                subspace: Subspace { high: 0, low: 0 },
                path: Path::new_empty(),
                timestamp: 0,
            },
        }
    }
}

// The answer of the decoder of a path.
impl From<Result<PathRead, Refusal>> for PlainPathRead {
    ghost from_gives = { λ answer plain. plain ≡ plain_path_read (said answer) };

    #[inline(always)]
    fn from(answer: Result<PathRead, Refusal>) -> PlainPathRead {
        match answer {
            Ok(read) => PlainPathRead {
                refusal: 0,
                path: read.path,
                next: read.next,
            },
            Err(refusal) => PlainPathRead {
                refusal: refusal.into(),
                path: Path::new_empty(),
                next: 0,
            },
        }
    }
}

// The answer of a reader's step.
impl From<Stepped> for PlainStepped {
    ghost from_gives = { λ step plain. plain ≡ plain_stepped (stepped_says step) };

    #[tactic(auto, unfolding(key_reader::specs::Reader::stepped_says, keys::specs::Decode::component_says, data_model::specs::Said::number_of))]
    fn from(step: Stepped) -> PlainStepped {
        let none = PlainStepped {
            refusal: 0,
            component: false,
            length: 0,
            bytes: [0; COMPONENT_BYTES],
            position: step.position,
            left: step.left,
        };
        match step.component {
            Ok(Next::Component { bytes, len, .. }) => PlainStepped {
                component: true,
                length: len,
                bytes,
                ..none
            },
            Ok(Next::PathEnd(_)) => none,
            Err(refusal) => PlainStepped {
                refusal: refusal.into(),
                ..none
            },
        }
    }
}
