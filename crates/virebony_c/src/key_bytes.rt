// Keys as bytes: both encoders, both decoders, and the reader.
ghost use Rattle.std.specs.Prelude.{◌≡◌, drop};
ghost use Rattle.data_model.specs.Path.{field, components, legal};
ghost use Rattle.keys.specs.Encode.{triple, spt_key, tsp_key, roomy, encoded, encoded_in};
ghost use Rattle.keys.specs.Decode.{read_path, path_read, read_spt, read_tsp, decoded};
ghost use Rattle.key_reader.specs.Reader.{stepped};
ghost use Rattle.plain.specs.KeyAnswer.{plain_encoded, plain_decoded, plain_path_read, plain_stepped};

use data_model::parameters::Subspace;
use data_model::path::Path;
use plain::key_answer::{PlainDecoded, PlainEncoded, PlainPathRead, PlainStepped};

// `encode_spt_entry_key`: writes the subspace-first key of a triple to the front of a buffer; a refusal leaves the buffer as it was.
#[unsafe(no_mangle)]
pub extern "C" fn vb_encode_spt_entry_key(
    subspace: Subspace,
    path: Path,
    timestamp: u64,
    out: &mut [u8],
) -> PlainEncoded
    ensures value { result ≡ plain_encoded (encoded (roomy field out.old) (legal field path) (spt_key (triple subspace (components path) timestamp))) }
    ensures out_after { out.new ≡ encoded_in (roomy field out.old) (legal field path) (spt_key (triple subspace (components path) timestamp)) out.old }
{
    virebony::key_bytes::vb_encode_spt_entry_key(subspace, path, timestamp, out)
}

// `encode_tsp_entry_key`: writes the time-first key of a triple to the front of a buffer; a refusal leaves the buffer as it was.
#[unsafe(no_mangle)]
pub extern "C" fn vb_encode_tsp_entry_key(
    subspace: Subspace,
    path: Path,
    timestamp: u64,
    out: &mut [u8],
) -> PlainEncoded
    ensures value { result ≡ plain_encoded (encoded (roomy field out.old) (legal field path) (tsp_key (triple subspace (components path) timestamp))) }
    ensures out_after { out.new ≡ encoded_in (roomy field out.old) (legal field path) (tsp_key (triple subspace (components path) timestamp)) out.old }
{
    virebony::key_bytes::vb_encode_tsp_entry_key(subspace, path, timestamp, out)
}

// `decode_spt_entry_key`: the triple that a subspace-first key stands for.
#[unsafe(no_mangle)]
pub extern "C" fn vb_decode_spt_entry_key(key: &[u8]) -> PlainDecoded
    ensures { result ≡ plain_decoded (decoded (read_spt field key.now)) }
{
    virebony::key_bytes::vb_decode_spt_entry_key(key)
}

// `decode_tsp_entry_key`: the triple that a time-first key stands for.
#[unsafe(no_mangle)]
pub extern "C" fn vb_decode_tsp_entry_key(key: &[u8]) -> PlainDecoded
    ensures { result ≡ plain_decoded (decoded (read_tsp field key.now)) }
{
    virebony::key_bytes::vb_decode_tsp_entry_key(key)
}

// One step of a reader at a position of a key: the next component or the path's end, where it then stands, and how many bytes are left.
#[unsafe(no_mangle)]
pub extern "C" fn vb_read_component_at(key: &[u8], at: usize) -> PlainStepped
    ensures { result ≡ plain_stepped (stepped at key.now) }
{
    virebony::key_bytes::vb_read_component_at(key, at)
}

// The path at a position of a key, taken by a reader, and the position behind it.
#[unsafe(no_mangle)]
pub extern "C" fn vb_read_path_at(key: &[u8], at: usize) -> PlainPathRead
    ensures { result ≡ plain_path_read (path_read at (read_path field (drop at key.now))) }
{
    virebony::key_bytes::vb_read_path_at(key, at)
}

// The triple that a subspace-first key stands for, taken by a reader that holds the key.
#[unsafe(no_mangle)]
pub extern "C" fn vb_read_spt_entry_key(key: &[u8]) -> PlainDecoded
    ensures { result ≡ plain_decoded (decoded (read_spt field key.now)) }
{
    virebony::key_bytes::vb_read_spt_entry_key(key)
}

// The triple that a time-first key stands for, taken by a reader that holds the key.
#[unsafe(no_mangle)]
pub extern "C" fn vb_read_tsp_entry_key(key: &[u8]) -> PlainDecoded
    ensures { result ≡ plain_decoded (decoded (read_tsp field key.now)) }
{
    virebony::key_bytes::vb_read_tsp_entry_key(key)
}
