// Indices, and bytes behind their number.

ghost use Rattle.std.specs.Prelude.{◌≡◌, ◌≤◌, ◌<◌, ◌^◌, ◌+◌, ◌++◌, OnOk, All, length};
ghost use Rattle.leb_binary.specs.Shortest.{unsigned_bytes};
ghost use Rattle.module_ast.specs.Binary.{sized_bytes, FitsIndex};

use leb_binary::{put_u64, unsigned_length};
use std::alloc::AllocError;

/// The number of bytes of an index in its shortest spelling: 1 to 5.
#[tactic(auto, using(leb_binary::proofs::Lengths::unsigned_five))]
pub fn index_length(index: u32) -> u64
    ensures length { result ≡ length (unsigned_bytes index) }
    ensures bound { result ≤ 5 }
    ensures fit { FitsIndex index }
{
    unsigned_length(u64::from(index))
}

/// The length in bytes of a byte string with its number of bytes in front.
pub fn sized_length(bytes: &[u8]) -> u64
    requires { length (sized_bytes bytes.now) < 2 ^ 63 }
    ensures length { result ≡ length (sized_bytes bytes.now) }
    ensures fit { All (λ b. b < 256) bytes.now }
{
    let size = bytes.len() as u64;
    unsigned_length(size) + size
}

/// Appends the number of these bytes, and the bytes.
pub fn put_sized(out: &mut Vec<u8>, bytes: &[u8]) -> Result<(), AllocError>
    ensures { OnOk result (out.new.items ≡ out.old.items ++ sized_bytes bytes.now) }
{
    put_u64(out, bytes.len() as u64)?;
    out.extend_from_slice(bytes)?;
    Ok(())
}
