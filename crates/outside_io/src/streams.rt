// Reads a stream to its end, and writes all of some bytes.

ghost use Rattle.std.specs.Prelude.{◌≡◌, ◌≤◌, ◌<◌, ℕ, IfOk, OnOk, IsErrOf, vec_len, length};
ghost use Rattle.std.specs.Option.{IfSome};
ghost use Rattle.std.specs.Io.KnownBytes.{Appends};

use crate::ReadFault;
use std::alloc::Global;
use std::io;
use std::io::{Error, ErrorKind, Read, Write};

/// All bytes that are left in a stream, if there are at most `cap` of them.
///
/// `TooLong` if there are more. Reading then stops when more than `cap` bytes were taken, and `length` is their number. An
/// error of the stream becomes its fault, and `NoMemory` says that memory ran out.
pub(crate) fn read_within<F: Read>(
    from: &mut F,
    alloc: Global,
    cap: u64,
) -> Result<Vec<u8>, ReadFault>
    ensures within { IfOk result (λ bytes. vec_len bytes ≤ cap) }
    ensures all { IfOk result (λ bytes. IfSome (F.remaining from.old) (λ left. bytes.items ≡ left)) }
    ensures past { (long : ℕ) → IsErrOf result (ReadFault.TooLong long) → cap < long }
    ensures taken { (long : ℕ) → IsErrOf result (ReadFault.TooLong long) → IfSome (F.remaining from.old) (λ left. long ≤ length left) }
{
    let mut bytes = Vec::new(alloc);
    let mut piece = [0; 4096];
    loop {
        let taken = from.read(&mut piece)?;
        if taken == 0 {
            return Ok(bytes);
        }
        let length = bytes.len() as u64 + taken as u64;
        if length > cap {
            return Err(ReadFault::TooLong { length });
        }
        bytes.extend_from_slice(&piece[..taken])?;
    }
}

/// Writes all bytes. An error of the stream ends it, and so does a write that takes no byte (`WriteZero`).
pub(crate) fn write_all<W: Write>(to: &mut W, bytes: &[u8]) -> io::Result<()>
    ensures { OnOk result (Appends (W.contents to.old) (W.contents to.new) bytes.now) }
{
    let mut done = 0;
    while done < bytes.len() {
        let taken = to.write(&bytes[done..])?;
        if taken == 0 {
            return Err(Error::from(ErrorKind::WriteZero));
        }
        done += taken;
    }
    Ok(())
}
