// The writing of one file.

ghost use Rattle.std.specs.Prelude.{IfErr, OnOk};
ghost use Rattle.outside_io.specs.Outside.{OnlyWrote, Wrote};
ghost use Rattle.app_load.specs.Writing.{PutCause};
ghost use Rattle.app_load.specs.Outcomes.{refusal_status, refusal_text};

use crate::printing::{Refusal, refused};
use crate::status::Status;
use outside_io::{Shelf, WriteFault};
use std::alloc::Global;

/// Writes `bytes` under `name`, in place of what stood there, with one call of the shelf. The refusal is `Unwritten` if
/// the shelf fails, and `NoMemory` if memory runs out. After a refusal, the name is as before or has a prefix of the
/// bytes.
pub fn put<S: Shelf>(alloc: Global, name: &str, bytes: &[u8], shelf: &mut S) -> Result<(), Refusal>
    ensures written { OnOk result (Wrote name.now bytes.now (S.seen shelf.old).contents (S.seen shelf.new).contents) }
    ensures refused { IfErr result (λ r. PutCause name.now bytes.now (S.seen shelf.old) (S.seen shelf.new) (refusal_status r) (refusal_text r)) }
    ensures once { OnlyWrote 1 (S.seen shelf.old) (S.seen shelf.new) }
{
    match shelf.write(name, bytes) {
        Ok(()) => Ok(()),
        Err(WriteFault::Failed) => Err(refused(
            Status::Unwritten,
            format!(in alloc; "error 5: {name} can't be written\n"),
        )),
        Err(WriteFault::NoMemory) => Err(Refusal::NoMemory),
    }
}
