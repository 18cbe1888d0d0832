// A shelf that has the files of the machine.

ghost use Rattle.std.specs.Prelude.{◌≤◌, ◌<◌, ℕ, IfOk, IsErrOf, vec_len};

use crate::{DiskShelf, HostDisk, ReadFault, Shelf, WriteFault};
use std::alloc::Global;
use std::rt::Files;

/// The files of the machine, under their paths: the shelf of its disk. Their contents are not known to contracts.
#[derive(Drop)]
pub struct HostShelf<'r, R: Files + AllocGlobal> {
    files: DiskShelf<HostDisk<'r, R>>,
}

impl<'r, R: Files + AllocGlobal> HostShelf<'r, R> {
    ghost use Rattle.std.specs.Prelude.{◌≡◌};
    ghost use Rattle.outside_io.specs.Faults.{seen_files};

    /// The files that this runtime reaches. All counts are 0.
    pub fn new(rt: &'r R) -> HostShelf<'r, R>
        ensures { seen_files result.files.reads result.files.writes result.files.read_faults result.files.write_faults ≡ seen_files 0 0 0 0 }
    {
        HostShelf {
            files: DiskShelf::new(HostDisk::new(rt)),
        }
    }
}

impl<R: Files + AllocGlobal> Shelf for HostShelf<'_, R> {
    ghost use Rattle.std.specs.Prelude.{◌≡◌, ◌≤◌, ◌<◌, ℕ, None, IfOk, OnOk, OnErr, IsErrOf, vec_len};
    ghost use Rattle.outside_io.specs.Faults.{seen_files};

    ghost seen = { λ s. seen_files s.files.reads s.files.writes s.files.read_faults s.files.write_faults };

    /// The bytes of a file, if there are at most `cap` of them, as `DiskShelf` reads them.
    fn read(&mut self, alloc: Global, name: &str, cap: u64) -> Result<Vec<u8>, ReadFault> {
        self.files.read(alloc, name, cap)
    }

    /// Gives a file these bytes, in place of what it had, as `DiskShelf` writes them.
    fn write(&mut self, name: &str, bytes: &[u8]) -> Result<(), WriteFault> {
        self.files.write(name, bytes)
    }
}
