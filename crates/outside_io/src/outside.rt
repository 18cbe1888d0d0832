// The two traits through which a program reaches everything outside it.

ghost use Rattle.std.specs.Prelude.{ℕ, ◌≤◌, IfOk, OnOk, OnErr, IsErrOf, vec_len};
ghost use Rattle.outside_io.specs.Outside.{Rose, Wrote, WrotePart, Holds, IsMissing, IsTooLong, Printed, PrintedPart};
ghost use Rattle.outside_io.specs.Outside.{ShelfState, OnlyRead, OnlyWrote, PrintState, OnlyPrinted};

use std::alloc::{AllocError, Global};

/// Memory ran out: the error of the allocator.
pub type NoMemory = AllocError;

/// Why the bytes under a name could not be read.
#[derive(Clone, Copy, Debug, PartialEq, Eq)]
pub enum ReadFault {
    /// Nothing is under the name.
    Missing,
    /// There are more bytes than `cap`. `length` is how many there are, or how many were taken when reading stopped. It is
    /// above `cap` too.
    TooLong { length: u64 },
    /// The outside failed in another way.
    Failed,
    /// Memory ran out.
    NoMemory,
}

/// Why bytes could not be put under a name.
#[derive(Clone, Copy, Debug, PartialEq, Eq)]
pub enum WriteFault {
    /// The outside failed.
    Failed,
    /// Memory ran out.
    NoMemory,
}

/// Why bytes could not be printed.
#[derive(Clone, Copy, Debug, PartialEq, Eq)]
pub enum SinkFault {
    /// The outside failed.
    Failed,
    /// Memory ran out.
    NoMemory,
}

/// Bytes under names. The contents of a shelf are known to contracts, or they are not. A shelf counts its reads, its writes,
/// and the faults of each: the calls that were refused because the outside failed. Contracts see the refused reads by name:
/// the count at a name rises if a read of that name is refused. A count stops at 2^64 - 1.
pub trait Shelf {
    /// What contracts see of a shelf: its contents if they are known, and its counts.
    ghost seen: { Self → ShelfState };

    /// The bytes under a name, if there are at most `cap` of them. The contents stay as they are.
    ///
    /// `Missing` if nothing is under the name, `TooLong` if there are more than `cap` bytes, `Failed` if the outside failed,
    /// and `NoMemory` if memory runs out. `Failed` is counted as a fault, and so are `Missing` and `TooLong` if the contents
    /// are not known.
    fn read(&mut self, alloc: Global, name: &str, cap: u64) -> Result<Vec<u8>, ReadFault>
        ensures given { IfOk result (λ bytes. Holds (seen self.old).contents name.now bytes.items) }
        ensures within { IfOk result (λ bytes. vec_len bytes ≤ cap) }

        ensures missing { IsErrOf result ReadFault.Missing →
            IsMissing (seen self.old).contents name.now ((seen self.old).read_faults name.now) ((seen self.new).read_faults name.now) }
        ensures too_long { (long : ℕ) → IsErrOf result (ReadFault.TooLong long) →
            IsTooLong (seen self.old).contents name.now cap long ((seen self.old).read_faults name.now) ((seen self.new).read_faults name.now) }
        ensures failed { IsErrOf result ReadFault.Failed → Rose ((seen self.old).read_faults name.now) ((seen self.new).read_faults name.now) }

        ensures once { OnlyRead 1 (seen self.old) (seen self.new) };

    /// Puts bytes under a name, in place of what was there. All else stays as it is.
    ///
    /// `Failed` if the outside failed, which is counted as a fault, and `NoMemory` if memory runs out. The name then has what
    /// it had, or a prefix of the bytes.
    fn write(&mut self, name: &str, bytes: &[u8]) -> Result<(), WriteFault>
        ensures written { OnOk result (Wrote name.now bytes.now (seen self.old).contents (seen self.new).contents) }
        ensures part { OnErr result (WrotePart name.now bytes.now (seen self.old).contents (seen self.new).contents) }
        ensures failed { IsErrOf result WriteFault.Failed → Rose (seen self.old).write_faults (seen self.new).write_faults }

        ensures once { OnlyWrote 1 (seen self.old) (seen self.new) };
}

/// Where text is printed. What was printed is known to contracts, or it is not. A sink counts its calls and its faults: the
/// calls that were refused because the outside failed. A count stops at 2^64 - 1.
pub trait Sink {
    /// What contracts see of a sink: the printed bytes if they are known, and its counts.
    ghost seen: { Self → PrintState };

    /// Prints bytes, after those that were printed before.
    ///
    /// `Failed` if the outside failed, which is counted as a fault, and `NoMemory` if memory runs out. A prefix of the bytes
    /// may then be printed.
    fn put(&mut self, bytes: &[u8]) -> Result<(), SinkFault>
        ensures printed { OnOk result (Printed bytes.now (seen self.old).text (seen self.new).text) }
        ensures part { OnErr result (PrintedPart bytes.now (seen self.old).text (seen self.new).text) }
        ensures failed { IsErrOf result SinkFault.Failed → Rose (seen self.old).faults (seen self.new).faults }

        ensures once { OnlyPrinted 1 (seen self.old) (seen self.new) };
}
