// Which fault an error of the system or of the allocator is.

ghost use Rattle.std.specs.Prelude.{◌≡◌};
ghost use Rattle.std.specs.IoError.{error_kind};
ghost use Rattle.outside_io.specs.Faults.{read_fault_of, write_fault_of, sink_fault_of};
ghost use Rattle.outside_io.specs.declared.outside.ReadFault.TheVariants as read;
ghost use Rattle.outside_io.specs.declared.outside.WriteFault.TheVariants as write;
ghost use Rattle.outside_io.specs.declared.outside.SinkFault.TheVariants as sink;

use crate::{ReadFault, SinkFault, WriteFault};
use std::alloc::AllocError;
use std::io::{Error, ErrorKind};

impl From<Error> for ReadFault {
    ghost from_gives = { λ error fault. fault ≡ read_fault_of (error_kind error) };

    fn from(error: Error) -> ReadFault {
        match error.kind() {
            ErrorKind::NotFound => ReadFault::Missing,
            ErrorKind::OutOfMemory => ReadFault::NoMemory,
            _ => ReadFault::Failed,
        }
    }
}

impl From<AllocError> for ReadFault {
    ghost from_gives = { λ _ fault. fault ≡ read.NoMemory };

    fn from(_error: AllocError) -> ReadFault {
        ReadFault::NoMemory
    }
}

impl From<Error> for WriteFault {
    ghost from_gives = { λ error fault. fault ≡ write_fault_of (error_kind error) };

    fn from(error: Error) -> WriteFault {
        match error.kind() {
            ErrorKind::OutOfMemory => WriteFault::NoMemory,
            _ => WriteFault::Failed,
        }
    }
}

impl From<Error> for SinkFault {
    ghost from_gives = { λ error fault. fault ≡ sink_fault_of (error_kind error) };

    fn from(error: Error) -> SinkFault {
        match error.kind() {
            ErrorKind::OutOfMemory => SinkFault::NoMemory,
            _ => SinkFault::Failed,
        }
    }
}

impl From<AllocError> for WriteFault {
    ghost from_gives = { λ _ fault. fault ≡ write.NoMemory };

    fn from(_error: AllocError) -> WriteFault {
        WriteFault::NoMemory
    }
}

impl From<AllocError> for SinkFault {
    ghost from_gives = { λ _ fault. fault ≡ sink.NoMemory };

    fn from(_error: AllocError) -> SinkFault {
        SinkFault::NoMemory
    }
}
