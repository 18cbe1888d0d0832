// Why an item is not read.

ghost use Rattle.std.specs.Prelude.{◌≡◌};
ghost use Rattle.code_decode.specs.declared.fault.Fault.TheVariants.{Malformed, NoMemory};

use leb_binary::Bad;
use std::alloc::{AllocError, AllocFailed};

/// Why an item of the grammar is not read.
#[derive(Debug, Drop)]
pub enum Fault {
    /// No front of the bytes is in the grammar of the item.
    Malformed,
    /// Memory ran out.
    NoMemory,
}

impl From<Bad> for Fault {
    ghost from_gives = { λ _ e. e ≡ Malformed };

    fn from(_e: Bad) -> Fault {
        Fault::Malformed
    }
}

impl From<AllocError> for Fault {
    ghost from_gives = { λ _ e. e ≡ NoMemory };

    fn from(_e: AllocError) -> Fault {
        Fault::NoMemory
    }
}

impl<T: Drop> From<AllocFailed<T>> for Fault {
    ghost from_gives = { λ _ e. e ≡ NoMemory };

    fn from(_e: AllocFailed<T>) -> Fault {
        Fault::NoMemory
    }
}
