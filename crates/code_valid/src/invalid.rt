// Why a body is refused.

use ctrl_stack::StackFault;
use std::alloc::{AllocError, AllocFailed};

/// Why the check of a body fails.
#[derive(Clone, Copy, Debug, PartialEq, Eq)]
pub enum BodyInvalid {
    /// The rules of typing do not type the body. (Standard, 3.4.1)
    Invalid,
    /// Memory ran out, which says nothing of the body.
    NoMemory,
}

impl From<AllocError> for BodyInvalid {
    ghost use Rattle.std.specs.Prelude.{◌≡◌};
    ghost use Rattle.code_valid.specs.declared.invalid.BodyInvalid.TheVariants.{NoMemory};

    ghost from_gives = { λ _ e. e ≡ NoMemory };

    fn from(_e: AllocError) -> BodyInvalid {
        BodyInvalid::NoMemory
    }
}

impl<T: Drop> From<AllocFailed<T>> for BodyInvalid {
    ghost use Rattle.std.specs.Prelude.{◌≡◌};
    ghost use Rattle.code_valid.specs.declared.invalid.BodyInvalid.TheVariants.{NoMemory};

    ghost from_gives = { λ _ e. e ≡ NoMemory };

    fn from(_e: AllocFailed<T>) -> BodyInvalid {
        BodyInvalid::NoMemory
    }
}

impl From<StackFault> for BodyInvalid {
    ghost use Rattle.std.specs.Prelude.{◌≡◌};
    ghost use Rattle.code_valid.specs.Answers.{invalid_by};

    ghost from_gives = { λ f e. e ≡ invalid_by f };

    fn from(f: StackFault) -> BodyInvalid {
        match f {
            StackFault::Mismatch => BodyInvalid::Invalid,
            StackFault::NoMemory => BodyInvalid::NoMemory,
        }
    }
}
