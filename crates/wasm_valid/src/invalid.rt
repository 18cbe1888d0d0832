// Why a module is not valid.

use std::alloc::{AllocError, AllocFailed};

/// Why a module was not found valid.
#[derive(Clone, Copy, Debug, PartialEq, Eq)]
pub enum Invalid {
    /// The module breaks a rule. This is the number of the first such rule, 2 to 20.
    Module { rule: u8 },
    /// The module keeps the rules, and this is the least function whose body is invalid. Its index counts imported functions.
    Body { func: u32 },
    /// Memory ran out.
    NoMemory,
}

impl From<AllocError> for Invalid {
    ghost use Rattle.std.specs.Prelude.{◌≡◌};
    ghost use Rattle.wasm_valid.specs.declared.invalid.Invalid.TheVariants.{NoMemory};

    ghost from_gives = { λ _ e. e ≡ NoMemory };

    fn from(_e: AllocError) -> Invalid {
        Invalid::NoMemory
    }
}

impl<T: Drop> From<AllocFailed<T>> for Invalid {
    ghost use Rattle.std.specs.Prelude.{◌≡◌};
    ghost use Rattle.wasm_valid.specs.declared.invalid.Invalid.TheVariants.{NoMemory};

    ghost from_gives = { λ _ e. e ≡ NoMemory };

    fn from(_e: AllocFailed<T>) -> Invalid {
        Invalid::NoMemory
    }
}
