// Reads the fields of events from the front of bytes.

ghost use Rattle.std.specs.Prelude.{◌≡◌, ℕ, List, [], ◌++◌, IfOk, IfErr};
ghost use Rattle.trace_file.specs.declared.field.ReadTraceFault.TheVariants.{NoMemory};
ghost use Rattle.trace_file.specs.Begins.{BeginsWithSpelling, OnlyBegins, NoneBegins};

use leb_binary::Cursor;
use std::alloc::{AllocError, Global};

/// Why bytes are not read as a trace.
#[derive(Clone, Copy, Debug, PartialEq, Eq)]
pub enum ReadTraceFault {
    /// The bytes are the trace file of no list of events.
    NotTrace,
    /// Memory ran out.
    NoMemory,
}

impl From<AllocError> for ReadTraceFault {
    ghost from_gives = { λ _ fault. fault ≡ NoMemory };

    fn from(_error: AllocError) -> ReadTraceFault {
        ReadTraceFault::NoMemory
    }
}

// A field, or several fields one after another.
pub(crate) trait Take: Sized + Drop {
    ghost spelling: { Self → List ℕ };

    ghost fits: { Self → Type 0 };

    // Takes it from the front of the bytes that are left, which begin with the spelling of nothing else. `NotTrace` only if
    // they begin with the spelling of nothing that fits.
    fn take(alloc: Global, cursor: &mut Cursor<'_>) -> Result<Self, ReadTraceFault>
        ensures taken { IfOk result (λ x. BeginsWithSpelling fits spelling cursor.old.left cursor.new.left x) }
        ensures only { IfOk result (λ x. OnlyBegins fits spelling cursor.old.left cursor.new.left x) }
        ensures none { IfErr result (λ fault. fault ≡ ReadTraceFault.NotTrace → NoneBegins fits spelling cursor.old.left) };
}

impl Take for () {
    ghost spelling = { λ _. [] };

    ghost fits = { λ _. Unit {0} };

    fn take(_alloc: Global, _cursor: &mut Cursor<'_>) -> Result<(), ReadTraceFault> {
        Ok(())
    }
}

impl<A: Take, B: Take> Take for (A, B) {
    ghost spelling = { λ p. A.spelling p.0 ++ B.spelling p.1 };

    ghost fits = { λ p. A.fits p.0 × B.fits p.1 };

    fn take(alloc: Global, cursor: &mut Cursor<'_>) -> Result<(A, B), ReadTraceFault> {
        let first = A::take(alloc, cursor)?;
        let second = B::take(alloc, cursor)?;
        Ok((first, second))
    }
}
