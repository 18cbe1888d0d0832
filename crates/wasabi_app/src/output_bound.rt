// How many bytes an output or a trace may have.

ghost use Rattle.std.specs.Prelude.{◌≡◌, ℕ};
ghost use Rattle.wasabi_app.specs.OutputBound.{IsOutputBound};

use std::marker::Model;

/// The most bytes that an output or a trace may have, 1 to 268,435,456. Contracts see the number.
#[derive(Clone, Copy)]
pub(crate) struct OutputBound {
    bytes: u64,
}

impl Model for OutputBound {
    ghost Value = { ℕ };

    ghost view = { λ b. b.bytes };

    ghost inverse = { λ n. record { bytes = n } };

    ghost invariant = { λ b. IsOutputBound b.bytes };
}

impl OutputBound {
    /// A bound of `bytes` bytes, 1 to 268,435,456.
    pub(crate) fn new(bytes: u64) -> OutputBound
        requires { IsOutputBound bytes }
        ensures { result ≡ bytes }
    {
        OutputBound { bytes }
    }

    /// The bound in bytes, 1 to 268,435,456.
    pub(crate) fn bytes(self) -> u64
        ensures is { result ≡ self }
        ensures range { IsOutputBound result }
    {
        self.bytes
    }
}
