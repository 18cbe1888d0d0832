// How many threads may work at the same time.

ghost use Rattle.std.specs.Prelude.{◌≡◌, ℕ, ◌≤◌};
ghost use Rattle.par_phase.specs.Jobs.{IsJobCount};

use std::marker::Model;

/// How many threads may work at the same time: 1 to 64. Contracts see the number.
#[derive(Clone, Copy)]
pub struct Jobs {
    count: u32,
}

impl Model for Jobs {
    ghost Value = { ℕ };

    ghost view = { λ j. j.count };

    ghost inverse = { λ n. record { count = n } };

    ghost invariant = { λ j. IsJobCount j.count };
}

impl Jobs {
    /// This number of threads, from 1 to 64.
    pub fn new(count: u32) -> Jobs
        requires { IsJobCount count }
        ensures { result ≡ count }
    {
        Jobs { count }
    }

    /// How many threads there may be, from 1 to 64.
    pub fn count(self) -> u32
        ensures is { result ≡ self }
        ensures range { IsJobCount result }
    {
        self.count
    }
}
