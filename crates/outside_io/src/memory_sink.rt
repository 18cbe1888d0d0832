// A sink in memory, on which listed calls fail.

ghost use Rattle.std.specs.Prelude.{◌≡◌, Some};

use crate::calls::{Calls, Fail, front};
use crate::{Sink, SinkFault};
use std::alloc::Global;
use std::marker::Model;

/// Printed bytes, in memory. They are known to contracts. Calls are numbered from 0, and a call is made to fail if its number
/// is listed. Calls after number 2^64 - 1 have no number, and none of them is made to fail.
#[derive(Drop)]
pub struct MemorySink {
    printed: Vec<u8>,
    calls: Calls,
    prints: u64,
    faults: u64,
}

impl Model for MemorySink {
    ghost use Rattle.std.specs.Prelude.{◌≡◌};
    ghost use Rattle.outside_io.specs.Calls.{listed_calls_made};
    ghost use Rattle.outside_io.specs.Shelved.{SinkInMemory};

    ghost Value = { SinkInMemory };

    ghost view = { λ s. record { printed = s.printed.items; calls = s.calls; prints = s.prints; faults = s.faults } };

    ghost invariant = { λ s. s.faults ≡ listed_calls_made s.calls };
}

impl MemorySink {
    ghost use Rattle.std.specs.Prelude.{[]};
    ghost use Rattle.outside_io.specs.Calls.{listed_calls_made};

    /// A sink to which nothing was printed, on which these calls fail. All counts are 0.
    pub fn new(alloc: Global, fails: Vec<Fail>) -> MemorySink
        ensures empty { result.printed ≡ [] }
        ensures fails { result.calls.fails ≡ fails.items }
        ensures next { result.calls.next ≡ Some 0 }
        ensures unprinted { result.prints ≡ 0 }
        ensures faultless { result.faults ≡ 0 }
        ensures counts { result.faults ≡ listed_calls_made result.calls }
    {
        MemorySink {
            printed: Vec::new(alloc),
            calls: Calls::new(fails),
            prints: 0,
            faults: 0,
        }
    }

    /// All bytes that were printed, in order. This counts as no call.
    pub fn bytes(&self) -> &[u8]
        ensures { result.now ≡ self.now.printed }
    {
        self.printed.as_slice()
    }
}

impl Sink for MemorySink {
    ghost use Rattle.std.specs.Prelude.{ℕ, ◌+◌, ◌≤◌, ◌⊎◌, ◌++◌, if◌then◌else◌, OnOk, OnErr, IsErrOf, IsSome, is_some, take};
    ghost use Rattle.outside_io.specs.Outside.{Rose, OnlyPrinted, Printed, PrintedPart};
    ghost use Rattle.outside_io.specs.Calls.{failing_next, listed_calls_made, CountsCall};
    ghost use Rattle.outside_io.specs.Shelved.{seen_sink};

    ghost seen = { seen_sink };

    /// Appends bytes to those that were printed.
    ///
    /// `Failed` if the call is listed: it keeps the first bytes, as many as the list says. `NoMemory` if memory runs out,
    /// whether the call is listed or not; nothing is then printed. A listed call is counted as a fault with either error.
    fn put(&mut self, bytes: &[u8]) -> Result<(), SinkFault>
        ensures printed { OnOk result (Printed bytes.now (Some self.old.printed) (Some self.new.printed)) }
        ensures part { OnErr result (PrintedPart bytes.now (Some self.old.printed) (Some self.new.printed)) }
        ensures failed { IsErrOf result SinkFault.Failed → Rose self.old.faults self.new.faults }
        ensures once { OnlyPrinted 1 (seen_sink self.old) (seen_sink self.new) }

        ensures counted { CountsCall self.old.calls self.new.calls }
        ensures counts { self.new.faults ≡ listed_calls_made self.new.calls }
        ensures faults { self.new.faults ≡ self.old.faults + (if is_some (failing_next self.old.calls) then 1 else 0) }
        ensures listed { IsSome (failing_next self.old.calls) → IsErrOf result SinkFault.Failed ⊎ IsErrOf result SinkFault.NoMemory }
        ensures unlisted { IsErrOf result SinkFault.Failed → IsSome (failing_next self.old.calls) }
        ensures front { (kept : ℕ) → failing_next self.old.calls ≡ Some kept → IsErrOf result SinkFault.Failed →
            self.new.printed ≡ self.old.printed ++ take kept bytes.now }
        ensures no_memory { IsErrOf result SinkFault.NoMemory → self.new.printed ≡ self.old.printed }
    {
        self.prints = self.prints.saturating_add(1);
        match self.calls.count() {
            Some(kept) => {
                self.faults += 1;
                self.printed.extend_from_slice(front(bytes, kept))?;
                Err(SinkFault::Failed)
            }
            None => Ok(self.printed.extend_from_slice(bytes)?),
        }
    }
}
