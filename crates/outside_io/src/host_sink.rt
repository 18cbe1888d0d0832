// A sink that prints on the standard output of the machine.

use crate::streams::write_all;
use crate::{Sink, SinkFault};
use std::io;

/// Standard output. What was printed is not known to contracts.
#[derive(Drop)]
pub struct HostSink<'r, R: Print> {
    rt: &'r R,
    prints: u64,
    faults: u64,
}

impl<'r, R: Print> HostSink<'r, R> {
    ghost use Rattle.std.specs.Prelude.{◌≡◌};
    ghost use Rattle.outside_io.specs.Faults.{seen_output};

    /// The standard output of this runtime. All counts are 0.
    pub fn new(rt: &'r R) -> HostSink<'r, R>
        ensures { seen_output result.prints result.faults ≡ seen_output 0 0 }
    {
        HostSink {
            rt,
            prints: 0,
            faults: 0,
        }
    }
}

impl<R: Print> Sink for HostSink<'_, R> {
    ghost use Rattle.std.specs.Prelude.{◌≡◌, None, OnOk, OnErr, IsErrOf};
    ghost use Rattle.outside_io.specs.Outside.{Rose, OnlyPrinted, Printed, PrintedPart};
    ghost use Rattle.outside_io.specs.Faults.{after_put, seen_output};

    ghost seen = { λ s. seen_output s.prints s.faults };

    /// Prints all bytes.
    ///
    /// `NoMemory` if memory runs out, and `Failed` at any other error of the system; a prefix of the bytes may then be printed.
    /// Only `Failed` is counted as a fault.
    fn put(&mut self, bytes: &[u8]) -> Result<(), SinkFault>
        ensures printed { OnOk result (Printed bytes.now None None) }
        ensures part { OnErr result (PrintedPart bytes.now None None) }
        ensures failed { IsErrOf result SinkFault.Failed → Rose self.old.faults self.new.faults }
        ensures once { OnlyPrinted 1 (seen_output self.old.prints self.old.faults) (seen_output self.new.prints self.new.faults) }

        ensures counted { self.new.faults ≡ after_put result self.old.faults }
    {
        self.prints = self.prints.saturating_add(1);
        let answer = print(self.rt, bytes);
        if let Err(SinkFault::Failed) = answer {
            self.faults = self.faults.saturating_add(1);
        }
        answer
    }
}

// Prints all bytes on standard output.
fn print<R: Print>(rt: &R, bytes: &[u8]) -> Result<(), SinkFault> {
    write_all(&mut io::writer(rt), bytes)?;
    Ok(())
}
