// Writes trace files event by event.

ghost use Rattle.std.specs.Prelude.{◌≡◌, ◌+◌, ◌≤◌, [], drop, length, IfOk, OnOk, OnErr, IfErr};
ghost use Rattle.module_ast.specs.Validation.Limits.{longest_file};
ghost use Rattle.trace_file.specs.Files.{header, ending, file_bytes, Writing, IsWithinBound, IsBegun, IsEmptyOrBegun, with_event};
ghost use Rattle.trace_file.specs.Rows.{FitsEvent};

use crate::put::{TraceFault, put_byte};
use crate::rows::put_event;
use hook_select::Event;
use leb_binary::{put_u32, unsigned_length};
use std::alloc::{AllocError, Global};
use std::marker::Model;

/// The first bytes of a trace file.
pub(crate) const HEADER: [u8; 4] = *b"WTR1";

/// A trace file that is written event by event. Contracts see the most bytes that the file may have, the bytes of the events
/// so far, and their number.
#[derive(Drop)]
pub struct TraceWriter {
    max: u64,
    file: Vec<u8>,
    next: Vec<u8>,
    count: u32,
}

impl Model for TraceWriter {
    ghost use Rattle.std.specs.Prelude.{◌≤◌, drop};
    ghost use Rattle.module_ast.specs.Validation.Limits.{longest_file};
    ghost use Rattle.trace_file.specs.Files.{Writing, IsEmptyOrBegun};

    ghost Value = { Writing };

    ghost view = { λ w. record { max = w.max; events = drop 4 w.file.items; count = w.count } };

    ghost invariant = { λ w. IsEmptyOrBegun w.file.items × (w.max ≤ longest_file) };
}

// Writes the header if the file is still empty.
fn begin(file: &mut Vec<u8>) -> Result<(), AllocError>
    requires { IsEmptyOrBegun file.old.items }
    ensures begun { OnOk result (IsBegun file.new.items) }
    ensures same { drop 4 file.new.items ≡ drop 4 file.old.items }
    ensures kept { OnErr result (file.new.items ≡ file.old.items) }
{
    if file.is_empty() {
        file.extend_from_slice(&HEADER)?;
    }
    Ok(())
}

impl TraceWriter {
    /// A writer without events, for a file of at most `max` bytes. `max` is at most 268,435,456. Allocates nothing.
    pub fn new(alloc: Global, max: u64) -> TraceWriter
        requires { max ≤ longest_file }
        ensures { result ≡ record { max = max; events = []; count = 0 } }
    {
        TraceWriter {
            max,
            file: Vec::new(alloc),
            next: Vec::new(alloc),
            count: 0,
        }
    }

    /// Appends an event. `TooLarge` exactly if the file with this event is longer than `max`; `NoMemory` if memory runs out.
    /// After an `Err` the writer is as before.
    pub fn put(&mut self, event: &Event) -> Result<(), TraceFault>
        ensures added { OnOk result (self.new ≡ with_event event.now self.old) }
        ensures fits { OnOk result (FitsEvent event.now) }
        ensures within { OnOk result (IsWithinBound self.new) }
        ensures large { IfErr result (λ fault. fault ≡ TraceFault.TooLarge → IsWithinBound (with_event event.now self.old) → ⊥) }
        ensures kept { OnErr result (self.new ≡ self.old) }
    {
        self.next.clear();
        put_event(&mut self.next, event)?;
        let Some(count) = self.count.checked_add(1) else {
            return Err(TraceFault::TooLarge);
        };
        begin(&mut self.file)?;
        let length = self.file.len() as u64 + self.next.len() as u64;
        let ending = 1 + unsigned_length(u64::from(count));
        if length > self.max || ending > self.max - length {
            return Err(TraceFault::TooLarge);
        }
        self.file.extend_from_slice(&self.next)?;
        self.count = count;
        Ok(())
    }

    /// The trace file of the events. `TooLarge` exactly if it is longer than `max`; `NoMemory` if memory runs out.
    pub fn finish(self) -> Result<Vec<u8>, TraceFault>
        ensures file { IfOk result (λ file. file.items ≡ file_bytes self.events self.count) }
        ensures within { OnOk result (IsWithinBound self) }
        ensures large { IfErr result (λ fault. fault ≡ TraceFault.TooLarge → IsWithinBound self → ⊥) }
    {
        let mut file = self.file;
        begin(&mut file)?;
        put_byte(&mut file, 0)?;
        put_u32(&mut file, self.count)?;
        if file.len() as u64 > self.max {
            return Err(TraceFault::TooLarge);
        }
        Ok(file)
    }
}
