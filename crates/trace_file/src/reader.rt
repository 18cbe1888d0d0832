// Reads trace files event by event.

ghost use Rattle.std.specs.Prelude.{◌≡◌, ◌<◌, ◌+◌, ◌++◌, [], ◌∷◌, ℕ, List, length, OnOk, OnErr, IfOk, IfErr, IfSome, IfNone, MatchOption};
ghost use Rattle.leb_binary.specs.Shortest.{unsigned_bytes};
ghost use Rattle.hook_select.specs.declared.Event.{Event as EventSpec};
ghost use Rattle.trace_file.specs.Begins.{BeginsWithSpelling, NoneBegins};
ghost use Rattle.trace_file.specs.Fields.{FitsNumber};
ghost use Rattle.trace_file.specs.Files.{header, IsTrace, IsNoTrace, HasRead};
ghost use Rattle.trace_file.specs.Rows.{event_bytes, FitsEvent};

use crate::field::{ReadTraceFault, Take};
use crate::rows::take_event;
use crate::writer::HEADER;
use hook_select::Event;
use leb_binary::Cursor;
use std::alloc::{AllocError, Global};
use std::marker::Model;

/// A trace file that is read event by event. Contracts see its bytes, how many events were read, and the bytes that are left.
/// The reader borrows the bytes and keeps no events.
#[derive(Drop)]
pub struct TraceReader<'b> {
    alloc: Global,
    bytes: &'b [u8],
    left: &'b [u8],
    count: usize,
}

impl<'b> Model for TraceReader<'b> {
    ghost use Rattle.std.specs.Prelude.{◌≤◌, ◌+◌, List, length};
    ghost use Rattle.hook_select.specs.declared.Event.{Event as EventSpec};
    ghost use Rattle.trace_file.specs.Files.{TraceReading, HasRead};

    ghost Value = { TraceReading };

    ghost view = { λ r. record { bytes = r.bytes.now; count = r.count; left = r.left.now } };

    ghost invariant = { λ r. ((es : List EventSpec) × HasRead es (record { bytes = r.bytes.now; count = r.count; left = r.left.now })) × (r.count + length r.left.now ≤ length r.bytes.now) };
}

// The bytes after the header; `None` if the bytes do not begin with it.
fn behind_header(bytes: &[u8]) -> Option<&[u8]>
    ensures some { IfSome result (λ left. bytes.now ≡ header ++ left.now) }
    ensures none { IfNone result ((left : List ℕ) → bytes.now ≡ header ++ left → ⊥) }
{
    bytes.strip_prefix(&HEADER)
}

// Takes the next event; `None` if it takes the zero byte that comes after the last event.
fn take_next(alloc: Global, cursor: &mut Cursor<'_>) -> Result<Option<Event>, ReadTraceFault>
    ensures taken { IfOk result (λ next. MatchOption next (cursor.old.left ≡ 0 ∷ cursor.new.left) (λ e. BeginsWithSpelling FitsEvent event_bytes cursor.old.left cursor.new.left e)) }
    ensures none { IfErr result (λ fault. fault ≡ ReadTraceFault.NotTrace → NoneBegins FitsEvent event_bytes cursor.old.left) }
    ensures no_end { IfErr result (λ fault. fault ≡ ReadTraceFault.NotTrace → (rest : List ℕ) → cursor.old.left ≡ 0 ∷ rest → ⊥) }
{
    let tag = u8::take(alloc, cursor)?;
    if tag == 0 {
        return Ok(None);
    }
    let event = take_event(alloc, cursor, tag)?;
    Ok(Some(event))
}

// Takes the number of the events. `NotTrace` exactly if it is not `count` in its shortest spelling, or if bytes follow it.
fn take_count(alloc: Global, cursor: &mut Cursor<'_>, count: usize) -> Result<(), ReadTraceFault>
    ensures taken { OnOk result (FitsNumber count × (cursor.old.left ≡ unsigned_bytes count)) }
    ensures not { IfErr result (λ fault. fault ≡ ReadTraceFault.NotTrace → FitsNumber count → cursor.old.left ≡ unsigned_bytes count → ⊥) }
{
    let number = u32::take(alloc, cursor)?;
    if number as usize != count || cursor.left() > 0 {
        return Err(ReadTraceFault::NotTrace);
    }
    Ok(())
}

impl<'b> TraceReader<'b> {
    /// A reader before the first event. Allocates nothing. `NotTrace` exactly if the bytes do not begin with the header of a
    /// trace file; no list of events has such a trace file.
    pub fn new(alloc: Global, bytes: &'b [u8]) -> Result<TraceReader<'b>, ReadTraceFault>
        ensures bytes { IfOk result (λ reader. reader.bytes ≡ bytes.now) }
        ensures none { IfOk result (λ reader. HasRead [] reader) }
        ensures fault { IfErr result (λ fault. fault ≡ ReadTraceFault.NotTrace) }
        ensures not { OnErr result (IsNoTrace bytes.now) }
    {
        match behind_header(bytes) {
            Some(left) => Ok(TraceReader {
                alloc,
                bytes,
                left,
                count: 0,
            }),
            None => Err(ReadTraceFault::NotTrace),
        }
    }

    /// The next event; `None` if all were read. The bytes are then the trace file of exactly the events that were read.
    /// `NotTrace` if the bytes are the trace file of no list of events, which shows at the end at the latest. `NoMemory` if
    /// memory runs out. After `None` and after an `Err` the reader is as before.
    pub fn next(&mut self) -> Result<Option<Event>, ReadTraceFault>
        ensures bytes { self.new.bytes ≡ self.old.bytes }
        ensures event { IfOk result (λ next. IfSome next (λ e. (es : List EventSpec) → HasRead es self.old → HasRead (es ++ e ∷ []) self.new)) }
        ensures less { IfOk result (λ next. IfSome next (λ _. length self.new.left < length self.old.left)) }
        ensures end { IfOk result (λ next. IfNone next ((es : List EventSpec) → HasRead es self.old → IsTrace self.old.bytes es)) }
        ensures stays { IfOk result (λ next. IfNone next (self.new ≡ self.old)) }
        ensures not { IfErr result (λ fault. fault ≡ ReadTraceFault.NotTrace → IsNoTrace self.old.bytes) }
        ensures kept { OnErr result (self.new ≡ self.old) }
    {
        let mut cursor = Cursor::new(self.left);
        let Some(event) = take_next(self.alloc, &mut cursor)? else {
            take_count(self.alloc, &mut cursor, self.count)?;
            return Ok(None);
        };
        let (_, left) = self.left.split_at(self.left.len() - cursor.left());
        self.left = left;
        self.count += 1;
        Ok(Some(event))
    }
}

// Appends an event.
fn add(events: &mut Vec<Event>, event: Event) -> Result<(), AllocError>
    ensures { OnOk result (events.new.items ≡ events.old.items ++ event ∷ []) }
{
    events.push(event)?;
    Ok(())
}

/// The events whose trace file these bytes are. `NotTrace` exactly if the bytes are the trace file of no list of events;
/// `NoMemory` if memory runs out.
pub fn read_trace(alloc: Global, bytes: &[u8]) -> Result<Vec<Event>, ReadTraceFault>
    ensures read { IfOk result (λ events. IsTrace bytes.now events.items) }
    ensures not { IfErr result (λ fault. fault ≡ ReadTraceFault.NotTrace → IsNoTrace bytes.now) }
{
    let mut reader = TraceReader::new(alloc, bytes)?;
    let mut events = Vec::new(alloc);
    while let Some(event) = reader.next()? {
        add(&mut events, event)?;
    }
    Ok(events)
}
