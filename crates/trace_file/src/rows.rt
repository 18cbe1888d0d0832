// Writes and reads events: each is its tag and then its fields.

ghost use Rattle.std.specs.Prelude.{◌≡◌, ◌≤◌, ◌^◌, ℕ, List, length, ◌∷◌, ◌++◌, IfOk, IfErr, OnOk};
ghost use Rattle.hook_select.specs.Events.{types_at};
ghost use Rattle.trace_file.specs.Begins.{BeginsWithSpelling, NoneBegins};
ghost use Rattle.trace_file.specs.Fields.{bytes_of, FitFields};
ghost use Rattle.trace_file.specs.Rows.{fields_bytes, event_bytes, FitsEvent, FitsTag};

use crate::field::{ReadTraceFault, Take};
use crate::put::{Put, TraceFault, put_byte};
use hook_select::{Event, each_event};
use leb_binary::Cursor;
use std::alloc::Global;

// Fields, one after another, as nested pairs.
macro_rules! fields {
    () => { () };
    ($first:ident $(, $more:ident)*) => {
        ($first, fields!($($more),*))
    };
}

// Appends the tag and the fields of the event.
macro_rules! put_rows {
    (($out:ident, $event:ident) $($tag:literal $name:ident($($field:ident),*) $($group:ident)?)*) => {
        match $event {
            $(Event::$name { $($field),* } => put_row($out, $tag, fields!($($field),*)),)*
        }
    };
}

// Takes the fields of the event that has the tag. `NotTrace` if no event has it.
macro_rules! take_rows {
    (($alloc:ident, $cursor:ident, $found:ident) $($tag:literal $name:ident($($field:ident),*) $($group:ident)?)*) => {
        match $found {
            $($tag => {
                let fields!($($field),*) = take_row($alloc, $cursor, $found, $tag)?;
                Ok(Event::$name { $($field),* })
            })*
            _ => Err(ReadTraceFault::NotTrace),
        }
    };
}

// Appends a tag and fields.
fn put_row<R: Put>(out: &mut Vec<u8>, tag: u8, fields: R) -> Result<(), TraceFault>
    ensures added { OnOk result (out.new.items ≡ out.old.items ++ tag ∷ R.spelling fields) }
    ensures fits { OnOk result (R.fits fields) }
    ensures large { IfErr result (λ fault. fault ≡ TraceFault.TooLarge → 2 ^ 32 ≤ length (R.spelling fields)) }
{
    put_byte(out, tag)?;
    fields.put(out)
}

// Appends an event. `TooLarge` only if its fields have 2^32 bytes or more.
pub(crate) fn put_event(out: &mut Vec<u8>, event: &Event) -> Result<(), TraceFault>
    ensures added { OnOk result (out.new.items ≡ out.old.items ++ event_bytes event.now) }
    ensures fits { OnOk result (FitsEvent event.now) }
    ensures large { IfErr result (λ fault. fault ≡ TraceFault.TooLarge → 2 ^ 32 ≤ length (fields_bytes event.now)) }
{
    each_event!(put_rows(out, event))
}

// Takes fields of an event with this tag, which is this number. `NotTrace` only if no such event begins here.
fn take_row<R: Take>(
    alloc: Global,
    cursor: &mut Cursor<'_>,
    tag: u8,
    number: u8,
) -> Result<R, ReadTraceFault>
    requires same { tag ≡ number }
    requires row { (bytes : List ℕ) → NoneBegins R.fits R.spelling bytes → NoneBegins (FitFields (types_at number)) (bytes_of (types_at number)) bytes }
    ensures taken { IfOk result (λ fields. BeginsWithSpelling R.fits R.spelling cursor.old.left cursor.new.left fields) }
    ensures none { IfErr result (λ fault. fault ≡ ReadTraceFault.NotTrace → NoneBegins (FitsTag tag) fields_bytes cursor.old.left) }
{
    R::take(alloc, cursor)
}

// Takes the fields of an event with this tag. `NotTrace` only if no such event begins here.
pub(crate) fn take_event(
    alloc: Global,
    cursor: &mut Cursor<'_>,
    tag: u8,
) -> Result<Event, ReadTraceFault>
    ensures taken { IfOk result (λ e. BeginsWithSpelling (FitsTag tag) fields_bytes cursor.old.left cursor.new.left e) }
    ensures none { IfErr result (λ fault. fault ≡ ReadTraceFault.NotTrace → NoneBegins (FitsTag tag) fields_bytes cursor.old.left) }
{
    each_event!(take_rows(alloc, cursor, tag))
}
