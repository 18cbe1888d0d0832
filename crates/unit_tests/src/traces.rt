// Trace files: events written, and read again.

ghost use Rattle.std.specs.Prelude.{◌≤◌};
ghost use Rattle.module_ast.specs.Validation.Limits.{longest_file};

use hook_select::Event;
use module_ast::module::{LONGEST_FILE, Loc};
use std::alloc::Global;
use std::test::Fail;
use trace_file::{ReadTraceFault, TraceFault, TraceWriter, read_trace};
use wasm_num::Value;

const PLACE: Loc = Loc { func: 0, instr: 0 };

// The file of a `nop`.
const NOP: [u8; 9] = *b"WTR1\x02\x00\x00\x00\x01";

// The file of one event.
fn file_of(alloc: Global, max: u64, event: &Event) -> Result<Vec<u8>, TraceFault>
    requires { max ≤ longest_file }
{
    let mut writer = TraceWriter::new(alloc, max);
    writer.put(event)?;
    writer.finish()
}

// A file read, and its events written.
fn written_again(alloc: Global, bytes: &[u8]) -> Result<Vec<u8>, Fail> {
    let events = read_trace(alloc, bytes)?;
    let mut writer = TraceWriter::new(alloc, LONGEST_FILE);
    for event in events.as_slice() {
        writer.put(event)?;
    }
    Ok(writer.finish()?)
}

fn nop() -> Event {
    Event::Nop { loc: PLACE }
}

// Whether an event has a file of these bytes, where there may be so many.
fn is_file(alloc: Global, max: u64, event: &Event, wanted: &[u8]) -> bool
    requires { max ≤ longest_file }
{
    match file_of(alloc, max, event) {
        Ok(file) => file.as_slice() == wanted,
        Err(_) => false,
    }
}

// Whether a `nop` has a file of nine bytes, and none of eight.
fn nop_fits(alloc: Global) -> bool {
    let nop = nop();
    is_file(alloc, 9, &nop, &NOP) && matches!(file_of(alloc, 8, &nop), Err(TraceFault::TooLarge))
}

fn constant_fits(alloc: Global) -> bool {
    let constant = Event::Const {
        loc: PLACE,
        value: Value::I64(18_446_744_073_709_551_614),
    };
    is_file(alloc, 11, &constant, b"WTR1\x0A\x00\x00\x7E\x7E\x00\x01")
}

// The file of a stray hook call, where an event behind it has no room.
fn file_of_a_stray(alloc: Global) -> Result<Vec<u8>, TraceFault> {
    let mut writer = TraceWriter::new(alloc, 9);
    writer.put(&Event::Stray { hook: 300 })?;
    match writer.put(&nop()) {
        Err(TraceFault::TooLarge) => writer.finish(),
        _ => Err(TraceFault::NoMemory),
    }
}

#[test]
fn events_are_written_up_to_the_bound(rt: HostRuntime) -> Result<(), Fail> {
    let alloc = rt.alloc();
    assert!(rt; nop_fits(alloc) && constant_fits(alloc));
    let stray = file_of_a_stray(alloc)?;
    assert_eq!(rt; stray.as_slice(), b"WTR1\x19\xAC\x02\x00\x01".as_slice());
    let none = TraceWriter::new(alloc, 5).finish();
    assert!(rt; matches!(none, Err(TraceFault::TooLarge)));
    Ok(())
}

#[test]
fn an_event_of_each_kind_is_read(rt: HostRuntime) -> Result<(), Fail> {
    let bytes = [
        0x57, 0x54, 0x52, 0x31, 1, 0, 0x7F, 2, 0, 1, 3, 0, 2, 4, 7, 3, 1, 5, 0, 4, 2, 9, 6, 0, 5,
        1, 6, 1, 7, 0, 6, 3, 2, 8, 8, 0, 7, 4, 9, 0, 8, 1, 3, 10, 0, 9, 0x7F, 0x3F, 11, 0, 10,
        0x67, 0x7F, 1, 0x7F, 0x1F, 12, 0, 11, 0xAD, 0x7F, 1, 0x7E, 2, 0x7E, 3, 13, 0, 12, 0x7E,
        0x7F, 14, 0, 13, 0x7F, 1, 0x7F, 2, 1, 15, 0, 14, 2, 3, 0x7F, 0, 16, 0, 15, 1, 3, 0x7F, 0,
        17, 0, 16, 0x35, 4, 8, 0x7E, 0, 18, 0, 17, 0x3E, 4, 8, 0x7E, 0, 19, 0, 18, 1, 20, 0, 19, 1,
        2, 21, 0, 20, 3, 1, 0x7F, 1, 22, 0, 21, 3, 4, 0, 0, 22, 0, 21, 3, 4, 1, 5, 2, 0x7F, 1,
        0x7E, 2, 23, 0, 22, 0, 24, 0, 23, 1, 0x7F, 0, 25, 0x80, 1, 0, 26,
    ];
    assert_eq!(rt;
        written_again(rt.alloc(), &bytes)?.as_slice(),
        bytes.as_slice()
    );
    assert_eq!(rt;
        read_trace(rt.alloc(), b"WTR1\x00\x00".as_slice())?.len(),
        0
    );
    Ok(())
}
