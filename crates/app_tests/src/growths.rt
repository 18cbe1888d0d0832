// A tool of its own over the run of an output: which functions grow the memory.

ghost use Rattle.wasm_sem.specs.Execution.{IsScriptInRange};
ghost use Rattle.static_info.specs.Belongs.{Belongs};
ghost use Rattle.static_info.specs.Form.{IsWellFormed};

use crate::commands::{CALL, fails_of, status_of};
use crate::feeding::{info_of, valid_of};
use memory_growth::{growth_of_run, growth_text};
use outside_io::{MemoryShelf, MemorySink};
use run_session::read_script;
use static_info::Info;
use std::alloc::{AllocError, Global};
use std::test;
use std::thread::Threads;
use wasm_sem::Script;
use wasm_valid::ValidModule;

// A memory of one page, and of two at most. Function 0, `f`, calls function 1, which grows it by a page, and then grows it
// by a page twice itself.
const GROWING: [u8; 58] = [
    0x00, 0x61, 0x73, 0x6D, 0x01, 0x00, 0x00, 0x00, // header
    0x01, 0x04, 0x01, 0x60, 0x00, 0x00, // types
    0x03, 0x03, 0x02, 0x00, 0x00, // functions
    0x05, 0x04, 0x01, 0x01, 0x01, 0x02, // memories
    0x07, 0x05, 0x01, 0x01, 0x66, 0x00, 0x00, // exports
    0x0A, 0x18, 0x02, 0x0E, 0x00, 0x10, 0x01, 0x41, 0x01, 0x40, 0x00, 0x1A, 0x41, 0x01, 0x40, 0x00,
    0x1A, 0x0B, 0x07, 0x00, 0x41, 0x01, 0x40, 0x00, 0x1A, 0x0B, // code
];

const INSTRUMENT: &str = "instrument a.wasm --out b.wasm --info b.json --hooks memory_grow";

// The lines of a run.
fn run_lines(alloc: Global, valid: &ValidModule, info: &Info, script: &Script) -> Option<String>
    requires range { IsScriptInRange script.now }
    requires formed { IsWellFormed info.now }
    requires belongs { Belongs info.now valid.now }
{
    let grown = growth_of_run(alloc, valid, info, script).ok()?;
    growth_text(alloc, &grown.functions).ok()
}

// Those of the call of `f`, with the information that these bytes hold.
fn call_lines(alloc: Global, valid: &ValidModule, text: &[u8]) -> Option<String> {
    let info = info_of(alloc, valid, text)?;
    let script = read_script(alloc, CALL.as_bytes()).ok()?;
    run_lines(alloc, valid, &info, &script)
}

// Those of the output and the information on a shelf.
fn shelf_lines<R: Threads + Sync>(rt: &R, alloc: Global, shelf: &MemoryShelf) -> Option<String> {
    let valid = valid_of(rt, alloc, shelf.bytes_of("b.wasm")?)?;
    call_lines(alloc, &valid, shelf.bytes_of("b.json")?)
}

// Those of the module above.
fn growing_lines<R: Threads + Sync>(rt: &R, alloc: Global) -> Result<Option<String>, AllocError> {
    let mut shelf = MemoryShelf::new(alloc, fails_of(alloc, None)?);
    shelf.add("a.wasm", &GROWING)?;
    let mut sink = MemorySink::new(alloc, fails_of(alloc, None)?);
    status_of(rt, alloc, INSTRUMENT, &mut shelf, &mut sink)?;
    Ok(shelf_lines(rt, alloc, &shelf))
}

#[test]
fn growths_are_counted_by_function(rt: HostRuntime) -> Result<(), test::Fail> {
    let lines = growing_lines(&rt, rt.alloc())?.ok_or("no run")?;
    let expected = "function 0: 2 of 2 refused\nfunction 1: 0 of 1 refused\n";
    assert_eq!(rt; lines.as_str(), expected);
    Ok(())
}
