// Commands of the mode `report`, from the words to what is printed and what the analyses took.

ghost use Rattle.std.specs.Prelude.{◌≡◌, map};
ghost use Rattle.analyses.specs.Tools.{fresh_tool};
ghost use Rattle.analyses.specs.declared.Kind.TheVariants as kinds;
ghost use Rattle.app_load.specs.Feeding.{fresh_tools};

use crate::commands::{CALL, fails_of, status_of, taken_by, words_of};
use analyses::{Analysis, Blocks, Branches, CallGraph, Kind, MemoryUse, Row};
use hook_select::Event;
use outside_io::{Fail, MemoryShelf, MemorySink};
use std::alloc::{AllocError, Global};
use std::process::Abort;
use std::test;
use std::thread::Threads;
use wasabi_app::run_app;

// One function `f`, whose loop turns three times.
const LOOP: [u8; 49] = [
    0x00, 0x61, 0x73, 0x6D, 0x01, 0x00, 0x00, 0x00, // header
    0x01, 0x04, 0x01, 0x60, 0x00, 0x00, // types
    0x03, 0x02, 0x01, 0x00, // functions
    0x07, 0x05, 0x01, 0x01, 0x66, 0x00, 0x00, // exports
    0x0A, 0x16, 0x01, 0x14, 0x01, 0x01, 0x7F, 0x41, 0x03, 0x21, 0x00, 0x03, 0x40, 0x20, 0x00, 0x41,
    0x01, 0x6B, 0x22, 0x00, 0x0D, 0x00, 0x0B, 0x0B, // code
];

const INSTRUMENT: &str = "instrument a.wasm --out b.wasm --info b.json --hooks begin,end,br_if";

const REPORT: &str = "report b.wasm --info b.json --script s.json";

// What the report prints.
const WHOLE: &str = "call 0 f: ok
pages 0
host 0
report blocks 2
block 0:-1 function 1
block 0:2 loop 3
report branches 2
branch 0:7 br_if 0 1
branch 0:7 br_if 1 2
report calls 0
report memory 0
events 11 stray 0
";

// An analysis of calls that has no memory for a third event.
#[derive(Drop)]
struct TwoEvents {
    calls: CallGraph,
}

impl TwoEvents {
    fn new(alloc: Global) -> TwoEvents
        ensures { result.calls ≡ fresh_tool kinds.Calls }
    {
        TwoEvents {
            calls: CallGraph::new(alloc),
        }
    }
}

impl Analysis for TwoEvents {
    ghost state = { λ a. a.calls };

    fn kind(&self) -> Kind {
        self.calls.kind()
    }

    fn taken(&self) -> u64 {
        self.calls.taken()
    }

    fn take(&mut self, event: &Event) -> Result<(), AllocError> {
        if self.calls.taken() == 2 {
            return Err(AllocError);
        }
        self.calls.take(event)
    }

    fn rows(&self) -> Result<Vec<Row>, AllocError> {
        self.calls.rows()
    }
}

// A shelf with the loop, a script that calls it, and its output and information for three groups. Three calls of it are made
// then, and one of the others fails.
fn shelf_of<R: Threads + Sync>(
    rt: &R,
    alloc: Global,
    fail: Option<Fail>,
) -> Result<MemoryShelf, AllocError> {
    let mut shelf = MemoryShelf::new(alloc, fails_of(alloc, fail)?);
    shelf.add("a.wasm", &LOOP)?;
    shelf.add("s.json", CALL.as_bytes())?;
    let mut sink = MemorySink::new(alloc, fails_of(alloc, None)?);
    status_of(rt, alloc, INSTRUMENT, &mut shelf, &mut sink)?;
    Ok(shelf)
}

// Tries a report over a shelf.
fn try_report<R: Threads + Sync + Abort>(
    rt: &R,
    alloc: Global,
    shelf: &mut MemoryShelf,
    fail: Option<Fail>,
    status: u8,
    printed: &str,
) -> Result<(), test::Fail> {
    let mut sink = MemorySink::new(alloc, fails_of(alloc, fail)?);
    assert_eq!(rt; status_of(rt, alloc, REPORT, shelf, &mut sink)?, status);
    assert_eq!(rt; sink.bytes(), printed.as_bytes());
    Ok(())
}

// All that is told is printed by one call.
#[test]
fn the_sink_fails_at_each_print(rt: HostRuntime) -> Result<(), test::Fail> {
    let alloc = rt.alloc();
    let mut shelf = shelf_of(&rt, alloc, None)?;
    try_report(&rt, alloc, &mut shelf, None, 0, WHOLE)?;
    for (call, status, printed) in [(0, 15, "cal"), (1, 0, WHOLE)] {
        let fail = Some(Fail { call, kept: 3 });
        try_report(&rt, alloc, &mut shelf, fail, status, printed)?;
    }
    Ok(())
}

#[test]
fn the_shelf_fails_at_each_read(rt: HostRuntime) -> Result<(), test::Fail> {
    let alloc = rt.alloc();
    for (call, printed) in [
        (3, "error 4: b.wasm can't be read\n"),
        (4, "error 4: b.json can't be read\n"),
        (5, "error 4: s.json can't be read\n"),
    ] {
        let mut shelf = shelf_of(&rt, alloc, Some(Fail { call, kept: 0 }))?;
        try_report(&rt, alloc, &mut shelf, None, 4, printed)?;
    }
    Ok(())
}

// Tries a report with analyses, one of which has no memory; how many events each has taken then.
fn try_analyses<R: Threads + Sync + Abort>(
    rt: &R,
    alloc: Global,
    words: &[String],
    shelf: &mut MemoryShelf,
    tools: &mut Vec<Box<dyn Analysis>>,
) -> Result<Vec<u64>, AllocError>
    requires fresh { map state tools.old.items ≡ fresh_tools }
{
    let mut sink = MemorySink::new(alloc, fails_of(alloc, None)?);
    assert_eq!(rt; run_app(rt, alloc, words, shelf, &mut sink, tools), 14);
    assert_eq!(rt; sink.bytes(), "error 14: out of memory\n".as_bytes());
    taken_by(alloc, tools)
}

// The same with four fresh analyses, that of calls without memory for a third event.
fn try_two_events<R: Threads + Sync + Abort>(
    rt: &R,
    alloc: Global,
    words: &[String],
    shelf: &mut MemoryShelf,
) -> Result<Vec<u64>, AllocError> {
    let mut tools: Vec<Box<dyn Analysis>> = Vec::new(alloc);
    tools.push(Box::new(alloc, Blocks::new(alloc))?)?;
    tools.push(Box::new(alloc, Branches::new(alloc))?)?;
    tools.push(Box::new(alloc, TwoEvents::new(alloc))?)?;
    tools.push(Box::new(alloc, MemoryUse::new(alloc))?)?;
    try_analyses(rt, alloc, words, shelf, &mut tools)
}

#[test]
fn an_analysis_has_no_memory(rt: HostRuntime) -> Result<(), test::Fail> {
    let alloc = rt.alloc();
    let mut shelf = shelf_of(&rt, alloc, None)?;
    let words = words_of(alloc, REPORT)?;
    let taken = try_two_events(&rt, alloc, &words, &mut shelf)?;
    assert_eq!(rt; taken.as_slice(), [3, 3, 2, 2].as_slice());
    Ok(())
}
