// Commands over a shelf and a sink in memory.

use analyses::{Analysis, Blocks, Branches, CallGraph, MemoryUse};
use outside_io::{Fail, MemoryShelf, MemorySink};
use std::alloc::{AllocError, Global};
use std::thread::Threads;
use wasabi_app::run_app;

// One function `f` of one nop.
pub(crate) const ONE_NOP: [u8; 32] = [
    0x00, 0x61, 0x73, 0x6D, 0x01, 0x00, 0x00, 0x00, // header
    0x01, 0x04, 0x01, 0x60, 0x00, 0x00, // types
    0x03, 0x02, 0x01, 0x00, // functions
    0x07, 0x05, 0x01, 0x01, 0x66, 0x00, 0x00, // exports
    0x0A, 0x05, 0x01, 0x03, 0x00, 0x01, 0x0B, // code
];

// A script that calls it.
pub(crate) const CALL: &str = r#"{"calls":[{"export":"f","args":[]}]}"#;

// The list of the calls that fail.
pub(crate) fn fails_of(alloc: Global, fail: Option<Fail>) -> Result<Vec<Fail>, AllocError> {
    let mut fails = Vec::new(alloc);
    if let Some(fail) = fail {
        fails.push(fail)?;
    }
    Ok(fails)
}

// The words of a command, the program's name first.
pub(crate) fn words_of(alloc: Global, words: &str) -> Result<Vec<String>, AllocError> {
    let mut owned = Vec::new(alloc);
    owned.push(String::from_str(alloc, "wasabi")?)?;
    for word in words.split_whitespace() {
        owned.push(String::from_str(alloc, word)?)?;
    }
    Ok(owned)
}

// The status of a command, given with its words, over four fresh analyses.
fn status_of_words<R: Threads + Sync>(
    rt: &R,
    alloc: Global,
    words: &[String],
    shelf: &mut MemoryShelf,
    sink: &mut MemorySink,
) -> Result<u8, AllocError> {
    let mut tools: Vec<Box<dyn Analysis>> = Vec::new(alloc);
    tools.push(Box::new(alloc, Blocks::new(alloc))?)?;
    tools.push(Box::new(alloc, Branches::new(alloc))?)?;
    tools.push(Box::new(alloc, CallGraph::new(alloc))?)?;
    tools.push(Box::new(alloc, MemoryUse::new(alloc))?)?;
    Ok(run_app(rt, alloc, words, shelf, sink, &mut tools))
}

// The status of the command with these words behind the program's name, over four fresh analyses.
pub(crate) fn status_of<R: Threads + Sync>(
    rt: &R,
    alloc: Global,
    words: &str,
    shelf: &mut MemoryShelf,
    sink: &mut MemorySink,
) -> Result<u8, AllocError> {
    let words = words_of(alloc, words)?;
    status_of_words(rt, alloc, &words, shelf, sink)
}

// How many events each analysis has taken.
pub(crate) fn taken_by(alloc: Global, tools: &[Box<dyn Analysis>]) -> Result<Vec<u64>, AllocError> {
    let mut taken = Vec::new(alloc);
    for tool in tools {
        taken.push(tool.taken())?;
    }
    Ok(taken)
}
