// Commands of which a read, a write or a print fails.

use crate::commands::{CALL, ONE_NOP, fails_of, status_of};
use outside_io::{Fail, MemoryShelf, MemorySink};
use std::alloc::{AllocError, Global};
use std::process::Abort;
use std::test;
use std::thread::Threads;

// The function of one nop with the hook of nop, which is told the place: function 0, instruction 0.
const TOLD: [u8; 67] = [
    0x00, 0x61, 0x73, 0x6D, 0x01, 0x00, 0x00, 0x00, // header
    0x01, 0x09, 0x02, 0x60, 0x00, 0x00, 0x60, 0x02, 0x7F, 0x7F, 0x00, // types
    0x02, 0x16, 0x01, 0x0E, 0x5F, 0x5F, 0x77, 0x61, 0x73, 0x61, 0x62, 0x69, 0x5F, 0x68, 0x6F, 0x6F,
    0x6B, 0x73, 0x03, 0x6E, 0x6F, 0x70, 0x00, 0x01, // imports
    0x03, 0x02, 0x01, 0x00, // functions
    0x07, 0x05, 0x01, 0x01, 0x66, 0x00, 0x01, // exports
    0x0A, 0x0B, 0x01, 0x09, 0x00, 0x41, 0x00, 0x41, 0x00, 0x10, 0x00, 0x01, 0x0B, // code
];

// The information on that function, with the hook of nop.
const INFORMATION: &str =
    r#"{"dropped":[],"functions":[["","",[[0,-1,1,2]],[]]],"groups":["nop"],"hooks":["nop"],"imports":0,"version":1}"#;

// A script of a call that has one step.
const FEW: &str = r#"{"calls":[{"export":"f","args":[]}],"steps":1}"#;

const INSTRUMENT: &str = "instrument a.wasm --out b.wasm --info b.json --hooks nop";

const CHECK: &str = "check a.wasm";

const RUN: &str = "run a.wasm --script s.json";

const FIRST_READ: Option<Fail> = Some(Fail { call: 0, kept: 0 });

const SECOND_READ: Option<Fail> = Some(Fail { call: 1, kept: 0 });

const WRITE: Option<Fail> = Some(Fail { call: 1, kept: 5 });

const INFORM: Option<Fail> = Some(Fail { call: 2, kept: 4 });

const PRINT: Option<Fail> = Some(Fail { call: 0, kept: 5 });

// A command with the calls that fail: its status, what is printed, and how many bytes stand then of the output under its name
// and of the information under its name.
struct Case {
    words: &'static str,
    shelf_fail: Option<Fail>,
    sink_fail: Option<Fail>,
    status: u8,
    printed: &'static str,
    written: Option<usize>,
    informed: Option<usize>,
}

const CASES: [Case; 14] = [
    Case {
        words: INSTRUMENT,
        shelf_fail: None,
        sink_fail: None,
        status: 0,
        printed: "wrote 67 bytes with 1 hooks\n",
        written: Some(67),
        informed: Some(109),
    },
    Case {
        words: INSTRUMENT,
        shelf_fail: FIRST_READ,
        sink_fail: None,
        status: 4,
        printed: "error 4: a.wasm can't be read\n",
        written: None,
        informed: None,
    },
    Case {
        words: INSTRUMENT,
        shelf_fail: FIRST_READ,
        sink_fail: PRINT,
        status: 4,
        printed: "error",
        written: None,
        informed: None,
    },
    Case {
        words: INSTRUMENT,
        shelf_fail: WRITE,
        sink_fail: None,
        status: 5,
        printed: "error 5: b.wasm can't be written\n",
        written: Some(5),
        informed: None,
    },
    Case {
        words: INSTRUMENT,
        shelf_fail: WRITE,
        sink_fail: PRINT,
        status: 5,
        printed: "error",
        written: Some(5),
        informed: None,
    },
    Case {
        words: INSTRUMENT,
        shelf_fail: INFORM,
        sink_fail: None,
        status: 5,
        printed: "error 5: b.json can't be written\n",
        written: Some(67),
        informed: Some(4),
    },
    Case {
        words: INSTRUMENT,
        shelf_fail: None,
        sink_fail: PRINT,
        status: 15,
        printed: "wrote",
        written: Some(67),
        informed: Some(109),
    },
    Case {
        words: "instrument",
        shelf_fail: None,
        sink_fail: PRINT,
        status: 2,
        printed: "error",
        written: None,
        informed: None,
    },
    Case {
        words: CHECK,
        shelf_fail: FIRST_READ,
        sink_fail: None,
        status: 4,
        printed: "error 4: a.wasm can't be read\n",
        written: None,
        informed: None,
    },
    Case {
        words: CHECK,
        shelf_fail: None,
        sink_fail: PRINT,
        status: 15,
        printed: "ok ty",
        written: None,
        informed: None,
    },
    Case {
        words: RUN,
        shelf_fail: FIRST_READ,
        sink_fail: None,
        status: 4,
        printed: "error 4: a.wasm can't be read\n",
        written: None,
        informed: None,
    },
    Case {
        words: RUN,
        shelf_fail: SECOND_READ,
        sink_fail: None,
        status: 4,
        printed: "error 4: s.json can't be read\n",
        written: None,
        informed: None,
    },
    Case {
        words: RUN,
        shelf_fail: None,
        sink_fail: PRINT,
        status: 15,
        printed: "call ",
        written: None,
        informed: None,
    },
    Case {
        words: "run a.wasm --script few.json",
        shelf_fail: None,
        sink_fail: PRINT,
        status: 15,
        printed: "call ",
        written: None,
        informed: None,
    },
];

// The first bytes, this many of them; `None` where none are to be there.
fn front_of(bytes: &[u8], kept: Option<usize>) -> Option<&[u8]> {
    bytes.get(..kept?)
}

// A shelf with a module and scripts, of which a call fails.
fn shelf_of(alloc: Global, fail: Option<Fail>) -> Result<MemoryShelf, AllocError> {
    let mut shelf = MemoryShelf::new(alloc, fails_of(alloc, fail)?);
    shelf.add("a.wasm", &ONE_NOP)?;
    shelf.add("s.json", CALL.as_bytes())?;
    shelf.add("few.json", FEW.as_bytes())?;
    Ok(shelf)
}

// Asserts what a case says of the status and of the text.
fn assert_answer(rt: &impl Abort, case: &Case, status: u8, printed: &[u8]) {
    assert_eq!(rt; status, case.status);
    assert_eq!(rt; printed, case.printed.as_bytes());
}

// Asserts what a case says of the output and of the information.
fn assert_files(rt: &impl Abort, case: &Case, shelf: &MemoryShelf) {
    assert_eq!(rt; shelf.bytes_of("b.wasm"), front_of(&TOLD, case.written));
    assert_eq!(rt;
        shelf.bytes_of("b.json"),
        front_of(INFORMATION.as_bytes(), case.informed)
    );
}

// Runs the command of a case.
fn try_case<R: Threads + Sync + Abort>(
    rt: &R,
    alloc: Global,
    case: &Case,
) -> Result<(), AllocError> {
    let mut shelf = shelf_of(alloc, case.shelf_fail)?;
    let mut sink = MemorySink::new(alloc, fails_of(alloc, case.sink_fail)?);
    let status = status_of(rt, alloc, case.words, &mut shelf, &mut sink)?;
    assert_answer(rt, case, status, sink.bytes());
    assert_files(rt, case, &shelf);
    Ok(())
}

#[test]
fn the_outside_fails(rt: HostRuntime) -> Result<(), test::Fail> {
    let alloc = rt.alloc();
    for case in &CASES {
        try_case(&rt, alloc, case)?;
    }
    Ok(())
}
