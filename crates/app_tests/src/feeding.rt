// The steps of a run, of which a hook call feeds analyses.

ghost use Rattle.std.specs.Prelude.{◌≡◌, ◌^◌, ◌≤◌, All, IfSome, map};
ghost use Rattle.wasm_sem.specs.Execution.{IsScriptInRange};
ghost use Rattle.static_info.specs.Belongs.{Belongs};
ghost use Rattle.static_info.specs.Form.{IsWellFormed};
ghost use Rattle.analyses.specs.Tools.{ToolState};
ghost use Rattle.app_load.specs.Feeding.{fresh_tools};

use crate::commands::{CALL, fails_of, status_of, taken_by};
use analyses::{Analysis, Blocks, Branches, CallGraph, Kind, MemoryUse};
use app_load::Kinds;
use app_runs::{Tally, feed};
use module_ast::module::Limits;
use outside_io::{MemoryShelf, MemorySink};
use run_session::{Session, read_script};
use static_info::{Info, belongs, from_json};
use std::alloc::{AllocError, Global};
use std::test;
use std::thread::Threads;
use wasm_decode::decode;
use wasm_sem::{Script, Turn};
use wasm_valid::{ValidModule, validate};

// One function `f`, with a loop of three rounds.
const LOOP: [u8; 49] = [
    0x00, 0x61, 0x73, 0x6D, 0x01, 0x00, 0x00, 0x00, // header
    0x01, 0x04, 0x01, 0x60, 0x00, 0x00, // types
    0x03, 0x02, 0x01, 0x00, // functions
    0x07, 0x05, 0x01, 0x01, 0x66, 0x00, 0x00, // exports
    0x0A, 0x16, 0x01, 0x14, 0x01, 0x01, 0x7F, 0x41, 0x03, 0x21, 0x00, 0x03, 0x40, 0x20, 0x00, 0x41,
    0x01, 0x6B, 0x22, 0x00, 0x0D, 0x00, 0x0B, 0x0B, // code
];

const INSTRUMENT: &str = "instrument a.wasm --out b.wasm --info b.json --hooks begin,end,br_if";

// More steps than are made before the first hook call.
const MOST_STEPS: u32 = 10;

// What was counted up to a hook call, and how many events each of four analyses has taken.
#[derive(Drop)]
struct Fed {
    tally: Tally,
    taken: Vec<u64>,
}

// Steps until a hook is called, and gives its events to the analyses of blocks and calls; what was counted then.
fn fed_tally(
    alloc: Global,
    session: &mut Session<'_>,
    info: &Info,
    tools: &mut Vec<Box<dyn Analysis>>,
) -> Result<Option<Tally>, AllocError>
    requires formed { IsWellFormed info.now }
    requires belongs { Belongs info.now session.old.module }
    requires room { All (λ (t : ToolState). t.event_count ≤ 2 ^ 63) (map state tools.old.items) }
{
    let pick = Kinds::none().with(Kind::Blocks).with(Kind::Calls);
    let mut tally = Tally {
        events: 0,
        strays: 0,
    };
    for _ in 0..MOST_STEPS {
        match feed(alloc, session, info, pick, tools, &mut tally)? {
            Turn::Hook(_) => return Ok(Some(tally)),
            Turn::Ran => {}
            Turn::Over => return Ok(None),
        }
    }
    Ok(None)
}

// The same, and what the analyses have taken then.
fn fed_tools(
    alloc: Global,
    session: &mut Session<'_>,
    info: &Info,
    tools: &mut Vec<Box<dyn Analysis>>,
) -> Option<Fed>
    requires formed { IsWellFormed info.now }
    requires belongs { Belongs info.now session.old.module }
    requires fresh { map state tools.old.items ≡ fresh_tools }
{
    let tally = fed_tally(alloc, session, info, tools).ok()??;
    let taken = taken_by(alloc, tools).ok()?;
    Some(Fed { tally, taken })
}

// The same over four fresh analyses.
fn fed_session(alloc: Global, session: &mut Session<'_>, info: &Info) -> Option<Fed>
    requires formed { IsWellFormed info.now }
    requires belongs { Belongs info.now session.old.module }
{
    let mut tools: Vec<Box<dyn Analysis>> = Vec::new(alloc);
    tools.push(Box::new(alloc, Blocks::new(alloc)).ok()?).ok()?;
    tools
        .push(Box::new(alloc, Branches::new(alloc)).ok()?)
        .ok()?;
    tools
        .push(Box::new(alloc, CallGraph::new(alloc)).ok()?)
        .ok()?;
    tools
        .push(Box::new(alloc, MemoryUse::new(alloc)).ok()?)
        .ok()?;
    fed_tools(alloc, session, info, &mut tools)
}

// The same from the opening of a run.
fn fed_run(alloc: Global, valid: &ValidModule, info: &Info, script: &Script) -> Option<Fed>
    requires range { IsScriptInRange script.now }
    requires formed { IsWellFormed info.now }
    requires belongs { Belongs info.now valid.now }
{
    let mut session = Session::link(alloc, valid, script).ok()?;
    fed_session(alloc, &mut session, info)
}

// The same by the script of one call.
fn fed_call(alloc: Global, valid: &ValidModule, info: &Info) -> Option<Fed>
    requires formed { IsWellFormed info.now }
    requires belongs { Belongs info.now valid.now }
{
    let script = read_script(alloc, CALL.as_bytes()).ok()?;
    fed_run(alloc, valid, info, &script)
}

// The information with these bytes, where it belongs to a module.
pub(crate) fn info_of(alloc: Global, valid: &ValidModule, bytes: &[u8]) -> Option<Info>
    ensures formed { IfSome result IsWellFormed }
    ensures belongs { IfSome result (λ info. Belongs info valid.now) }
{
    let info = from_json(alloc, bytes).ok()?;
    match belongs(alloc, &info, valid.module()) {
        Ok(true) => Some(info),
        _ => None,
    }
}

// The same with the information that these bytes hold.
fn fed_informed(alloc: Global, valid: &ValidModule, text: &[u8]) -> Option<Fed> {
    let info = info_of(alloc, valid, text)?;
    fed_call(alloc, valid, &info)
}

// The valid module with these bytes, which are few.
pub(crate) fn valid_of<R: Threads + Sync>(
    rt: &R,
    alloc: Global,
    file: &[u8],
) -> Option<ValidModule> {
    if file.len() > 1_000 {
        return None;
    }
    let module = decode(alloc, file, &Limits::wide()).ok()?;
    validate(rt, alloc, module, 1).ok()
}

// The same of the module and the information with these bytes.
fn fed_output<R: Threads + Sync>(rt: &R, alloc: Global, file: &[u8], text: &[u8]) -> Option<Fed> {
    let valid = valid_of(rt, alloc, file)?;
    fed_informed(alloc, &valid, text)
}

// A shelf with the function of a loop, and its output and information for begins, ends and branches.
fn loop_shelf<R: Threads + Sync>(rt: &R, alloc: Global) -> Result<MemoryShelf, AllocError> {
    let mut shelf = MemoryShelf::new(alloc, fails_of(alloc, None)?);
    shelf.add("a.wasm", &LOOP)?;
    let mut sink = MemorySink::new(alloc, fails_of(alloc, None)?);
    status_of(rt, alloc, INSTRUMENT, &mut shelf, &mut sink)?;
    Ok(shelf)
}

// Feeds by the output and the information on a shelf.
fn fed_shelf<R: Threads + Sync>(rt: &R, alloc: Global, shelf: &MemoryShelf) -> Option<Fed> {
    let output = shelf.bytes_of("b.wasm")?;
    let text = shelf.bytes_of("b.json")?;
    fed_output(rt, alloc, output, text)
}

// Feeds by those of the function of a loop.
fn fed_loop<R: Threads + Sync>(rt: &R, alloc: Global) -> Result<Option<Fed>, AllocError> {
    let shelf = loop_shelf(rt, alloc)?;
    Ok(fed_shelf(rt, alloc, &shelf))
}

#[test]
fn a_hook_call_feeds_the_picked(rt: HostRuntime) -> Result<(), test::Fail> {
    let fed = fed_loop(&rt, rt.alloc())?.ok_or("no hook call")?;
    assert_eq!(rt;
        fed.tally,
        Tally {
            events: 1,
            strays: 0
        }
    );
    assert_eq!(rt; fed.taken.as_slice(), [1, 0, 1, 0].as_slice());
    Ok(())
}
