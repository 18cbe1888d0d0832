// All bytes of a shadow's memory, when it has taken what the output of its module told.

ghost use Rattle.std.specs.Prelude.{◌≡◌, ◌≤◌, IfOk, OnOk};
ghost use Rattle.module_ast.specs.Validation.Limits.{longest_file};
ghost use Rattle.wasm_sem.specs.Execution.{IsFree, IsScriptInRange, Links};
ghost use Rattle.instrument.specs.Made.{IsMade};
ghost use Rattle.wasabi_app.specs.Making.{output_length};
ghost use Rattle.wasabi_app.specs.Modes.Trial.{all_hooks};
ghost use Rattle.wasabi_app.specs.Warning.{ArePaired, IsFollowable};

use crate::commands::fails_of;
use crate::following::read;
use app_load::load;
use app_runs::follow_out;
use hook_select::Hooks;
use instrument::{Made, instrument};
use module_ast::module::{LONGEST_FILE, LONGEST_NARROW_FILE, Limits};
use outside_io::MemoryShelf;
use par_phase::Jobs;
use rewrite::PlainRewriter;
use run_session::{Session, read_script};
use shadow_replay::Shadow;
use static_info::Info;
use std::alloc::{AllocError, Global};
use std::test;
use std::thread::Threads;
use wasm_num::NoMemory;
use wasm_sem::Script;
use wasm_valid::ValidModule;

// A memory of one page, and of three at most. `g` grows it by its argument, and `s` stores the byte 1 at its argument.
const GROWING: [u8; 62] = [
    0x00, 0x61, 0x73, 0x6D, 0x01, 0x00, 0x00, 0x00, // header
    0x01, 0x0A, 0x02, 0x60, 0x01, 0x7F, 0x01, 0x7F, 0x60, 0x01, 0x7F, 0x00, // types
    0x03, 0x03, 0x02, 0x00, 0x01, // functions
    0x05, 0x04, 0x01, 0x01, 0x01, 0x03, // memories
    0x07, 0x09, 0x02, 0x01, 0x67, 0x00, 0x00, 0x01, 0x73, 0x00, 0x01, // exports
    0x0A, 0x12, 0x02, 0x06, 0x00, 0x20, 0x00, 0x40, 0x00, 0x0B, 0x09, 0x00, 0x20, 0x00, 0x41, 0x01,
    0x3A, 0x00, 0x00, 0x0B, // code
];

// The second growth is refused. The last byte can be written, and the one behind it not.
const SCRIPT: &str =
    r#"{"calls":[{"export":"g","args":[1]},{"export":"g","args":[1]},{"export":"s","args":[131071]},{"export":"s","args":[131072]}],"pages":2}"#;

// The valid module of a file, which may get hooks.
fn loaded<R: Threads + Sync>(rt: &R, alloc: Global, file: &[u8]) -> Result<ValidModule, NoMemory>
    ensures { IfOk result (λ m. IsFollowable m) }
{
    let mut shelf = MemoryShelf::new(alloc, fails_of(alloc, None)?);
    shelf.add("a.wasm", file)?;
    match load(
        rt,
        alloc,
        "a.wasm",
        LONGEST_NARROW_FILE,
        &Limits::narrow(),
        Jobs::new(1),
        &mut shelf,
    ) {
        Ok(valid) => Ok(valid),
        Err(_) => Err(AllocError),
    }
}

// The module with all hooks.
fn hooked<R: Threads + Sync>(rt: &R, alloc: Global, m: &ValidModule) -> Result<Made, NoMemory>
    requires { IsFollowable m.now }
    ensures made { IfOk result (λ made. IsMade m.now all_hooks made.bytes.items made.info) }
    ensures few { OnOk result (output_length m.now all_hooks ≤ longest_file) }
    ensures free { OnOk result (IsFree m.now) }
{
    match instrument(rt, alloc, m, Hooks::all(), 1, LONGEST_FILE, &PlainRewriter) {
        Ok(made) => Ok(made),
        Err(_) => Err(AllocError),
    }
}

// Whether bytes are two pages, all 0 but the last, which is 1.
fn is_last_alone(bytes: &[u8]) -> bool {
    match bytes.split_last() {
        Some((last, front)) => {
            *last == 1 && front.len() == 131_071 && front.iter().all(|byte| *byte == 0)
        }
        None => false,
    }
}

// Whether so is the shadow's memory behind the run of a session of its module's output.
fn followed(
    alloc: Global,
    session: Session<'_>,
    m: &ValidModule,
    info: &Info,
    script: &Script,
) -> Result<bool, NoMemory>
    requires begun { session.made ≡ 0 }
    requires script { session.script ≡ script.now }
    requires range { IsScriptInRange script.now }
    requires links { Links session.module script.now }
    requires paired { ArePaired m.now session.module info.now }
{
    let mut shadow = Shadow::new(alloc, m, script, &[], &[])?;
    follow_out(alloc, session, info, &mut shadow)?;
    Ok(is_last_alone(shadow.bytes()))
}

// The same of the output's run from its opening.
fn linked(
    alloc: Global,
    m: &ValidModule,
    info: &Info,
    output: &ValidModule,
    script: &Script,
) -> Result<bool, NoMemory>
    requires range { IsScriptInRange script.now }
    requires paired { ArePaired m.now output.now info.now }
{
    let Ok(session) = Session::link(alloc, output, script) else {
        return Err(AllocError);
    };
    followed(alloc, session, m, info, script)
}

// The same of the output that was made.
fn read_and_linked<R: Threads + Sync>(
    rt: &R,
    alloc: Global,
    m: &ValidModule,
    hooked: &Made,
    script: &Script,
) -> Result<bool, NoMemory>
    requires range { IsScriptInRange script.now }
    requires followable { IsFollowable m.now }
    requires free { IsFree m.now }
    requires made { IsMade m.now all_hooks hooked.now.bytes.items hooked.now.info }
    requires few { output_length m.now all_hooks ≤ longest_file }
{
    let output = read(rt, alloc, hooked.bytes.as_slice())?;
    linked(alloc, m, &hooked.info, &output, script)
}

// The same of the module's output with all hooks.
fn is_grown<R: Threads + Sync>(
    rt: &R,
    alloc: Global,
    m: &ValidModule,
    script: &Script,
) -> Result<bool, NoMemory>
    requires range { IsScriptInRange script.now }
    requires followable { IsFollowable m.now }
{
    let hooked = hooked(rt, alloc, m)?;
    read_and_linked(rt, alloc, m, &hooked, script)
}

// The same of the module above.
fn last_is_alone<R: Threads + Sync>(rt: &R, alloc: Global) -> Result<bool, NoMemory> {
    let m = loaded(rt, alloc, &GROWING)?;
    match read_script(alloc, SCRIPT.as_bytes()) {
        Ok(script) => is_grown(rt, alloc, &m, &script),
        Err(_) => Err(AllocError),
    }
}

#[test]
fn a_grown_memory_is_zero_but_where_it_was_written(rt: HostRuntime) -> Result<(), test::Fail> {
    assert!(rt; last_is_alone(&rt, rt.alloc())?);
    Ok(())
}
