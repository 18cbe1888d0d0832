// A shadow that takes what a session of another module tells.

ghost use Rattle.std.specs.Prelude.{◌≡◌, ◌≤◌, IfOk, OnOk, length};
ghost use Rattle.module_ast.specs.Validation.{wide, IsValid, longest_file};
ghost use Rattle.wasm_sem.specs.Execution.{IsFree};
ghost use Rattle.run_session.specs.Sessions.{opened_run};
ghost use Rattle.static_info.specs.Belongs.{Belongs};
ghost use Rattle.static_info.specs.Form.{IsWellFormed};
ghost use Rattle.instrument.specs.Made.{IsMade};
ghost use Rattle.app_load.specs.Files.{IsFit};
ghost use Rattle.wasabi_app.specs.Making.{output_length};
ghost use Rattle.wasabi_app.specs.Modes.Trial.{all_hooks};
ghost use Rattle.app_tests.specs.Storing.{called_once, hooked_two, info_two, storing_one, storing_two};

use app_runs::follow_out;
use hook_select::Hooks;
use instrument::{Made, instrument};
use module_ast::module::{LONGEST_FILE, Limits};
use module_ast::name::Name;
use module_ast::seq::Seq;
use rewrite::PlainRewriter;
use run_session::Session;
use shadow_replay::Shadow;
use static_info::Info;
use std::alloc::{AllocError, Global};
use std::test;
use std::thread::Threads;
use wasm_decode::decode;
use wasm_num::NoMemory;
use wasm_sem::{Call, Script};
use wasm_valid::{ValidModule, validate};

// One function `f`, which stores the byte 1 at 0.
const STORING_ONE: [u8; 43] = [
    0x00, 0x61, 0x73, 0x6D, 0x01, 0x00, 0x00, 0x00, // header
    0x01, 0x04, 0x01, 0x60, 0x00, 0x00, // types
    0x03, 0x02, 0x01, 0x00, // functions
    0x05, 0x03, 0x01, 0x00, 0x01, // memories
    0x07, 0x05, 0x01, 0x01, 0x66, 0x00, 0x00, // exports
    0x0A, 0x0B, 0x01, 0x09, 0x00, 0x41, 0x00, 0x41, 0x01, 0x3A, 0x00, 0x00, 0x0B, // code
];

// The same with 2.
const STORING_TWO: [u8; 43] = [
    0x00, 0x61, 0x73, 0x6D, 0x01, 0x00, 0x00, 0x00, // header
    0x01, 0x04, 0x01, 0x60, 0x00, 0x00, // types
    0x03, 0x02, 0x01, 0x00, // functions
    0x05, 0x03, 0x01, 0x00, 0x01, // memories
    0x07, 0x05, 0x01, 0x01, 0x66, 0x00, 0x00, // exports
    0x0A, 0x0B, 0x01, 0x09, 0x00, 0x41, 0x00, 0x41, 0x02, 0x3A, 0x00, 0x00, 0x0B, // code
];

// The valid module with these bytes.
pub(crate) fn read<R: Threads + Sync>(
    rt: &R,
    alloc: Global,
    file: &[u8],
) -> Result<ValidModule, NoMemory>
    requires short { length file.now ≤ longest_file }
    ensures fit { IfOk result (λ v. IsFit wide file.now v) }
    ensures valid { IfOk result (λ v. IsValid v) }
{
    let Ok(module) = decode(alloc, file, &Limits::wide()) else {
        return Err(AllocError);
    };
    match validate(rt, alloc, module, 1) {
        Ok(valid) => Ok(valid),
        Err(_) => Err(AllocError),
    }
}

// A script that calls `f`.
fn script(alloc: Global) -> Result<Script, NoMemory>
    ensures { IfOk result (λ s. s ≡ called_once) }
{
    let call = Call {
        export: Name::from_string(String::from_str(alloc, "f")?),
        args: Seq::from_vec(Vec::new(alloc)),
    };
    Ok(Script {
        calls: Seq::from_vec(Vec::from_array(alloc, [call])?),
        hosts: Seq::from_vec(Vec::new(alloc)),
        globals: Seq::from_vec(Vec::new(alloc)),
        pages: 1,
        depth: 10,
        steps: 60,
    })
}

// The first byte of the shadow of the module that stores 1, when it has taken what the output of the other tells.
fn followed_byte(
    alloc: Global,
    session: Session<'_>,
    own: &ValidModule,
    info: &Info,
    script: &Script,
) -> Result<Option<u8>, NoMemory>
    requires own { own.now ≡ storing_one }
    requires info { info.now ≡ info_two }
    requires script { script.now ≡ called_once }
    requires opened { session ≡ opened_run hooked_two called_once }
    requires formed { IsWellFormed info.now }
    requires belongs { Belongs info.now session.module }
{
    let mut shadow = Shadow::new(alloc, own, script, &[], &[])?;
    follow_out(alloc, session, info, &mut shadow)?;
    Ok(shadow.bytes().first().copied())
}

// The same of the output's run from its opening.
fn linked_byte(
    alloc: Global,
    own: &ValidModule,
    output: &ValidModule,
    info: &Info,
    script: &Script,
) -> Result<Option<u8>, NoMemory>
    requires own { own.now ≡ storing_one }
    requires output { output.now ≡ hooked_two }
    requires info { info.now ≡ info_two }
    requires script { script.now ≡ called_once }
    requires formed { IsWellFormed info.now }
    requires belongs { Belongs info.now output.now }
{
    let Ok(session) = Session::link(alloc, output, script) else {
        return Err(AllocError);
    };
    followed_byte(alloc, session, own, info, script)
}

// The module that stores 2, with all hooks.
fn hooked<R: Threads + Sync>(rt: &R, alloc: Global, m: &ValidModule) -> Result<Made, NoMemory>
    requires { m.now ≡ storing_two }
    ensures made { IfOk result (λ made. IsMade m.now all_hooks made.bytes.items made.info) }
    ensures few { OnOk result (output_length m.now all_hooks ≤ longest_file) }
    ensures free { OnOk result (IsFree m.now) }
{
    match instrument(rt, alloc, m, Hooks::all(), 1, LONGEST_FILE, &PlainRewriter) {
        Ok(made) => Ok(made),
        Err(_) => Err(AllocError),
    }
}

// The same by the script of one call.
fn called_byte(
    alloc: Global,
    own: &ValidModule,
    output: &ValidModule,
    info: &Info,
) -> Result<Option<u8>, NoMemory>
    requires own { own.now ≡ storing_one }
    requires output { output.now ≡ hooked_two }
    requires info { info.now ≡ info_two }
    requires formed { IsWellFormed info.now }
    requires belongs { Belongs info.now output.now }
{
    let script = script(alloc)?;
    linked_byte(alloc, own, output, info, &script)
}

// The same of the output that was made of the other module.
fn made_byte<R: Threads + Sync>(
    rt: &R,
    alloc: Global,
    own: &ValidModule,
    other: &ValidModule,
    hooked: &Made,
) -> Result<Option<u8>, NoMemory>
    requires own { own.now ≡ storing_one }
    requires other { other.now ≡ storing_two }
    requires valid { IsValid other.now }
    requires free { IsFree other.now }
    requires made { IsMade other.now all_hooks hooked.now.bytes.items hooked.now.info }
    requires few { output_length other.now all_hooks ≤ longest_file }
{
    let output = read(rt, alloc, hooked.bytes.as_slice())?;
    called_byte(alloc, own, &output, &hooked.info)
}

// The first byte of the shadow of the one when the output of the other has run.
fn output_byte<R: Threads + Sync>(
    rt: &R,
    alloc: Global,
    own: &ValidModule,
    other: &ValidModule,
) -> Result<Option<u8>, NoMemory>
    requires own { own.now ≡ storing_one }
    requires other { other.now ≡ storing_two }
    requires valid { IsValid other.now }
{
    let hooked = hooked(rt, alloc, other)?;
    made_byte(rt, alloc, own, other, &hooked)
}

// The same of the other's file.
fn other_byte<R: Threads + Sync>(
    rt: &R,
    alloc: Global,
    own: &ValidModule,
) -> Result<Option<u8>, NoMemory>
    requires { own.now ≡ storing_one }
{
    let other = read(rt, alloc, &STORING_TWO)?;
    output_byte(rt, alloc, own, &other)
}

// The same of both files.
fn told_byte<R: Threads + Sync>(rt: &R, alloc: Global) -> Result<Option<u8>, NoMemory> {
    let own = read(rt, alloc, &STORING_ONE)?;
    other_byte(rt, alloc, &own)
}

#[test]
fn a_shadow_takes_what_it_is_told(rt: HostRuntime) -> Result<(), test::Fail> {
    assert_eq!(rt; told_byte(&rt, rt.alloc())?, Some(2));
    Ok(())
}
