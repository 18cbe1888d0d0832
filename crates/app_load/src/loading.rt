// Valid modules, scripts, information and traces, read from a shelf.

ghost use Rattle.std.specs.Prelude.{◌≡◌, ◌≤◌, ℕ, List, IfOk, IfErr, OnOk, length, string_bytes};
ghost use Rattle.outside_io.specs.Outside.{OnlyRead};
ghost use Rattle.module_ast.specs.Binary.{Gram};
ghost use Rattle.module_ast.specs.Validation.{IsValid, deepest, longest_file};
ghost use Rattle.static_info.specs.Belongs.{Belongs};
ghost use Rattle.static_info.specs.Form.{IsWellFormed};
ghost use Rattle.static_info.specs.Json.{HoldInfo};
ghost use Rattle.wasm_sem.specs.Types.{Event};
ghost use Rattle.trace_file.specs.Files.{IsNoTrace, IsTrace};
ghost use Rattle.wasm_sem.specs.Execution.{IsScriptInRange};
ghost use Rattle.app_load.specs.Files.{IsFit, IsScript};
ghost use Rattle.app_load.specs.Texts.{limit_text, which_name};
ghost use Rattle.app_load.specs.Outcomes.{IsRefusal, RefusedBy, Refuted};
ghost use Rattle.app_load.specs.Wants.{AreKept, Gives, IsRead, Want, a_module, a_script, a_trace, info_on, read_as, info_read, module_read, named_read, script_read, trace_read};

use crate::printing::{Refusal, refused};
use crate::status::Status;
use module_ast::module::{LONGEST_FILE, LONGEST_NARROW_FILE, Limits, Module, Which};
use name_map::{Names, no_names, read_names};
use outside_io::{ReadFault, Shelf};
use par_phase::Jobs;
use run_session::{ScriptFault, read_script};
use static_info::{Info, InfoFault, belongs, from_json};
use std::alloc::{AllocError, Global};
use std::thread::Threads;
use trace_file::{ReadTraceFault, TraceReader};
use wasm_decode::{DecodeFault, decode};
use wasm_sem::Script;
use wasm_valid::{Invalid, ValidModule, validate};

/// Reads the valid module that stands under `name`, of at most `cap` bytes and within `limits`. `jobs` is the number of
/// threads that check the module. One call of the shelf is made, and no name is changed. The refusal is
/// - `Missing` if nothing stands under the name, or more than `cap` bytes do,
/// - `Unread` if the shelf fails,
/// - `Malformed` if the bytes are no module of the binary format,
/// - `Unfit` if the module uses floats or exceeds a limit,
/// - `Invalid` if the module is not valid,
/// - `NoMemory` if memory runs out.
pub fn load<R: Threads + Sync, S: Shelf>(
    rt: &R,
    alloc: Global,
    name: &str,
    cap: u64,
    limits: &Limits,
    jobs: Jobs,
    shelf: &mut S,
) -> Result<ValidModule, Refusal>
    requires short { cap ≤ longest_file }
    requires nesting { limits.now.nesting ≤ deepest }
    ensures ok { IfOk result (λ v. Gives (S.seen shelf.old).contents (module_read name.now cap limits.now) v) }
    ensures refused { IfErr result (λ r. RefusedBy (module_read name.now cap limits.now) (S.seen shelf.old) (S.seen shelf.new) r) }
    ensures once { OnlyRead 1 (S.seen shelf.old) (S.seen shelf.new) }
{
    let bytes = read(alloc, name, cap, shelf)?;
    valid_module(rt, alloc, name, bytes.as_slice(), limits, jobs)
}

/// Reads a module as `load` does, with the same refusals. If `keeps` is set, the names that the file of the module
/// carries are read too; otherwise the second part of the result has no names.
pub fn load_named<R: Threads + Sync, S: Shelf>(
    rt: &R,
    alloc: Global,
    name: &str,
    cap: u64,
    limits: &Limits,
    keeps: bool,
    jobs: Jobs,
    shelf: &mut S,
) -> Result<(ValidModule, Names), Refusal>
    requires short { cap ≤ longest_file }
    requires nesting { limits.now.nesting ≤ deepest }
    ensures ok { IfOk result (λ v. Gives (S.seen shelf.old).contents (named_read name.now cap limits.now keeps) (v.0, v.1)) }
    ensures refused { IfErr result (λ r. RefusedBy (named_read name.now cap limits.now keeps) (S.seen shelf.old) (S.seen shelf.new) r) }
    ensures once { OnlyRead 1 (S.seen shelf.old) (S.seen shelf.new) }
{
    let bytes = read(alloc, name, cap, shelf)?;
    let module = valid_module(rt, alloc, name, bytes.as_slice(), limits, jobs)?;
    match kept_names(alloc, bytes.as_slice(), &module, keeps) {
        Ok(names) => Ok((module, names)),
        Err(_) => Err(Refusal::NoMemory),
    }
}

// The names that the file of a module carries if `keeps` is set, and otherwise no names.
fn kept_names(
    alloc: Global,
    bytes: &[u8],
    m: &ValidModule,
    keeps: bool,
) -> Result<Names, AllocError>
    requires file { Gram bytes.now m.now }
    ensures { IfOk result (AreKept keeps bytes.now m.now) }
{
    if !keeps {
        return Ok(no_names(alloc));
    }
    read_names(alloc, bytes, m.func_count())
}

/// Reads the script that stands under `name`, of at most 16,777,216 bytes. One call of the shelf is made, and no name
/// is changed. The refusal is
/// - `Missing` if nothing stands under the name, or more bytes do,
/// - `Unread` if the shelf fails,
/// - `BadScript` if the bytes are not JSON, or are JSON but no script,
/// - `NoMemory` if memory runs out.
pub fn load_script<S: Shelf>(alloc: Global, name: &str, shelf: &mut S) -> Result<Script, Refusal>
    ensures ok { IfOk result (λ s. Gives (S.seen shelf.old).contents (script_read name.now) s) }
    ensures range { IfOk result IsScriptInRange }
    ensures refused { IfErr result (λ r. RefusedBy (script_read name.now) (S.seen shelf.old) (S.seen shelf.new) r) }
    ensures once { OnlyRead 1 (S.seen shelf.old) (S.seen shelf.new) }
{
    let bytes = read(alloc, name, LONGEST_NARROW_FILE, shelf)?;
    script_of(alloc, bytes.as_slice())
}

/// Reads the information that stands under `name`, of at most 268,435,456 bytes, and that belongs to the valid module
/// `m`. One call of the shelf is made, and no name is changed. The refusal is
/// - `Missing` if nothing stands under the name, or more bytes do,
/// - `Unread` if the shelf fails,
/// - `BadInfo` if the bytes are not JSON, are JSON but no information, or are the information on another module,
/// - `NoMemory` if memory runs out.
pub fn load_info<S: Shelf>(
    alloc: Global,
    name: &str,
    m: &ValidModule,
    shelf: &mut S,
) -> Result<Info, Refusal>
    ensures ok { IfOk result (λ info. Gives (S.seen shelf.old).contents (info_read name.now m.now) info) }
    ensures formed { IfOk result IsWellFormed }
    ensures refused { IfErr result (λ r. RefusedBy (info_read name.now m.now) (S.seen shelf.old) (S.seen shelf.new) r) }
    ensures once { OnlyRead 1 (S.seen shelf.old) (S.seen shelf.new) }
{
    let bytes = read(alloc, name, LONGEST_FILE, shelf)?;
    info_of(alloc, bytes.as_slice(), m)
}

/// Reads the bytes of the trace that stands under `name`, at most 268,435,456 of them. The trace is read to its end to
/// check that the bytes are a trace, and no event is kept. One call of the shelf is made, and no name is changed. The
/// refusal is
/// - `Missing` if nothing stands under the name, or more bytes do,
/// - `Unread` if the shelf fails,
/// - `NotTrace` if the bytes are no trace,
/// - `NoMemory` if memory runs out.
pub fn load_trace<S: Shelf>(alloc: Global, name: &str, shelf: &mut S) -> Result<Vec<u8>, Refusal>
    ensures ok { IfOk result (λ bytes. IsRead (S.seen shelf.old).contents (trace_read name.now) bytes.items) }
    ensures trace { IfOk result (λ bytes. (es : List Event) × IsTrace bytes.items es) }
    ensures refused { IfErr result (λ r. RefusedBy (trace_read name.now) (S.seen shelf.old) (S.seen shelf.new) r) }
    ensures once { OnlyRead 1 (S.seen shelf.old) (S.seen shelf.new) }
{
    let bytes = read(alloc, name, LONGEST_FILE, shelf)?;
    check_trace(alloc, name, bytes.as_slice())?;
    Ok(bytes)
}

// Reads the bytes that stand under a name, at most `cap` of them, with one call of the shelf.
fn read<S: Shelf>(alloc: Global, name: &str, cap: u64, shelf: &mut S) -> Result<Vec<u8>, Refusal>
    ensures ok { (want : Want) → IfOk result (λ bytes. IsRead (S.seen shelf.old).contents (read_as name.now cap want) bytes.items) }
    ensures refused { (want : Want) → IfErr result (λ r. RefusedBy (read_as name.now cap want) (S.seen shelf.old) (S.seen shelf.new) r) }
    ensures once { OnlyRead 1 (S.seen shelf.old) (S.seen shelf.new) }
{
    match shelf.read(alloc, name, cap) {
        Ok(bytes) => Ok(bytes),
        Err(ReadFault::Missing) => Err(refused(
            Status::Missing,
            format!(in alloc; "error 3: {name} is missing\n"),
        )),
        Err(ReadFault::TooLong { length }) => Err(refused(
            Status::Missing,
            format!(in alloc; "error 3: {name} is too long: {length}\n"),
        )),
        Err(ReadFault::Failed) => Err(refused(
            Status::Unread,
            format!(in alloc; "error 4: {name} can't be read\n"),
        )),
        Err(ReadFault::NoMemory) => Err(Refusal::NoMemory),
    }
}

// The script that these bytes spell as JSON.
fn script_of(alloc: Global, bytes: &[u8]) -> Result<Script, Refusal>
    ensures ok { IfOk result (λ s. IsScript bytes.now s) }
    ensures range { IfOk result IsScriptInRange }
    ensures refused { (name : List ℕ) → IfErr result (Refuted a_script name bytes.now) }
{
    match read_script(alloc, bytes) {
        Ok(script) => Ok(script),
        Err(ScriptFault::NotJson) => Err(refused(
            Status::BadScript,
            String::from_str(alloc, "error 10: script is not JSON\n"),
        )),
        Err(ScriptFault::NotScript { place }) => Err(refused(
            Status::BadScript,
            format!(in alloc; "error 10: script is wrong at {place}\n"),
        )),
        Err(ScriptFault::NoMemory) => Err(Refusal::NoMemory),
    }
}

// The information that these bytes spell as JSON and that belongs to the valid module.
fn info_of(alloc: Global, bytes: &[u8], m: &ValidModule) -> Result<Info, Refusal>
    ensures ok { IfOk result (λ info. HoldInfo bytes.now info × Belongs info m.now) }
    ensures formed { IfOk result IsWellFormed }
    ensures refused { (name : List ℕ) → IfErr result (Refuted (info_on m.now) name bytes.now) }
{
    let info = any_info(alloc, bytes)?;
    match belongs(alloc, &info, m.module()) {
        Ok(true) => Ok(info),
        Ok(false) => Err(refused_info(
            alloc,
            "error 16: information does not belong to the module\n",
        )),
        Err(_) => Err(Refusal::NoMemory),
    }
}

// The information that these bytes spell as JSON, whatever module it belongs to.
fn any_info(alloc: Global, bytes: &[u8]) -> Result<Info, Refusal>
    ensures ok { IfOk result (λ info. HoldInfo bytes.now info) }
    ensures refused { (m : Module) (name : List ℕ) → IfErr result (Refuted (info_on m) name bytes.now) }
{
    match from_json(alloc, bytes) {
        Ok(info) => Ok(info),
        Err(InfoFault::NotJson) => Err(refused_info(alloc, "error 16: information is not JSON\n")),
        Err(InfoFault::NotInfo) => Err(refused_info(
            alloc,
            "error 16: information is not information\n",
        )),
        Err(InfoFault::NoMemory) => Err(Refusal::NoMemory),
    }
}

// The refusal `BadInfo` with this line.
fn refused_info(alloc: Global, line: &str) -> Refusal
    ensures { IsRefusal 16 line.now result }
{
    refused(Status::BadInfo, String::from_str(alloc, line))
}

// The valid module that `bytes` spell, within `limits`. `name` is the name that the bytes stand under, for the line of a
// refusal. `jobs` is the number of threads that check the module.
fn valid_module<R: Threads + Sync>(
    rt: &R,
    alloc: Global,
    name: &str,
    bytes: &[u8],
    limits: &Limits,
    jobs: Jobs,
) -> Result<ValidModule, Refusal>
    requires short { length bytes.now ≤ longest_file }
    requires nesting { limits.now.nesting ≤ deepest }
    ensures ok { IfOk result (λ v. IsFit limits.now bytes.now v × IsValid v) }
    ensures refused { IfErr result (Refuted (a_module limits.now) name.now bytes.now) }
{
    let module = fit_module(alloc, name, bytes, limits)?;
    match validate(rt, alloc, module, jobs.count()) {
        Ok(valid) => Ok(valid),
        Err(Invalid::Module { rule }) => Err(refused(
            Status::Invalid,
            format!(in alloc; "error 8: {name} breaks rule {rule}\n"),
        )),
        Err(Invalid::Body { func }) => Err(refused(
            Status::Invalid,
            format!(in alloc; "error 8: {name} has an invalid body: function {func}\n"),
        )),
        Err(Invalid::NoMemory) => Err(Refusal::NoMemory),
    }
}

// The module that these bytes spell, within the limits, valid or not.
fn fit_module(alloc: Global, name: &str, bytes: &[u8], limits: &Limits) -> Result<Module, Refusal>
    requires short { length bytes.now ≤ longest_file }
    requires nesting { limits.now.nesting ≤ deepest }
    ensures ok { IfOk result (λ m. IsFit limits.now bytes.now m) }
    ensures refused { IfErr result (Refuted (a_module limits.now) name.now bytes.now) }
{
    match decode(alloc, bytes, limits) {
        Ok(module) => Ok(module),
        Err(DecodeFault::Malformed { section }) => Err(refused(
            Status::Malformed,
            format!(in alloc; "error 6: {name} is malformed in section {section}\n"),
        )),
        Err(DecodeFault::Float { section }) => Err(refused(
            Status::Unfit,
            format!(in alloc; "error 7: {name} uses floats in section {section}\n"),
        )),
        Err(DecodeFault::Limit { which, value }) => {
            Err(refused(Status::Unfit, limit_line(alloc, name, which, value)))
        }
        Err(DecodeFault::NoMemory) => Err(Refusal::NoMemory),
    }
}

fn limit_line(alloc: Global, name: &str, which: Which, value: u64) -> Result<String, AllocError>
    ensures { IfOk result (λ line. string_bytes line ≡ limit_text name.now which value) }
{
    let which = name_of(which);
    format!(in alloc; "error 7: {name} is over the limit of {which}: {value}\n")
}

// The name of a limited quantity, as the line of a refusal has it.
fn name_of(which: Which) -> &'static str
    ensures { result.now ≡ which_name which }
{
    match which {
        Which::Functions => "functions",
        Which::Types => "types",
        Which::Parameters => "parameters",
        Which::Locals => "locals",
        Which::Nesting => "nesting",
    }
}

// Checks that these bytes, which stand under this name, are a trace.
fn check_trace(alloc: Global, name: &str, bytes: &[u8]) -> Result<(), Refusal>
    ensures ok { OnOk result ((es : List Event) × IsTrace bytes.now es) }
    ensures refused { IfErr result (Refuted a_trace name.now bytes.now) }
{
    match read_through(alloc, bytes) {
        Ok(()) => Ok(()),
        Err(ReadTraceFault::NotTrace) => Err(refused(
            Status::NotTrace,
            format!(in alloc; "error 19: {name} is not a trace\n"),
        )),
        Err(ReadTraceFault::NoMemory) => Err(Refusal::NoMemory),
    }
}

// Reads a trace to its end and keeps no event.
fn read_through(alloc: Global, bytes: &[u8]) -> Result<(), ReadTraceFault>
    ensures ok { OnOk result ((es : List Event) × IsTrace bytes.now es) }
    ensures not { IfErr result (λ fault. fault ≡ ReadTraceFault.NotTrace → IsNoTrace bytes.now) }
{
    let mut reader = TraceReader::new(alloc, bytes)?;
    while let Some(_) = reader.next()? {}
    Ok(())
}
