// Makes outputs, or says why a module has none.

ghost use Rattle.std.specs.Prelude.{◌++◌, ◌≡◌, ◌<◌, ◌≤◌, IfErr, IfOk, OnOk, length, string_bytes};
ghost use Rattle.hook_mono.specs.Needed.{needed_keys};
ghost use Rattle.module_ast.specs.Binary.{module_bytes, IsWithin};
ghost use Rattle.module_ast.specs.Structure.{funcs_of};
ghost use Rattle.module_ast.specs.Validation.{narrow, wide, longest_file, longest_narrow_file};
ghost use Rattle.name_map.specs.Laws.{AreProper};
ghost use Rattle.name_map.specs.Written.{name_section_bytes};
ghost use Rattle.instrument.specs.Made.{IsMade};
ghost use Rattle.instrument.specs.Output.{hook_remap, output_bytes};
ghost use Rattle.wasm_sem.specs.Execution.{IsFree};
ghost use Rattle.app_load.specs.Files.{IsFit};
ghost use Rattle.wasabi_app.specs.Hooking.{GetsNone};
ghost use Rattle.wasabi_app.specs.KeptNames.{output_names};
ghost use Rattle.wasabi_app.specs.Making.{IsNamedMade, named_length, output_length};
ghost use Rattle.wasabi_app.specs.Modes.Trial.{all_hooks};
ghost use Rattle.wasabi_app.specs.Texts.{taken_text, too_large_text};

use crate::output_bound::OutputBound;
use app_load::{Refusal, Status, refused};
use hook_select::{Hooks, Selection};
use index_remap::Remap;
use instrument::{InstrumentFault, Made, hook_remap, instrument_selected, needed_hooks};
use module_ast::module::{LONGEST_FILE, Limits};
use name_map::{Names, map_names, no_names, put_section};
use par_phase::Jobs;
use rewrite::PlainRewriter;
use std::alloc::{AllocError, Global};
use std::thread::Threads;
use wasm_decode::decode;
use wasm_num::NoMemory;
use wasm_valid::{ValidModule, validate};

/// A module that gets hooks, the name under which it was read, and the names that go into its output.
#[derive(Clone, Copy)]
pub(crate) struct Subject<'m> {
    /// The name under which the module was read, which a refusal tells.
    pub(crate) name: &'m str,
    /// The module that gets hooks.
    pub(crate) module: &'m ValidModule,
    /// The names of the module that the output keeps.
    pub(crate) names: &'m Names,
}

/// The output of a module with the selected hooks, and after that the section of its names. Both together have at most `bound`
/// bytes.
///
/// An `Err` has status 9 if an import names the module of the hooks, or if the output with its names would have more
/// bytes. The other `Err` is want of memory.
pub(crate) fn hooked<R: Threads + Sync>(
    rt: &R,
    alloc: Global,
    subject: &Subject<'_>,
    hooks: &Selection<'_>,
    jobs: Jobs,
    bound: OutputBound,
) -> Result<Made, Refusal>
    requires limits { IsWithin narrow subject.now.module.now }
    requires short { length (module_bytes subject.now.module.now) ≤ longest_narrow_file }
    requires proper { AreProper (length (funcs_of subject.now.module.now)) subject.now.names.now }
    ensures made { IfOk result (λ made. IsNamedMade subject.now.module.now hooks.now subject.now.names.now made.bytes.items made.info) }
    ensures free { OnOk result (IsFree subject.now.module.now) }
    ensures within { OnOk result (named_length subject.now.module.now hooks.now subject.now.names.now ≤ bound) }
    ensures refused { IfErr result (GetsNone subject.now.name.now subject.now.module.now (named_length subject.now.module.now hooks.now subject.now.names.now) bound) }
{
    match instrument_selected(
        rt,
        alloc,
        subject.module,
        hooks,
        jobs.count(),
        bound.bytes(),
        &PlainRewriter,
    ) {
        Ok(made) => with_names(alloc, subject, hooks, bound, made),
        Err(InstrumentFault::HookModuleTaken) => Err(refused(
            Status::NoOutput,
            taken_line(alloc, subject.name),
        )),
        Err(InstrumentFault::TooLarge { length }) => {
            Err(too_large(rt, alloc, subject, hooks, jobs, bound, length))
        }
        Err(InstrumentFault::NoMemory) => Err(Refusal::NoMemory),
    }
}

/// The output of a module with all hooks and without names. The output has at most 268,435,456 bytes, so that the
/// program can read it.
///
/// An `Err` comes as that of `hooked` does, with this bound.
pub(crate) fn hooked_for_all<R: Threads + Sync>(
    rt: &R,
    alloc: Global,
    name: &str,
    m: &ValidModule,
    jobs: Jobs,
) -> Result<Made, Refusal>
    requires limits { IsWithin narrow m.now }
    requires short { length (module_bytes m.now) ≤ longest_narrow_file }
    ensures made { IfOk result (λ made. IsMade m.now all_hooks made.bytes.items made.info) }
    ensures free { OnOk result (IsFree m.now) }
    ensures few { OnOk result (output_length m.now all_hooks ≤ longest_file) }
    ensures refused { IfErr result (GetsNone name.now m.now (output_length m.now all_hooks) longest_file) }
{
    let names = no_names(alloc);
    let subject = Subject {
        name,
        module: m,
        names: &names,
    };
    let bound = OutputBound::new(LONGEST_FILE);
    hooked(
        rt,
        alloc,
        &subject,
        &Selection::everywhere(Hooks::all()),
        jobs,
        bound,
    )
}

/// Reads an output from its bytes. An output is valid, so that an `Err` is want of memory.
pub(crate) fn read_output<R: Threads + Sync>(
    rt: &R,
    alloc: Global,
    bytes: &[u8],
    jobs: Jobs,
) -> Result<ValidModule, NoMemory>
    requires short { length bytes.now ≤ longest_file }
    ensures { IfOk result (λ v. IsFit wide bytes.now v) }
{
    let Ok(module) = decode(alloc, bytes, &Limits::wide()) else {
        return Err(AllocError);
    };
    match validate(rt, alloc, module, jobs.count()) {
        Ok(valid) => Ok(valid),
        Err(_) => Err(AllocError),
    }
}

// An output and after that its names. Both together have at most `bound` bytes; more bytes are refused with status 9.
fn with_names(
    alloc: Global,
    subject: &Subject<'_>,
    hooks: &Selection<'_>,
    bound: OutputBound,
    made: Made,
) -> Result<Made, Refusal>
    requires limits { IsWithin narrow subject.now.module.now }
    requires proper { AreProper (length (funcs_of subject.now.module.now)) subject.now.names.now }
    requires made { IsMade subject.now.module.now hooks.now made.bytes.items made.info }
    requires free { IsFree subject.now.module.now }
    ensures made { IfOk result (λ made. IsNamedMade subject.now.module.now hooks.now subject.now.names.now made.bytes.items made.info) }
    ensures free { OnOk result (IsFree subject.now.module.now) }
    ensures within { OnOk result (named_length subject.now.module.now hooks.now subject.now.names.now ≤ bound) }
    ensures refused { IfErr result (GetsNone subject.now.name.now subject.now.module.now (named_length subject.now.module.now hooks.now subject.now.names.now) bound) }
{
    let Made { mut bytes, info } = made;
    let Ok(()) = put_names(alloc, &mut bytes, subject, hooks, info.remap()) else {
        return Err(Refusal::NoMemory);
    };
    let length = bytes.len() as u64;
    if length > bound.bytes() {
        return Err(refused(Status::NoOutput, too_large_line(alloc, length)));
    }
    Ok(Made { bytes, info })
}

// Appends the section of the names in an output, whose function indices change so. After an `Err`, no clause says what
// was appended.
fn put_names(
    alloc: Global,
    out: &mut Vec<u8>,
    subject: &Subject<'_>,
    hooks: &Selection<'_>,
    remap: Remap,
) -> Result<(), AllocError>
    requires limits { IsWithin narrow subject.now.module.now }
    requires proper { AreProper (length (funcs_of subject.now.module.now)) subject.now.names.now }
    requires remap { remap ≡ hook_remap subject.now.module.now (needed_keys subject.now.module.now hooks.now) }
    ensures { OnOk result (out.new.items ≡ out.old.items ++ name_section_bytes (output_names subject.now.module.now hooks.now subject.now.names.now)) }
{
    let names = map_names(alloc, subject.names, remap)?;
    put_section(alloc, out, &names)
}

// The refusal of an output that is too long even without its names: without them, the output has `bare` bytes. The line
// tells the length with the names.
fn too_large<R: Threads + Sync>(
    rt: &R,
    alloc: Global,
    subject: &Subject<'_>,
    hooks: &Selection<'_>,
    jobs: Jobs,
    bound: OutputBound,
    bare: u64,
) -> Refusal
    requires limits { IsWithin narrow subject.now.module.now }
    requires proper { AreProper (length (funcs_of subject.now.module.now)) subject.now.names.now }
    requires free { IsFree subject.now.module.now }
    requires is { bare ≡ length (output_bytes subject.now.module.now hooks.now) }
    requires over { bound < bare }
    ensures { GetsNone subject.now.name.now subject.now.module.now (named_length subject.now.module.now hooks.now subject.now.names.now) bound result }
{
    match whole_length(rt, alloc, subject, hooks, jobs, bare) {
        Ok(whole) => refused(Status::NoOutput, too_large_line(alloc, whole)),
        Err(_) => Refusal::NoMemory,
    }
}

// The length of an output in bytes with its names: without them, the output has `bare` bytes. A number of 64 bits is
// enough for all that fits in memory.
fn whole_length<R: Threads + Sync>(
    rt: &R,
    alloc: Global,
    subject: &Subject<'_>,
    hooks: &Selection<'_>,
    jobs: Jobs,
    bare: u64,
) -> Result<u64, NoMemory>
    requires limits { IsWithin narrow subject.now.module.now }
    requires proper { AreProper (length (funcs_of subject.now.module.now)) subject.now.names.now }
    requires is { bare ≡ length (output_bytes subject.now.module.now hooks.now) }
    ensures { IfOk result (λ whole. whole ≡ named_length subject.now.module.now hooks.now subject.now.names.now) }
{
    let table = needed_hooks(rt, alloc, subject.module, hooks, jobs.count())?;
    let remap = hook_remap(subject.module, &table);
    let mut section = Vec::new(alloc);
    put_names(alloc, &mut section, subject, hooks, remap)?;
    bare.checked_add(section.len() as u64).ok_or(AllocError)
}

fn taken_line(alloc: Global, name: &str) -> Result<String, AllocError>
    ensures { IfOk result (λ line. string_bytes line ≡ taken_text name.now) }
{
    format!(in alloc; "error 9: {name} is already instrumented\n")
}

fn too_large_line(alloc: Global, length: u64) -> Result<String, AllocError>
    ensures { IfOk result (λ line. string_bytes line ≡ too_large_text length) }
{
    format!(in alloc; "error 9: the output would be {length} bytes\n")
}
