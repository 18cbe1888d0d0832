// The mode `taint`.

ghost use Rattle.std.specs.Prelude.{◌≡◌, ◌++◌, ◌<◌, ◌≤◌, ◌^◌, IfErr, IfOk, List, OnOk, Some, length, map, option_map, string_bytes};
ghost use Rattle.outside_io.specs.Outside.{ShelfState};
ghost use Rattle.module_ast.specs.Validation.Limits.{longest_file};
ghost use Rattle.wasm_sem.specs.Execution.{IsFree, IsScriptInRange, Links, link};
ghost use Rattle.run_session.specs.Linking.{TellsRefusal};
ghost use Rattle.run_session.specs.Sessions.{told_outcome};
ghost use Rattle.instrument.specs.Made.{IsMade};
ghost use Rattle.analyses.specs.Tools.{ToolState};
ghost use Rattle.app_load.specs.Outcomes.{Yields};
ghost use Rattle.app_runs.specs.RunTexts.{run_status, run_text};
ghost use Rattle.app_runs.specs.WarningTexts.{warnings_text};
ghost use Rattle.app_runs.specs.Watching.{import_names};
ghost use Rattle.wasabi_app.specs.Making.{output_length};
ghost use Rattle.wasabi_app.specs.Modes.Taint.{followed_plan, ran_plan, taint_mode, taint_plan, unknown_in, warned_plan};
ghost use Rattle.wasabi_app.specs.Modes.Trial.{all_hooks};
ghost use Rattle.wasabi_app.specs.Texts.{no_import_text};
ghost use Rattle.wasabi_app.specs.Warning.{AreKnown, ArePaired, IsFollowable, IsUnknown, IsWarned, IsWatched, IsWatchedOf, watch_in};
ghost use Rattle.wasabi_app.specs.Words.{given_of};

use crate::making::{hooked_for_all, read_output};
use crate::words::Given;
use app_load::{Printed, Refusal, Status, bad_words, load, load_script, refused};
use app_runs::{
    first_unknown, follow_out, import_names, numbers_named, push_warnings, run_text, status_of,
    unlinked,
};
use instrument::Made;
use module_ast::module::{LONGEST_NARROW_FILE, Limits};
use outside_io::Shelf;
use par_phase::Jobs;
use run_session::{LinkFault, Outcome, Session};
use shadow_replay::{Shadow, Warning};
use static_info::Info;
use std::alloc::{AllocError, Global};
use std::thread::Threads;
use wasm_num::NoMemory;
use wasm_sem::Script;
use wasm_valid::ValidModule;

// The function imports of a module that are watched: the names of all imports, and the numbers of the sources and of
// the sinks.
#[derive(Drop)]
struct Watched {
    names: Vec<String>,
    sources: Vec<u32>,
    sinks: Vec<u32>,
}

/// Reads the subject, finds the sources and the sinks among its imports, gives the subject all hooks, reads the script,
/// and runs the output by the script. During the run a shadow of the subject takes what the run tells. The answer is
/// what the start and the calls came to, and after that the warnings. No name of the shelf is changed.
///
/// An `Err` comes if the words give no script, if the subject or the script is refused, if a name in a list is not the
/// name of a function import, if the output cannot be made, if the output and the script do not link, or if memory runs
/// out.
pub(crate) fn taint<R: Threads + Sync, S: Shelf>(
    rt: &R,
    alloc: Global,
    given: &Given<'_>,
    shelf: &mut S,
) -> Result<Printed, Refusal>
    ensures { (tools : List ToolState) → Yields (taint_mode.plan (given_of given.now)) (S.seen shelf.old) (S.seen shelf.new) tools tools result }
{
    match given.script {
        Some(script) => taint_by(rt, alloc, given, script, shelf),
        None => Err(bad_words(alloc)),
    }
}

fn taint_by<R: Threads + Sync, S: Shelf>(
    rt: &R,
    alloc: Global,
    given: &Given<'_>,
    script: &str,
    shelf: &mut S,
) -> Result<Printed, Refusal>
    ensures { (tools : List ToolState) → Yields (Some (taint_plan (given_of given.now) script.now)) (S.seen shelf.old) (S.seen shelf.new) tools tools result }
{
    match load(
        rt,
        alloc,
        given.subject,
        LONGEST_NARROW_FILE,
        &Limits::narrow(),
        given.jobs,
        shelf,
    ) {
        Ok(valid) => taint_module(rt, alloc, given, script, &valid, shelf),
        Err(refusal) => Err(refusal),
    }
}

// Finds the watched imports of a module, gives the module all hooks, reads the script, and runs the output.
fn taint_module<R: Threads + Sync, S: Shelf>(
    rt: &R,
    alloc: Global,
    given: &Given<'_>,
    script: &str,
    m: &ValidModule,
    shelf: &mut S,
) -> Result<Printed, Refusal>
    requires followable { IsFollowable m.now }
    ensures { (tools : List ToolState) → Yields (Some (followed_plan (given_of given.now) script.now m.now)) (S.seen shelf.old) (S.seen shelf.new) tools tools result }
{
    let watched = find_watched(alloc, given, m)?;
    let hooked = hooked_for_all(rt, alloc, given.subject, m, given.jobs)?;
    run_script(rt, alloc, given.jobs, script, m, &watched, &hooked, shelf)
}

// The watched imports of a module. If a name is not the name of a function import, the refusal tells the first such
// name: the names of the sources come before the names of the sinks.
fn find_watched(alloc: Global, given: &Given<'_>, m: &ValidModule) -> Result<Watched, Refusal>
    requires { IsFollowable m.now }
    ensures watched { IfOk result (IsWatched (given_of given.now) m.now) }
    ensures known { OnOk result (AreKnown (given_of given.now) m.now) }
    ensures refused { IfErr result (IsUnknown (given_of given.now) m.now) }
{
    let Ok(names) = import_names(alloc, m.module().imports.as_slice()) else {
        return Err(Refusal::NoMemory);
    };
    if let Some(name) = unknown(names.as_slice(), given) {
        return Err(refused(Status::NoImport, no_import_line(alloc, name)));
    }
    match numbers(alloc, names, given) {
        Ok(watched) => Ok(watched),
        Err(_) => Err(Refusal::NoMemory),
    }
}

// The first source that is not among these names. If all sources are, the first such sink.
fn unknown<'w>(names: &[String], given: &Given<'w>) -> Option<&'w str>
    ensures { option_map (λ t. t.now) result ≡ unknown_in (given_of given.now) (map string_bytes names.now) }
{
    match first_unknown(names, given.sources) {
        Some(name) => Some(name),
        None => first_unknown(names, given.sinks),
    }
}

fn no_import_line(alloc: Global, name: &str) -> Result<String, AllocError>
    ensures { IfOk result (λ line. string_bytes line ≡ no_import_text name.now) }
{
    format!(in alloc; "error 20: no imported function {name}\n")
}

// These names, with the numbers of the sources and of the sinks among them.
fn numbers(alloc: Global, names: Vec<String>, given: &Given<'_>) -> Result<Watched, NoMemory>
    requires { length names.items < 2 ^ 32 }
    ensures { IfOk result (IsWatchedOf (given_of given.now) (map string_bytes names.items)) }
{
    let sources = numbers_named(alloc, names.as_slice(), given.sources)?;
    let sinks = numbers_named(alloc, names.as_slice(), given.sinks)?;
    Ok(Watched {
        names,
        sources,
        sinks,
    })
}

// Reads the script, and runs the output of a module by it.
fn run_script<R: Threads + Sync, S: Shelf>(
    rt: &R,
    alloc: Global,
    jobs: Jobs,
    script: &str,
    m: &ValidModule,
    watched: &Watched,
    hooked: &Made,
    shelf: &mut S,
) -> Result<Printed, Refusal>
    requires followable { IsFollowable m.now }
    requires free { IsFree m.now }
    requires made { IsMade m.now all_hooks hooked.now.bytes.items hooked.now.info }
    requires few { output_length m.now all_hooks ≤ longest_file }
    requires named { map string_bytes watched.now.names.items ≡ import_names m.now.imports }
    ensures { (tools : List ToolState) → Yields (Some (warned_plan script.now (watch_in watched.now) m.now)) (S.seen shelf.old) (S.seen shelf.new) tools tools result }
{
    let script = load_script(alloc, script, shelf)?;
    run_made(rt, alloc, jobs, m, watched, hooked, script)
}

// Reads the output of a module from its bytes, and runs it by a script.
fn run_made<R: Threads + Sync>(
    rt: &R,
    alloc: Global,
    jobs: Jobs,
    m: &ValidModule,
    watched: &Watched,
    hooked: &Made,
    script: Script,
) -> Result<Printed, Refusal>
    requires range { IsScriptInRange script }
    requires followable { IsFollowable m.now }
    requires free { IsFree m.now }
    requires made { IsMade m.now all_hooks hooked.now.bytes.items hooked.now.info }
    requires few { output_length m.now all_hooks ≤ longest_file }
    requires named { map string_bytes watched.now.names.items ≡ import_names m.now.imports }
    ensures ended { (at : ShelfState) (tools : List ToolState)
        → Yields (Some (ran_plan (watch_in watched.now) m.now script)) at at tools tools result }
{
    let Ok(output) = read_output(rt, alloc, hooked.bytes.as_slice(), jobs) else {
        return Err(Refusal::NoMemory);
    };
    run_output(alloc, m, watched, &hooked.info, &output, script)
}

// Links the output of a module with a script and runs it. The answer is what the run came to, and after that the
// warnings.
fn run_output(
    alloc: Global,
    m: &ValidModule,
    watched: &Watched,
    info: &Info,
    output: &ValidModule,
    script: Script,
) -> Result<Printed, Refusal>
    requires range { IsScriptInRange script }
    requires paired { ArePaired m.now output.now info.now }
    requires named { map string_bytes watched.now.names.items ≡ import_names m.now.imports }
    ensures ended { (at : ShelfState) (tools : List ToolState)
        → Yields (Some (ran_plan (watch_in watched.now) m.now script)) at at tools tools result }
{
    match linked(alloc, m, watched, info, output, &script) {
        Ok(told) => Ok(told),
        Err(fault) => Err(unlinked(alloc, script, fault)),
    }
}

// Links and runs as `run_output` does; the fault of linking is not yet a line.
fn linked(
    alloc: Global,
    m: &ValidModule,
    watched: &Watched,
    info: &Info,
    output: &ValidModule,
    script: &Script,
) -> Result<Printed, LinkFault>
    requires range { IsScriptInRange script.now }
    requires paired { ArePaired m.now output.now info.now }
    requires named { map string_bytes watched.now.names.items ≡ import_names m.now.imports }
    ensures links { IfOk result (λ t. Links output.now script.now) }
    ensures told { IfOk result (IsWarned (watch_in watched.now) m.now script.now) }
    ensures refused { IfErr result (λ fault. TellsRefusal fault (link output.now script.now)) }
{
    let session = Session::link(alloc, output, script)?;
    match followed(alloc, session, m, watched, info, script) {
        Ok(told) => Ok(told),
        Err(_) => Err(LinkFault::NoMemory),
    }
}

// Runs a session of the output of a module. During the run a shadow of the module takes what the run tells.
fn followed(
    alloc: Global,
    session: Session<'_>,
    m: &ValidModule,
    watched: &Watched,
    info: &Info,
    script: &Script,
) -> Result<Printed, NoMemory>
    requires begun { session.made ≡ 0 }
    requires script { session.script ≡ script.now }
    requires range { IsScriptInRange script.now }
    requires links { Links session.module script.now }
    requires paired { ArePaired m.now session.module info.now }
    requires named { map string_bytes watched.now.names.items ≡ import_names m.now.imports }
    ensures told { IfOk result (IsWarned (watch_in watched.now) m.now script.now) }
{
    let mut shadow = Shadow::new(
        alloc,
        m,
        script,
        watched.sources.as_slice(),
        watched.sinks.as_slice(),
    )?;
    let outcome = follow_out(alloc, session, info, &mut shadow)?;
    told(
        alloc,
        script,
        &outcome,
        watched.names.as_slice(),
        shadow.warnings(),
    )
}

// The text of a run, and after that the warnings.
fn told(
    alloc: Global,
    script: &Script,
    outcome: &Outcome,
    names: &[String],
    warnings: &[Warning],
) -> Result<Printed, NoMemory>
    ensures status { IfOk result (λ t. t.status ≡ run_status (told_outcome outcome.now)) }
    ensures text { IfOk result (λ t. t.text.items ≡ run_text script.now.calls (told_outcome outcome.now)
        ++ warnings_text (map string_bytes names.now) warnings.now) }
{
    let mut text = run_text(alloc, script.calls.as_slice(), outcome)?;
    push_warnings(&mut text, names, warnings)?;
    Ok(Printed {
        status: status_of(outcome),
        text: text.into_bytes(),
    })
}
