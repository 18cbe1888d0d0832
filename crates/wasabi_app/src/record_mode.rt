// The mode `record`.

ghost use Rattle.std.specs.Prelude.{◌≡◌, ◌≤◌, ℕ, Err, IfErr, IfOk, List, Some, length, string_bytes};
ghost use Rattle.outside_io.specs.Outside.{ShelfState};
ghost use Rattle.wasm_sem.specs.Execution.{IsScriptInRange, Links};
ghost use Rattle.static_info.specs.Belongs.{Belongs};
ghost use Rattle.static_info.specs.Form.{IsWellFormed};
ghost use Rattle.analyses.specs.Tools.{ToolState};
ghost use Rattle.app_load.specs.Outcomes.{Yields};
ghost use Rattle.app_load.specs.Texts.{long_trace_text};
ghost use Rattle.app_runs.specs.Recording.{recorded_bytes};
ghost use Rattle.app_runs.specs.RunTexts.{run_status, run_text};
ghost use Rattle.wasabi_app.specs.Modes.Record.{record_mode, record_plan, recorded_plan};
ghost use Rattle.wasabi_app.specs.Playing.{ending_of};
ghost use Rattle.wasabi_app.specs.ToldRuns.{informed};
ghost use Rattle.wasabi_app.specs.Words.{given_of};

use crate::output_bound::OutputBound;
use crate::run_mode::told;
use crate::told_run::{ToldRun, load_run};
use crate::words::Given;
use app_load::{Printed, Refusal, Status, bad_words, load, put, refused};
use app_runs::{RecordFault, record_run, unlinked};
use module_ast::module::{LONGEST_FILE, Limits};
use outside_io::Shelf;
use static_info::Info;
use std::alloc::{AllocError, Global};
use std::thread::Threads;
use wasm_sem::Script;
use wasm_valid::ValidModule;

/// Reads the subject, the information on its original and the script, runs the subject, and writes the trace of the
/// events of its hook calls under the target's name. The answer is what the start and the calls came to. Nothing is
/// written before the run is made and its text is there.
///
/// An `Err` comes if the words give no target, no information or no script, if one of the three files is refused, if
/// the subject and the script do not link, if the trace is longer than the bound (status 18), if the trace could not be
/// written (status 5), or if memory runs out.
pub(crate) fn record<R: Threads + Sync, S: Shelf>(
    rt: &R,
    alloc: Global,
    given: &Given<'_>,
    shelf: &mut S,
) -> Result<Printed, Refusal>
    ensures { (tools : List ToolState) → Yields (record_mode.plan (given_of given.now)) (S.seen shelf.old) (S.seen shelf.new) tools tools result }
{
    let Some(target) = given.target else {
        return Err(bad_words(alloc));
    };
    let Some(info) = given.info else {
        return Err(bad_words(alloc));
    };
    let Some(script) = given.script else {
        return Err(bad_words(alloc));
    };
    record_by(rt, alloc, given, target, info, script, shelf)
}

fn record_by<R: Threads + Sync, S: Shelf>(
    rt: &R,
    alloc: Global,
    given: &Given<'_>,
    target: &str,
    info: &str,
    script: &str,
    shelf: &mut S,
) -> Result<Printed, Refusal>
    ensures { (tools : List ToolState) → Yields (Some (record_plan given.now.subject.now target.now info.now script.now given.now.bound)) (S.seen shelf.old) (S.seen shelf.new) tools tools result }
{
    match load(
        rt,
        alloc,
        given.subject,
        LONGEST_FILE,
        &Limits::wide(),
        given.jobs,
        shelf,
    ) {
        Ok(module) => record_module(alloc, target, given.bound, info, script, &module, shelf),
        Err(refusal) => Err(refusal),
    }
}

// Reads the information and the script, runs a module by them, and writes the trace of its events.
fn record_module<S: Shelf>(
    alloc: Global,
    target: &str,
    bound: OutputBound,
    info: &str,
    script: &str,
    m: &ValidModule,
    shelf: &mut S,
) -> Result<Printed, Refusal>
    ensures { (tools : List ToolState) → Yields (Some (informed info.now script.now (recorded_plan target.now bound) m.now)) (S.seen shelf.old) (S.seen shelf.new) tools tools result }
{
    let ToldRun { info, script } = load_run(alloc, info, script, m, shelf)?;
    record_loaded(alloc, target, bound, m, &info, script, shelf)
}

fn record_loaded<S: Shelf>(
    alloc: Global,
    target: &str,
    bound: OutputBound,
    m: &ValidModule,
    info: &Info,
    script: Script,
    shelf: &mut S,
) -> Result<Printed, Refusal>
    requires range { IsScriptInRange script }
    requires formed { IsWellFormed info.now }
    requires belongs { Belongs info.now m.now }
    ensures { (tools : List ToolState) → Yields (Some (recorded_plan target.now bound m.now info.now script)) (S.seen shelf.old) (S.seen shelf.new) tools tools result }
{
    let Recording { told, trace } = make(alloc, bound, m, info, script)?;
    put(alloc, target, trace.as_slice(), shelf)?;
    Ok(told)
}

// The text of a run, and the bytes of the trace of its events.
#[derive(Drop)]
struct Recording {
    told: Printed,
    trace: Vec<u8>,
}

// Runs a module by a script, and makes the trace. A trace of more bytes than `bound` is refused with status 18.
fn make(
    alloc: Global,
    bound: OutputBound,
    m: &ValidModule,
    info: &Info,
    script: Script,
) -> Result<Recording, Refusal>
    requires range { IsScriptInRange script }
    requires formed { IsWellFormed info.now }
    requires belongs { Belongs info.now m.now }
    ensures links { IfOk result (λ r. Links m.now script) }
    ensures trace { IfOk result (λ r. r.trace.items ≡ recorded_bytes info.now m.now script) }
    ensures within { IfOk result (λ r. length r.trace.items ≤ bound) }
    ensures status { IfOk result (λ r. r.told.status ≡ run_status (ending_of m.now script)) }
    ensures text { IfOk result (λ r. r.told.text.items ≡ run_text script.calls (ending_of m.now script)) }
    ensures refused { IfErr result (λ r. (target : List ℕ) (at : ShelfState) (tools : List ToolState)
        → Yields (Some (recorded_plan target bound m.now info.now script)) at at tools tools (Err r)) }
{
    match record_run(alloc, m, info, &script, bound.bytes()) {
        Ok(recorded) => Ok(Recording {
            told: told(alloc, &script, &recorded.outcome)?,
            trace: recorded.file,
        }),
        Err(RecordFault::TooLong) => Err(refused(
            Status::LongTrace,
            long_trace_line(alloc, bound.bytes()),
        )),
        Err(RecordFault::Unlinked(fault)) => Err(unlinked(alloc, script, fault)),
    }
}

fn long_trace_line(alloc: Global, bound: u64) -> Result<String, AllocError>
    ensures { IfOk result (λ line. string_bytes line ≡ long_trace_text bound) }
{
    format!(in alloc; "error 18: the trace is longer than {bound} bytes\n")
}
