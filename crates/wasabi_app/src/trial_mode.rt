// The mode `trial`.

ghost use Rattle.std.specs.Prelude.{◌≡◌, ◌≤◌, IfOk, Some, length, map, string_bytes};
ghost use Rattle.outside_io.specs.Outside.{ShelfState};
ghost use Rattle.module_ast.specs.Binary.{module_bytes};
ghost use Rattle.module_ast.specs.Validation.{longest_file, longest_narrow_file};
ghost use Rattle.module_ast.specs.Structure.{funcs_of};
ghost use Rattle.static_info.specs.Belongs.{Belongs};
ghost use Rattle.static_info.specs.Form.{IsWellFormed};
ghost use Rattle.instrument.specs.Made.{IsMade};
ghost use Rattle.module_gen.specs.Made.{made};
ghost use Rattle.report.specs.Text.{events_text};
ghost use Rattle.run_session.specs.Sessions.{told_outcome};
ghost use Rattle.app_load.specs.Feeding.{fresh_tools};
ghost use Rattle.app_load.specs.Outcomes.{Yields};
ghost use Rattle.app_runs.specs.RunTexts.{run_status, run_text};
ghost use Rattle.wasabi_app.specs.Making.{output_length};
ghost use Rattle.wasabi_app.specs.Modes.Trial.{all_hooks, front_text, main_call, pair_plan, runs_text, sizes_text, told_of_run, trial_mode, trial_number, trial_plan, trial_script};
ghost use Rattle.wasabi_app.specs.Trying.{AreTried, IsRun, IsTriable};
ghost use Rattle.wasabi_app.specs.Words.{given_of};

use crate::making::{hooked_for_all, read_output};
use crate::words::Given;
use analyses::Analysis;
use app_load::{Kinds, Printed, Refusal, bad_words};
use app_runs::{Played, Tally, play, run_script, run_text, status_of};
use instrument::Made;
use module_ast::name::Name;
use module_ast::seq::Seq;
use module_gen::make;
use par_phase::Jobs;
use report::events_line;
use static_info::Info;
use std::alloc::{AllocError, Global};
use std::thread::Threads;
use wasm_encode::encoded_length;
use wasm_num::NoMemory;
use wasm_sem::{Call, Script};
use wasm_valid::{ValidModule, validate};

// The most steps of the original's run.
const FIRST_STEPS: u64 = 10_000_000;

// The most steps of the output's run.
const SECOND_STEPS: u64 = 1_000_000_000;

/// Makes the module of the number that is the subject, and the output of this module with all hooks. Runs both by one
/// script, and gives the events of the output's hook calls to all analyses, which are fresh. The answer is what both
/// runs came to. No file is read or written.
///
/// An `Err` comes if the subject is not a number of 64 bits in digits alone (status 2), if the output is too large
/// (status 9), or if memory runs out.
pub(crate) fn trial<R: Threads + Sync>(
    rt: &R,
    alloc: Global,
    given: &Given<'_>,
    tools: &mut Vec<Box<dyn Analysis>>,
) -> Result<Printed, Refusal>
    requires { map state tools.old.items ≡ fresh_tools }
    ensures { (at : ShelfState) → Yields (trial_mode.plan (given_of given.now)) at at (map state tools.old.items) (map state tools.new.items) result }
{
    match number_in(given.subject) {
        Some(number) => try_number(rt, alloc, given.jobs, number, tools),
        None => Err(bad_words(alloc)),
    }
}

// The number that a text writes in digits alone, or `None` if the text is not a number of 64 bits. `parse` alone would
// also take a leading `+`.
fn number_in(text: &str) -> Option<u64>
    ensures { result ≡ trial_number text.now }
{
    if text.starts_with('+') {
        return None;
    }
    text.parse::<u64>().ok()
}

fn try_number<R: Threads + Sync>(
    rt: &R,
    alloc: Global,
    jobs: Jobs,
    number: u64,
    tools: &mut Vec<Box<dyn Analysis>>,
) -> Result<Printed, Refusal>
    requires { map state tools.old.items ≡ fresh_tools }
    ensures { (at : ShelfState) → Yields (Some (trial_plan number)) at at (map state tools.old.items) (map state tools.new.items) result }
{
    match original(rt, alloc, jobs, number) {
        Ok(original) => {
            try_module(
                rt,
                alloc,
                jobs,
                number,
                FIRST_STEPS,
                SECOND_STEPS,
                &original,
                tools,
            )
        }
        Err(_) => Err(Refusal::NoMemory),
    }
}

// The module of a number. The module is valid, so that an `Err` is want of memory.
fn original<R: Threads + Sync>(
    rt: &R,
    alloc: Global,
    jobs: Jobs,
    number: u64,
) -> Result<ValidModule, NoMemory>
    ensures { IfOk result (λ v. v ≡ made number) }
{
    let module = make(alloc, number)?;
    match validate(rt, alloc, module, jobs.count()) {
        Ok(valid) => Ok(valid),
        Err(_) => Err(AllocError),
    }
}

// Runs a module for `first` steps, and its output with all hooks for `second` steps.
fn try_module<R: Threads + Sync>(
    rt: &R,
    alloc: Global,
    jobs: Jobs,
    number: u64,
    first: u64,
    second: u64,
    m: &ValidModule,
    tools: &mut Vec<Box<dyn Analysis>>,
) -> Result<Printed, Refusal>
    requires triable { IsTriable m.now }
    requires firsts { (1 ≤ first) × (first ≤ 1000000000000) }
    requires seconds { (1 ≤ second) × (second ≤ 1000000000000) }
    requires fresh { map state tools.old.items ≡ fresh_tools }
    ensures { (at : ShelfState) → Yields (Some (pair_plan number first second m.now)) at at
        (map state tools.old.items) (map state tools.new.items) result }
{
    let hooked = hooked_for_all(rt, alloc, "", m, jobs)?;
    match run_both(rt, alloc, jobs, number, first, second, m, &hooked, tools) {
        Ok(told) => Ok(told),
        Err(_) => Err(Refusal::NoMemory),
    }
}

fn run_both<R: Threads + Sync>(
    rt: &R,
    alloc: Global,
    jobs: Jobs,
    number: u64,
    first: u64,
    second: u64,
    m: &ValidModule,
    hooked: &Made,
    tools: &mut Vec<Box<dyn Analysis>>,
) -> Result<Printed, NoMemory>
    requires triable { IsTriable m.now }
    requires firsts { (1 ≤ first) × (first ≤ 1000000000000) }
    requires seconds { (1 ≤ second) × (second ≤ 1000000000000) }
    requires made { IsMade m.now all_hooks hooked.now.bytes.items hooked.now.info }
    requires few { output_length m.now all_hooks ≤ longest_file }
    requires fresh { map state tools.old.items ≡ fresh_tools }
    ensures { AreTried number first second m.now (map state tools.old.items) (map state tools.new.items) result }
{
    let front = front(alloc, number, first, m, hooked)?;
    let output = read_output(rt, alloc, hooked.bytes.as_slice(), jobs)?;
    run_output(
        alloc,
        number,
        second,
        front.as_str(),
        &output,
        &hooked.info,
        tools,
    )
}

// The sizes of the module and of its output, and the text of the module's run.
fn front(
    alloc: Global,
    number: u64,
    steps: u64,
    m: &ValidModule,
    hooked: &Made,
) -> Result<String, NoMemory>
    requires sizes { length (module_bytes m.now) ≤ longest_narrow_file }
    requires steps { (1 ≤ steps) × (steps ≤ 1000000000000) }
    ensures { IfOk result (λ text. string_bytes text ≡ front_text
        (sizes_text number (length (module_bytes m.now)) (length (funcs_of m.now)) (length hooked.now.bytes.items) (length hooked.now.info.hooks))
        (told_of_run number steps m.now)) }
{
    let sizes = sizes(alloc, number, m, hooked)?;
    let original = original_text(alloc, m, number, steps)?;
    format!(in alloc; "{sizes}original:\n{original}")
}

// Runs the output. Its text follows `front`. The output links with the script, so that an `Err` is want of memory.
fn run_output(
    alloc: Global,
    number: u64,
    steps: u64,
    front: &str,
    output: &ValidModule,
    info: &Info,
    tools: &mut Vec<Box<dyn Analysis>>,
) -> Result<Printed, NoMemory>
    requires steps { (1 ≤ steps) × (steps ≤ 1000000000000) }
    requires formed { IsWellFormed info.now }
    requires belongs { Belongs info.now output.now }
    requires fresh { map state tools.old.items ≡ fresh_tools }
    ensures { IsRun number steps front.now output.now info.now (map state tools.old.items) (map state tools.new.items) result }
{
    let script = script(alloc, number, steps)?;
    match play(alloc, output, info, &script, Kinds::all(), tools) {
        Ok(played) => told(alloc, front, &script, &played),
        Err(_) => Err(AllocError),
    }
}

// The script of both runs, with its number of steps.
fn script(alloc: Global, number: u64, steps: u64) -> Result<Script, NoMemory>
    ensures { IfOk result (λ s. s ≡ trial_script number steps) }
{
    Ok(Script {
        calls: Seq::from_vec(Vec::from_array(alloc, [main_call(alloc, number)?])?),
        hosts: Seq::from_vec(Vec::new(alloc)),
        globals: Seq::from_vec(Vec::new(alloc)),
        pages: 4,
        depth: 10_000,
        steps,
    })
}

// The one call of the script. Its argument is the number modulo 2^32.
fn main_call(alloc: Global, number: u64) -> Result<Call, NoMemory>
    ensures { IfOk result (λ c. c ≡ main_call number) }
{
    let argument = i128::from(number % 0x1_0000_0000);
    Ok(Call {
        export: Name::from_string(String::from_str(alloc, "main")?),
        args: Seq::from_vec(Vec::from_array(alloc, [argument])?),
    })
}

fn original_text(
    alloc: Global,
    m: &ValidModule,
    number: u64,
    steps: u64,
) -> Result<String, NoMemory>
    requires { (1 ≤ steps) × (steps ≤ 1000000000000) }
    ensures { IfOk result (λ text. string_bytes text ≡ told_of_run number steps m.now) }
{
    let script = script(alloc, number, steps)?;
    match run_script(alloc, m, &script) {
        Ok(outcome) => run_text(alloc, script.calls.as_slice(), &outcome),
        Err(_) => Err(AllocError),
    }
}

// The lines with the sizes of a module and of its output.
fn sizes(alloc: Global, number: u64, m: &ValidModule, hooked: &Made) -> Result<String, NoMemory>
    requires { length (module_bytes m.now) ≤ longest_narrow_file }
    ensures { IfOk result (λ text. string_bytes text ≡ sizes_text number (length (module_bytes m.now)) (length (funcs_of m.now))
        (length hooked.now.bytes.items) (length hooked.now.info.hooks)) }
{
    let bytes = encoded_length(m.module());
    let functions = m.func_count();
    let output = hooked.bytes.len();
    let hooks = hooked.info.hooks.as_slice().len();
    sizes_text(alloc, number, bytes, functions, output, hooks)
}

fn sizes_text(
    alloc: Global,
    number: u64,
    bytes: u64,
    functions: u32,
    output: usize,
    hooks: usize,
) -> Result<String, NoMemory>
    ensures { IfOk result (λ text. string_bytes text ≡ sizes_text number bytes functions output hooks) }
{
    format!(in alloc;
        "trial {number}\nmodule {bytes} bytes, {functions} functions\noutput {output} bytes, {hooks} hooks\n"
    )
}

// The text of both runs. The status is that of the second run.
fn told(alloc: Global, front: &str, script: &Script, played: &Played) -> Result<Printed, NoMemory>
    ensures status { IfOk result (λ t. t.status ≡ run_status (told_outcome played.now.outcome)) }
    ensures text { IfOk result (λ t. t.text.items ≡ runs_text front.now
        (run_text script.now.calls (told_outcome played.now.outcome)) (events_text played.now.tally.events played.now.tally.strays)) }
{
    let second = run_text(alloc, script.calls.as_slice(), &played.outcome)?;
    let Tally { events, strays } = played.tally;
    let events = events_line(alloc, events, strays)?;
    let text = format!(in alloc; "{front}output:\n{second}{events}")?;
    Ok(Printed {
        status: status_of(&played.outcome),
        text: text.into_bytes(),
    })
}
