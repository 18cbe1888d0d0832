// The machine: a run with its progress and its notes.

ghost use Rattle.std.specs.Prelude.{◌≡◌, ◌+◌, ◌-◌, ◌<◌, ◌^◌, [], Some, None, true, false, IfOk, OnErr, MatchOption};
ghost use Rattle.wasm_sem.specs.Execution.{hosts_in, turn_by, IsScriptInRange, Links, is_over};
ghost use Rattle.wasm_sem.specs.Laws.{slots_in};
ghost use Rattle.wasm_run.specs.Beside.{pages_in};
ghost use Rattle.wasm_run.specs.Moves.{MayWant};
ghost use Rattle.wasm_run.specs.Noting.{IsNoteOf, next_outside, noted_items};
ghost use Rattle.wasm_run.specs.Progress.{IsEntry, TakesStep};
ghost use Rattle.wasm_run.specs.Reaching.{IsHostCall};
ghost use Rattle.wasm_run.specs.Running.{Run, configuration_of, IsInside, IsLinked};
ghost use Rattle.wasm_run.specs.Turns.{MakesTurn, RunsFor, started_in, answers_in, next_turn};

use crate::exports::called_functions;
use crate::functions::HostCall;
use crate::note::{Note, Noted, Notes};
use crate::progress::{Progress, Stage, call_from};
use crate::running::Running;
use run_store::table::Table;
use std::alloc::Global;
use std::marker::Model;
use wasm_num::NoMemory;
use wasm_sem::{Answer, HookCall, Script, Stop, Turn};
use wasm_valid::ValidModule;

/// A run of a valid module under a script with which it links, after some number of steps. (Standard, 4.2, 4.5)
///
/// Contracts see the module, the script and the number: they determine the standard's configuration. `Noted` keeps
/// notes of the run's entries and host calls, `Quiet` keeps none.
#[derive(Drop)]
pub struct Machine<'m, N: Notes = Noted> {
    running: Running<'m>,
    progress: Progress,
    functions: Vec<u32>,
    notes: N,
}

impl<'m, N: Notes> Model for Machine<'m, N> {
    ghost use Rattle.wasm_run.specs.Progress.{KeepsAnswers};
    ghost use Rattle.wasm_run.specs.Running.{Run};

    ghost Value = { Run };

    ghost use Rattle.module_ast.specs.contracts.module.Module as of_module;
    ghost use Rattle.std.specs.Coded.{codes};

    ghost coded = { Prim.hlevel (codes, of_module.the_row.coded) };

    ghost view = { λ a. a.running };

    ghost invariant = { λ a. KeepsAnswers a.running a.progress a.functions.items × N.are_of a.notes a.running };
}

// A function that is entered next: its index, and the numbers of its arguments.
#[derive(Clone, Copy)]
struct NextCall<'m> {
    func: u32,
    numbers: &'m [i128],
}

// What a step did that was made: it called this hook, or none.
fn turn_with(hook: Option<HookCall>) -> Turn
    ensures { result ≡ turn_by false hook }
{
    match hook {
        Some(call) => Turn::Hook(call),
        None => Turn::Ran,
    }
}

impl<'m, N: Notes> Machine<'m, N> {
    /// The run before its first step: its memory and its table, with the data and the functions of its segments, and
    /// its globals. The names of exports are sorted once. `NoMemory` if memory runs out. (Standard, 4.5.4)
    pub fn new(
        alloc: Global,
        valid: &'m ValidModule,
        script: &'m Script,
    ) -> Result<Machine<'m, N>, NoMemory>
        requires range { IsScriptInRange script.now }
        requires links { Links valid.now script.now }
        ensures { IfOk result (λ r. r ≡ record { «module» = valid.now; script = script.now; made = 0 }) }
    {
        let running = Running::new(alloc, valid, script)?;
        let module = valid.module();
        let functions = called_functions(alloc, module, script)?;
        let stage = match module.start {
            Some(func) => Stage::Start(func),
            None => call_from(0, functions.len()),
        };
        Ok(Machine {
            running,
            progress: Progress {
                stage,
                started: None,
                answers: Vec::new(alloc),
            },
            functions,
            notes: N::none(),
        })
    }

    /// Makes one step, and says what it did: a hook call, with its words, or anything else. After the end of the run
    /// nothing changes. (Standard, 4.4)
    ///
    /// `NoMemory`, after which the machine is as before, comes only at four steps: an entry of the start or of a call
    /// of the script, a call, a `memory.grow`, and one that leaves the last frame with more than four values.
    pub fn step(&mut self) -> Result<Turn, NoMemory>
        requires few { self.old.made < 2 ^ 64 - 1 }
        ensures turns { MakesTurn result self.old self.new }
        ensures err { OnErr result (MayWant (configuration_of self.old)) }
    {
        let turn = self.turn()?;
        self.go_on()?;
        Ok(turn)
    }

    /// Makes steps until the run is over or `steps` were made. `OutOfSteps` says that the run goes on then. `NoMemory`
    /// comes at the steps at which it comes from `step`, and leaves the machine before that step.
    pub fn run(&mut self, steps: u64) -> Result<Stop, NoMemory>
        requires few { self.old.made + steps < 2 ^ 64 }
        ensures ran { RunsFor steps result self.old self.new }
        ensures err { OnErr result (MayWant (configuration_of self.new)) }
    {
        for _ in 0..steps {
            if !self.go_on()? {
                return Ok(Stop::Over);
            }
        }
        Ok(if self.over() {
            Stop::Over
        } else {
            Stop::OutOfSteps
        })
    }

    // What the next step does. `NoMemory` comes only at a call or an entry.
    fn turn(&self) -> Result<Turn, NoMemory>
        ensures turn { IfOk result (λ t. t ≡ next_turn self.now) }
        ensures err { OnErr result (MayWant (configuration_of self.now)) }
    {
        if self.running.is_inside() {
            return Ok(turn_with(self.running.hook_called()?));
        }
        let Some(entry) = self.entry() else {
            return Ok(Turn::Over);
        };
        Ok(turn_with(self.running.hook_entered(entry.func, entry.numbers)?))
    }

    // The function that is entered next, if no function runs; `None` if the run is over.
    fn entry(&self) -> Option<NextCall<'m>>
        requires { IsInside (configuration_of self.now) → ⊥ }
        ensures { MatchOption result (is_over (configuration_of self.now) ≡ true) (λ e. IsEntry self.now e.func e.numbers.now) }
    {
        match self.progress.stage {
            Stage::Start(func) => Some(NextCall { func, numbers: &[] }),
            Stage::Call(number) => {
                let Some(call) = self.running.script().calls.as_slice().get(number) else {
                    unreachable!();
                };
                Some(NextCall {
                    func: self.functions[number],
                    numbers: call.args.as_slice(),
                })
            }
            Stage::Over => None,
        }
    }

    // Makes one step, and says whether the run went on. Asks what is entered next only if no function runs.
    #[inline(always)]
    fn go_on(&mut self) -> Result<bool, NoMemory>
        requires few { self.old.made < 2 ^ 64 - 1 }
        ensures { TakesStep result self.old self.new }
    {
        if self.running.is_inside() {
            if let Some(call) = self.noted_call() {
                return self.call_noted(call);
            }
            self.running
                .step_inside(&mut self.progress, self.functions.len())?;
            return Ok(true);
        }
        self.enter_next()
    }

    // The call of a host function that comes next, if notes are kept.
    #[inline(always)]
    fn noted_call(&self) -> Option<HostCall<'m>>
        requires { IsInside (configuration_of self.now) }
        ensures { MatchOption result (N.KEEPS ≡ true → next_outside self.now ≡ []) (λ call. IsHostCall call self.now) }
    {
        if N::KEEPS {
            self.running.host_called()
        } else {
            None
        }
    }

    // Makes the call of a host function, and notes it.
    #[cold]
    #[inline(never)]
    fn call_noted(&mut self, call: HostCall<'m>) -> Result<bool, NoMemory>
        requires inside { IsInside (configuration_of self.old) }
        requires few { self.old.made < 2 ^ 64 - 1 }
        requires calls { IsHostCall call self.old }
        ensures { TakesStep result self.old self.new }
    {
        let host = self.running.host_note(call)?;
        self.running.call_host(call.rest, call.slot, call.ty);
        let note = Note {
            entered: None,
            host: Some(host),
        };
        self.notes.put(self.running.made(), Some(note));
        Ok(true)
    }

    // The note of what is entered next, if notes are kept.
    fn entry_note(&self, entry: NextCall<'m>) -> Result<Option<Note>, NoMemory>
        requires { IsEntry self.now entry.func entry.numbers.now }
        ensures note { IfOk result (λ note. MatchOption note (N.KEEPS ≡ false) (λ n. noted_items n ≡ next_outside self.now)) }
        ensures err { OnErr result (MayWant (configuration_of self.now)) }
    {
        if !N::KEEPS {
            return Ok(None);
        }
        Ok(Some(self.running.entry_note(entry.func, entry.numbers)?))
    }

    // Enters the start function or the next call of the script. No function runs. False if the run is over.
    #[cold]
    #[inline(never)]
    fn enter_next(&mut self) -> Result<bool, NoMemory>
        requires outside { IsInside (configuration_of self.old) → ⊥ }
        requires few { self.old.made < 2 ^ 64 - 1 }
        ensures { TakesStep result self.old self.new }
    {
        let Some(entry) = self.entry() else {
            return Ok(false);
        };
        let note = self.entry_note(entry)?;
        self.progress.answers.reserve(1)?;
        let ended = self.running.enter(entry.func, entry.numbers)?;
        self.notes.put(self.running.made(), note);
        if let Some(answer) = ended {
            self.progress.end(answer, self.functions.len());
        }
        Ok(true)
    }

    /// The table, which has no slots if the module has no table.
    pub fn table(&self) -> &Table
        ensures slots { result.now ≡ slots_in (configuration_of self.now) }
        ensures linked { IsLinked self.now.module self.now.script }
    {
        self.running.table()
    }

    /// The note of the last step; `None` if notes are not kept.
    pub fn noted(&self) -> Option<&Note>
        ensures { MatchOption result (N.KEEPS ≡ false) (λ n. IsNoteOf n.now self.now) }
    {
        self.notes.last(self.running.made())
    }

    /// How many steps were made.
    pub fn made(&self) -> u64
        ensures { result ≡ self.now.made }
    {
        self.running.made()
    }

    /// Whether the run has ended.
    pub fn over(&self) -> bool
        ensures { result ≡ is_over (configuration_of self.now) }
    {
        matches!(self.progress.stage, Stage::Over)
    }

    /// The answer of the start function; `None` if there is no start function, or if it has not ended.
    pub fn start(&self) -> Option<&Answer>
        ensures { MatchOption result (started_in (configuration_of self.now) ≡ None) (λ a. started_in (configuration_of self.now) ≡ Some a.now) }
    {
        self.progress.started.as_ref()
    }

    /// The answers of the script's calls that have ended, in order.
    pub fn answers(&self) -> &[Answer]
        ensures { result.now ≡ answers_in (configuration_of self.now) }
    {
        self.progress.answers.as_slice()
    }

    /// The answers of the start function and of the calls, as from `start` and `answers`.
    pub fn into_answers(self) -> (Option<Answer>, Vec<Answer>)
        ensures start { result.0 ≡ started_in (configuration_of self.entry) }
        ensures calls { result.1.items ≡ answers_in (configuration_of self.entry) }
    {
        (self.progress.started, self.progress.answers)
    }

    /// How many pages the memory has; 0 if there is no memory.
    pub fn pages(&self) -> u32
        ensures { result ≡ pages_in (configuration_of self.now) }
    {
        self.running.pages()
    }

    /// How many host calls were made. Hook calls are not counted.
    pub fn hosts(&self) -> u64
        ensures { result ≡ hosts_in (configuration_of self.now) }
    {
        self.running.hosts()
    }
}

impl Machine<'_> {
    /// What the last step entered, and its host call: the entry and the host call that the step added to the trace.
    /// After `run`, those of the last of its steps; before the first step there is neither.
    pub fn note(&self) -> &Note
        ensures { IsNoteOf result.now self.now }
    {
        self.notes.of_step(self.running.made())
    }
}
