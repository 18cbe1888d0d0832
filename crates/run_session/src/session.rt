// A run of a module under a script, within the script's steps.

ghost use Rattle.std.specs.Prelude.{◌≡◌, ◌-◌, ◌≤◌, false, IfOk, MatchOption, OnErr};
ghost use Rattle.wasm_sem.specs.Execution.{summary, IsScriptInRange};
ghost use Rattle.wasm_sem.specs.Laws.{slots_in};
ghost use Rattle.wasm_run.specs.Moves.{MayWant};
ghost use Rattle.wasm_run.specs.Noting.{IsNoteOf};
ghost use Rattle.wasm_run.specs.Running.{configuration_of, IsLinked};
ghost use Rattle.wasm_run.specs.Turns.{RunsFor};
ghost use Rattle.run_session.specs.Sessions.{OpensSession, TakesTurn, told_outcome, awaits_start, pending_in, pending_summary};

use crate::link::{LinkFault, check_links};
use module_ast::seq::Seq;
use run_store::table::Table;
use std::alloc::Global;
use std::marker::Model;
use wasm_num::NoMemory;
use wasm_run::{Machine, Note, Noted, Notes};
use wasm_sem::{Answer, Script, Stop, Turn};
use wasm_valid::ValidModule;

/// What came of a run.
#[derive(Drop)]
pub struct Outcome {
    /// The answer of the start function, if there is one. `Unfinished` if it has not ended.
    pub start: Option<Answer>,
    /// The answers of the calls that ended, in order, and then `Unfinished` for the call that runs or is entered next.
    pub calls: Seq<Answer>,
    /// How many pages the memory has; 0 if there is no memory.
    pub pages: u32,
    /// How many host calls were made. Hook calls are not counted.
    pub hosts: u64,
    /// Whether the run has not ended.
    pub running: bool,
}

// What of a run has no answer yet: what runs, or is entered next.
#[derive(Clone, Copy, PartialEq, Eq)]
enum Pending {
    Nothing,
    Start,
    Call,
}

/// A run of a valid module under a script with which it links, after some number of steps, at most those of the script.
/// (Standard, 4.2, 4.5)
///
/// Contracts see the module, the script and the number of steps. `Noted` keeps notes of the run's entries and host
/// calls, `Quiet` keeps none.
#[derive(Drop)]
pub struct Session<'m, N: Notes = Noted> {
    machine: Machine<'m, N>,
    steps: u64,
    has_start: bool,
}

impl<'m, N: Notes> Model for Session<'m, N> {
    ghost use Rattle.std.specs.Prelude.{◌≡◌, is_some};
    ghost use Rattle.run_session.specs.Steps.{IsWithinSteps};
    ghost use Rattle.wasm_run.specs.Running.{Run};

    ghost Value = { Run };

    ghost use Rattle.module_ast.specs.contracts.module.Module as of_module;
    ghost use Rattle.std.specs.Coded.{codes};

    ghost coded = { Prim.hlevel (codes, of_module.the_row.coded) };

    ghost view = { λ a. a.machine };

    ghost invariant = { λ a. IsWithinSteps a.machine a.steps × (a.has_start ≡ is_some a.machine.module.start) };
}

impl<'m, N: Notes> Session<'m, N> {
    /// The run before its first step. (Standard, 4.5.4)
    ///
    /// If there are several reasons for a refusal, the first in this order is the answer: for each call first its
    /// function and then its arguments, then the least size of the memory, that of the table, and the ranges of the
    /// segments.
    pub fn link(
        alloc: Global,
        valid: &'m ValidModule,
        script: &'m Script,
    ) -> Result<Session<'m, N>, LinkFault>
        requires range { IsScriptInRange script.now }
        ensures { OpensSession valid.now script.now result }
    {
        check_links(alloc, valid, script)?;
        let machine = Machine::new(alloc, valid, script)?;
        Ok(Session {
            machine,
            steps: script.steps,
            has_start: valid.module().start.is_some(),
        })
    }

    /// Makes one step, and says what it did: a hook call, with its words, or anything else. `Over` exactly if the run
    /// has ended or the script's steps were made; then nothing changes. (Standard, 4.4)
    ///
    /// `NoMemory`, after which the session is as before, comes only at four steps: an entry of the start or of a call
    /// of the script, a call, a `memory.grow`, and one that leaves the last frame with more than four values.
    pub fn call(&mut self) -> Result<Turn, NoMemory>
        ensures turn { TakesTurn result self.old self.new }
        ensures within { self.new.made ≤ self.new.script.steps }
        ensures err { OnErr result (MayWant (configuration_of self.old)) }
    {
        if self.machine.made() == self.steps {
            return Ok(Turn::Over);
        }
        self.machine.step()
    }

    /// Makes the steps of the script that are left, or fewer if the run ends before. `OutOfSteps` says that the run
    /// goes on then. `NoMemory` comes at the steps at which it comes from `call`, and leaves the session before that
    /// step.
    pub fn run(&mut self) -> Result<Stop, NoMemory>
        ensures ran { RunsFor (self.old.script.steps - self.old.made) result self.old self.new }
        ensures within { self.new.made ≤ self.new.script.steps }
        ensures err { OnErr result (MayWant (configuration_of self.new)) }
    {
        let left = self.steps - self.machine.made();
        self.machine.run(left)
    }

    /// The table, which has no slots if the module has no table. The clause `linked` says that module and script link.
    pub fn table(&self) -> &Table
        ensures slots { result.now ≡ slots_in (configuration_of self.now) }
        ensures linked { IsLinked self.now.module self.now.script }
    {
        self.machine.table()
    }

    /// The note of the last step, as from `Session::note`; `None` if notes are not kept.
    pub fn noted(&self) -> Option<&Note>
        ensures { MatchOption result (N.KEEPS ≡ false) (λ n. IsNoteOf n.now self.now) }
    {
        self.machine.noted()
    }

    // Whether the module has a start function that has not ended.
    fn awaits_start(&self) -> bool
        ensures { result ≡ awaits_start self.now }
    {
        self.has_start && self.machine.start().is_none()
    }

    // What has no answer yet.
    fn pending(&self) -> Pending
        ensures { result ≡ pending_in (configuration_of self.now) }
    {
        if self.machine.over() {
            return Pending::Nothing;
        }
        if self.awaits_start() {
            return Pending::Start;
        }
        Pending::Call
    }

    /// What came of the run so far. `NoMemory` if memory runs out.
    pub fn finish(self) -> Result<Outcome, NoMemory>
        ensures outcome { IfOk result (λ o. told_outcome o ≡ summary (configuration_of self.entry)) }
        ensures within { self.entry.made ≤ self.entry.script.steps }
    {
        let pending = self.pending();
        let pages = self.machine.pages();
        let hosts = self.machine.hosts();
        let (started, answers) = self.machine.into_answers();
        tell(pending, pages, hosts, started, answers)
    }
}

impl Session<'_> {
    /// What the last step entered, and its host call: the entry and the host call that the step added to the trace.
    /// After `run`, those of the last of its steps; before the first step there is neither.
    pub fn note(&self) -> &Note
        ensures { IsNoteOf result.now self.now }
    {
        self.machine.note()
    }
}

// What came of a run in which this has no answer yet.
fn tell(
    pending: Pending,
    pages: u32,
    hosts: u64,
    started: Option<Answer>,
    answers: Vec<Answer>,
) -> Result<Outcome, NoMemory>
    ensures { IfOk result (λ o. told_outcome o ≡ pending_summary pending pages hosts started answers.items) }
{
    let mut calls = answers;
    let start = match pending {
        Pending::Nothing => started,
        Pending::Start => Some(Answer::Unfinished),
        Pending::Call => {
            calls.push(Answer::Unfinished)?;
            started
        }
    };
    Ok(Outcome {
        start,
        calls: Seq::from_vec(calls),
        pages,
        hosts,
        running: pending != Pending::Nothing,
    })
}
