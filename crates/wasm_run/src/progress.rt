// How far the start function and the calls of a script have come.

ghost use Rattle.std.specs.Prelude.{◌≡◌, ◌≤◌, [], length, Some};
ghost use Rattle.wasm_sem.specs.Types.{Module as valid_module};
ghost use Rattle.wasm_sem.specs.declared.Answer.{Answer as answer};
ghost use Rattle.wasm_sem.specs.Execution.{Instance, call_from, after_start};
ghost use Rattle.run_stack.specs.Below.{IsAnswerOf};
ghost use Rattle.wasm_run.specs.Progress.{IsStage, AwaitsAnswer, MovesOn};

use run_stack::Stack;
use std::alloc::Global;
use wasm_sem::{Answer, Trap};

/// What runs, or is entered next: the start function, by its index, or a call of the script, by its number from 0.
#[derive(Clone, Copy)]
pub(crate) enum Stage {
    Start(u32),
    Call(usize),
    Over,
}

/// What runs or is entered next, and the answers so far.
#[derive(Drop)]
pub(crate) struct Progress {
    pub stage: Stage,
    pub started: Option<Answer>,
    pub answers: Vec<Answer>,
}

/// The stage of the call with this number, if there are more than `number` calls. (Standard, 4.5.5)
pub(crate) fn call_from(number: usize, calls: usize) -> Stage
    ensures { (m : valid_module) (inst : Instance) → length inst.calls ≡ calls → IsStage m result (call_from inst number) }
{
    if number < calls {
        Stage::Call(number)
    } else {
        Stage::Over
    }
}

// The stage after the start function answered. A trap ends the run. (Standard, 4.5.5)
fn after_start(answer: &Answer, calls: usize) -> Stage
    ensures { (m : valid_module) (inst : Instance) → length inst.calls ≡ calls → IsStage m result (after_start inst answer.now) }
{
    match answer {
        Answer::Returned(_) => call_from(0, calls),
        Answer::Trapped(_) => Stage::Over,
        Answer::Unfinished => Stage::Over,
    }
}

impl Progress {
    /// Ends what ran with this answer, for which there is room, and finds what comes next among `calls` calls. It is a
    /// function of its own, so that a step that goes on need not clear room for an answer.
    #[cold]
    #[inline(never)]
    pub fn end(&mut self, answer: Answer, calls: usize)
        requires { AwaitsAnswer calls self.old }
        ensures { MovesOn calls (Some answer) self.old self.new }
    {
        match self.stage {
            Stage::Start(_) => {
                self.stage = after_start(&answer, calls);
                self.started = Some(answer);
            }
            Stage::Call(number) => {
                self.stage = call_from(number + 1, calls);
                self.answers.push_reserved(answer);
            }
            Stage::Over => {}
        }
    }

    /// Ends what ran with a trap.
    #[cold]
    #[inline(never)]
    pub fn trapped(&mut self, trap: Trap, calls: usize)
        requires { AwaitsAnswer calls self.old }
        ensures { MovesOn calls (Some (Answer.Trapped trap)) self.old self.new }
    {
        self.end(Answer::Trapped(trap), calls);
    }

    /// Ends what ran with the values that the last frame left, at most four.
    #[cold]
    #[inline(never)]
    pub fn returned(&mut self, stack: &Stack, alloc: Global, calls: usize)
        requires awaits { AwaitsAnswer calls self.old }
        requires left { stack.now.bases ≡ [] }
        requires few { length stack.now.values ≤ 4 }
        ensures { (a : answer) × IsAnswerOf (Some a) stack.now × MovesOn calls (Some a) self.old self.new }
    {
        self.end(stack.answer(alloc), calls);
    }
}
