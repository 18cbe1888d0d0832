// A run whose hook calls are silent.

ghost use Rattle.std.specs.Prelude.{◌≡◌, ◌≤◌, Decides, IfErr, IfOk};
ghost use Rattle.wasm_sem.specs.Execution.{summary_of, IsScriptInRange, Links, link};
ghost use Rattle.run_session.specs.Linking.{TellsRefusal};
ghost use Rattle.run_session.specs.Sessions.{told_outcome};

use run_session::{LinkFault, Outcome, Session};
use std::alloc::Global;
use wasm_num::NoMemory;
use wasm_run::Quiet;
use wasm_sem::{Script, Turn};
use wasm_valid::ValidModule;

/// Links a module with a script, runs the module until the run ends or the script's steps were made, and gives the
/// outcome. An `Err` says why the module and the script do not link, or that memory ran out.
pub fn run_script(alloc: Global, m: &ValidModule, script: &Script) -> Result<Outcome, LinkFault>
    requires range { IsScriptInRange script.now }
    ensures links { IfOk result (λ o. Links m.now script.now) }
    ensures ended { IfOk result (λ o. told_outcome o ≡ summary_of m.now script.now script.now.steps) }
    ensures refused { IfErr result (λ fault. TellsRefusal fault (link m.now script.now)) }
{
    let session = Session::link(alloc, m, script)?;
    match finish(session) {
        Ok(outcome) => Ok(outcome),
        Err(_) => Err(LinkFault::NoMemory),
    }
}

// Runs until the run ends or the script's steps were made. Calls of hooks are silent, and their words are not made.
fn finish(mut session: Session<'_, Quiet>) -> Result<Outcome, NoMemory>
    requires { session.made ≤ session.script.steps }
    ensures { IfOk result (λ o. told_outcome o ≡ summary_of session.entry.module session.entry.script session.entry.script.steps) }
{
    session.run()?;
    session.finish()
}

/// Whether no step was made, because the run is over or the script's steps were made.
pub(crate) fn is_over(turn: &Turn) -> bool
    ensures { Decides result (turn.now ≡ Turn.Over) }
{
    matches!(turn, Turn::Over)
}
