// What a module is run with: the information on its original and a script.

ghost use Rattle.std.specs.Prelude.{IfErr, IfOk};
ghost use Rattle.wasm_sem.specs.Execution.{IsScriptInRange};
ghost use Rattle.static_info.specs.Belongs.{Belongs};
ghost use Rattle.static_info.specs.Form.{IsWellFormed};
ghost use Rattle.wasabi_app.specs.ToldRuns.{IsNotLed, LeadsOn};

use app_load::{Refusal, load_info, load_script};
use outside_io::Shelf;
use static_info::Info;
use std::alloc::Global;
use wasm_sem::Script;
use wasm_valid::ValidModule;

/// The information on the original of a subject, and the script by which the subject is run.
#[derive(Drop)]
pub(crate) struct ToldRun {
    /// The information on the original, which belongs to the subject.
    pub(crate) info: Info,
    /// The script, with its numbers in range.
    pub(crate) script: Script,
}

/// Reads the information on the original of a module, and then the script. No name of the shelf is changed.
///
/// An `Err` comes if one of the two could not be read or is malformed, if the information does not belong to the
/// module, or if memory runs out.
pub(crate) fn load_run<S: Shelf>(
    alloc: Global,
    info_name: &str,
    script_name: &str,
    m: &ValidModule,
    shelf: &mut S,
) -> Result<ToldRun, Refusal>
    ensures led { IfOk result (λ run. LeadsOn info_name.now script_name.now m.now (S.seen shelf.old) (S.seen shelf.new) run.info run.script) }
    ensures range { IfOk result (λ run. IsScriptInRange run.script) }
    ensures formed { IfOk result (λ run. IsWellFormed run.info) }
    ensures belongs { IfOk result (λ run. Belongs run.info m.now) }
    ensures refused { IfErr result (IsNotLed info_name.now script_name.now m.now (S.seen shelf.old) (S.seen shelf.new)) }
{
    let info = load_info(alloc, info_name, m, shelf)?;
    let script = load_script(alloc, script_name, shelf)?;
    Ok(ToldRun { info, script })
}
