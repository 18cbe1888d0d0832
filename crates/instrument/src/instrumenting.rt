// Makes the module with hooks.

ghost use Rattle.std.specs.Prelude.{◌≡◌, ◌<◌, ◌≤◌, ℕ, List, length, IfOk, IsErrOf, OnOk};
ghost use Rattle.module_ast.specs.Binary.{module_bytes, Gram, IsWithin};
ghost use Rattle.module_ast.specs.Validation.{narrow, longest_file, longest_narrow_file};
ghost use Rattle.wasm_sem.specs.Execution.{IsFree};
ghost use Rattle.hook_select.specs.Selections.{everywhere};
ghost use Rattle.instrument.specs.Output.{output_bytes};
ghost use Rattle.instrument.specs.Made.{IsMade, IsBare};
ghost use Rattle.instrument.specs.Accepted.{IsInstrumented};
ghost use Rattle.instrument.specs.declared.instrumenting.InstrumentFault.TheVariants.{HookModuleTaken, TooLarge, NoMemory};

use crate::free::is_free;
use crate::plan::HookPlan;
use hook_select::{Hooks, Selection};
use par_phase::Jobs;
use rewrite::Rewriter;
use static_info::Info;
use std::alloc::{AllocError, Global};
use std::thread::Threads;
use wasm_encode::EncodeFault;
use wasm_valid::ValidModule;

/// A module with hooks: its canonical bytes, and the information that its hook calls are read with.
#[derive(Drop)]
pub struct Made {
    pub bytes: Vec<u8>,
    pub info: Info,
}

/// Why a module gets no hooks.
#[derive(Clone, Copy, Debug, PartialEq, Eq)]
pub enum InstrumentFault {
    /// An import names the module that hooks are imported from.
    HookModuleTaken,
    /// The module with hooks has `length` bytes, which is more than is allowed.
    TooLarge { length: u64 },
    /// Memory ran out.
    NoMemory,
}

impl From<AllocError> for InstrumentFault {
    ghost from_gives = { λ _ e. e ≡ NoMemory };

    fn from(_e: AllocError) -> InstrumentFault {
        InstrumentFault::NoMemory
    }
}

/// The module with the selected hooks. The rewriter makes each of its bodies. Its bytes are a valid module that
/// under every script does what the original does. Its hook calls, read with the information, are the original's events that
/// are selected.
///
/// - `HookModuleTaken` exactly if an import of any kind names the module that hooks are imported from.
/// - Otherwise `TooLarge` if there are more than `max` bytes. This is known before any body is made.
/// - `NoMemory` if memory runs out on the way.
///
/// As many threads as `jobs` says, 1 to 64, go over the bodies, and each takes a part of them: first to find the hooks that
/// they need, then to find their sizes, and then to rewrite them. The bytes and the information do not depend on the number of
/// jobs.
///
/// A thread spells each rewritten body and drops it before it makes the next one. So in addition to the module and the output
/// there are at most one rewritten body for each job, and the bytes of the bodies of one round, which are about 2,097,152 for
/// each job.
pub fn instrument_selected<R: Threads + Sync, W: Rewriter>(
    rt: &R,
    alloc: Global,
    m: &ValidModule,
    hooks: &Selection<'_>,
    jobs: u32,
    max: u64,
    rewriter: &W,
) -> Result<Made, InstrumentFault>
    requires limits { IsWithin narrow m.now }
    requires short { length (module_bytes m.now) ≤ longest_narrow_file }
    requires some { 1 ≤ jobs }
    requires few { jobs ≤ 64 }
    requires most { max ≤ longest_file }
    ensures made { IfOk result (λ made. IsMade m.now hooks.now made.bytes.items made.info) }
    ensures fits { IfOk result (λ made. length made.bytes.items ≤ max) }
    ensures sound { IfOk result (λ made. IsBare m.now hooks.now made.bytes.items) }
    ensures instrumented { IfOk result (λ made. (file : List ℕ) → Gram file m.now → length file ≤ longest_narrow_file → IsInstrumented file hooks.now made.bytes.items) }
    ensures free { OnOk result (IsFree m.now) }
    ensures taken { IsErrOf result HookModuleTaken → ¬ IsFree m.now }
    ensures large { (n : ℕ) → IsErrOf result (TooLarge n) → IsFree m.now × (n ≡ length (output_bytes m.now hooks.now)) × (max < n) }
    ensures memory { IsErrOf result NoMemory → IsFree m.now }
{
    if !is_free(m.module()) {
        return Err(InstrumentFault::HookModuleTaken);
    }
    let jobs = Jobs::new(jobs);
    let plan = HookPlan::new(rt, alloc, m, hooks, jobs)?;
    match plan.write(rt, alloc, rewriter, jobs, max) {
        Ok(bytes) => Ok(Made {
            bytes,
            info: plan.info(alloc)?,
        }),
        Err(EncodeFault::TooLarge { length }) => Err(InstrumentFault::TooLarge { length }),
        Err(EncodeFault::NoMemory) => Err(InstrumentFault::NoMemory),
    }
}

/// The same with the hooks of these groups in all functions.
pub fn instrument<R: Threads + Sync, W: Rewriter>(
    rt: &R,
    alloc: Global,
    m: &ValidModule,
    hooks: Hooks,
    jobs: u32,
    max: u64,
    rewriter: &W,
) -> Result<Made, InstrumentFault>
    requires limits { IsWithin narrow m.now }
    requires short { length (module_bytes m.now) ≤ longest_narrow_file }
    requires some { 1 ≤ jobs }
    requires few { jobs ≤ 64 }
    requires most { max ≤ longest_file }
    ensures made { IfOk result (λ made. IsMade m.now (everywhere hooks) made.bytes.items made.info) }
    ensures fits { IfOk result (λ made. length made.bytes.items ≤ max) }
    ensures sound { IfOk result (λ made. IsBare m.now (everywhere hooks) made.bytes.items) }
    ensures instrumented { IfOk result (λ made. (file : List ℕ) → Gram file m.now → length file ≤ longest_narrow_file → IsInstrumented file (everywhere hooks) made.bytes.items) }
    ensures free { OnOk result (IsFree m.now) }
    ensures taken { IsErrOf result HookModuleTaken → ¬ IsFree m.now }
    ensures large { (n : ℕ) → IsErrOf result (TooLarge n) → IsFree m.now × (n ≡ length (output_bytes m.now (everywhere hooks))) × (max < n) }
    ensures memory { IsErrOf result NoMemory → IsFree m.now }
{
    instrument_selected(
        rt,
        alloc,
        m,
        &Selection::everywhere(hooks),
        jobs,
        max,
        rewriter,
    )
}
