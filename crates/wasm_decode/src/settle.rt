// The module, or its refusal, from what was read.

ghost use Rattle.std.specs.Prelude.{◌≡◌, ◌≤◌, ℕ, MatchOption, IfOk, IsErrOf};
ghost use Rattle.module_ast.specs.Binary.Grammar as grammar;
ghost use Rattle.module_ast.specs.Binary.{Kind, id_of, FloatsFirstIn, IsFirstExceeded, IsWithin, limited_counts, tree_of};
ghost use Rattle.module_ast.specs.declared.module.Which.{Which};
ghost use Rattle.module_ast.specs.declared.module.Which.TheVariants.{Nesting};
ghost use Rattle.module_ast.specs.declared.module.Module.{Module};
ghost use Rattle.wasm_decode.specs.Counts.{AreFew};
ghost use Rattle.wasm_decode.specs.Drafts.{IsDraft};
ghost use Rattle.wasm_decode.specs.Forms.{first_above};
ghost use Rattle.wasm_decode.specs.Settled.{FloatsNowhere, module_in, without_deep, or_else, deep_in};

use crate::draft::Draft;
use crate::fault::DecodeFault;
use crate::limits::first_exceeded;
use module_ast::module::{Limits, Module, Which};
use module_ast::seq::Seq;

// The id of the first section that has a floating-point type or instruction.
fn first_float(draft: &Draft) -> Option<u16>
    ensures { (bound : ℕ) (m : grammar.ModuleNode) → IsDraft bound draft.now m → MatchOption result (FloatsNowhere draft.now) (λ id. (kind : Kind) × FloatsFirstIn m kind × (id ≡ id_of kind)) }
{
    if draft.types.floats {
        return Some(1);
    }
    if draft.imports.floats {
        return Some(2);
    }
    if draft.globals.floats {
        return Some(6);
    }
    if draft.elements.floats {
        return Some(9);
    }
    if draft.bodies.floats {
        return Some(10);
    }
    if draft.segments.floats {
        return Some(11);
    }
    None
}

fn or(first: Option<u32>, second: Option<u32>) -> Option<u32>
    ensures { result ≡ or_else first second }
{
    match first {
        Some(found) => Some(found),
        None => second,
    }
}

// The first nesting above the bound, in the order of the sections.
fn deep(draft: &Draft) -> Option<u32>
    ensures { result ≡ deep_in draft.now }
{
    or(
        draft.globals.deep,
        or(
            draft.elements.deep,
            or(draft.bodies.deep, draft.segments.deep),
        ),
    )
}

fn into_module(draft: Draft) -> Module
    ensures { result ≡ module_in draft }
{
    Module {
        types: Seq::from_vec(draft.types.items),
        imports: Seq::from_vec(draft.imports.items),
        funcs: Seq::from_vec(draft.funcs.items),
        tables: Seq::from_vec(draft.tables.items),
        memories: Seq::from_vec(draft.memories.items),
        globals: Seq::from_vec(draft.globals.items),
        exports: Seq::from_vec(draft.exports.items),
        start: draft.start,
        elements: Seq::from_vec(draft.elements.items),
        bodies: Seq::from_vec(draft.bodies.items),
        segments: Seq::from_vec(draft.segments.items),
        customs: Seq::from_vec(draft.customs),
    }
}

// The module if it is within the limits. `kept` is the module without the code that nests too deep, and `deep` is the
// first nesting of such code.
fn within(kept: Module, deep: Option<u32>, limits: &Limits) -> Result<Module, DecodeFault>
    requires few { AreFew kept.bodies }
    ensures ok { IfOk result (λ r. (m : Module) → kept ≡ without_deep limits.now.nesting m → deep ≡ first_above limits.now.nesting (limited_counts m Nesting) → (r ≡ m) × IsWithin limits.now m) }
    ensures malformed { (n : ℕ) → IsErrOf result (DecodeFault.Malformed n) → ⊥ }
    ensures float { (n : ℕ) → IsErrOf result (DecodeFault.Float n) → ⊥ }
    ensures limit { (w : Which) (v : ℕ) → IsErrOf result (DecodeFault.Limit w v) → (m : Module) → kept ≡ without_deep limits.now.nesting m → deep ≡ first_above limits.now.nesting (limited_counts m Nesting) → IsFirstExceeded limits.now m w v }
{
    if let Some((which, value)) = first_exceeded(&kept, limits) {
        return Err(DecodeFault::Limit { which, value });
    }
    if let Some(found) = deep {
        let value = found as u64;
        return Err(DecodeFault::Limit {
            which: Which::Nesting,
            value,
        });
    }
    Ok(kept)
}

/// The module that was read, or the first fault: floating-point first, then the limits.
pub fn settle(draft: Draft, limits: &Limits) -> Result<Module, DecodeFault>
    requires drafted { (g : grammar.ModuleNode) × IsDraft limits.now.nesting draft g }
    ensures ok { IfOk result (λ m. (g : grammar.ModuleNode) → IsDraft limits.now.nesting draft g → (tree_of m ≡ g) × IsWithin limits.now m) }
    ensures malformed { (n : ℕ) → IsErrOf result (DecodeFault.Malformed n) → ⊥ }
    ensures float { (n : ℕ) → IsErrOf result (DecodeFault.Float n) → (g : grammar.ModuleNode) → IsDraft limits.now.nesting draft g → (kind : Kind) × FloatsFirstIn g kind × (n ≡ id_of kind) }
    ensures limit { (w : Which) (v : ℕ) → IsErrOf result (DecodeFault.Limit w v) → (g : grammar.ModuleNode) → IsDraft limits.now.nesting draft g → (m : Module) × (tree_of m ≡ g) × IsFirstExceeded limits.now m w v }
{
    if let Some(section) = first_float(&draft) {
        return Err(DecodeFault::Float { section });
    }
    let deep = deep(&draft);
    let kept = into_module(draft);
    within(kept, deep, limits)
}
