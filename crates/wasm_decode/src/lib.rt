// The decoder of whole modules.
#![tactic(auto)]

ghost use Rattle.std.specs.Prelude.{◌≡◌, ◌≤◌, ℕ, length, IfOk, IsErrOf};
ghost use Rattle.module_ast.specs.Binary.{IsFault, IsWithin, Gram, FileFloats, FileExceeds};
ghost use Rattle.module_ast.specs.Validation.{IsWhole, deepest, longest_file};
ghost use Rattle.module_ast.specs.declared.module.Which.{Which};
ghost use Rattle.wasm_decode.specs.declared.fault.DecodeFault.{DecodeFault};

mod bodies;
mod codes;
mod draft;
mod fault;
mod files;
pub mod laws;
mod limits;
mod names;
mod part;
mod sections;
mod settle;
mod types;

pub use crate::fault::DecodeFault;
use crate::files::{behind_header, read_sections};
use crate::settle::settle;
use leb_binary::Cursor;
use module_ast::module::{Limits, Module};
use std::alloc::Global;

/// The module that is these bytes (5.5.15), at most 268,435,456 of them.
///
/// `limits` are the limits of the counted quantities, with a nesting of at most 1,002. Takes time linear in the bytes,
/// and reserves no memory by a number that they state. The module is whole: it has a body for each function, and can be
/// written again. `DecodeFault` says when each error comes.
pub fn decode(alloc: Global, bytes: &[u8], limits: &Limits) -> Result<Module, DecodeFault>
    requires short { length bytes.now ≤ longest_file }
    requires nesting { limits.now.nesting ≤ deepest }
    ensures ok { IfOk result (λ m. Gram bytes.now m × IsWithin limits.now m) }
    ensures whole { IfOk result (λ m. IsWhole m) }
    ensures malformed { (n : ℕ) → IsErrOf result (DecodeFault.Malformed n) → IsFault bytes.now n }
    ensures float { (n : ℕ) → IsErrOf result (DecodeFault.Float n) → FileFloats bytes.now n }
    ensures limit { (which : Which) (value : ℕ) → IsErrOf result (DecodeFault.Limit which value) → FileExceeds limits.now bytes.now which value }
{
    let Some(rest) = behind_header(bytes) else {
        return Err(DecodeFault::Malformed { section: 256 });
    };
    let mut cursor = Cursor::new(rest);
    let draft = read_sections(alloc, &mut cursor, limits.nesting)?;
    if draft.funcs.count != draft.bodies.count {
        return Err(DecodeFault::Malformed { section: 257 });
    }
    settle(draft, limits)
}
